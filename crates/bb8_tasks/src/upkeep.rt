//! The work of a driver at its ticks.
ghost use Rattle.std.specs.Prelude.{◌≡◌, true};
ghost use Rattle.bb8_types.specs.Settings.{settings_of, is_lawful};
ghost use Rattle.bb8_tasks.specs.Dues.{tick_due};
ghost use Rattle.bb8_tasks.specs.Upkeep.{AsksAfter, AsksAtTick, IsFresh, KeepsUp};

use crate::{Home, Reaper, ReaperAnswer, Ticks};
use bb8_core::api::{Config, Moment};

/// The work of a driver at its ticks.
#[derive(Clone, Copy, Debug)]
pub enum Upkeep {
    /// Reaps, since `max_lifetime` or `idle_timeout` is set, and asks for waiters.
    Reaping(Reaper),
    /// Only asks for waiters, since neither is set.
    Asking(Ticks),
    /// No ticks, since neither is set and `reaper_rate` is zero.
    Never,
}

/// After a reap asks for approvals for waiters whose connection attempts were given up.
fn ask_after<C, H: Home<C>>(answer: ReaperAnswer, at: Moment, home: &mut H)
    ensures { AsksAfter H.Home at answer home.old home.new }
{
    match answer {
        ReaperAnswer::Reaped { .. } => {
            let _ = home.ask(at);
        }
        ReaperAnswer::Idle | ReaperAnswer::Ended => {}
    }
}

/// At a tick asks for those waiters, without a reap.
fn ask_at_tick<C, H: Home<C>>(ticks: &mut Ticks, at: Moment, home: &mut H)
    ensures { AsksAtTick H.Home at ticks.old home.old ticks.new home.new }
{
    if ticks.is_due(at) {
        let _ = home.ask(at);
        ticks.pass(at);
    }
}

impl Upkeep {
    /// Returns the work for a pool with these settings. Its ticks count from the moment `start`.
    pub fn new(config: &Config, start: Moment) -> Self
        requires { is_lawful (settings_of config.now) ≡ true }
        ensures { IsFresh (settings_of config.now) start result }
    {
        if config.max_lifetime.is_some() || config.idle_timeout.is_some() {
            Upkeep::Reaping(Reaper::new(start, config.reaper_rate))
        } else if config.reaper_rate.is_zero() {
            Upkeep::Never
        } else {
            Upkeep::Asking(Ticks::new(start, config.reaper_rate))
        }
    }

    /// Polls the reaper once and asks after a reap; without a reaper, asks if a tick is due.
    pub fn poll<C, H: Home<C>>(&mut self, at: Moment, home: &mut H)
        ensures { KeepsUp H.Home at self.old home.old self.new home.new }
    {
        match self {
            Upkeep::Reaping(reaper) => {
                let answer = reaper.poll(at, home);
                ask_after(answer, at, home);
            }
            Upkeep::Asking(ticks) => ask_at_tick(ticks, at, home),
            Upkeep::Never => {}
        }
    }

    /// Returns the next tick. None is never.
    pub fn next_due(&self) -> Option<Moment>
        ensures { result ≡ tick_due self.now }
    {
        match self {
            Upkeep::Reaping(reaper) => reaper.next_due(),
            Upkeep::Asking(ticks) => ticks.next_due(),
            Upkeep::Never => None,
        }
    }
}
