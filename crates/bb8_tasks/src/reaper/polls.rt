//! The polls of a reaper.
ghost use Rattle.std.specs.Prelude.{◌≡◌, ◌<◌, false};
ghost use Rattle.std.specs.Duration.{as_nanos};
ghost use Rattle.bb8_tasks.specs.Reaping.{Reaps, ReaperProceeds, ReaperPolls};
ghost use Rattle.bb8_tasks.specs.Ticks.{AreFrom};

use super::{Reaper, ReaperAnswer};
use crate::Ticks;
use crate::home::Home;
use bb8_core::api::Moment;
use bb8_core::internals::ReapAnswer;
use std::time::Duration;

impl Reaper {
    /// Returns a reaper whose ticks count from the moment `start`, at this rate.
    pub fn new(start: Moment, rate: Duration) -> Self
        requires { 0 < as_nanos rate }
        ensures ticks { AreFrom start (as_nanos rate) result.ticks }
        ensures latest { result.latest.0 ≡ 0 }
        ensures ended { result.ended ≡ false }
    {
        Reaper {
            ticks: Ticks::new(start, rate),
            latest: Moment(0),
            ended: false,
        }
    }

    /// Returns the next tick; None (never) if it exceeds the greatest moment.
    pub fn next_due(&self) -> Option<Moment>
        ensures { result ≡ self.now.ticks.due }
    {
        self.ticks.next_due()
    }

    /// Polls the reaper once over a home, at a clock reading `at`.
    ///
    /// It looks at the home first, and reaps once if a tick is due, however many were missed. If it
    /// finds no handle alive, it returns `Ended`, and then each poll returns `Ended` and makes no
    /// call.
    pub fn poll<C, H: Home<C>>(&mut self, at: Moment, home: &mut H) -> ReaperAnswer
        ensures { ReaperPolls H.Home at self.old home.old result self.new home.new }
    {
        if self.ended {
            return ReaperAnswer::Ended;
        }
        let seen = home.look(at);
        let moment = Moment(seen.moment.0.max(self.latest.0));
        self.latest = moment;
        self.proceed(home, moment, seen.alive)
    }

    /// Makes the poll after its look at the home.
    fn proceed<C, H: Home<C>>(&mut self, home: &mut H, moment: Moment, alive: bool) -> ReaperAnswer
        ensures row { ReaperProceeds H.Home alive moment self.old home.old
            result self.new home.new }
        ensures latest { self.new.latest ≡ self.old.latest }
    {
        if !alive {
            self.ended = true;
            return ReaperAnswer::Ended;
        }
        if !self.ticks.is_due(moment) {
            return ReaperAnswer::Idle;
        }
        self.reap(home, moment)
    }

    /// Reaps at a due tick.
    fn reap<C, H: Home<C>>(&mut self, home: &mut H, moment: Moment) -> ReaperAnswer
        ensures row { Reaps H.Home moment self.old home.old result self.new home.new }
        ensures latest { self.new.latest ≡ self.old.latest }
    {
        match home.reap(moment) {
            ReapAnswer::Reaped {
                closed,
                by_idle,
                by_life,
                grant,
            } => {
                self.ticks.pass(moment);
                ReaperAnswer::Reaped {
                    closed,
                    by_idle,
                    by_life,
                    grant,
                }
            }
            ReapAnswer::Ended => {
                self.ended = true;
                ReaperAnswer::Ended
            }
        }
    }
}
