//! The state of a driver between its turns, and the turn.
ghost use Rattle.std.specs.Prelude.{◌≡◌, true, length};
ghost use Rattle.std.specs.Duration.{as_nanos};
ghost use Rattle.bb8_types.specs.Settings.{settings_of, is_lawful};
ghost use Rattle.bb8_tasks.specs.Dues.{driver_due};
ghost use Rattle.bb8_tasks.specs.Replenishing.{TaskPolls};
ghost use Rattle.bb8_tasks.specs.Rounds.{PollsEach};
ghost use Rattle.bb8_tasks.specs.Turns.{is_ended, DriverBegins, DriverTurns, DriverLetsGo};
ghost use Rattle.bb8_tasks.specs.Sweeping.{AtReading};

use super::claims::claim_each;
use crate::{Home, Opener, Tasks, Upkeep};
use bb8_core::api::{Config, Moment};
use std::alloc::Global;
use std::mem;

/// The result of a driver's turn.
#[derive(Clone, Copy, Debug, PartialEq, Eq)]
pub struct Turn {
    /// The number of polled tasks, each polled once. The reaper is not counted.
    pub polled: u64,
    /// Whether the driver has ended because no handle is alive.
    pub ended: bool,
}

/// The state of a driver between its turns. bb8 spawns each task separately.
///
/// It cannot be dropped implicitly: `give_back` ends it, so that its tasks' approvals are given
/// back.
pub enum Turning<C, V, A> {
    /// The work at its ticks, and its tasks in the order in which their approvals were claimed.
    Going(Upkeep, Tasks<C, V, A>),
    /// A claim found no handle alive, and all tasks were cancelled.
    Ended,
}

/// Polls each task once, in the order of their claims, and returns how many there were.
fn poll_tasks<C, V, A, E: Drop, X: Home<C> + Opener<C, E, Connecting = V, Acquiring = A>>(
    tasks: &mut Tasks<C, V, A>,
    at: Moment,
    pool: &mut X,
    config: &Config,
) -> u64
    ensures number { result ≡ length tasks.old }
    ensures each { PollsEach (TaskPolls X.Home X.Opener (as_nanos config.now.connection_timeout)
        config.now.retry_connection at) X.sinks tasks.old pool.old tasks.new pool.new }
{
    let number = tasks.len() as u64;
    tasks.poll_each(at, pool, config);
    number
}

impl<C, V, A> Turning<C, V, A> {
    /// Returns a driver's first state: no task, and ticks that count from the moment `start`. At
    /// them it reaps if `max_lifetime` or `idle_timeout` is set.
    pub fn new(alloc: Global, config: &Config, start: Moment) -> Self
        requires { is_lawful (settings_of config.now) ≡ true }
        ensures { DriverBegins (settings_of config.now) start result }
    {
        Turning::Going(Upkeep::new(config, start), Tasks::new(alloc))
    }

    /// Makes one turn over a home, at a reading `at` of the clock.
    ///
    /// At a tick it first reaps, if an age has a limit, and then asks the home to grant what
    /// waiting gets lack, as nobody else does if their attempts were given up. So a server that was
    /// down is tried again at the next tick, and not directly after a failure. Then it claims
    /// approvals until none is unclaimed. Exception: if memory for a task is refused, no claim is
    /// made, and the approval stays unclaimed. Then it polls each task once, in the order of their
    /// claims, and removes those that have ended; the error of each try that
    /// failed goes to the sink. If a claim finds no handle alive, it polls no task, cancels all of
    /// them, which frees their approvals, and has ended: each later turn calls nothing.
    pub fn turn<E: Drop, X: Home<C> + Opener<C, E, Connecting = V, Acquiring = A>>(
        &mut self,
        at: Moment,
        pool: &mut X,
        config: &Config,
    ) -> Turn
        ensures table { DriverTurns X.Home X.Opener
            (as_nanos config.now.connection_timeout) config.now.retry_connection at self.old
            pool.old result self.new pool.new }
        ensures ended { result.ended ≡ is_ended self.new }
        ensures none { result.ended ≡ true → result.polled ≡ 0 }
        ensures stays { is_ended self.old ≡ true → result.ended ≡ true }
    {
        let Turning::Going(upkeep, tasks) = self else {
            return Turn {
                polled: 0,
                ended: true,
            };
        };
        upkeep.poll(at, pool);
        if claim_each(tasks, at, pool) {
            mem::replace(self, Turning::Ended).give_back(at, pool);
            return Turn {
                polled: 0,
                ended: true,
            };
        }
        Turn {
            polled: poll_tasks(tasks, at, pool, config),
            ended: false,
        }
    }

    /// Returns when the driver next has something to do: at its next tick, or earlier if a task is
    /// due, after its sleep or at once. A moment in the past means at once, None means never.
    pub fn next_due(&self) -> Option<Moment>
        ensures { result ≡ driver_due self.now }
    {
        match self {
            Turning::Going(upkeep, tasks) => tasks.next_due(upkeep.next_due()),
            Turning::Ended => None,
        }
    }

    /// Ends the driver at a clock reading `at`: cancels its tasks in order, and frees the
    /// approval of each that has not ended.
    pub fn give_back<E, X: Home<C> + Opener<C, E, Connecting = V, Acquiring = A>>(
        self,
        at: Moment,
        pool: &mut X,
    )
        ensures { DriverLetsGo X.Home X.Opener at self pool.old pool.new }
    {
        match self {
            Turning::Going(_upkeep, tasks) => tasks.give_back(at, pool),
            Turning::Ended => {}
        }
    }

    /// Reads the clock, and ends the driver as `give_back` does.
    pub fn let_go<E, X: Home<C> + Opener<C, E, Connecting = V, Acquiring = A>>(self, pool: &mut X)
        ensures { AtReading X.reports
            (λ at. DriverLetsGo X.Home X.Opener at self) pool.old pool.new }
    {
        let at = pool.now();
        self.give_back(at, pool);
    }
}
