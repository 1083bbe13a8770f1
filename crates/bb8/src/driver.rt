//! The driver of a pool, and a thread that runs it.
ghost use Rattle.std.specs.Prelude.{◌≡◌, ℕ, ⊤, Bool, true, IfOk};
ghost use Rattle.std.specs.Arc.{arc_value};
ghost use Rattle.std.specs.Duration.{as_nanos};
ghost use Rattle.bb8.specs.Drivers.{driver_rest, has_ended, IsDriverOf, RestsBriefly, RestsUntil, Runs, SleepsOnce, TurnsOnce};

use crate::jobs::{Job, NoThread, start};
use crate::pool::Pool;
use bb8_core::api::{
    Clock, Config, CustomizeConnection, ErrorSink, ManageConnection, Memory, Moment,
};
use bb8_lock::{OpensScope, Permits, PoolPermits, PoolTypes, Rests, Shared, Sleeper, TypesOf};
pub use bb8_tasks::Turn;
use bb8_tasks::{Home, Opener, Turning};
use std::alloc::Global;
use std::sync::{Arc, Wait};
use std::thread::{JoinHandle, Threads};
use std::time::Duration;

/// Makes a pool's approved connection attempts, and reaps connections that exceed `idle_timeout` or
/// `max_lifetime`, in its turns. bb8 spawns a task for each attempt, and one that reaps.
///
/// A driver holds no handle of its pool, and a pool may have several drivers. Call its turns
/// (`turn`), or move it to a thread (`drive`). Its ticks are a `reaper_rate` apart, and count from
/// the moment at which the pool was made. It reaps at them if `max_lifetime` or `idle_timeout` is
/// set.
///
/// When it is dropped, it reads the pool's clock and frees the approvals of its tasks under the
/// pool's lock, for which it may wait.
pub struct Driver<G: PoolTypes, L: Permits> {
    shared: Arc<Shared<G, L>, Global>,
    turning: Turning<G::Connection, G::Connecting, G::Acquiring>,
}

/// Decides, between two turns of a driver, whether it goes on.
pub trait Gate {
    // Holds of a gate, the result of a pause, and the gate after it.
    ghost pauses: { Self → Bool → Self → Type 0 } = { λ _ _ _. ⊤ };

    /// Waits as long as it likes, and returns whether to make another turn.
    fn pause(&mut self) -> bool
        ensures { pauses self.old result self.new };

    /// Returns how long the thread may then sleep if nothing wakes it; 50 milliseconds by default.
    /// Return less if the pool's clock is not the machine's, or runs at another speed.
    fn longest(&self) -> Duration {
        Duration::from_millis(50)
    }
}

/// The result of a run of turns.
#[derive(Clone, Copy, Debug, PartialEq, Eq)]
pub struct Driven {
    /// The number of turns; it saturates.
    pub turns: u64,
    /// Whether the last turn ended because no handle of the pool was alive.
    pub ended: bool,
}

impl<G: PoolTypes<Runtime: Wait + AllocGlobal>, L: Permits> Driver<G, L> {
    /// Returns a driver of the pool that has made no turn yet. It returns `Memory` only if memory
    /// for sharing the pool was refused.
    pub fn new(pool: &Pool<G, L>) -> Result<Self, Memory>
        ensures { IfOk result (λ driver. IsDriverOf driver pool.now) }
    {
        let shared = Arc::try_clone(&pool.shared)?;
        let turning = Turning::new(shared.rt.alloc(), &shared.config, shared.made);
        Ok(Driver { shared, turning })
    }
}

/// The shortest sleep of a driver's thread in nanoseconds, unless its gate asks for less.
const SHORTEST_REST: u64 = 1_000_000;

/// Returns how long a driver's thread may sleep after a turn at a moment: until something is due,
/// and at most `longest`. It is a millisecond if that is in the past, as for each pending
/// connection attempt.
pub(crate) fn rest(due: Option<Moment>, at: Moment, longest: Duration) -> Duration
    ensures { as_nanos result ≡ driver_rest due at.0 (as_nanos longest) }
{
    let Some(due) = due else {
        return longest;
    };
    let left = due.0.saturating_sub(at.0).max(SHORTEST_REST);
    if (left as u128) < longest.as_nanos() {
        Duration::from_nanos(left)
    } else {
        longest
    }
}

/// Sleeps until the next signal for drivers, no longer than until something is due: a millisecond
/// if it is overdue, and 50 milliseconds at most.
pub(crate) fn rest_until<C, E, X: Opener<C, E> + Rests>(pool: &mut X, due: Option<Moment>)
    ensures until { RestsUntil X.Opener X.Rests due pool.old pool.new }
    ensures brief { RestsBriefly X.Opener X.Rests pool.old pool.new }
{
    let signals = pool.signals(Sleeper::Driver);
    let at = pool.now();
    pool.sleep(
        Sleeper::Driver,
        signals,
        rest(due, at, Duration::from_millis(50)),
    );
}

/// The turns of a driver.
pub trait DriverCalls {
    /// Makes one turn at a moment, in nanoseconds of the pool's clock. It may wait for the pool's
    /// lock at each step.
    ///
    /// 1. At a tick it reaps, if an age has a limit. Then approvals are granted for waiters whose
    /// connection attempts were given up.
    ///
    /// 2. It claims the pool's approvals in the order of their numbers, until none is unclaimed or
    /// memory for another task is refused; then that approval stays unclaimed.
    ///
    /// 3. It polls the attempt of each approval that it holds once, in the order of the claims, and
    /// removes those that end. The error of each failed try goes to the error sink. If an attempt
    /// opens a connection that was retired meanwhile, the connection is dropped, and approvals are
    /// granted for waiters, which the next turn claims.
    ///
    /// If a claim finds no handle alive, it polls none, drops its attempts, frees all approvals and
    /// has ended, as in each later turn.
    fn turn(&mut self, moment: Moment) -> Turn;

    /// Reads the pool's clock, and makes one turn at that moment.
    fn turn_now(&mut self) -> Turn;

    /// Returns when a turn next has something to do, as far as the driver knows: at its next tick,
    /// or earlier if an attempt is due, after its sleep or at once (a moment in the past). None is
    /// never. It does not look for approvals granted since the last turn, nor whether a handle is
    /// alive.
    fn next_due(&self) -> Option<Moment>;
}

impl<G: PoolTypes<Runtime: Wait>, L: Permits> DriverCalls for Driver<G, L> {
    ghost use Rattle.bb8_tasks.specs.Dues.{driver_due};
    ghost use Rattle.bb8.specs.Drivers.{TurnsDriver, TurnsDriverNow};

    fn turn(&mut self, moment: Moment) -> Turn
        ensures table { TurnsDriver moment self.old result self.new }
        ensures ended { result.ended ≡ has_ended self.new }
        ensures none { result.ended ≡ true → result.polled ≡ 0 }
        ensures stays { has_ended self.old ≡ true → result.ended ≡ true }
    {
        let pool = &*self.shared;
        self.turning.turn(moment, &mut pool.scope(), &pool.config)
    }

    fn turn_now(&mut self) -> Turn
        ensures table { TurnsDriverNow self.old result self.new }
        ensures ended { result.ended ≡ has_ended self.new }
        ensures none { result.ended ≡ true → result.polled ≡ 0 }
        ensures stays { has_ended self.old ≡ true → result.ended ≡ true }
    {
        let moment = self.shared.clock.now();
        self.turn(moment)
    }

    fn next_due(&self) -> Option<Moment>
        ensures { result ≡ driver_due self.now.turning }
    {
        self.turning.next_due()
    }
}

impl<G: PoolTypes<Runtime: Wait>, L: Permits> Driver<G, L> {
    ghost use Rattle.bb8.specs.Drivers.{RunsDriver};

    /// Makes turns, each at a reading of the pool's clock, until one has ended or the gate, asked
    /// after each other turn, stops it. Before the next turn the thread sleeps until an approval is
    /// granted, no handle is alive, or something is due, and at most as long as the gate allows; if
    /// an attempt is pending, a millisecond. Then the driver is dropped.
    pub fn run<P: Gate + Drop>(self, gate: P) -> Driven
        ensures { RunsDriver P.pauses self gate result }
    {
        let mut driver = self;
        let mut gate = gate;
        driver.run_turns(&mut gate)
    }
}

/// Makes turns, each at a clock reading, until one has ended or the gate stops it. Between two
/// turns the thread sleeps until the drivers' signal is notified, or something is due.
fn run<
    C,
    V,
    A,
    E: Drop,
    X: Home<C> + Opener<C, E, Connecting = V, Acquiring = A> + Rests,
    R: Wait,
    P: Gate,
>(pool: &mut X, rt: &R, config: &Config, turning: &mut Turning<C, V, A>, gate: &mut P) -> Driven
    ensures { Runs (TurnsOnce X.Home X.Opener X.Rests
        (as_nanos config.now.connection_timeout) config.now.retry_connection)
        P.pauses (SleepsOnce X.Rests) (turning.old, pool.old) gate.old 0 result
        (turning.new, pool.new) }
{
    let mut turns: u64 = 0;
    for _ in rt.forever() {
        let signals = pool.signals(Sleeper::Driver);
        let at = pool.now();
        let turn = turning.turn(at, pool, config);
        turns = turns.saturating_add(1);
        if turn.ended {
            return Driven { turns, ended: true };
        }
        if !gate.pause() {
            return Driven {
                turns,
                ended: false,
            };
        }
        let most = rest(turning.next_due(), at, gate.longest());
        pool.sleep(Sleeper::Driver, signals, most);
    }
    unreachable!()
}

/// Runs a driver's turns. (A trait because of *trait-for-threads*.)
trait RunsTurns {
    /// Makes turns until one has ended or the gate does not pause.
    fn run_turns<P: Gate>(&mut self, gate: &mut P) -> Driven;
}

impl<G: PoolTypes<Runtime: Wait>, L: Permits> RunsTurns for Driver<G, L> {
    ghost use Rattle.bb8.specs.Drivers.{RunsDriver};

    fn run_turns<P: Gate>(&mut self, gate: &mut P) -> Driven
        ensures { RunsDriver P.pauses self.old gate.old result }
    {
        let pool = &*self.shared;
        run(
            &mut pool.scope(),
            &pool.rt,
            &pool.config,
            &mut self.turning,
            gate,
        )
    }
}

impl<G: PoolTypes, L: Permits> Drop for Driver<G, L> {
    ghost use Rattle.bb8_lock.specs.Turning.{OwnDropsTurning};

    fn drop(self)
        ensures { OwnDropsTurning (arc_value self.shared) self.turning }
    {
        let Driver { shared, turning } = self;
        let pool = &*shared;
        turning.let_go(&mut pool.scope());
    }
}

/// A driver with its gate.
#[derive(Drop)]
struct Gated<D, P> {
    driver: D,
    gate: P,
}

impl<D: RunsTurns + Drop, P: Gate + Drop> Job for Gated<D, P> {
    type Output = Driven;

    fn run(self, _thread: usize) -> Driven {
        let Gated {
            mut driver,
            mut gate,
        } = self;
        driver.run_turns(&mut gate)
    }
}

/// Runs a driver in its own thread, as `Driver::run` does. If no thread can be started, the driver
/// is dropped. The pool's own runtime needs no threads.
pub fn drive<
    M: ManageConnection,
    S: ErrorSink<M::Error>,
    Z: CustomizeConnection<M::Connection, M::Error>,
    K: Clock,
    R: Wait + Send + Sync + Drop + 'static,
    L: PoolPermits + 'static,
    P: Gate + Send + Drop + 'static,
>(
    threads: &impl Threads,
    driver: Driver<TypesOf<M, S, Z, K, R>, L>,
    gate: P,
) -> Result<JoinHandle<Driven>, NoThread> {
    start(threads, 0, Gated { driver, gate })
}
