//! The state of a get, its polls, and its cancellation.
ghost use Rattle.std.specs.Prelude.{◌≡◌, true};
ghost use Rattle.std.specs.Duration.{as_nanos};
ghost use Rattle.bb8_lock.specs.Polls.{holds_nothing, rest_of, AfterTry, EndsPoll, IsDeadline, GetPolls, Starts, CancelsFree, CancelsHeld, Cancels};
ghost use Rattle.bb8_lock.specs.declared.gets.state.Stage.TheVariants.{Fresh as IsFresh, Done as IsDone};

use super::home::{FirstTry, GetHome, LetGo, Taken, Tried};
use super::outside::Outside;
use super::rows::{ask, check, deadline, end, leave, retry, settle, take_back, tried};
use bb8_core::api::{Moment, RunError};
use bb8_core::internals::{GetKey, Reason, Unfit};
use futures::task::Poll;
use std::mem;
use std::time::Duration;

/// After this many nanoseconds a waiting get is polled again, signalled or not.
const LONGEST_WAIT: u64 = 50_000_000;

/// After this many nanoseconds a check is polled again.
const LONGEST_CHECK: u64 = 1_000_000;

/// A get that has begun, and its deadline, if there is one.
#[derive(Clone, Copy, Debug)]
pub struct Begun {
    /// The get.
    pub get: GetKey,
    /// When it times out.
    pub deadline: Option<Moment>,
}

/// A connection in a check.
pub struct CheckUnderWay<C, V, P> {
    /// The connection.
    pub taken: Taken<C, P>,
    /// The check.
    pub checking: V,
}

/// The state of a get between its polls. One that holds a connection can only be ended by a step of
/// its home.
pub enum Stage<C, V, P> {
    /// It was not polled yet.
    Fresh,
    /// Its check failed; it has neither a connection nor a position in the queue.
    Trying(Begun),
    /// It waits.
    Waiting(Begun),
    /// Its connection is being checked.
    Checking(Begun, CheckUnderWay<C, V, P>),
    /// It has returned a result, or was cancelled.
    Done,
}

/// The outcome of a poll's steps: a result, or a state whose deadline is compared.
pub enum Next<C, V, P, E> {
    /// The poll returns this result.
    Answer(Result<Taken<C, P>, RunError<E>>),
    /// The get is in this state.
    Stand(Stage<C, V, P>),
}

/// The result of a poll, and the state in which it leaves the get.
pub struct Settled<C, V, P, E> {
    /// The result.
    pub answer: Poll<Result<Taken<C, P>, RunError<E>>>,
    /// The state.
    pub stage: Stage<C, V, P>,
}

/// The state of a get, in its future. Its connection is a `C`, its check a `V`, its permit a `P`.
///
/// It does nothing until it is polled. It cannot be dropped, only cancelled by `cancel_step`,
/// because its home takes its connection back.
pub struct GetState<C, V, P> {
    stage: Stage<C, V, P>,
}

impl<C, V, P> GetState<C, V, P> {
    /// Returns a get that was not polled yet.
    pub fn new() -> Self
        ensures { result.stage ≡ IsFresh }
    {
        GetState {
            stage: Stage::Fresh,
        }
    }

    /// Replaces the state by another, if it holds nothing.
    fn stand(&mut self, stage: Stage<C, V, P>)
        requires { holds_nothing self.old.stage ≡ true }
        ensures { self.new ≡ record { stage = stage } }
    {
        match mem::replace(&mut self.stage, stage) {
            Stage::Fresh | Stage::Done => {}
            Stage::Trying(_) | Stage::Waiting(_) | Stage::Checking(..) => unreachable!(),
        }
    }

    /// Polls the get once, on a home. `timeout` is the pool's `connection_timeout`. In bb8 a get is
    /// an async function.
    ///
    /// It reads the clock once. The first poll begins the get and sets its deadline; a later one
    /// looks at the home. Each poll tries at most once, or polls the check of the connection that
    /// it holds, and compares the deadline last. If a check fails, the error goes to the sink, the
    /// connection is closed, and the get tries again at the next poll. If no handle is alive, it
    /// ends then. The home is released before each user callback.
    ///
    /// Returns a connection; `TimedOut` after the deadline, or if the home knows no such get or no
    /// handle; `Memory` or `Exhausted` if the get could not begin. After a result each poll is
    /// pending and makes no call.
    pub fn poll_step<E, X: GetHome<C, Permit = P> + Outside<C, E, Checking = V>>(
        &mut self,
        pool: &mut X,
        timeout: Duration,
    ) -> Poll<Result<Taken<C, P>, RunError<E>>>
        ensures { GetPolls X.GetHome X.Outside (as_nanos timeout) self.old.stage pool.old
            (record { answer = result; stage = self.new.stage }) pool.new }
    {
        match mem::replace(&mut self.stage, Stage::Done) {
            Stage::Fresh => {
                let at = pool.now();
                self.start_step(pool, at, timeout)
            }
            Stage::Trying(begun) | Stage::Waiting(begun) => {
                let at = pool.now();
                let seen = pool.look(at);
                let next = retry(pool, seen, begun);
                let Settled { answer, stage } = end(pool, seen.moment, next);
                self.stand(stage);
                answer
            }
            Stage::Checking(begun, held) => {
                let at = pool.now();
                let moment = pool.look(at).moment;
                pool.release();
                let next = check(pool, moment, begun, held);
                let Settled { answer, stage } = end(pool, moment, next);
                self.stand(stage);
                answer
            }
            Stage::Done => Poll::Pending,
        }
    }

    /// As `poll_step`, but consumes its home. A get that is served at once stores none of it.
    #[inline(always)]
    pub fn poll_with<E, X: GetHome<C, Permit = P> + Outside<C, E, Checking = V> + LetGo>(
        &mut self,
        mut pool: X,
        timeout: Duration,
    ) -> Poll<Result<Taken<C, P>, RunError<E>>>
        ensures { (x' : X) × GetPolls X.GetHome X.Outside (as_nanos timeout) self.old.stage pool
            (record { answer = result; stage = self.new.stage }) x' × X.goes x' }
    {
        // (*value-in-memory* in docs/TOOLCHAIN.md: the other results have names and functions of
        // their own, so that a get that is served at once stays in registers.)
        match &self.stage {
            Stage::Fresh => {
                self.stand(Stage::Done);
                let at = pool.now();
                let (moment, first) = pool.start(at);
                match first {
                    Ok(FirstTry::Tried(_, Tried::Served(taken, _))) => {
                        pool.go();
                        Poll::Ready(Ok(taken))
                    }
                    first => {
                        let answer = self.follow_with(pool, moment, timeout, first);
                        answer
                    }
                }
            }
            Stage::Trying(_) | Stage::Waiting(_) | Stage::Checking(..) | Stage::Done => {
                let answer = self.go_on(pool, timeout);
                answer
            }
        }
    }

    /// Completes a first poll whose get has begun and tried, and consumes its home.
    #[inline(never)]
    fn follow_with<E, X: GetHome<C, Permit = P> + Outside<C, E, Checking = V> + LetGo>(
        &mut self,
        mut pool: X,
        moment: Moment,
        timeout: Duration,
        first: Result<FirstTry<C, P>, Unfit>,
    ) -> Poll<Result<Taken<C, P>, RunError<E>>>
        requires { self.old.stage ≡ IsDone }
        ensures { (next : _) × (due : _) × (x1 : X) × IsDeadline moment (as_nanos timeout) due
            × AfterTry X.GetHome X.Outside moment first due pool next x1
            × ((x' : X) × EndsPoll X.GetHome X.Outside moment next x1
            (record { answer = result; stage = self.new.stage }) x' × X.goes x') }
    {
        match tried(&mut pool, moment, deadline(moment, timeout), first) {
            Next::Answer(answer) => {
                pool.go();
                Poll::Ready(answer)
            }
            Next::Stand(stage) => {
                let Settled { answer, stage } = settle(&mut pool, moment, stage);
                pool.go();
                self.stand(stage);
                answer
            }
        }
    }

    /// As `poll_step`, but consumes its home.
    #[inline(never)]
    fn go_on<E, X: GetHome<C, Permit = P> + Outside<C, E, Checking = V> + LetGo>(
        &mut self,
        mut pool: X,
        timeout: Duration,
    ) -> Poll<Result<Taken<C, P>, RunError<E>>>
        ensures { (x' : X) × GetPolls X.GetHome X.Outside (as_nanos timeout) self.old.stage pool
            (record { answer = result; stage = self.new.stage }) x' × X.goes x' }
    {
        let answer = self.poll_step(&mut pool, timeout);
        pool.go();
        answer
    }

    /// Makes a first poll at this reading of the clock: the get begins and tries.
    #[inline(always)]
    pub fn start_step<E, X: GetHome<C, Permit = P> + Outside<C, E, Checking = V>>(
        &mut self,
        pool: &mut X,
        at: Moment,
        timeout: Duration,
    ) -> Poll<Result<Taken<C, P>, RunError<E>>>
        requires { holds_nothing self.old.stage ≡ true }
        ensures { Starts X.GetHome X.Outside at (as_nanos timeout) pool.old
            (record { answer = result; stage = self.new.stage }) pool.new }
    {
        let (moment, first) = pool.start(at);
        let next = tried(pool, moment, deadline(moment, timeout), first);
        let Settled { answer, stage } = end(pool, moment, next);
        self.stand(stage);
        answer
    }

    /// Returns how long a thread may sleep after a pending poll before it polls the get again: not
    /// past the deadline, at most 50 milliseconds while it waits, and at most one millisecond while
    /// its connection is checked.
    pub fn rest(&self, now: Moment) -> Duration
        ensures { as_nanos result ≡ rest_of self.now.stage now.0 }
    {
        let (most, deadline) = match &self.stage {
            Stage::Waiting(begun) => (LONGEST_WAIT, begun.deadline),
            Stage::Checking(begun, _) => (LONGEST_CHECK, begun.deadline),
            Stage::Fresh | Stage::Trying(_) | Stage::Done => (0, None),
        };
        let left = match deadline {
            Some(deadline) => deadline.0.saturating_sub(now.0),
            None => most,
        };
        Duration::from_nanos(most.min(left))
    }

    /// Cancels the get, if it has begun and has no result, at a reading of the clock. If it holds a
    /// connection, `has_broken` is called first. No call is made if it was not polled yet or has a
    /// result. This is what a drop of its future does; in bb8 the caller drops the future.
    pub fn cancel_step<E, X: GetHome<C, Permit = P> + Outside<C, E, Checking = V>>(
        self,
        pool: &mut X,
    )
        ensures { Cancels X.GetHome X.Outside self.stage pool.old pool.new }
    {
        let GetState { stage } = self;
        match stage {
            Stage::Fresh | Stage::Done => {}
            Stage::Trying(begun) | Stage::Waiting(begun) => {
                cancel_free(pool, begun.get);
            }
            Stage::Checking(begun, held) => cancel_held(pool, begun.get, held),
        }
    }

    /// As `cancel_step`, but consumes its home.
    #[inline(always)]
    pub fn cancel_with<E, X: GetHome<C, Permit = P> + Outside<C, E, Checking = V> + LetGo>(
        self,
        pool: X,
    )
        ensures { (x' : X) × Cancels X.GetHome X.Outside self.stage pool x' × X.goes x' }
    {
        let GetState { stage } = self;
        match stage {
            Stage::Fresh | Stage::Done => pool.go(),
            stage => cancel_begun(pool, GetState { stage }),
        }
    }
}

/// Cancels a get that has begun, and consumes its home.
#[inline(never)]
fn cancel_begun<C, V, P, E, X: GetHome<C, Permit = P> + Outside<C, E, Checking = V> + LetGo>(
    mut pool: X,
    get: GetState<C, V, P>,
)
    ensures { (x' : X) × Cancels X.GetHome X.Outside get.stage pool x' × X.goes x' }
{
    get.cancel_step(&mut pool);
    pool.go();
}

/// Cancels a get that has begun and holds no connection.
#[inline(never)]
fn cancel_free<C, V, P, E, X: GetHome<C, Permit = P> + Outside<C, E, Checking = V>>(
    pool: &mut X,
    get: GetKey,
)
    ensures { CancelsFree X.GetHome X.Outside get pool.old pool.new }
{
    let at = pool.now();
    leave(pool, at, get, Reason::Cancelled);
}

/// Cancels a get whose connection is being checked.
#[inline(never)]
fn cancel_held<C, V, P, E, X: GetHome<C, Permit = P> + Outside<C, E, Checking = V>>(
    pool: &mut X,
    get: GetKey,
    held: CheckUnderWay<C, V, P>,
)
    ensures { CancelsHeld X.GetHome X.Outside get held pool.old pool.new }
{
    let CheckUnderWay { taken, checking } = held;
    pool.end_check(checking);
    let returned = ask(pool, taken);
    let at = pool.now();
    take_back(pool, at, get, Reason::Cancelled, returned);
}

impl<C, V, P> Default for GetState<C, V, P> {
    ghost is_default = { λ get. get.stage ≡ IsFresh };

    /// Returns a get that was not polled yet.
    fn default() -> Self {
        GetState::new()
    }
}
