//! The rows of the table of a get's polls: the steps and user callbacks of each, in their order.
//!
//! The home is released between a step and the user callback after it.
ghost use Rattle.std.specs.Prelude.{◌≡◌};
ghost use Rattle.std.specs.Duration.{as_nanos};
ghost use Rattle.bb8_lock.specs.Polls.{IsDeadline, closed_in, AfterGiveUp, Asks, CheckFails, Checks, AfterTry, Tries, DropsAfterStep, LeavesLine, Retries, TakesBack, TimesOut, Settles, EndsPoll};

use super::home::{FirstTry, GetHome, Passed, Returned, Taken, Tried};
use super::outside::Outside;
use super::state::{Begun, CheckUnderWay, Next, Settled, Stage};
use bb8_core::api::{Moment, RunError};
use bb8_core::internals::{CheckedErrAnswer, GetKey, GiveUpAnswer, Looked, Reason, Unfit};
use futures::task::Poll;
use std::time::Duration;

/// Returns the deadline of a get that is first polled at `moment`. None, and so never, if it is
/// past the greatest moment.
pub(crate) fn deadline(moment: Moment, timeout: Duration) -> Option<Moment>
    ensures { IsDeadline moment (as_nanos timeout) result }
{
    let nanos = u64::try_from(timeout.as_nanos()).ok()?;
    Some(Moment(moment.0.checked_add(nanos)?))
}

/// Calls `has_broken` for a connection that is returned.
pub fn ask<C, V, P, E, X: Outside<C, E, Checking = V>>(
    pool: &mut X,
    taken: Taken<C, P>,
) -> Returned<C, P>
    ensures { Asks X.Outside taken pool.old result pool.new }
{
    // (*value-in-memory*: a borrowed field would keep the others in memory, here and in `check`
    // and `tried`: 14 instructions of a pair.)
    let Taken {
        key,
        mut connection,
        permit,
    } = taken;
    let broken = pool.has_broken(&mut connection);
    Returned {
        taken: Taken {
            key,
            connection,
            permit,
        },
        broken,
    }
}

/// Drops a connection after a step.
fn drop_it<C, V, P, E, X: GetHome<C, Permit = P> + Outside<C, E, Checking = V>>(
    pool: &mut X,
    connection: C,
)
    ensures { DropsAfterStep X.GetHome X.Outside connection pool.old pool.new }
{
    pool.release();
    pool.let_go(connection);
}

/// Returns the connection that is closed because its check failed.
fn closed<C>(answer: CheckedErrAnswer<C>) -> C
    ensures { result ≡ closed_in answer }
{
    let CheckedErrAnswer::Closed(_, closed, _, _) = answer;
    closed
}

/// Handles a check that failed with this error.
fn fail<C, V, P, E, X: GetHome<C, Permit = P> + Outside<C, E, Checking = V>>(
    pool: &mut X,
    moment: Moment,
    begun: Begun,
    taken: Taken<C, P>,
    error: E,
) -> Next<C, V, P, E>
    ensures { CheckFails X.GetHome X.Outside moment begun taken error pool.old result pool.new }
{
    pool.sink(error);
    let returned = ask(pool, taken);
    match pool.checked_err(moment, begun.get, returned) {
        Ok(answer) => {
            drop_it(pool, closed(answer));
            Next::Stand(Stage::Trying(begun))
        }
        Err(unfit) => {
            drop_it(pool, unfit);
            Next::Answer(Err(RunError::TimedOut))
        }
    }
}

/// Polls a check once.
#[inline(always)]
pub(crate) fn check<C, V, P, E, X: GetHome<C, Permit = P> + Outside<C, E, Checking = V>>(
    pool: &mut X,
    moment: Moment,
    begun: Begun,
    held: CheckUnderWay<C, V, P>,
) -> Next<C, V, P, E>
    ensures { Checks X.GetHome X.Outside moment begun held pool.old result pool.new }
{
    let CheckUnderWay {
        taken,
        mut checking,
    } = held;
    let Taken {
        key,
        mut connection,
        permit,
    } = taken;
    match pool.poll_valid(&mut connection, &mut checking, moment) {
        Poll::Pending => {
            let taken = Taken {
                key,
                connection,
                permit,
            };
            Next::Stand(Stage::Checking(begun, CheckUnderWay { taken, checking }))
        }
        Poll::Ready(Ok(())) => {
            pool.end_check(checking);
            match pool.checked_ok(moment, begun.get, key, permit) {
                Ok(passed) => {
                    let Passed { key, permit } = passed;
                    Next::Answer(Ok(Taken {
                        key,
                        connection,
                        permit,
                    }))
                }
                Err(Unfit) => {
                    drop_it(pool, connection);
                    Next::Answer(Err(RunError::TimedOut))
                }
            }
        }
        Poll::Ready(Err(error)) => {
            pool.end_check(checking);
            let taken = Taken {
                key,
                connection,
                permit,
            };
            fail(pool, moment, begun, taken, error)
        }
    }
}

/// Handles the result of a try, or of a begin with its first try. A connection that must be checked
/// is polled in the same poll.
#[inline(always)]
pub(crate) fn tried<C, V, P, E, X: GetHome<C, Permit = P> + Outside<C, E, Checking = V>>(
    pool: &mut X,
    moment: Moment,
    deadline: Option<Moment>,
    answer: Result<FirstTry<C, P>, Unfit>,
) -> Next<C, V, P, E>
    ensures { AfterTry X.GetHome X.Outside moment answer deadline pool.old result pool.new }
{
    match answer {
        Ok(FirstTry::Tried(_, Tried::Served(taken, _))) => Next::Answer(Ok(taken)),
        Ok(FirstTry::Tried(get, Tried::Taken(taken, _))) => {
            let Taken {
                key,
                mut connection,
                permit,
            } = taken;
            pool.release();
            let checking = pool.is_valid(&mut connection);
            let taken = Taken {
                key,
                connection,
                permit,
            };
            let begun = Begun { get, deadline };
            check(pool, moment, begun, CheckUnderWay { taken, checking })
        }
        Ok(FirstTry::Tried(get, Tried::Waiting(_))) => {
            Next::Stand(Stage::Waiting(Begun { get, deadline }))
        }
        Ok(FirstTry::Memory) => Next::Answer(Err(RunError::Memory)),
        Ok(FirstTry::Exhausted) => Next::Answer(Err(RunError::Exhausted)),
        Err(Unfit) => Next::Answer(Err(RunError::TimedOut)),
    }
}

/// Makes one try of a get that has begun.
#[inline(always)]
fn take<C, V, P, E, X: GetHome<C, Permit = P> + Outside<C, E, Checking = V>>(
    pool: &mut X,
    moment: Moment,
    begun: Begun,
) -> Next<C, V, P, E>
    ensures { Tries X.GetHome X.Outside moment begun pool.old result pool.new }
{
    let Begun { get, deadline } = begun;
    match pool.try_get(moment, get) {
        Ok(answer) => tried(pool, moment, deadline, Ok(FirstTry::Tried(get, answer))),
        Err(Unfit) => Next::Answer(Err(RunError::TimedOut)),
    }
}

/// Makes a later poll of a get that holds no connection: it tries, or ends if no handle is alive.
// Inlining saves three instructions of a waiting get.
#[inline(always)]
pub(crate) fn retry<C, V, P, E, X: GetHome<C, Permit = P> + Outside<C, E, Checking = V>>(
    pool: &mut X,
    seen: Looked,
    begun: Begun,
) -> Next<C, V, P, E>
    ensures { Retries X.GetHome X.Outside seen.moment seen.alive begun pool.old result pool.new }
{
    if seen.alive {
        return take(pool, seen.moment, begun);
    }
    leave(pool, seen.moment, begun.get, Reason::TimedOut);
    Next::Answer(Err(RunError::TimedOut))
}

/// Handles the result of a get that gave up: drops a connection that was closed.
fn after<C, V, P, E, X: GetHome<C, Permit = P> + Outside<C, E, Checking = V>>(
    pool: &mut X,
    answer: GiveUpAnswer<C>,
)
    ensures { AfterGiveUp X.GetHome X.Outside answer pool.old pool.new }
{
    match answer {
        GiveUpAnswer::GaveUp(_) | GiveUpAnswer::Kept(_, _) => {}
        GiveUpAnswer::Closed(_, closed, _, _) => drop_it(pool, closed),
    }
}

/// Ends a get that holds no connection and is not served.
pub(crate) fn leave<C, V, P, E, X: GetHome<C, Permit = P> + Outside<C, E, Checking = V>>(
    pool: &mut X,
    moment: Moment,
    get: GetKey,
    reason: Reason,
)
    ensures { LeavesLine X.GetHome X.Outside moment get reason pool.old pool.new }
{
    match pool.give_up(moment, get, reason) {
        Ok(answer) => after(pool, answer),
        Err(Unfit) => {}
    }
}

/// Ends a get that held a connection and is not served; `has_broken` has been called already.
pub(crate) fn take_back<C, V, P, E, X: GetHome<C, Permit = P> + Outside<C, E, Checking = V>>(
    pool: &mut X,
    moment: Moment,
    get: GetKey,
    reason: Reason,
    returned: Returned<C, P>,
)
    ensures { TakesBack X.GetHome X.Outside moment get reason returned pool.old pool.new }
{
    match pool.give_back(moment, get, reason, returned) {
        Ok(answer) => after(pool, answer),
        Err(unfit) => drop_it(pool, unfit),
    }
}

/// Ends a get whose deadline has passed.
fn time_out<C, V, P, E, X: GetHome<C, Permit = P> + Outside<C, E, Checking = V>>(
    pool: &mut X,
    moment: Moment,
    stage: Stage<C, V, P>,
)
    ensures { TimesOut X.GetHome X.Outside moment stage pool.old pool.new }
{
    match stage {
        Stage::Trying(begun) | Stage::Waiting(begun) => {
            leave(pool, moment, begun.get, Reason::TimedOut);
        }
        Stage::Checking(begun, held) => {
            let CheckUnderWay { taken, checking } = held;
            pool.end_check(checking);
            let returned = ask(pool, taken);
            take_back(pool, moment, begun.get, Reason::TimedOut, returned);
        }
        Stage::Fresh | Stage::Done => {}
    }
}

/// Ends a poll without a result: compares the deadline.
pub(crate) fn settle<C, V, P, E, X: GetHome<C, Permit = P> + Outside<C, E, Checking = V>>(
    pool: &mut X,
    moment: Moment,
    stage: Stage<C, V, P>,
) -> Settled<C, V, P, E>
    ensures { Settles X.GetHome X.Outside moment stage pool.old result pool.new }
{
    let deadline = match &stage {
        Stage::Trying(begun) | Stage::Waiting(begun) | Stage::Checking(begun, _) => begun.deadline,
        Stage::Fresh | Stage::Done => None,
    };
    match deadline {
        Some(deadline) if deadline <= moment => {
            time_out(pool, moment, stage);
            Settled {
                answer: Poll::Ready(Err(RunError::TimedOut)),
                stage: Stage::Done,
            }
        }
        _ => Settled {
            answer: Poll::Pending,
            stage,
        },
    }
}

/// Ends a poll: it has a result, or its deadline is compared.
#[inline(always)]
pub(crate) fn end<C, V, P, E, X: GetHome<C, Permit = P> + Outside<C, E, Checking = V>>(
    pool: &mut X,
    moment: Moment,
    next: Next<C, V, P, E>,
) -> Settled<C, V, P, E>
    ensures { EndsPoll X.GetHome X.Outside moment next pool.old result pool.new }
{
    match next {
        Next::Answer(answer) => Settled {
            answer: Poll::Ready(answer),
            stage: Stage::Done,
        },
        Next::Stand(stage) => settle(pool, moment, stage),
    }
}
