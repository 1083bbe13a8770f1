//! Steps with hand-off: if a step notifies a get, that get tries in the same call. No other try
//! comes between, so if all events of a pool have hand-off, gets are served in the order in which
//! they began to wait. Exception: a get that a close notifies, or whose check fails, loses its
//! position.
//!
//! Each function is the step of its name, followed by that try. None can read a pool's tables
//! without counting the access.
ghost use Rattle.std.specs.Prelude.{None, Some, IfSome, IfOk};
ghost use Rattle.bb8_ledger.specs.Acts as acts;
ghost use Rattle.bb8_core.specs.Unfit.{Stepped, OrComesBack, answered};
ghost use Rattle.bb8_core.specs.HandedOver.{StepsAndTries, Follows, StaysPrompt, TriesFew, AreBounded};
ghost use Rattle.bb8_core.specs.StepBounds.{come_back};
ghost use Rattle.bb8_core.specs.StateView.{IsFitting};
ghost use Rattle.bb8_core.specs.StepAnswers.{answer_of_checked_err, answer_of_give_up, answer_of_put_back, answer_of_detach, answer_of_evict, answer_of_opened, answer_of_add, reason_of, GivesBack, GivesBackInvalid, GivesBackHeld, HandsBack, HandsOutIdle, Refuses};

use crate::api::Moment;
use crate::internals::{
    AddAnswer, CheckedErrAnswer, DetachAnswer, EvictAnswer, GetKey, GiveUpAnswer, Key,
    OpenedAnswer, PoolInternals, PutBackAnswer, Reason, TryAnswer, Unfit,
};

/// The result of a step with hand-off.
#[derive(Drop)]
pub struct HandedOver<R, C> {
    /// The result of the step.
    pub outcome: R,
    /// The result of the notified get's try, if a get was notified.
    pub tried: Option<TryAnswer<C>>,
}

/// Makes the try of the notified get, if there is one.
fn try_of<C: Drop, A>(
    pool: &mut PoolInternals<C, A>,
    at: Moment,
    notified: Option<GetKey>,
) -> Option<TryAnswer<C>>
    requires { IfSome notified (λ g. IsFitting pool.old (acts.Try g.number)) }
    ensures follows { Follows pool.old at.0 notified result pool.new }
    ensures few { TriesFew result pool.old pool.new }
{
    match notified {
        None => None,
        Some(get) => match pool.try_get(at, get) {
            Ok(tried) => Some(tried),
            // Unreachable: a notified get may try.
            Err(Unfit) => None,
        },
    }
}

// Makes a step, and then the try of the get that it notified.
macro_rules! hand_over {
    ($pool:ident, $at:ident, $step:expr) => {
        match $step {
            Err(back) => HandedOver {
                outcome: Err(back),
                tried: None,
            },
            Ok(outcome) => {
                let tried = try_of($pool, $at, outcome.notified());
                HandedOver {
                    outcome: Ok(outcome),
                    tried,
                }
            }
        }
    };
}

/// Reports that the check of a get failed, with hand-off.
pub fn checked_err<C: Drop, A>(
    pool: &mut PoolInternals<C, A>,
    at: Moment,
    get: GetKey,
    conn: C,
    broken: bool,
    hint: usize,
) -> HandedOver<Result<CheckedErrAnswer<C>, C>, C>
    ensures step { Stepped (StepsAndTries result.tried) answer_of_checked_err pool.old at.0
        (acts.CheckedErr get.number broken) result.outcome pool.new }
    ensures connection { OrComesBack GivesBackInvalid conn result.outcome }
    ensures order { StaysPrompt result.tried pool.old at.0
        (acts.CheckedErr get.number broken) (answered answer_of_checked_err result.outcome) }
    ensures bounds { AreBounded (come_back result.outcome) 4 3 result.tried pool.old pool.new }
{
    hand_over!(pool, at, pool.checked_err(at, get, conn, broken, hint))
}

/// Ends a get that holds nothing and is not served, with hand-off.
pub fn give_up<C: Drop, A>(
    pool: &mut PoolInternals<C, A>,
    at: Moment,
    get: GetKey,
    reason: Reason,
    broken: bool,
) -> HandedOver<Result<GiveUpAnswer<C>, Unfit>, C>
    ensures step { Stepped (StepsAndTries result.tried) answer_of_give_up pool.old at.0
        (acts.GiveUp get.number (reason_of reason) None broken) result.outcome pool.new }
    ensures connection { IfOk result.outcome (GivesBackHeld None) }
    ensures order { StaysPrompt result.tried pool.old at.0
        (acts.GiveUp get.number (reason_of reason) None broken) (answered answer_of_give_up result.outcome) }
    ensures bounds { AreBounded 0 2 1 result.tried pool.old pool.new }
{
    hand_over!(pool, at, pool.give_up(at, get, reason, broken))
}

/// Ends a get that holds this connection and is not served, with hand-off.
pub fn give_back<C: Drop, A>(
    pool: &mut PoolInternals<C, A>,
    at: Moment,
    get: GetKey,
    reason: Reason,
    conn: C,
    broken: bool,
    hint: usize,
) -> HandedOver<Result<GiveUpAnswer<C>, C>, C>
    ensures step { Stepped (StepsAndTries result.tried) answer_of_give_up pool.old at.0
        (acts.GiveUp get.number (reason_of reason) (Some conn) broken) result.outcome pool.new }
    ensures connection { OrComesBack (λ c. GivesBackHeld (Some c)) conn result.outcome }
    ensures order { StaysPrompt result.tried pool.old at.0
        (acts.GiveUp get.number (reason_of reason) (Some conn) broken) (answered answer_of_give_up result.outcome) }
    ensures bounds { AreBounded (come_back result.outcome) 4 3 result.tried pool.old pool.new }
{
    hand_over!(
        pool,
        at,
        pool.give_back(at, get, reason, conn, broken, hint)
    )
}

/// Takes back a connection that a guard holds, with hand-off.
pub fn put_back<C: Drop, A>(
    pool: &mut PoolInternals<C, A>,
    at: Moment,
    key: Key,
    conn: C,
    broken: bool,
) -> HandedOver<Result<PutBackAnswer<C>, C>, C>
    ensures step { Stepped (StepsAndTries result.tried) (answer_of_put_back key.number) pool.old at.0
        (acts.PutBack key.number conn broken) result.outcome pool.new }
    ensures connection { OrComesBack GivesBack conn result.outcome }
    ensures order { StaysPrompt result.tried pool.old at.0
        (acts.PutBack key.number conn broken) (answered (answer_of_put_back key.number) result.outcome) }
    ensures bounds { AreBounded (come_back result.outcome) 3 2 result.tried pool.old pool.new }
{
    hand_over!(pool, at, pool.put_back(at, key, conn, broken))
}

/// Detaches a connection that a guard holds, with hand-off.
pub fn detach<C: Drop, A>(
    pool: &mut PoolInternals<C, A>,
    at: Moment,
    key: Key,
) -> HandedOver<Result<DetachAnswer, Unfit>, C>
    ensures step { Stepped (StepsAndTries result.tried) (answer_of_detach key.number) pool.old at.0
        (acts.Detach key.number) result.outcome pool.new }
    ensures order { StaysPrompt result.tried pool.old at.0
        (acts.Detach key.number) (answered (answer_of_detach key.number) result.outcome) }
    ensures bounds { AreBounded (come_back result.outcome) 2 2 result.tried pool.old pool.new }
{
    hand_over!(pool, at, pool.detach(at, key))
}

/// Evicts an idle connection, with hand-off. A get is notified only if another one was before.
pub fn evict<C: Drop, A>(
    pool: &mut PoolInternals<C, A>,
    at: Moment,
    key: Key,
) -> HandedOver<Result<EvictAnswer<C>, Unfit>, C>
    ensures step { Stepped (StepsAndTries result.tried) (answer_of_evict key.number) pool.old at.0
        (acts.Evict key.number) result.outcome pool.new }
    ensures connection { IfOk result.outcome (HandsOutIdle pool.old key.number) }
    ensures order { StaysPrompt result.tried pool.old at.0
        (acts.Evict key.number) (answered (answer_of_evict key.number) result.outcome) }
    ensures bounds { AreBounded 0 2 1 result.tried pool.old pool.new }
{
    hand_over!(pool, at, pool.evict(at, key))
}

/// Reports that the attempt of a claimed approval succeeded, with hand-off.
pub fn opened<C: Drop, A>(
    pool: &mut PoolInternals<C, A>,
    at: Moment,
    key: Key,
    conn: C,
) -> HandedOver<Result<OpenedAnswer<C>, C>, C>
    ensures step { Stepped (StepsAndTries result.tried) (answer_of_opened key.number) pool.old at.0
        (acts.Opened key.number conn) result.outcome pool.new }
    ensures connection { OrComesBack HandsBack conn result.outcome }
    ensures order { StaysPrompt result.tried pool.old at.0
        (acts.Opened key.number conn) (answered (answer_of_opened key.number) result.outcome) }
    ensures bounds { AreBounded 0 3 1 result.tried pool.old pool.new }
{
    hand_over!(pool, at, pool.opened(at, key, conn))
}

/// Adds a connection, with hand-off.
pub fn add<C: Drop, A>(
    pool: &mut PoolInternals<C, A>,
    at: Moment,
    conn: C,
    broken: bool,
) -> HandedOver<Result<AddAnswer<C>, C>, C>
    ensures step { Stepped (StepsAndTries result.tried) answer_of_add pool.old at.0
        (acts.Add conn broken) result.outcome pool.new }
    ensures connection { OrComesBack Refuses conn result.outcome }
    ensures order { StaysPrompt result.tried pool.old at.0
        (acts.Add conn broken) (answered answer_of_add result.outcome) }
    ensures bounds { AreBounded 0 1 0 result.tried pool.old pool.new }
{
    hand_over!(pool, at, pool.add(at, conn, broken))
}
