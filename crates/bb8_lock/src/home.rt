//! The data under a pool's lock as the home of gets, guards and handles: the critical sections.
//!
//! Each critical section borrows the state and makes one step. No manager, customizer, sink or
//! clock is called here.
ghost use Rattle.std.specs.Prelude.{◌≡◌, ◌+◌, ◌≤◌};
ghost use Rattle.bb8_lock.specs.declared.handle.Handle.{Handle as HandleOf};
ghost use Rattle.bb8_lock.specs.Steps.{StartsBy, StepsBy, Fails, GivesBack, PutsBack};
ghost use Rattle.bb8_lock.specs.Outcomes.{in_core};
ghost use Rattle.bb8_core.specs.StepBounds.{goes_out, out_of};

use crate::gets::{FirstTry, GetHome, Joining, Passed, Returned, Taken, Tried};
use crate::handle::Handle;
use crate::locked::{Locked, Permit, Permits};
use bb8_core::api::{Moment, State};
use bb8_core::internals::{
    AddAnswer, AtOnce, CheckedErrAnswer, ClosedList, DetachAnswer, GetKey, GiveUpAnswer,
    JoinAnswer, Key, LeaveAnswer, Looked, PoolInternals, PutBackAnswer, ReapAnswer, Reason,
    Started, TryAnswer, Unfit,
};
use std::sync::ledger::Share;

/// Turns a try's result into one with a permit for its connection, if it has one. The state already
/// counts the connection as checked out, within the size.
#[inline(always)]
fn hand_out<C: Drop, L: Permits>(
    core: &PoolInternals<C>,
    rest: &mut Share<L>,
    outcome: TryAnswer<C>,
) -> Tried<C, Permit<L>>
    requires parts { out_of core.now + rest.old.parts ≡
        core.now.config.max_size + goes_out outcome }
    requires amount { rest.old.amount ≡ rest.old.parts }
    ensures outcome { in_core result ≡ outcome }
    ensures parts { out_of core.now + rest.new.parts ≡ core.now.config.max_size }
    ensures amount { rest.new.amount ≡ rest.new.parts }
{
    core.limits();
    match outcome {
        TryAnswer::Waiting(grant) => Tried::Waiting(grant),
        TryAnswer::Served(key, connection, grant) => {
            let share = rest.split_off(1, 1);
            let permit = Permit { share };
            let taken = Taken {
                key,
                connection,
                permit,
            };
            Tried::Served(taken, grant)
        }
        TryAnswer::Taken(key, connection, grant) => {
            let share = rest.split_off(1, 1);
            let permit = Permit { share };
            let taken = Taken {
                key,
                connection,
                permit,
            };
            Tried::Taken(taken, grant)
        }
    }
}

impl<C: Drop, L: Permits> Locked<C, L> {
    /// Begins a get that `serve_at_once` did not serve, and lets it try.
    #[inline(never)]
    fn start_on(&mut self, at: Moment) -> Result<FirstTry<C, Permit<L>>, Unfit>
        ensures { StartsBy self.old.core at.0 result self.new.core }
    {
        let Locked { core, rest, .. } = self;
        match core.start(at) {
            Ok(Started::Tried(get, outcome)) => Ok(FirstTry::Tried(
                get,
                hand_out(core, rest, outcome),
            )),
            Ok(Started::Memory) => Ok(FirstTry::Memory),
            Ok(Started::Exhausted) => Ok(FirstTry::Exhausted),
            Err(Unfit) => Err(Unfit),
        }
    }
}

/// Each step leads from the state under the lock to the next one. A connection is checked out with
/// a permit and returned with it.
impl<C: Drop, L: Permits> GetHome<C> for Locked<C, L> {
    type Permit = Permit<L>;

    type Handle = Handle;

    ghost releases = { λ h h'. h' ≡ h };

    ghost steps = { λ h at s h'. (h.core.config ≡ L.settings) × StepsBy h.core at s h'.core };

    /// The caller that holds the lock releases it.
    fn release(&mut self) {}

    fn look(&mut self, at: Moment) -> Looked {
        let Locked { core, .. } = self;
        core.look(at)
    }

    /// Serves a get at once if connections are handed out unchecked and no memory is needed.
    #[inline(always)]
    fn start(&mut self, at: Moment) -> (Moment, Result<FirstTry<C, Permit<L>>, Unfit>) {
        let Locked { core, rest, .. } = self;
        let moment = core.look(at).moment;
        match core.serve_at_once(moment) {
            Some(
                AtOnce {
                    get,
                    key,
                    conn,
                    grant,
                },
            ) => {
                let get = GetKey {
                    number: get,
                    place: 0,
                };
                let outcome = TryAnswer::Served(key, conn, grant);
                (
                    moment,
                    Ok(FirstTry::Tried(get, hand_out(core, rest, outcome))),
                )
            }
            None => {
                // (a local of its own because of *value-in-memory*)
                let first = self.start_on(moment);
                (moment, first)
            }
        }
    }

    fn try_get(&mut self, at: Moment, get: GetKey) -> Result<Tried<C, Permit<L>>, Unfit> {
        let Locked { core, rest, .. } = self;
        match core.try_get(at, get) {
            Ok(outcome) => Ok(hand_out(core, rest, outcome)),
            Err(Unfit) => Err(Unfit),
        }
    }

    fn checked_ok(
        &mut self,
        at: Moment,
        get: GetKey,
        key: Key,
        permit: Permit<L>,
    ) -> Result<Passed<Permit<L>>, Unfit> {
        let Locked { core, .. } = self;
        match core.checked_ok(at, get, key.place) {
            Ok(key) => Ok(Passed { key, permit }),
            Err(Unfit) => {
                let Permit { share } = permit;
                drop(share);
                Err(Unfit)
            }
        }
    }

    fn checked_err(
        &mut self,
        at: Moment,
        get: GetKey,
        returned: Returned<C, Permit<L>>,
    ) -> Result<CheckedErrAnswer<C>, C>
        ensures { StepsBy {H = HandleOf} self.old.core at (Fails get returned result) self.new.core }
    {
        let Locked { core, rest, .. } = self;
        let Returned { taken, broken } = returned;
        let Taken {
            key,
            connection,
            permit,
        } = taken;
        let answer = core.checked_err(at, get, connection, broken, key.place);
        permit.settle(rest, &answer);
        answer
    }

    #[inline(always)]
    fn give_up(
        &mut self,
        at: Moment,
        get: GetKey,
        reason: Reason,
    ) -> Result<GiveUpAnswer<C>, Unfit> {
        let Locked { core, .. } = self;
        core.give_up(at, get, reason, false)
    }

    fn give_back(
        &mut self,
        at: Moment,
        get: GetKey,
        reason: Reason,
        returned: Returned<C, Permit<L>>,
    ) -> Result<GiveUpAnswer<C>, C>
        ensures { StepsBy {H = HandleOf} self.old.core at (GivesBack get reason returned result)
            self.new.core }
    {
        let Locked { core, rest, .. } = self;
        let Returned { taken, broken } = returned;
        let Taken {
            key,
            connection,
            permit,
        } = taken;
        let answer = core.give_back(at, get, reason, connection, broken, key.place);
        permit.settle(rest, &answer);
        answer
    }

    #[inline(always)]
    fn put_back(&mut self, at: Moment, back: Returned<C, Permit<L>>) -> Result<PutBackAnswer<C>, C>
        ensures { StepsBy {H = HandleOf} self.old.core at (PutsBack back result) self.new.core }
    {
        let Locked { core, rest, .. } = self;
        let Returned { taken, broken } = back;
        let Taken {
            key,
            connection,
            permit,
        } = taken;
        let answer = core.put_back(at, key, connection, broken);
        permit.settle(rest, &answer);
        answer
    }

    fn add(&mut self, at: Moment, conn: C, broken: bool) -> Result<AddAnswer<C>, C> {
        let Locked { core, .. } = self;
        core.add(at, conn, broken)
    }

    fn state(&mut self, at: Moment) -> State {
        let Locked { core, .. } = self;
        core.state(at)
    }

    fn join(&mut self, at: Moment) -> Joining<Handle> {
        let Locked { core, .. } = self;
        match core.join(at) {
            Ok(JoinAnswer::Joined) => Joining::Joined(Handle { _alive: () }),
            Ok(JoinAnswer::Exhausted) => Joining::Exhausted,
            Err(Unfit) => Joining::Unfit,
        }
    }

    fn leave(&mut self, at: Moment, handle: Handle) -> Result<LeaveAnswer, Unfit> {
        let Locked { core, .. } = self;
        let Handle { _alive: () } = handle;
        core.leave(at)
    }

    fn retire(&mut self, at: Moment, closed: &mut ClosedList<C>) -> ReapAnswer {
        let Locked { core, .. } = self;
        core.retire_into(at, closed)
    }

    fn detach(&mut self, at: Moment, key: Key, permit: Permit<L>) -> Result<DetachAnswer, Unfit> {
        let Locked { core, rest, .. } = self;
        let answer = core.detach(at, key);
        permit.settle(rest, &answer);
        answer
    }

    fn close(&mut self, at: Moment, closed: &mut ClosedList<C>) -> Result<LeaveAnswer, Unfit> {
        let Locked { core, .. } = self;
        core.limits();
        if !core.fits_close() {
            return Err(Unfit);
        }
        Ok(core.close_into(at, closed))
    }
}
