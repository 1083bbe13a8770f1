//! A pool's lock as the home of gets, guards, handles, connection tasks, the driver and the reaper.
ghost use Rattle.std.specs.Prelude.{⊤};
ghost use Rattle.bb8_lock.specs.Steps.{Fails, GivesBack, PutsBack};
ghost use Rattle.bb8_lock.specs.Signals.{signals_of_step};
ghost use Rattle.bb8_lock.specs.Scope.{IsScopeOf, Leads, Frees};

use crate::gets::{FirstTry, GetHome, Joining, LetGo, Passed, Returned, Tried};
use crate::handle::Ends;
use crate::locks::Locks;
use crate::signal::{Locking, Signals};
use crate::{Locked, Permits, PoolTypes, Shared};
use bb8_core::api::{Moment, State};
use bb8_core::internals::{
    AddAnswer, CheckedErrAnswer, ClaimAnswer, ClosedList, DetachAnswer, FailedAnswer, GetKey,
    GiveUpAnswer, Grant, Key, LeaveAnswer, Looked, OpenedAnswer, PutBackAnswer, ReapAnswer, Reason,
    Unfit,
};
use bb8_tasks::Home;
use std::sync::MutexGuard;

/// A lock with the user callbacks outside it. Its first step acquires the lock, which is then held
/// until `release`. After the release each signal is notified once for which a step gave cause.
pub struct LockScope<'a, S: Locking<T>, T> {
    pub(crate) shared: &'a S,
    held: Option<MutexGuard<'a, T>>,
    signals: Signals,
}

/// Opens a lock scope. (A trait because of *trait-for-threads*.)
pub trait OpensScope<S: Locking<T>, T> {
    /// Returns a scope over what the handles share. The lock is not held yet.
    fn scope(&self) -> LockScope<'_, S, T>;
}

impl<G: PoolTypes, L: Permits> Locking<Locked<G::Connection, L>> for Shared<G, L> {
    ghost notified = { λ _ _. ⊤ };

    /// Takes a free lock without a function call.
    #[inline(always)]
    fn hold<'a>(
        &'a self,
        held: &mut Option<MutexGuard<'a, Locked<G::Connection, L>>>,
    ) -> MutexGuard<'a, Locked<G::Connection, L>> {
        match held.take() {
            Some(guard) => guard,
            None => match self.locked.lock.try_lock() {
                Some(guard) => guard,
                None => self.rt.take(&self.locked.lock),
            },
        }
    }

    #[inline(always)]
    fn notify(&self, signals: Signals) {
        if signals.gets {
            self.locked.gets.notify();
        }
        if signals.drivers {
            self.locked.drivers.notify();
        }
    }
}

impl<S: Locking<T>, T> OpensScope<S, T> for S {
    #[inline(always)]
    fn scope(&self) -> LockScope<'_, S, T>
        ensures { IsScopeOf self.now result }
    {
        LockScope {
            shared: self,
            held: None,
            signals: Signals::NONE,
        }
    }
}

impl<S: Locking<T>, T> Drop for LockScope<'_, S, T> {
    #[inline(always)]
    fn drop(self)
        ensures { S.notified self.entry.shared.now self.entry.signals }
    {
        self.go();
    }
}

/// A scope is closed by dropping it.
impl<S: Locking<T>, T> LetGo for LockScope<'_, S, T> {
    ghost goes = { λ x. S.notified x.shared.now x.signals };

    #[inline(always)]
    fn go(self) {
        let LockScope {
            shared,
            held,
            signals,
        } = self;
        drop(held);
        shared.notify(signals);
    }
}

// Makes a step of what the lock protects, and keeps the lock held.
macro_rules! step {
    ($self:ident, $answer:ident = $step:ident($($arg:expr),*)) => {
        let mut guard = $self.shared.hold(&mut $self.held);
        let $answer = guard.$step($($arg),*);
        $self.held = Some(guard);
    };
}

impl<C, S: Locking<T>, T: GetHome<C> + Ends> GetHome<C> for LockScope<'_, S, T> {
    type Permit = T::Permit;

    type Handle = T::Handle;

    ghost releases = { λ x x'. Frees S.notified x x' };

    ghost steps = { λ x at s x'. Leads (λ t t'. T.steps t at s t') (λ t'. signals_of_step (T.over t') s) x x' };

    #[inline(always)]
    fn release(&mut self) {
        self.held = None;
        self.shared.notify(self.signals);
        self.signals = Signals::NONE;
    }

    #[inline(always)]
    fn look(&mut self, at: Moment) -> Looked {
        step!(self, seen = look(at));
        seen
    }

    #[inline(always)]
    fn start(&mut self, at: Moment) -> (Moment, Result<FirstTry<C, T::Permit>, Unfit>) {
        step!(self, answer = start(at));
        let (moment, first) = answer;
        if let Ok(FirstTry::Tried(_, tried)) = &first {
            let (Tried::Served(_, grant) | Tried::Taken(_, grant) | Tried::Waiting(grant)) = tried;
            self.signals.drivers = (grant.count > 0) | self.signals.drivers;
        }
        (moment, first)
    }

    #[inline(always)]
    fn try_get(&mut self, at: Moment, get: GetKey) -> Result<Tried<C, T::Permit>, Unfit> {
        step!(self, answer = try_get(at, get));
        if let Ok(tried) = &answer {
            let (Tried::Served(_, grant) | Tried::Taken(_, grant) | Tried::Waiting(grant)) = tried;
            self.signals.drivers = (grant.count > 0) | self.signals.drivers;
        }
        answer
    }

    #[inline(always)]
    fn checked_ok(
        &mut self,
        at: Moment,
        get: GetKey,
        key: Key,
        permit: T::Permit,
    ) -> Result<Passed<T::Permit>, Unfit> {
        step!(self, answer = checked_ok(at, get, key, permit));
        answer
    }

    fn checked_err(
        &mut self,
        at: Moment,
        get: GetKey,
        returned: Returned<C, T::Permit>,
    ) -> Result<CheckedErrAnswer<C>, C>
        ensures { Leads (λ t t'. T.steps t at (Fails get returned result) t')
            (λ t'. signals_of_step {H = T.Handle} (T.over t') (Fails get returned result))
            self.old self.new }
    {
        step!(self, answer = checked_err(at, get, returned));
        if let Ok(CheckedErrAnswer::Closed(_, _, grant, outcome)) = &answer {
            self.signals.note(*outcome, grant.count);
        }
        answer
    }

    fn give_up(
        &mut self,
        at: Moment,
        get: GetKey,
        reason: Reason,
    ) -> Result<GiveUpAnswer<C>, Unfit> {
        step!(self, answer = give_up(at, get, reason));
        self.signals.note_give_up(&answer);
        answer
    }

    fn give_back(
        &mut self,
        at: Moment,
        get: GetKey,
        reason: Reason,
        returned: Returned<C, T::Permit>,
    ) -> Result<GiveUpAnswer<C>, C>
        ensures { Leads (λ t t'. T.steps t at (GivesBack get reason returned result) t')
            (λ t'. signals_of_step {H = T.Handle} (T.over t')
            (GivesBack get reason returned result))
            self.old self.new }
    {
        step!(self, answer = give_back(at, get, reason, returned));
        self.signals.note_give_up(&answer);
        answer
    }

    #[inline(always)]
    fn put_back(
        &mut self,
        at: Moment,
        returned: Returned<C, T::Permit>,
    ) -> Result<PutBackAnswer<C>, C>
        ensures { Leads (λ t t'. T.steps t at (PutsBack returned result) t')
            (λ t'. signals_of_step {H = T.Handle} (T.over t') (PutsBack returned result))
            self.old self.new }
    {
        step!(self, answer = put_back(at, returned));
        match &answer {
            Ok(PutBackAnswer::Kept(outcome)) => self.signals.note(*outcome, 0),
            Ok(PutBackAnswer::Closed(_, grant, outcome)) => self
                .signals
                .note(*outcome, grant.count),
            Err(_) => {}
        }
        answer
    }

    fn add(&mut self, at: Moment, conn: C, broken: bool) -> Result<AddAnswer<C>, C> {
        step!(self, answer = add(at, conn, broken));
        if let Ok(AddAnswer::Added(_, outcome)) = &answer {
            self.signals.note(*outcome, 0);
        }
        answer
    }

    fn state(&mut self, at: Moment) -> State {
        step!(self, state = state(at));
        state
    }

    fn join(&mut self, at: Moment) -> Joining<T::Handle> {
        step!(self, answer = join(at));
        answer
    }

    fn leave(&mut self, at: Moment, handle: T::Handle) -> Result<LeaveAnswer, Unfit> {
        let mut guard = self.shared.hold(&mut self.held);
        let answer = guard.leave(at, handle);
        self.signals.drivers = guard.is_over() | self.signals.drivers;
        self.held = Some(guard);
        answer
    }

    fn retire(&mut self, at: Moment, closed: &mut ClosedList<C>) -> ReapAnswer {
        step!(self, answer = retire(at, closed));
        if let ReapAnswer::Reaped { grant, .. } = &answer {
            self.signals.note(None, grant.count);
        }
        answer
    }

    fn detach(&mut self, at: Moment, key: Key, permit: T::Permit) -> Result<DetachAnswer, Unfit> {
        step!(self, answer = detach(at, key, permit));
        if let Ok(DetachAnswer::Detached(grant, outcome)) = &answer {
            self.signals.note(*outcome, grant.count);
        }
        answer
    }

    fn close(&mut self, at: Moment, closed: &mut ClosedList<C>) -> Result<LeaveAnswer, Unfit> {
        let mut guard = self.shared.hold(&mut self.held);
        let answer = guard.close(at, closed);
        self.signals.note_over(guard.is_over());
        self.held = Some(guard);
        answer
    }
}

/// Acquires the lock for each step and releases it after the step.
impl<C, S: Locking<T>, T: Home<C>> Home<C> for LockScope<'_, S, T> {
    ghost use Rattle.bb8_lock.specs.Opening.{Visits};

    ghost steps = { λ x at s x'. Visits S.notified (λ t t'. T.steps t at s t') s x x' };

    fn look(&mut self, at: Moment) -> Looked {
        let mut guard = self.shared.hold(&mut self.held);
        guard.look(at)
    }

    fn opened(&mut self, at: Moment, approval: Key, connection: C) -> Result<OpenedAnswer<C>, C> {
        let mut guard = self.shared.hold(&mut self.held);
        let answer = guard.opened(at, approval, connection);
        drop(guard);
        let signals = match &answer {
            Ok(OpenedAnswer::Entered(outcome)) => Signals::of(*outcome, 0),
            Ok(OpenedAnswer::Late(_)) | Err(_) => Signals::NONE,
        };
        self.shared.notify(signals);
        answer
    }

    fn failed(&mut self, at: Moment, approval: Key) -> Result<FailedAnswer, Unfit> {
        let mut guard = self.shared.hold(&mut self.held);
        guard.failed(at, approval)
    }

    fn claim(&mut self, at: Moment) -> ClaimAnswer {
        let mut guard = self.shared.hold(&mut self.held);
        guard.claim(at)
    }

    fn reap(&mut self, at: Moment) -> ReapAnswer {
        let mut guard = self.shared.hold(&mut self.held);
        guard.reap(at)
    }

    fn ask(&mut self, at: Moment) -> Grant {
        let mut guard = self.shared.hold(&mut self.held);
        let grant = guard.ask(at);
        drop(guard);
        self.shared.notify(Signals::of(None, grant.count));
        grant
    }
}
