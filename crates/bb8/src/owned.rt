//! Gets and guards with their own handle.
ghost use Rattle.std.specs.Prelude.{◌≡◌};
ghost use Rattle.std.specs.Arc.{arc_value};

use crate::handles::BareHandle;
use crate::pool::{Cancel, Detach};
use bb8_core::api::RunError;
use bb8_lock::gets::{GetState, Taken};
use bb8_lock::{
    OpensScope, Permit, Permits, PoolTypes, cancel_and_leave, detach_and_leave,
    give_back_and_leave, leave,
};
use futures::Future;
use futures::task::{Context, Poll};
use std::fmt::{Debug, Formatter};
use std::ops::{Deref, DerefMut};
use std::sync::Wait;
use std::{fmt, mem};

/// A guard with its own handle, so that its pool lives as long as the guard does. It dereferences
/// to the connection. bb8's `PooledConnection<'static>`.
///
/// Its drop returns the connection as `PooledConnection` does, and then its handle leaves.
pub struct OwnedConnection<G: PoolTypes, L: Permits> {
    pub(crate) holding: BareHandle<G, L>,
    pub(crate) taken: Taken<G::Connection, Permit<L>>,
}

/// The stage of a get with its own handle, before it resolves.
pub(crate) enum OwnedStage<G: PoolTypes, L: Permits> {
    /// The handle was refused.
    Refused(RunError<G::Error>),
    /// It has its handle.
    Open(BareHandle<G, L>, GetState<G::Connection, G::Checking, Permit<L>>),
}

/// The future that `Pool::get_owned` returns: a get with its own handle, or the reason why it has
/// none; nothing once it resolved.
///
/// Each poll is like one of `GetFuture`. If it is dropped before it resolves, the get is cancelled,
/// and its handle leaves. The handle of a served get moves into the guard; after an error it
/// leaves. bb8's get is an async function.
pub struct GetOwnedFuture<G: PoolTypes, L: Permits> {
    pub(crate) stage: Option<OwnedStage<G, L>>,
}

/// The calls of a handle, and those of a get or guard that has its own. (A trait because of
/// *trait-for-threads*.)
pub(crate) trait OwnedCalls {
    type Get;

    type Polled;

    type Taken;

    type Connection;

    /// Polls a get once.
    fn poll_owned(&self, get: &mut Self::Get) -> Self::Polled;

    /// Cancels a get.
    fn let_go(&self, get: Self::Get);

    /// Cancels a get, and then drops the handle.
    fn cancel_owned(self, get: Self::Get);

    /// Returns a connection, and then drops the handle.
    fn give_back_owned(self, taken: Self::Taken);

    /// Drops the handle.
    fn leave_owned(self);

    /// Takes a connection out of the pool, and then drops the handle.
    fn detach_owned(self, taken: Self::Taken) -> Self::Connection;
}

impl<G: PoolTypes, L: Permits> OwnedCalls for BareHandle<G, L> {
    ghost use Rattle.bb8_lock.specs.Scope.{OwnCancels, OwnCancelsAndLeaves, OwnDetachesAndLeaves, OwnLeaves, OwnPolls, OwnReturnsAndLeaves};

    type Get = GetState<G::Connection, G::Checking, Permit<L>>;

    type Polled = Poll<Result<Taken<G::Connection, Permit<L>>, RunError<G::Error>>>;

    type Taken = Taken<G::Connection, Permit<L>>;

    type Connection = G::Connection;

    fn poll_owned(&self, get: &mut Self::Get) -> Self::Polled
        ensures { OwnPolls (arc_value self.now.shared) get.old.stage result get.new.stage }
    {
        let shared = &*self.shared;
        get.poll_with(shared.scope(), shared.config.connection_timeout)
    }

    fn let_go(&self, get: Self::Get)
        ensures { OwnCancels (arc_value self.now.shared) get.stage }
    {
        let shared = &*self.shared;
        get.cancel_with(shared.scope());
    }

    fn cancel_owned(self, get: Self::Get)
        ensures { OwnCancelsAndLeaves (arc_value self.shared) get.stage }
    {
        let BareHandle { shared, handle } = self;
        let pool = &*shared;
        cancel_and_leave(&mut pool.scope(), get, handle);
    }

    fn give_back_owned(self, taken: Self::Taken)
        ensures { OwnReturnsAndLeaves (arc_value self.shared) taken }
    {
        let BareHandle { shared, handle } = self;
        let pool = &*shared;
        give_back_and_leave(&mut pool.scope(), taken, handle);
    }

    fn leave_owned(self)
        ensures { OwnLeaves (arc_value self.shared) }
    {
        let BareHandle { shared, handle } = self;
        let pool = &*shared;
        leave(&mut pool.scope(), handle);
    }

    fn detach_owned(self, taken: Self::Taken) -> G::Connection
        ensures left { OwnDetachesAndLeaves (arc_value self.shared) taken }
        ensures connection { result ≡ taken.connection }
    {
        let BareHandle { shared, handle } = self;
        let pool = &*shared;
        detach_and_leave(&mut pool.scope(), taken, handle)
    }
}

/// The result of a poll, and the stage after it.
pub(crate) struct OwnedStep<G: PoolTypes, L: Permits> {
    answer: Poll<Result<OwnedConnection<G, L>, RunError<G::Error>>>,
    stage: Option<OwnedStage<G, L>>,
}

/// The steps of the future from stage to stage. (A trait because of *trait-for-threads*.)
trait OwnedStages {
    type OwnedStage;

    type OwnedStep;

    /// Polls the stage once.
    fn poll_stage(stage: Self::OwnedStage) -> Self::OwnedStep;

    /// Cancels the stage.
    fn cancel_stage(stage: Self::OwnedStage);
}

impl<G: PoolTypes, L: Permits> OwnedStages for GetOwnedFuture<G, L> {
    ghost use Rattle.bb8.specs.Owned.{CancelsOwned, OwnedPolls};

    type OwnedStage = Option<OwnedStage<G, L>>;

    type OwnedStep = OwnedStep<G, L>;

    fn poll_stage(stage: Self::OwnedStage) -> Self::OwnedStep
        ensures { OwnedPolls stage result.answer result.stage }
    {
        match stage {
            None => OwnedStep {
                answer: Poll::Pending,
                stage: None,
            },
            Some(OwnedStage::Refused(error)) => OwnedStep {
                answer: Poll::Ready(Err(error)),
                stage: None,
            },
            Some(OwnedStage::Open(holding, mut get)) => match holding.poll_owned(&mut get) {
                Poll::Pending => OwnedStep {
                    answer: Poll::Pending,
                    stage: Some(OwnedStage::Open(holding, get)),
                },
                Poll::Ready(Err(error)) => {
                    // The get resolved, so its cancellation calls nothing.
                    holding.let_go(get);
                    holding.leave_owned();
                    OwnedStep {
                        answer: Poll::Ready(Err(error)),
                        stage: None,
                    }
                }
                Poll::Ready(Ok(taken)) => {
                    // As above.
                    holding.let_go(get);
                    OwnedStep {
                        answer: Poll::Ready(Ok(OwnedConnection { holding, taken })),
                        stage: None,
                    }
                }
            },
        }
    }

    fn cancel_stage(stage: Self::OwnedStage)
        ensures { CancelsOwned stage }
    {
        match stage {
            None => {}
            Some(OwnedStage::Refused(error)) => drop(error),
            Some(OwnedStage::Open(holding, get)) => holding.cancel_owned(get),
        }
    }
}

impl<G: PoolTypes<Runtime: Wait>, L: Permits> Cancel for GetOwnedFuture<G, L> {
    ghost use Rattle.bb8.specs.Owned.{CancelsOwned};

    fn cancel(self)
        ensures { CancelsOwned self.stage }
    {
        drop(self);
    }
}

impl<G: PoolTypes, L: Permits> Drop for GetOwnedFuture<G, L> {
    ghost use Rattle.bb8.specs.Owned.{CancelsOwned};

    fn drop(self)
        ensures { CancelsOwned self.stage }
    {
        let GetOwnedFuture { stage } = self;
        Self::cancel_stage(stage);
    }
}

impl<G: PoolTypes<Runtime: Wait>, L: Permits> Future for GetOwnedFuture<G, L> {
    ghost use Rattle.std.specs.Prelude.{⊤};
    ghost use Rattle.futures.specs.Poll.{IfReady, OnPending};
    ghost use Rattle.futures.specs.Task.{Covers, Keeps};
    ghost use Rattle.bb8.specs.Owned.{GivesOwned, PollsOwned};

    type Output = Result<OwnedConnection<G, L>, RunError<G::Error>>;

    ghost gives = { λ future out. GivesOwned future out };

    /// Polls once, at the clock's reading. It is pending while the get waits before its deadline,
    /// and after it resolved.
    fn poll(&mut self, cx: &mut Context<'_>) -> Poll<Self::Output>
        ensures table { PollsOwned self.old result self.new }
        ensures value { IfReady result (λ out. GivesOwned self.old out) }
        ensures again { OnPending result ⊤ }
        ensures same { OnPending result ((x : _) → GivesOwned self.new x → GivesOwned self.old x) }
        ensures registered { OnPending result (Covers cx.new (λ _. ⊥)) }
        ensures kept { Keeps cx.old cx.new }
    {
        let stage = mem::replace(&mut self.stage, None);
        let OwnedStep { answer, stage } = Self::poll_stage(stage);
        match mem::replace(&mut self.stage, stage) {
            None => {}
            Some(_) => unreachable!(),
        }
        match answer {
            Poll::Ready(answer) => Poll::Ready(answer),
            Poll::Pending => cx.yield_now(),
        }
    }
}

impl<G: PoolTypes, L: Permits> Drop for OwnedConnection<G, L> {
    ghost use Rattle.bb8_lock.specs.Scope.{OwnReturnsAndLeaves};

    fn drop(self)
        ensures { OwnReturnsAndLeaves (arc_value self.holding.shared) self.taken }
    {
        let OwnedConnection { holding, taken } = self;
        holding.give_back_owned(taken);
    }
}

impl<G: PoolTypes<Runtime: Wait>, L: Permits> Detach for OwnedConnection<G, L> {
    ghost use Rattle.bb8_lock.specs.Scope.{OwnDetachesAndLeaves};

    type Connection = G::Connection;

    fn detach(self) -> G::Connection
        ensures left { OwnDetachesAndLeaves (arc_value self.holding.shared) self.taken }
        ensures connection { result ≡ self.taken.connection }
    {
        let OwnedConnection { holding, taken } = self;
        holding.detach_owned(taken)
    }
}

impl<G: PoolTypes, L: Permits> Deref for OwnedConnection<G, L> {
    type Target = G::Connection;

    ghost deref_gives = { λ guard connection. connection ≡ guard.taken.connection };

    fn deref(&self) -> &G::Connection {
        &self.taken.connection
    }
}

impl<G: PoolTypes, L: Permits> DerefMut for OwnedConnection<G, L> {
    ghost use Rattle.std.specs.Borrow.{Lends, sem};
    ghost use Rattle.bb8.specs.Owned.{with_connection};
    ghost use Rattle.bb8.specs.contracts.owned.OwnedConnection.{the_row};

    ghost deref_mut_gives = { λ guard connection. connection ≡ guard.taken.connection };

    fn deref_mut(&mut self) -> &mut G::Connection
        ensures* writes_back { sem 𝓛 (Lends
            (the_row G.row L.row G.Manager.row G.Sink.row G.Customizer.row G.Clock.row G.Runtime.row G.Connection.row G.Error.row G.Connecting.row G.Checking.row G.Acquiring.row _ _ _ _ _ _
            (record { name = L.name; parts = L.parts }))
            G.Connection.row self.entry result (with_connection self.old)) }
        ensures shows { result.now ≡ self.old.taken.connection }
    {
        let taken = &mut self.taken;
        &mut taken.connection
    }
}

impl<G: PoolTypes, L: Permits> Debug for OwnedConnection<G, L>
where
    G::Connection: Debug,
{
    /// Prints the connection. As bb8.
    fn fmt<W: fmt::Write>(&self, f: &mut Formatter<W>) -> fmt::Result {
        self.taken.connection.fmt(f)
    }
}
