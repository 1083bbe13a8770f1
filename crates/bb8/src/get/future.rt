//! The future of a get.
ghost use Rattle.std.specs.Prelude.{◌≡◌};

use crate::pool::{Cancel, PooledConnection};
use bb8_core::api::RunError;
use bb8_lock::gets::GetState;
use bb8_lock::{OpensScope, Permit, Permits, PoolTypes, Shared};
use futures::Future;
use futures::task::{Context, Poll};
use std::marker::PhantomData;
use std::sync::Wait;

/// The future that `Pool::get` returns. It does nothing until it is polled.
///
/// Each poll reads the pool's clock. It acquires the pool's lock once if no check is made, and
/// releases it before each callback to the manager, the error sink or the clock. A pending one asks
/// to be polled again at once. If it is dropped before it resolves, the get is cancelled; if it was
/// never polled, or has resolved, the drop reads no clock and acquires no lock. bb8's get is an
/// async function.
pub struct GetFuture<'a, G: PoolTypes, L: Permits> {
    pub(crate) shared: &'a Shared<G, L>,
    pub(crate) get: GetState<G::Connection, G::Checking, Permit<L>>,
}

impl<G: PoolTypes<Runtime: Wait>, L: Permits> Cancel for GetFuture<'_, G, L> {
    ghost use Rattle.bb8.specs.Gets.{CancelsGet};

    fn cancel(self)
        ensures { CancelsGet self.entry }
    {
        drop(self);
    }
}

impl<G: PoolTypes, L: Permits> Drop for GetFuture<'_, G, L> {
    ghost use Rattle.bb8.specs.Gets.{CancelsGet};

    fn drop(self)
        ensures { CancelsGet self.entry }
    {
        let GetFuture { shared, get } = self;
        get.cancel_with(shared.scope());
    }
}

impl<'a, G: PoolTypes<Runtime: Wait>, L: Permits> Future for GetFuture<'a, G, L> {
    ghost use Rattle.std.specs.Prelude.{⊤};
    ghost use Rattle.futures.specs.Poll.{IfReady, OnPending};
    ghost use Rattle.futures.specs.Task.{Covers, Keeps};
    ghost use Rattle.bb8.specs.Gets.{GivesAtLast, PollsGet};

    type Output = Result<PooledConnection<'a, G, L>, RunError<G::Error>>;

    ghost gives = { λ future out. GivesAtLast future out };

    /// Polls once, at the clock's reading. It is pending while the get waits before its deadline,
    /// and after it resolved.
    fn poll(&mut self, cx: &mut Context<'_>) -> Poll<Self::Output>
        ensures table { PollsGet self.old result self.new }
        ensures pool { self.new.shared.now ≡ self.old.shared.now }
        ensures value { IfReady result (λ out. GivesAtLast self.old out) }
        ensures again { OnPending result ⊤ }
        ensures same { OnPending result
            ((x : _) → GivesAtLast self.new x → GivesAtLast self.old x) }
        ensures registered { OnPending result (Covers cx.new (λ _. ⊥)) }
        ensures kept { Keeps cx.old cx.new }
    {
        let shared = self.shared;
        let timeout = shared.config.connection_timeout;
        let answer = match self.get.poll_with(shared.scope(), timeout) {
            Poll::Ready(answer) => answer,
            Poll::Pending => return cx.yield_now(),
        };
        match answer {
            Ok(taken) => Poll::Ready(Ok(PooledConnection {
                shared,
                taken,
                lends: PhantomData,
            })),
            Err(error) => Poll::Ready(Err(error)),
        }
    }
}
