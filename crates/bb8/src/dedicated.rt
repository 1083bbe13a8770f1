//! The future of a connection that the pool opens and does not count.
ghost use Rattle.std.specs.Prelude.{◌≡◌};

use crate::pool::Cancel;
use bb8_core::api::Moment;
use bb8_lock::{OpensScope, Permits, PoolTypes, Shared};
pub use bb8_tasks::{Attempt, Dedicated, Opened};
use futures::Future;
use futures::task::{Context, Poll};
use std::mem;

/// The future that `Pool::dedicated_connection` returns. It does nothing until it is polled.
///
/// Each poll reads the pool's clock; none acquires the pool's lock. A pending one asks to be polled
/// again at once. If it is dropped before it resolves, its attempt or connection is dropped. bb8's
/// is an async function.
pub struct DedicatedFuture<'a, G: PoolTypes, L: Permits> {
    pub(crate) shared: &'a Shared<G, L>,
    pub(crate) latest: Moment,
    pub(crate) stage: Attempt<G::Connection, G::Connecting, G::Acquiring>,
}

impl<G: PoolTypes, L: Permits> Cancel for DedicatedFuture<'_, G, L> {
    ghost use Rattle.bb8.specs.Dedicated.{CancelsDedicated};

    fn cancel(self)
        ensures { CancelsDedicated self.entry }
    {
        drop(self);
    }
}

impl<G: PoolTypes, L: Permits> Drop for DedicatedFuture<'_, G, L> {
    ghost use Rattle.bb8.specs.Dedicated.{CancelsDedicated};

    fn drop(self)
        ensures { CancelsDedicated self.entry }
    {
        let DedicatedFuture {
            shared,
            latest,
            stage,
        } = self;
        Dedicated { latest, stage }.cancel(&mut shared.scope());
    }
}

impl<'a, G: PoolTypes, L: Permits> Future for DedicatedFuture<'a, G, L> {
    ghost use Rattle.std.specs.Prelude.{⊤};
    ghost use Rattle.futures.specs.Poll.{IfReady, OnPending};
    ghost use Rattle.futures.specs.Task.{Covers, Keeps};
    ghost use Rattle.bb8.specs.Dedicated.{GivesDedicated, PollsDedicated};

    type Output = Result<G::Connection, G::Error>;

    ghost gives = { λ future out. GivesDedicated future out };

    /// Polls once, at the latest clock reading so far. It is pending while the manager or the
    /// customizer is, and after it resolved.
    fn poll(&mut self, cx: &mut Context<'_>) -> Poll<Self::Output>
        ensures table { PollsDedicated self.old result self.new }
        ensures pool { self.new.shared.now ≡ self.old.shared.now }
        ensures value { IfReady result (λ out. GivesDedicated self.old out) }
        ensures again { OnPending result ⊤ }
        ensures same { OnPending result
            ((x : _) → GivesDedicated self.new x
            → GivesDedicated self.old x) }
        ensures registered { OnPending result (Covers cx.new (λ _. ⊥)) }
        ensures kept { Keeps cx.old cx.new }
    {
        let shared = self.shared;
        let stage = mem::replace(&mut self.stage, Attempt::Done);
        let mut opening = Dedicated {
            latest: self.latest,
            stage,
        };
        let answer = opening.poll(&mut shared.scope());
        let Dedicated { latest, stage } = opening;
        self.latest = latest;
        match mem::replace(&mut self.stage, stage) {
            Attempt::Done => {}
            _ => unreachable!(),
        }
        match answer {
            Poll::Ready(answer) => Poll::Ready(answer),
            Poll::Pending => cx.yield_now(),
        }
    }
}
