//! Calls that retire or close a pool, or detach a guard, without their clauses. `bb8_trials` has
//! the other calls.

use bb8::pool::Pool;
use bb8::{Detach, ManageConnection, PoolCalls, PoolPermits, PoolTypes};
use bb8_trials::{LentHandle, OwnedHandle};
use std::alloc::Global;
use std::sync::Wait;

/// A handle by reference that can retire and close its pool, with guards that can be detached.
pub trait LentEnding<M: ManageConnection>: LentHandle<M> {
    fn retire(self, alloc: Global);

    fn close(self, alloc: Global);

    fn is_closed(self) -> bool;

    fn detach(guard: Self::Guard) -> M::Connection;

    fn detach_owned(guard: Self::OwnedGuard) -> M::Connection;
}

impl<'a, G: PoolTypes<Runtime: Wait>, L: PoolPermits> LentEnding<G::Manager> for &'a Pool<G, L> {
    fn retire(self, alloc: Global) {
        PoolCalls::retire(self, alloc);
    }

    fn close(self, alloc: Global) {
        PoolCalls::close(self, alloc);
    }

    fn is_closed(self) -> bool {
        PoolCalls::is_closed(self)
    }

    fn detach(guard: Self::Guard) -> G::Connection {
        Detach::detach(guard)
    }

    fn detach_owned(guard: Self::OwnedGuard) -> G::Connection {
        Detach::detach(guard)
    }
}

/// As `LentEnding`, for a handle that the script may drop.
pub trait OwnedEnding<M: ManageConnection>: OwnedHandle<M> {
    fn retire(&self, alloc: Global);

    fn close(&self, alloc: Global);

    fn is_closed(&self) -> bool;

    fn detach(guard: Self::OwnedGuard) -> M::Connection;
}

impl<G: PoolTypes<Runtime: Wait>, L: PoolPermits> OwnedEnding<G::Manager> for Pool<G, L> {
    fn retire(&self, alloc: Global) {
        PoolCalls::retire(self, alloc);
    }

    fn close(&self, alloc: Global) {
        PoolCalls::close(self, alloc);
    }

    fn is_closed(&self) -> bool {
        PoolCalls::is_closed(self)
    }

    fn detach(guard: Self::OwnedGuard) -> G::Connection {
        Detach::detach(guard)
    }
}
