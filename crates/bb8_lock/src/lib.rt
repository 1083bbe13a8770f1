//! The lock of a pool, and its critical sections. It protects the state and the permits that count
//! checked-out connections. It is acquired by the polls of a get, the return of a guard, adding,
//! statistics, handles that join or leave, connection tasks, and the turns of a driver. Manager,
//! customizer, sink and clock are called while it is free.
#![tactic(auto)]

mod calls;
mod gathered;
pub mod gets;
mod given;
mod handle;
mod home;
mod locked;
mod locks;
mod opens;
mod outside;
mod scope;
mod shared;
mod signal;
mod waits;

pub use calls::{
    add, cancel_and_leave, close, detach, detach_and_leave, give_back, give_back_and_leave,
    is_closed, join, leave, retire, state, take_now,
};
pub use gathered::Gathered;
pub use given::{PoolTypes, TypesOf};
pub use handle::Handle;
pub use locked::{Locked, NewPool, Permit, Permits, PoolPermits, begin_pool};
pub use locks::Locks;
pub use scope::{LockScope, OpensScope};
pub use shared::Shared;
pub use signal::{Locking, Rests, Signal, SignalLock, Sleeper};
pub use waits::wait;
