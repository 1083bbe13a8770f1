//! A pool as tests use it: calls without clauses.
//!
//! A test asserts what it finds, and proves nothing. So its body is generic over a handle whose
//! calls have no clauses, and meets none of a live pool's contracts. Those are met here, once.

use bb8::building::Building;
use bb8::dedicated::DedicatedFuture;
use bb8::get::GetFuture;
use bb8::owned::{GetOwnedFuture, OwnedConnection};
use bb8::pool::{Pool, PooledConnection};
use bb8::{
    AddError, Cancel, Gets, ManageConnection, PoolCalls, PoolPermits, PoolTypes, RunError, State,
};
use futures::task::Poll;
use futures::test::MockTask;
use std::ops::DerefMut;
use std::sync::Wait;

/// The result of a poll of a get.
pub type Polled<G, E> = Poll<Result<G, RunError<E>>>;

/// Returns how many connections a pool has, and how many are idle.
pub fn sizes(state: State) -> (u32, u32) {
    (state.connections, state.idle_connections)
}

/// One of two kinds of gets or guards: without or with its own handle.
#[derive(Drop)]
pub enum Either<A: Drop, B: Drop> {
    Lent(A),
    Owned(B),
}

/// A handle of a manager's pool, by reference.
pub trait LentHandle<M: ManageConnection>: Copy {
    /// A get.
    type Get: Drop;

    /// Its guard.
    type Guard: DerefMut<Target = M::Connection> + Drop;

    /// A get with its own handle.
    type OwnedGet: Drop;

    /// Its guard.
    type OwnedGuard: DerefMut<Target = M::Connection> + Drop;

    /// An attempt to open a connection that the pool does not count.
    type Dedicated: Drop;

    fn get(self) -> Self::Get;

    fn poll(self, task: &MockTask, get: &mut Self::Get) -> Polled<Self::Guard, M::Error>;

    fn cancel(self, get: Self::Get);

    /// Returns the guard of a get that is served at its first poll. A get that would wait is
    /// cancelled.
    fn lend(self, task: &MockTask) -> Option<Self::Guard>;

    fn try_get(self) -> Result<Option<Self::Guard>, RunError<M::Error>>;

    fn get_owned(self) -> Self::OwnedGet;

    fn poll_owned(
        self,
        task: &MockTask,
        get: &mut Self::OwnedGet,
    ) -> Polled<Self::OwnedGuard, M::Error>;

    fn cancel_owned(self, get: Self::OwnedGet);

    fn dedicated_connection(self) -> Self::Dedicated;

    fn poll_dedicated(
        self,
        task: &MockTask,
        opening: &mut Self::Dedicated,
    ) -> Poll<Result<M::Connection, M::Error>>;

    fn cancel_dedicated(self, opening: Self::Dedicated);

    fn add(self, connection: M::Connection) -> Result<(), AddError<M::Connection>>;

    fn state(self) -> State;
}

impl<'a, G: PoolTypes<Runtime: Wait>, L: PoolPermits> LentHandle<G::Manager> for &'a Pool<G, L> {
    type Get = GetFuture<'a, G, L>;

    type Guard = PooledConnection<'a, G, L>;

    type OwnedGet = GetOwnedFuture<G, L>;

    type OwnedGuard = OwnedConnection<G, L>;

    type Dedicated = DedicatedFuture<'a, G, L>;

    fn get(self) -> Self::Get {
        Gets::get(self)
    }

    fn poll(self, task: &MockTask, get: &mut Self::Get) -> Polled<Self::Guard, G::Error> {
        task.poll(get)
    }

    fn cancel(self, get: Self::Get) {
        Cancel::cancel(get);
    }

    fn lend(self, task: &MockTask) -> Option<Self::Guard> {
        match task.poll(&mut Gets::get(self)) {
            Poll::Ready(Ok(guard)) => Some(guard),
            _ => None,
        }
    }

    fn try_get(self) -> Result<Option<Self::Guard>, RunError<G::Error>> {
        PoolCalls::try_get(self)
    }

    fn get_owned(self) -> Self::OwnedGet {
        PoolCalls::get_owned(self)
    }

    fn poll_owned(
        self,
        task: &MockTask,
        get: &mut Self::OwnedGet,
    ) -> Polled<Self::OwnedGuard, G::Error> {
        task.poll(get)
    }

    fn cancel_owned(self, get: Self::OwnedGet) {
        Cancel::cancel(get);
    }

    fn dedicated_connection(self) -> Self::Dedicated {
        Gets::dedicated_connection(self)
    }

    fn poll_dedicated(
        self,
        task: &MockTask,
        opening: &mut Self::Dedicated,
    ) -> Poll<Result<G::Connection, G::Error>> {
        task.poll(opening)
    }

    fn cancel_dedicated(self, opening: Self::Dedicated) {
        Cancel::cancel(opening);
    }

    fn add(self, connection: G::Connection) -> Result<(), AddError<G::Connection>> {
        PoolCalls::add(self, connection)
    }

    fn state(self) -> State {
        PoolCalls::state(self)
    }
}

/// Polls a get of either kind.
pub fn poll_either<M: ManageConnection, P: LentHandle<M>>(
    pool: P,
    task: &MockTask,
    get: &mut Either<P::Get, P::OwnedGet>,
) -> Polled<Either<P::Guard, P::OwnedGuard>, M::Error> {
    match get {
        Either::Lent(get) => match pool.poll(task, get) {
            Poll::Ready(Ok(guard)) => Poll::Ready(Ok(Either::Lent(guard))),
            Poll::Ready(Err(error)) => Poll::Ready(Err(error)),
            Poll::Pending => Poll::Pending,
        },
        Either::Owned(get) => match pool.poll_owned(task, get) {
            Poll::Ready(Ok(guard)) => Poll::Ready(Ok(Either::Owned(guard))),
            Poll::Ready(Err(error)) => Poll::Ready(Err(error)),
            Poll::Pending => Poll::Pending,
        },
    }
}

/// Cancels a get of either kind.
pub fn cancel_either<M: ManageConnection, P: LentHandle<M>>(
    pool: P,
    get: Either<P::Get, P::OwnedGet>,
) {
    match get {
        Either::Lent(get) => pool.cancel(get),
        Either::Owned(get) => pool.cancel_owned(get),
    }
}

/// A handle of a pool, for a trial that drops it and goes on. Its gets have their own handle.
pub trait OwnedHandle<M: ManageConnection>: Drop {
    /// A get with its own handle.
    type OwnedGet: Drop;

    /// Its guard.
    type OwnedGuard: DerefMut<Target = M::Connection> + Drop;

    fn get_owned(&self) -> Self::OwnedGet;

    fn poll_owned(task: &MockTask, get: &mut Self::OwnedGet) -> Polled<Self::OwnedGuard, M::Error>;

    fn cancel_owned(get: Self::OwnedGet);

    /// Whether a get without its own handle is served at its first poll.
    fn serves_at_once(&self, task: &MockTask) -> bool;

    fn add(&self, connection: M::Connection) -> Result<(), AddError<M::Connection>>;

    fn state(&self) -> State;

    fn try_clone(&self) -> Result<Self, RunError<M::Error>>
    where
        Self: Sized;
}

impl<G: PoolTypes<Runtime: Wait>, L: PoolPermits> OwnedHandle<G::Manager> for Pool<G, L> {
    type OwnedGet = GetOwnedFuture<G, L>;

    type OwnedGuard = OwnedConnection<G, L>;

    fn get_owned(&self) -> Self::OwnedGet {
        PoolCalls::get_owned(self)
    }

    fn poll_owned(task: &MockTask, get: &mut Self::OwnedGet) -> Polled<Self::OwnedGuard, G::Error> {
        task.poll(get)
    }

    fn cancel_owned(get: Self::OwnedGet) {
        Cancel::cancel(get);
    }

    fn serves_at_once(&self, task: &MockTask) -> bool {
        matches!(task.poll(&mut Gets::get(self)), Poll::Ready(Ok(_)))
    }

    fn add(&self, connection: G::Connection) -> Result<(), AddError<G::Connection>> {
        PoolCalls::add(self, connection)
    }

    fn state(&self) -> State {
        PoolCalls::state(self)
    }

    fn try_clone(&self) -> Result<Self, RunError<G::Error>> {
        PoolCalls::try_clone(self)
    }
}

/// A pool that is being built.
pub trait Unbuilt<M: ManageConnection>: Drop {
    /// The built pool.
    type Pool: OwnedHandle<M>;

    fn poll(&mut self, task: &MockTask) -> Polled<Self::Pool, M::Error>;

    fn cancel(self);
}

impl<G: PoolTypes<Runtime: Wait + AllocGlobal>, L: PoolPermits> Unbuilt<G::Manager>
    for Building<G, L> {
    type Pool = Pool<G, L>;

    fn poll(&mut self, task: &MockTask) -> Polled<Self::Pool, G::Error> {
        task.poll(self)
    }

    fn cancel(self) {
        Cancel::cancel(self);
    }
}
