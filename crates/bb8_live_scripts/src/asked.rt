//! The handles of a script's pool, and what the script calls on them.

use crate::ending::{LentEnding, OwnedEnding};
use crate::shelf::Shelf;
use bb8::{AddError, Memory, RunError, State};
use bb8_trials::{
    Either, OwnedHandle, Polled, Refused, Server, ServerConnection, Unbuilt, cancel_either,
    poll_either,
};
use futures::task::Poll;
use futures::test::MockTask;
use std::alloc::Global;

/// The number of a connection, how many checks of it were begun, and its field, set by the
/// customizer.
pub type Facts = (u64, u64, u64);

/// Returns the facts of a connection.
pub fn facts_of(connection: &ServerConnection) -> Facts {
    (connection.number, connection.checks, connection.field)
}

/// The calls of a script on its pool. A call on a handle that does not exist, or that such handles
/// do not have, returns None.
pub trait Asked: Drop {
    /// A get, which borrows a handle or has its own.
    type Get: Drop;

    /// Its guard.
    type Guard: Drop;

    /// An attempt to open a connection that the pool does not count.
    type Dedicated: Drop;

    fn get(&self, handle: u64) -> Option<Self::Get>;

    fn get_owned(&self, handle: u64) -> Option<Self::Get>;

    fn poll(&self, task: &MockTask, get: &mut Self::Get) -> Polled<Self::Guard, Refused>;

    fn cancel(&self, get: Self::Get);

    /// Makes a get that never waits.
    fn try_get(&self) -> Option<Result<Option<Self::Guard>, RunError<Refused>>> {
        None
    }

    fn facts(guard: &Self::Guard) -> Facts;

    /// Marks the guard's connection as broken.
    fn spoil(guard: &mut Self::Guard);

    /// Takes the guard's connection out of the pool for good.
    fn detach(guard: Self::Guard) -> ServerConnection;

    /// Makes a get, polls it once and cancels it. Returns whether it was served.
    fn serves(&self, task: &MockTask, handle: u64) -> Option<bool>;

    fn add(
        &self,
        handle: u64,
        connection: ServerConnection,
    ) -> Option<Result<(), AddError<ServerConnection>>>;

    fn state(&self, handle: u64) -> Option<State>;

    fn retire(&self, alloc: Global, handle: u64) -> Option<()>;

    /// Closes the pool by a handle.
    fn close(&self, alloc: Global, handle: u64) -> Option<()>;

    fn is_closed(&self, handle: u64) -> Option<bool>;

    fn dedicated(&self) -> Option<Self::Dedicated> {
        None
    }

    fn poll_dedicated(
        &self,
        _task: &MockTask,
        _opening: &mut Self::Dedicated,
    ) -> Poll<Result<ServerConnection, Refused>> {
        Poll::Pending
    }

    fn cancel_dedicated(&self, opening: Self::Dedicated) {
        drop(opening);
    }

    /// Clones a handle under this number.
    fn clone_to(&mut self, _number: u64) -> Option<()> {
        None
    }

    fn leave(&mut self, _handle: u64) -> Option<()> {
        None
    }

    /// Polls the build of the pool. Its pool becomes handle 0.
    fn build(&mut self, _task: &MockTask) -> Option<Polled<(), Refused>> {
        None
    }

    fn cancel_building(&mut self) -> Option<()> {
        None
    }
}

/// One or two handles by reference.
#[derive(Drop)]
pub struct Lent<P: LentEnding<Server> + Drop> {
    pub first: P,
    pub second: Option<P>,
}

impl<P: LentEnding<Server> + Drop> Lent<P> {
    fn handle(&self, handle: u64) -> Option<P> {
        match handle {
            0 => Some(self.first),
            1 => self.second,
            _ => None,
        }
    }
}

impl<P: LentEnding<Server> + Drop> Asked for Lent<P> {
    type Get = Either<P::Get, P::OwnedGet>;

    type Guard = Either<P::Guard, P::OwnedGuard>;

    type Dedicated = P::Dedicated;

    fn get(&self, handle: u64) -> Option<Self::Get> {
        Some(Either::Lent(self.handle(handle)?.get()))
    }

    fn get_owned(&self, handle: u64) -> Option<Self::Get> {
        Some(Either::Owned(self.handle(handle)?.get_owned()))
    }

    fn poll(&self, task: &MockTask, get: &mut Self::Get) -> Polled<Self::Guard, Refused> {
        poll_either(self.first, task, get)
    }

    fn cancel(&self, get: Self::Get) {
        cancel_either(self.first, get);
    }

    fn try_get(&self) -> Option<Result<Option<Self::Guard>, RunError<Refused>>> {
        Some(match self.first.try_get() {
            Ok(Some(guard)) => Ok(Some(Either::Lent(guard))),
            Ok(None) => Ok(None),
            Err(error) => Err(error),
        })
    }

    fn facts(guard: &Self::Guard) -> Facts {
        match guard {
            Either::Lent(guard) => facts_of(guard),
            Either::Owned(guard) => facts_of(guard),
        }
    }

    fn spoil(guard: &mut Self::Guard) {
        match guard {
            Either::Lent(guard) => guard.is_broken = true,
            Either::Owned(guard) => guard.is_broken = true,
        }
    }

    fn detach(guard: Self::Guard) -> ServerConnection {
        match guard {
            Either::Lent(guard) => P::detach(guard),
            Either::Owned(guard) => P::detach_owned(guard),
        }
    }

    fn serves(&self, task: &MockTask, handle: u64) -> Option<bool> {
        Some(self.handle(handle)?.lend(task).is_some())
    }

    fn add(
        &self,
        handle: u64,
        connection: ServerConnection,
    ) -> Option<Result<(), AddError<ServerConnection>>> {
        Some(self.handle(handle)?.add(connection))
    }

    fn state(&self, handle: u64) -> Option<State> {
        Some(self.handle(handle)?.state())
    }

    fn retire(&self, alloc: Global, handle: u64) -> Option<()> {
        self.handle(handle)?.retire(alloc);
        Some(())
    }

    fn close(&self, alloc: Global, handle: u64) -> Option<()> {
        self.handle(handle)?.close(alloc);
        Some(())
    }

    fn is_closed(&self, handle: u64) -> Option<bool> {
        Some(self.handle(handle)?.is_closed())
    }

    fn dedicated(&self) -> Option<P::Dedicated> {
        Some(self.first.dedicated_connection())
    }

    fn poll_dedicated(
        &self,
        task: &MockTask,
        opening: &mut P::Dedicated,
    ) -> Poll<Result<ServerConnection, Refused>> {
        self.first.poll_dedicated(task, opening)
    }

    fn cancel_dedicated(&self, opening: P::Dedicated) {
        self.first.cancel_dedicated(opening);
    }
}

/// Handles that the script may make and drop, or a build that has no pool yet.
#[derive(Drop)]
pub struct Handles<B: Unbuilt<Server, Pool: OwnedEnding<Server>>> {
    pub building: Option<B>,
    pub handles: Shelf<B::Pool>,
}

impl<B: Unbuilt<Server, Pool: OwnedEnding<Server>>> Asked for Handles<B> {
    type Get = <B::Pool as OwnedHandle<Server>>::OwnedGet;

    type Guard = <B::Pool as OwnedHandle<Server>>::OwnedGuard;

    type Dedicated = ();

    fn get(&self, _handle: u64) -> Option<Self::Get> {
        None
    }

    fn get_owned(&self, handle: u64) -> Option<Self::Get> {
        Some(self.handles.get(handle)?.get_owned())
    }

    fn poll(&self, task: &MockTask, get: &mut Self::Get) -> Polled<Self::Guard, Refused> {
        B::Pool::poll_owned(task, get)
    }

    fn cancel(&self, get: Self::Get) {
        B::Pool::cancel_owned(get);
    }

    fn facts(guard: &Self::Guard) -> Facts {
        facts_of(guard)
    }

    fn spoil(guard: &mut Self::Guard) {
        guard.is_broken = true;
    }

    fn detach(guard: Self::Guard) -> ServerConnection {
        B::Pool::detach(guard)
    }

    fn serves(&self, task: &MockTask, handle: u64) -> Option<bool> {
        Some(self.handles.get(handle)?.serves_at_once(task))
    }

    fn add(
        &self,
        handle: u64,
        connection: ServerConnection,
    ) -> Option<Result<(), AddError<ServerConnection>>> {
        Some(self.handles.get(handle)?.add(connection))
    }

    fn state(&self, handle: u64) -> Option<State> {
        Some(self.handles.get(handle)?.state())
    }

    fn retire(&self, alloc: Global, handle: u64) -> Option<()> {
        self.handles.get(handle)?.retire(alloc);
        Some(())
    }

    fn close(&self, alloc: Global, handle: u64) -> Option<()> {
        self.handles.get(handle)?.close(alloc);
        Some(())
    }

    fn is_closed(&self, handle: u64) -> Option<bool> {
        Some(self.handles.get(handle)?.is_closed())
    }

    fn clone_to(&mut self, number: u64) -> Option<()> {
        let clone = self.handles.get(0)?.try_clone().ok()?;
        self.handles.put(number, clone)
    }

    fn leave(&mut self, handle: u64) -> Option<()> {
        drop(self.handles.take(handle)?);
        Some(())
    }

    fn build(&mut self, task: &MockTask) -> Option<Polled<(), Refused>> {
        Some(match self.building.as_mut()?.poll(task) {
            Poll::Ready(Ok(pool)) => {
                self.handles.put(0, pool)?;
                Poll::Ready(Ok(()))
            }
            Poll::Ready(Err(error)) => Poll::Ready(Err(error)),
            Poll::Pending => Poll::Pending,
        })
    }

    fn cancel_building(&mut self) -> Option<()> {
        self.building.take()?.cancel();
        Some(())
    }
}
