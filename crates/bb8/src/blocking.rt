//! A manager of clients that block, with three plain methods, and its wrapper for pools. bb8 has
//! neither.
ghost use Rattle.std.specs.Prelude.{◌≡◌, ⊤, Bool, Result};
ghost use Rattle.futures.specs.declared.task.Poll.TheVariants.{Ready};

use bb8_core::api::{ManageConnection, Moment};
use futures::task::Poll;
use std::fmt::Debug;

/// Opens and checks the connections of a pool with calls that may block. A pool takes it as
/// `Blocking(manager)`. bb8 has no such trait.
///
/// A call blocks its thread until it returns. `connect` blocks a driver's: its other attempts and
/// its reaper wait. `is_valid` blocks the thread of the get's caller, possibly past the get's
/// deadline. So give the client a time limit of its own, or run more drivers, each in a thread of
/// its own. For a client that can be polled, implement `ManageConnection` itself.
///
/// Each method has a ghost member: a relation between its arguments and its result. The implementer
/// chooses it; an omitted one allows everything.
pub trait BlockingManager: Sized + Send + Sync + Drop + 'static {
    /// The connection that the pool keeps and checks out.
    type Connection: Send + Drop + 'static;

    /// The error of an attempt or a check that failed.
    type Error: Debug + Send + Drop + 'static;

    // Relates a manager to each result of a connection attempt.
    ghost opens: { Self → Result Self.Connection Self.Error → Type 0 } = { λ _ _. ⊤ };

    // Relates a manager and a connection to each result of its check, and to the connection after
    // it.
    ghost validates: { Self → Self.Connection → Result (Unit {0}) Self.Error → Self.Connection → Type 0 } = { λ _ _ _ _. ⊤ };

    // Relates a manager and a connection to each result of `has_broken`, and to the connection
    // after it.
    ghost breaks: { Self → Self.Connection → Bool → Self.Connection → Type 0 } = { λ _ _ _ _. ⊤ };

    /// Opens a connection. It returns once the connection is open or the attempt has failed, and
    /// may block until then. In bb8 it is async.
    fn connect(&self) -> Result<Self::Connection, Self::Error>
        ensures { opens self.now result };

    /// Checks whether a connection still works. Returns Ok if it does, an error if it must be
    /// closed. It may block until that is known. In bb8 it is async.
    fn is_valid(&self, connection: &mut Self::Connection) -> Result<(), Self::Error>
        ensures { validates self.now connection.old result connection.new };

    /// Returns, without waiting, whether a connection is known to be useless. As in bb8.
    fn has_broken(&self, connection: &mut Self::Connection) -> bool
        ensures { breaks self.now connection.old result connection.new };
}

/// The `ManageConnection` that calls a `BlockingManager`. It is a wrapper because of *only-match*
/// in docs/TOOLCHAIN.md. bb8 has no such wrapper.
///
/// To begin an attempt or a check makes no call. Its first poll makes the one call, blocks its
/// thread until that returns, and is ready.
#[derive(Drop)]
pub struct Blocking<B: BlockingManager>(
    /// The manager of the connections.
    pub B,
);

/// To begin an attempt or a check changes nothing. A poll is ready with the result of its call.
impl<B: BlockingManager> ManageConnection for Blocking<B> {
    type Connection = B::Connection;

    type Error = B::Error;

    type Connecting = ();

    type Checking = ();

    ghost connect_answers = { λ manager _ _ answer _.
        (opened : Result B.Connection B.Error) × (answer ≡ Ready opened) × B.opens manager.0 opened };

    ghost checks = { λ _ before _ after. after ≡ before };

    ghost check_answers = { λ manager before _ _ answer after _.
        (checked : Result (Unit {0}) B.Error) × (answer ≡ Ready checked) × B.validates manager.0 before checked after };

    ghost breaks = { λ manager before broken after. B.breaks manager.0 before broken after };

    fn connect(&self) {}

    fn poll_connect(
        &self,
        _connecting: &mut (),
        _moment: Moment,
    ) -> Poll<Result<B::Connection, B::Error>> {
        Poll::Ready(self.0.connect())
    }

    fn is_valid(&self, _connection: &mut B::Connection) {}

    fn poll_valid(
        &self,
        connection: &mut B::Connection,
        _checking: &mut (),
        _moment: Moment,
    ) -> Poll<Result<(), B::Error>> {
        Poll::Ready(self.0.is_valid(connection))
    }

    fn has_broken(&self, connection: &mut B::Connection) -> bool {
        self.0.has_broken(connection)
    }
}
