//! The trait that opens and checks connections.
ghost use Rattle.std.specs.Prelude.{⊤, Bool, Result};
ghost use Rattle.futures.specs.declared.task.Poll.{Poll as PollOf};
ghost use Rattle.bb8_types.specs.declared.api.moments.Moment.{Moment as MomentOf};

use super::Moment;
use futures::task::Poll;
use std::fmt::Debug;

/// Defines how the connections of a pool are opened and checked.
///
/// As in bb8, but `connect` and `is_valid` return a state instead of a future, which a second
/// method polls. The pool polls it until it is ready and not again, and may drop it before. No
/// method is called under the pool's lock; connections may be dropped under it.
///
/// A poll runs in the thread that polls: a driver's for a connection attempt, the caller's for the
/// check of a get. A poll that blocks delays everything else of that thread: the driver's other
/// attempts and its reaper, or the get, past its deadline. So a poll should return pending instead
/// of waiting; or run more drivers, each in a thread of its own.
///
/// Each method has a ghost member: a relation between its arguments and its result. The implementer
/// chooses it; an omitted one allows everything. Proofs of a pool hold for every choice.
pub trait ManageConnection: Sized + Send + Sync + Drop + 'static {
    /// The connection that the pool keeps and checks out. As in bb8.
    type Connection: Send + Drop + 'static;

    /// The error of an attempt or a check that failed. As in bb8.
    type Error: Debug + Send + Drop + 'static;

    /// A connection attempt in progress.
    type Connecting: Send + Drop + 'static;

    /// A check in progress.
    type Checking: Send + Drop + 'static;

    // Relates a manager to each connection attempt that it may begin.
    ghost connects: { Self → Self.Connecting → Type 0 } = { λ _ _. ⊤ };

    // Relates a manager, an attempt and the moment of a poll to each result of that poll, and to
    // the attempt after it.
    ghost connect_answers: { Self → Self.Connecting → MomentOf → PollOf (Result Self.Connection Self.Error) → Self.Connecting → Type 0 } = { λ _ _ _ _ _. ⊤ };

    // Relates a manager and a connection to each check that may begin, and to the connection after
    // it has begun.
    ghost checks: { Self → Self.Connection → Self.Checking → Self.Connection → Type 0 } = { λ _ _ _ _. ⊤ };

    // Relates a manager, a connection, its check and the moment of a poll to each result of that
    // poll, and to the connection and the check after it.
    ghost check_answers: { Self → Self.Connection → Self.Checking → MomentOf → PollOf (Result (Unit {0}) Self.Error) → Self.Connection → Self.Checking → Type 0 } = { λ _ _ _ _ _ _ _. ⊤ };

    // Relates a manager and a connection to each result of `has_broken`, and to the connection
    // after it.
    ghost breaks: { Self → Self.Connection → Bool → Self.Connection → Type 0 } = { λ _ _ _ _. ⊤ };

    /// Begins to open a connection, without waiting: the polls do what takes time. As in bb8, but
    /// for the state.
    fn connect(&self) -> Self::Connecting
        ensures { connects self.now result };

    /// Continues a connection attempt, at the moment `moment`. Returns the connection once it is
    /// open, the error if the attempt failed, else pending.
    fn poll_connect(
        &self,
        connecting: &mut Self::Connecting,
        moment: Moment,
    ) -> Poll<Result<Self::Connection, Self::Error>>
        ensures { connect_answers self.now connecting.old moment result connecting.new };

    /// Begins to check whether a connection still works. As in bb8, but for the state.
    fn is_valid(&self, connection: &mut Self::Connection) -> Self::Checking
        ensures { checks self.now connection.old result connection.new };

    /// Continues the check of a connection, at the moment `moment`. Returns Ok if it works, an
    /// error if it does not and is to be closed, pending while that is not known.
    fn poll_valid(
        &self,
        connection: &mut Self::Connection,
        checking: &mut Self::Checking,
        moment: Moment,
    ) -> Poll<Result<(), Self::Error>>
        ensures { check_answers self.now connection.old checking.old moment result connection.new
            checking.new };

    /// Returns, without waiting, whether a connection is known to be useless. It is called for a
    /// connection that is returned, passed to `add`, or whose check failed. A broken one that is
    /// returned is closed; one passed to `add` is refused. As in bb8.
    fn has_broken(&self, connection: &mut Self::Connection) -> bool
        ensures { breaks self.now connection.old result connection.new };
}
