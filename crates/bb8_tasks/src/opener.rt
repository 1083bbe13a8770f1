//! User callbacks that a pool's tasks make.
ghost use Rattle.std.specs.Prelude.{Result};
ghost use Rattle.futures.specs.declared.task.Poll.{Poll as PollOf};
ghost use Rattle.bb8_types.specs.declared.api.moments.Moment.{Moment as MomentOf};

use bb8_core::api::Moment;
use futures::task::Poll;

/// The callbacks by which connections `C` are opened, prepared and dropped, with errors `E`; and
/// those of the pool's clock and error sink.
///
/// Each callback changes the value that it is made on, by a relation of its own that has no
/// default. So a trace of these relations lists all callbacks in their order: one that is made
/// twice, left out or moved does not fit it. Attempts and preparations cannot be dropped implicitly
/// either, so the end of each has its place in the trace.
pub trait Opener<C, E> {
    /// A connection attempt in progress.
    type Connecting;

    /// A preparation of a connection in progress.
    type Acquiring;

    // Holds before the clock is read, of the moment that it returns, and after it.
    ghost reports: { Self → MomentOf → Self → Type 0 };

    // Holds before an error is passed to the sink, and after it.
    ghost sinks: { Self → E → Self → Type 0 };

    // Holds before a connection attempt is begun, of the attempt, and after it.
    ghost connects: { Self → Self.Connecting → Self → Type 0 };

    // Holds before a poll of an attempt at a moment, of the result, of the attempt after the poll,
    // and after it.
    ghost connect_answers: { Self → Self.Connecting → MomentOf → PollOf (Result C E) → Self.Connecting → Self → Type 0 };

    // Holds before an attempt is ended, and after it.
    ghost ends_connect: { Self → Self.Connecting → Self → Type 0 };

    // Holds before a preparation of a connection is begun, of the preparation, of the connection
    // after that, and after it.
    ghost acquires: { Self → C → Self.Acquiring → C → Self → Type 0 };

    // Holds before a poll of a connection's preparation at a moment, of the result, of the
    // connection and the preparation after the poll, and after it.
    ghost acquire_answers: { Self → C → Self.Acquiring → MomentOf → PollOf (Result (Unit {0}) E) → C → Self.Acquiring → Self → Type 0 };

    // Holds before a preparation is ended, and after it.
    ghost ends_acquire: { Self → Self.Acquiring → Self → Type 0 };

    // Holds before a connection is dropped, and after it.
    ghost lets_go: { Self → C → Self → Type 0 };

    /// Reads the clock.
    fn now(&mut self) -> Moment
        ensures { reports self.old result self.new };

    /// Passes an error to the sink.
    fn sink(&mut self, error: E)
        ensures { sinks self.old error self.new };

    /// Begins a connection attempt.
    fn connect(&mut self) -> Self::Connecting
        ensures { connects self.old result self.new };

    /// Polls a connection attempt.
    fn poll_connect(
        &mut self,
        connecting: &mut Self::Connecting,
        moment: Moment,
    ) -> Poll<Result<C, E>>
        ensures { connect_answers self.old connecting.old moment result connecting.new self.new };

    /// Ends a connection attempt and drops it.
    fn end_connect(&mut self, connecting: Self::Connecting)
        ensures { ends_connect self.old connecting self.new };

    /// Begins to prepare a connection.
    fn on_acquire(&mut self, connection: &mut C) -> Self::Acquiring
        ensures { acquires self.old connection.old result connection.new self.new };

    /// Polls the preparation of a connection.
    fn poll_acquire(
        &mut self,
        connection: &mut C,
        acquiring: &mut Self::Acquiring,
        moment: Moment,
    ) -> Poll<Result<(), E>>
        ensures { acquire_answers self.old connection.old acquiring.old moment result connection.new
            acquiring.new self.new };

    /// Ends a preparation and drops it.
    fn end_acquire(&mut self, acquiring: Self::Acquiring)
        ensures { ends_acquire self.old acquiring self.new };

    /// Drops a connection.
    fn let_go(&mut self, connection: C)
        ensures { lets_go self.old connection self.new };
}
