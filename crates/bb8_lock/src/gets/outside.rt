//! The user callbacks of gets and guards.
ghost use Rattle.std.specs.Prelude.{Bool, Result};
ghost use Rattle.futures.specs.declared.task.Poll.{Poll as PollOf};
ghost use Rattle.bb8_types.specs.declared.api.moments.Moment.{Moment as MomentOf};

use bb8_core::api::Moment;
use futures::task::Poll;

/// The user callbacks of gets and guards: calls of a pool's clock, its manager and its error sink,
/// and drops of connections. Connections are `C`, the manager's errors `E`.
///
/// Each call changes the value on which it is made, by a relation that says nothing else and has no
/// default. So a trace of these relations is the list of all calls, in their order: a call that is
/// made twice, left out or made elsewhere does not satisfy it.
pub trait Outside<C, E> {
    /// A check in progress.
    type Checking;

    // Relates `self` before a reading of the clock, the moment that it returns, and `self` after
    // it.
    ghost reports: { Self → MomentOf → Self → Type 0 };

    // Relates `self` before the begin of a check, the connection, the check, the connection then,
    // and `self` after it.
    ghost checks: { Self → C → Self.Checking → C → Self → Type 0 };

    // Relates `self` before a poll of a check, the connection, the check, the moment of the poll,
    // its result, the connection and the check then, and `self` after it.
    ghost check_answers: { Self → C → Self.Checking → MomentOf → PollOf (Result (Unit {0}) E) → C → Self.Checking → Self → Type 0 };

    // Relates `self` before the drop of a check, the check, and `self` after it.
    ghost ends_check: { Self → Self.Checking → Self → Type 0 };

    // Relates `self` before a call of `has_broken`, the connection, the result, the connection
    // then, and `self` after it.
    ghost breaks: { Self → C → Bool → C → Self → Type 0 };

    // Relates `self` before a call of the sink, the error, and `self` after it.
    ghost sinks: { Self → E → Self → Type 0 };

    // Relates `self` before the drop of a connection, the connection, and `self` after it.
    ghost lets_go: { Self → C → Self → Type 0 };

    /// Reads the clock.
    fn now(&mut self) -> Moment
        ensures { reports self.old result self.new };

    /// Begins to check a connection.
    fn is_valid(&mut self, connection: &mut C) -> Self::Checking
        ensures { checks self.old connection.old result connection.new self.new };

    /// Polls the check of a connection.
    fn poll_valid(
        &mut self,
        connection: &mut C,
        checking: &mut Self::Checking,
        moment: Moment,
    ) -> Poll<Result<(), E>>
        ensures { check_answers self.old connection.old checking.old moment result connection.new
            checking.new self.new };

    /// Drops a check.
    fn end_check(&mut self, checking: Self::Checking)
        ensures { ends_check self.old checking self.new };

    /// Returns whether a connection is broken.
    fn has_broken(&mut self, connection: &mut C) -> bool
        ensures { breaks self.old connection.old result connection.new self.new };

    /// Passes an error to the sink.
    fn sink(&mut self, error: E)
        ensures { sinks self.old error self.new };

    /// Drops a connection.
    fn let_go(&mut self, connection: C)
        ensures { lets_go self.old connection self.new };
}
