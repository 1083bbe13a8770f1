//! The trait that prepares new connections.
ghost use Rattle.std.specs.Prelude.{◌≡◌, ⊤, Result, Ok};
ghost use Rattle.futures.specs.declared.task.Poll.{Poll as PollOf};
ghost use Rattle.futures.specs.declared.task.Poll.TheVariants.{Ready};
ghost use Rattle.bb8_types.specs.declared.api.moments.Moment.{Moment as MomentOf};

use super::Moment;
use futures::task::Poll;

/// Prepares each connection that the pool opens, dedicated ones too, after it was opened and before
/// a caller gets it. A connection passed to `add` is not prepared.
///
/// As in bb8, with three differences. `on_acquire` returns a state instead of a future, which
/// `poll_acquire` polls. Neither method has a default body (*no-default-body* in docs/TOOLCHAIN.md;
/// `NopCustomizer` has both). `Debug` is not required, because a customizer is a type parameter of
/// the pool.
///
/// Each method has a ghost member: a relation between its arguments and its result. The implementer
/// chooses it; an omitted one allows everything.
pub trait CustomizeConnection<C, E>: Send + Sync + Drop + 'static {
    /// A preparation in progress.
    type Acquiring: Send + Drop + 'static;

    // Relates a customizer and a connection to each preparation that may begin, and to the
    // connection after it has begun.
    ghost acquires: { Self → C → Self.Acquiring → C → Type 0 } = { λ _ _ _ _. ⊤ };

    // Relates a customizer, a connection, its preparation and the moment of a poll to each result
    // of that poll, and to the connection and the preparation after it.
    ghost acquire_answers: { Self → C → Self.Acquiring → MomentOf → PollOf (Result (Unit {0}) E) → C → Self.Acquiring → Type 0 } = { λ _ _ _ _ _ _ _. ⊤ };

    /// Begins to prepare a connection, without waiting: the polls do what takes time. As in bb8,
    /// but for the state.
    fn on_acquire(&self, connection: &mut C) -> Self::Acquiring
        ensures { acquires self.now connection.old result connection.new };

    /// Continues the preparation of a connection, at the moment `moment`. Returns Ok once it is
    /// done, an error if it failed, pending while it is in progress. It is not polled again after
    /// it was ready. If it failed, the connection is dropped, and the connection attempt counts as
    /// failed.
    fn poll_acquire(
        &self,
        connection: &mut C,
        acquiring: &mut Self::Acquiring,
        moment: Moment,
    ) -> Poll<Result<(), E>>
        ensures { acquire_answers self.now connection.old acquiring.old moment result connection.new
            acquiring.new };
}

/// The customizer that changes nothing and is ready at once. A pool without a customizer has it.
/// bb8 has an optional customizer instead.
#[derive(Clone, Copy, Debug)]
pub struct NopCustomizer;

impl<C, E> CustomizeConnection<C, E> for NopCustomizer {
    type Acquiring = ();

    ghost acquires = { λ _ before _ after. after ≡ before };

    ghost acquire_answers = { λ _ before _ _ answer after _. (answer ≡ Ready (Ok tt)) × (after ≡ before) };

    fn on_acquire(&self, _connection: &mut C) {}

    fn poll_acquire(
        &self,
        _connection: &mut C,
        _acquiring: &mut (),
        _moment: Moment,
    ) -> Poll<Result<(), E>> {
        Poll::Ready(Ok(()))
    }
}
