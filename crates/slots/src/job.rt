//! Jobs, their phases and their outcomes.
ghost use Rattle.std.specs.Prelude.{⊤};
ghost use Rattle.futures.specs.declared.task.Poll.{Poll as PollOf};
ghost use Rattle.bb8_types.specs.declared.api.moments.Moment.{Moment as MomentOf};

use bb8::{Moment, RunError};
use futures::task::Poll;

/// Work done in polls. Each poll is made while a guard of the pool is held for it.
pub trait Job: Drop {
    /// The output of the job.
    type Out: Drop;

    // Relates a job and the moment of a poll to each result of that poll, and to the job after it.
    // The implementer chooses it; an omitted one allows everything.
    ghost polls: { Self → MomentOf → PollOf Self.Out → Self → Type 0 } = { λ _ _ _ _. ⊤ };

    /// Continues the job, at the moment `now`, in nanoseconds of the pool's clock. Returns the
    /// output once it is done, else pending. It is not polled again after it was ready.
    fn poll(&mut self, now: Moment) -> Poll<Self::Out>
        ensures { polls self.old now result self.new };
}

/// The outcome of a job.
#[derive(Clone, Debug, Drop)]
pub enum Outcome<O, E> {
    /// It was done, with this output.
    Done(O),
    /// It never ran: its get failed with this error, or there was no memory to keep its guard.
    Refused(RunError<E>),
}

/// The phase of a job between two turns.
#[derive(Clone, Copy, Debug, PartialEq, Eq)]
pub enum Phase {
    /// It waits for a connection.
    Waiting,
    /// It holds a guard, and is polled once in each turn.
    Running,
    /// It has ended, and its outcome was not taken yet.
    Ended,
}
