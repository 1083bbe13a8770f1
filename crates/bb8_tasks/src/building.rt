//! The stages of a pool that is being built.
use bb8_core::api::RunError;
use futures::task::Poll;

/// The stage of a build between its polls: `I` is the input, `P` the pool, `T` the tasks that open
/// its first connections.
pub enum BuildingStage<I, P, T> {
    /// Not polled yet.
    Planned(I),
    /// The pool is made, and these tasks open its first connections.
    Opening(P, T),
    /// It has returned its result, or was cancelled.
    Done,
}

/// The result of a poll of a build, and the stage after it.
pub struct BuildingStep<I, P, T, E> {
    /// The result.
    pub answer: Poll<Result<P, RunError<E>>>,
    /// The stage after the poll.
    pub stage: BuildingStage<I, P, T>,
}
