//! The result of a round of tasks, and its course when a task fails.

/// The course of a round when a task's last try failed.
#[derive(Clone, Copy, Debug, PartialEq, Eq)]
pub enum OnFailure {
    /// Stop: poll no further task, and return the error.
    Stop,
    /// Pass the error to the sink, and go on.
    GoOn,
}

/// The result of a round that stops at the first failure. `T` is a list of tasks. It has no
/// implicit drop.
pub enum Round<T, E> {
    /// A task failed with this error, and all others were cancelled.
    Failed(E),
    /// No task is left.
    Complete,
    /// These tasks are not done yet.
    Going(T),
}
