//! Closed connections, in a list that the caller allocated.
use crate::ring::Ring;

/// A connection that a step closed, with its number.
#[derive(Drop)]
pub struct Closed<C> {
    /// The number.
    pub number: u64,
    /// The connection.
    pub conn: C,
}

/// Closed connections, in the order in which they were closed. A step never grows this list: a
/// connection for which it has no capacity is dropped.
pub type ClosedList<C> = Ring<Closed<C>>;
