//! Keys of connections, approvals and gets.

/// The number of a connection or an approval, with a hint of its table index. The hint may be
/// stale; it changes no result.
#[derive(Clone, Copy, Debug)]
pub struct Key {
    /// The number.
    pub number: u64,
    /// The hint: its index when the key was made.
    pub place: usize,
}

/// The number of a get, with a hint as in `Key`.
#[derive(Clone, Copy, Debug)]
pub struct GetKey {
    /// The number.
    pub number: u64,
    /// The hint: its index when the key was made.
    pub place: usize,
}
