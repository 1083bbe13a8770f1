//! The reaper of a pool.
mod polls;

use crate::Ticks;
use bb8_core::api::Moment;
use bb8_core::internals::Grant;

/// The result of a poll of the reaper.
#[derive(Clone, Copy, Debug, PartialEq, Eq)]
pub enum ReaperAnswer {
    /// No tick is due.
    Idle,
    /// The pool was reaped.
    Reaped {
        /// The number of closed connections.
        closed: u32,
        /// How many of them had reached `idle_timeout`, but not `max_lifetime`.
        by_idle: u32,
        /// How many of them had reached `max_lifetime`.
        by_life: u32,
        /// The approvals granted to replace them.
        grant: Grant,
    },
    /// No handle is alive, and the reaper has ended.
    Ended,
}

/// Reaps a pool at its ticks: `start + rate`, `start + 2 * rate` and so on. bb8's is a spawned
/// task.
///
/// After several missed ticks it reaps once; bb8 reaps once for each.
#[derive(Clone, Copy, Debug)]
pub struct Reaper {
    ticks: Ticks,
    latest: Moment,
    ended: bool,
}
