//! The statistics of a pool.
ghost use Rattle.std.specs.Prelude.{◌≡◌, ◌+◌, ◌≤◌};

use std::time::Duration;

/// Counts of what happened to a pool. As in bb8; `get_cancelled`, `connections_closed_retired` and
/// `connections_detached` are additions.
#[derive(Clone, Copy, Debug, PartialEq, Eq)]
pub struct Statistics {
    /// Gets that began.
    pub get_started: u64,
    /// Gets that were served without having waited.
    pub get_direct: u64,
    /// Gets that were served after a wait.
    pub get_waited: u64,
    /// Gets that timed out.
    pub get_timed_out: u64,
    /// Gets that were cancelled.
    pub get_cancelled: u64,
    /// The sum of all waits of gets that were served or timed out, from the first wait to the
    /// result. Each is rounded down to microseconds; the sum stops at the greatest u64 of
    /// microseconds.
    pub get_wait_time: Duration,
    /// Connections opened for an approval.
    pub connections_created: u64,
    /// Connections closed because they were broken.
    pub connections_closed_broken: u64,
    /// Connections closed because their check failed.
    pub connections_closed_invalid: u64,
    /// Connections closed because of `max_lifetime`, except retired ones. One that also exceeded
    /// `idle_timeout` counts here alone.
    pub connections_closed_max_lifetime: u64,
    /// Connections closed because of `idle_timeout`.
    pub connections_closed_idle_timeout: u64,
    /// Connections closed because they were retired. One that also exceeded `max_lifetime` counts
    /// here alone.
    pub connections_closed_retired: u64,
    /// Connections that were detached from the pool, or evicted.
    pub connections_detached: u64,
    pub ghost answered_began: { get_direct + get_waited + get_timed_out + get_cancelled ≤ get_started },
}

impl Default for Statistics {
    ghost use Rattle.std.specs.Prelude.{◌≡◌};
    ghost use Rattle.bb8_types.specs.Figures.{counts_of, no_counts};

    ghost is_default = { λ statistics. counts_of statistics ≡ no_counts };

    /// Returns all counts at 0.
    fn default() -> Self {
        Statistics {
            get_started: 0,
            get_direct: 0,
            get_waited: 0,
            get_timed_out: 0,
            get_cancelled: 0,
            get_wait_time: Duration::from_nanos(0),
            connections_created: 0,
            connections_closed_broken: 0,
            connections_closed_invalid: 0,
            connections_closed_max_lifetime: 0,
            connections_closed_idle_timeout: 0,
            connections_closed_retired: 0,
            connections_detached: 0,
        }
    }
}

impl Statistics {
    /// Returns the count of gets that were served or timed out. As in bb8.
    pub fn completed_gets(&self) -> u64
        ensures { result ≡ self.now.get_direct + self.now.get_waited + self.now.get_timed_out }
    {
        self.get_direct + self.get_waited + self.get_timed_out
    }

    /// Returns the count of gets that began and were neither served nor timed out nor cancelled. As
    /// in bb8, where cancelled ones count as pending.
    pub fn pending_gets(&self) -> u64
        ensures { result
            + (self.now.get_direct + self.now.get_waited + self.now.get_timed_out)
            + self.now.get_cancelled ≡ self.now.get_started }
    {
        self.get_started - self.completed_gets() - self.get_cancelled
    }
}

/// A snapshot of a pool's size and statistics. As in bb8.
#[derive(Clone, Copy, Debug, PartialEq, Eq)]
pub struct State {
    /// Idle plus checked-out connections. Connection attempts in progress are not included.
    pub connections: u32,
    /// Idle connections.
    pub idle_connections: u32,
    /// Counts of what happened.
    pub statistics: Statistics,
}
