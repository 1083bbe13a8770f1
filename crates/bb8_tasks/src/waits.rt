//! The back-off: how long a task waits after a failed try.
ghost use Rattle.std.specs.Prelude.{◌≡◌};
ghost use Rattle.std.specs.Duration.{as_nanos};
ghost use Rattle.bb8_ledger.specs.Waits.{wait};

use std::time::Duration;

/// 200 milliseconds in nanoseconds, half of the first wait.
const HALF_FIRST: u128 = 200_000_000;

/// From this failure on the wait is half the timeout, for every timeout.
const LONGEST: u32 = 66;

/// Returns the wait after the k-th failure (k from 1): 400 milliseconds at first, then twice the
/// wait before, and at most half the timeout. As bb8.
pub fn wait_after(k: u32, timeout: Duration) -> Duration
    ensures { as_nanos result ≡ wait (as_nanos timeout) k }
{
    let half = timeout.as_nanos() / 2;
    if k >= LONGEST {
        return Duration::from_nanos_u128(half);
    }
    Duration::from_nanos_u128(half.min(HALF_FIRST << k))
}
