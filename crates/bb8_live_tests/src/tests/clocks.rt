//! The clocks.

use super::assert_equal;
use bb8::{Clock, MachineClock, Moment, SetClock};
use std::test::Fail;
use std::thread;
use std::time::Duration;

/// It returns what it was last set to, also if that is less, and through a clone.
#[test]
fn set_clock_returns_its_moment(rt: HostRuntime) -> Result<(), Fail> {
    let clock = SetClock::new(rt.alloc(), Moment(0))?;
    let copy = clock.try_clone()?;
    for moment in [Moment(9), Moment(3)] {
        clock.set(moment);
        assert_equal(&rt, (clock.now(), copy.now()), (moment, moment));
    }
    Ok(())
}

/// Between two readings around a sleep of 20 ms at least that many nanoseconds pass.
#[test]
fn machine_clock_counts_nanoseconds(rt: HostRuntime) -> Result<(), Fail> {
    let clock = MachineClock(rt);
    let before = clock.now();
    thread::sleep(&rt, Duration::from_millis(20));
    assert!(&rt; clock.now().0.saturating_sub(before.0) >= 20_000_000);
    Ok(())
}
