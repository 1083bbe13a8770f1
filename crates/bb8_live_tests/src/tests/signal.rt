//! The signals of a lock.

use bb8_lock::Signal;
use std::test::Fail;
use std::time::{Clock, Duration};

/// A notification after the count was read ends the sleep that follows at once; it would last ten
/// seconds.
#[test]
fn signal_before_the_sleep_is_not_lost(rt: HostRuntime) -> Result<(), Fail> {
    let signal = Signal::new();
    let signals = signal.signals();
    signal.notify();
    let before = rt.monotonic()?;
    signal.sleep(&rt, signals, Duration::from_secs(10));
    let slept = rt.monotonic()?.saturating_sub(before);
    assert!(&rt; slept < Duration::from_secs(5));
    Ok(())
}
