//! The default configuration, and the size of a state.

use super::assert_equal;
use bb8_core::api::{Config, QueueStrategy};
use bb8_core::internals::PoolInternals;
use std::time::Duration;

#[test]
fn default_configuration(rt: HostRuntime) {
    let config = Config::default();
    assert_equal(&rt, (config.max_size, config.min_idle), (10, None));
    assert!(rt; config.test_on_check_out);
    assert_equal(&rt, config.test_after, Duration::from_secs(0));
    assert_equal(&rt, config.max_lifetime, Some(Duration::from_secs(30 * 60)));
    assert_equal(&rt, config.idle_timeout, Some(Duration::from_secs(10 * 60)));
    assert_equal(&rt, config.connection_timeout, Duration::from_secs(30));
    assert!(rt; config.retry_connection);
    assert_equal(&rt, config.reaper_rate, Duration::from_secs(30));
    assert_equal(&rt, config.queue_strategy, QueueStrategy::Fifo);
    assert_equal(&rt, QueueStrategy::default(), QueueStrategy::Fifo);
    assert!(rt; config.is_lawful());
}

/// A state has one access counter; with a second one, in which a step could end its own unseen, it
/// would be larger. The last three summands are a `Duration` of the settings, two numbers that
/// decide what is closed when it is returned, and two counters.
#[test]
fn state_has_one_count(rt: HostRuntime) {
    assert_equal(&rt, size_of::<PoolInternals<u64>>(), 568 + 16 + 16 + 16);
}
