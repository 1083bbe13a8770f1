//! The waits of a connection attempt, against values that were worked out by hand.

use super::assert_equal;
use ReplenishAnswer::{Failed, Retrying};
use bb8_core::api::{Config, Moment};
use bb8_tasks::{ReplenishAnswer, Reply, replay_backoff};
use std::test::Fail;
use std::time::Duration;

/// Timeouts, and the moments at which a failing attempt is due, in milliseconds. The waits double
/// from 400 on, up to half the timeout.
const DUE: [(u64, &[u64]); 4] = [
    (1000, &[0, 400, 900, 1400]),
    (30_000, &[0, 400, 1200, 2800, 6000, 12_400, 25_200, 40_200]),
    (100, &[0, 50, 100, 150]),
    (5000, &[0, 400, 1200, 2800, 5300]),
];

/// Each poll that is due is a try, and the last one fails for good.
#[test]
fn polls_when_due_reach_the_bound(rt: HostRuntime) -> Result<(), Fail> {
    for (timeout, moments) in DUE {
        let config = Config {
            connection_timeout: Duration::from_millis(timeout),
            ..Config::default()
        };
        let mut polls = Vec::new(rt.alloc());
        for millis in moments {
            polls.push((Moment(millis.saturating_mul(1_000_000)), Reply::Err))?;
        }
        let replayed = replay_backoff(rt.alloc(), config, &polls)?;
        assert_equal(&rt, replayed.tries, moments.len() as u64);
        let mut left = moments.len();
        for answer in &replayed.answers {
            left = left.saturating_sub(1);
            let wanted = if left == 0 { Failed(()) } else { Retrying(()) };
            assert_equal(&rt, answer, &wanted);
        }
    }
    Ok(())
}
