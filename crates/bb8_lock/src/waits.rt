//! Blocking: a thread that waits for a connection of a pool.
ghost use Rattle.std.specs.Duration.{as_nanos};
ghost use Rattle.bb8_lock.specs.Traces.{Waits};

use crate::gets::{GetHome, GetState, Outside, Taken};
use crate::signal::{Rests, Sleeper};
use bb8_core::api::RunError;
use futures::task::Poll;
use std::sync::Wait;
use std::time::Duration;

/// Polls a get with this timeout until it resolves. Between two polls the thread sleeps until the
/// gets' signal is notified, and no longer than the get may rest. Notifications are counted before
/// the poll, so that none between the poll and the sleep is lost.
pub fn wait<C, V, P, E, X: GetHome<C, Permit = P> + Outside<C, E, Checking = V> + Rests, R: Wait>(
    pool: &mut X,
    rt: &R,
    timeout: Duration,
) -> Result<Taken<C, P>, RunError<E>>
    ensures { Waits X.GetHome X.Outside X.Rests (as_nanos timeout) pool.old result pool.new }
{
    let mut get = GetState::new();
    for _ in rt.forever() {
        let signals = pool.signals(Sleeper::Get);
        match get.poll_step(pool, timeout) {
            Poll::Ready(answer) => {
                get.cancel_step(pool);
                return answer;
            }
            Poll::Pending => {
                pool.release();
                let now = pool.now();
                pool.sleep(Sleeper::Get, signals, get.rest(now));
            }
        }
    }
    unreachable!()
}
