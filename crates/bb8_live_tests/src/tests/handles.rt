//! How guards print, and which threads they may go to.

use super::{NumberTrial, Trial, assert_equal, assert_prints, try_numbers};
use bb8::{Gets, PoolCalls, PoolPermits, Runtime};
use futures::task::Poll;
use std::process::Abort;
use std::test::Fail;

/// Checks that the type may go to another thread.
fn is_sent<T: Send>(_: &T) {}

/// A pool prints without its parts, a guard as its connection. An owned guard reads and writes its
/// connection, and may go to another thread, as its get may.
pub(super) fn derefs<R: Runtime + Abort, L: PoolPermits>(
    rt: R,
    numbers: NumberTrial<R, L>,
) -> Result<(), Fail> {
    let NumberTrial { pool, task, .. } = numbers;
    assert_prints(&rt, format_args!("{pool:?}"), "Pool(..)")?;
    assert_equal(&rt, pool.add(7), Ok(()));
    let mut get = pool.get_owned();
    is_sent(&get);
    let Poll::Ready(Ok(guard)) = task.poll(&mut get) else {
        panic!(&rt; "not served");
    };
    is_sent(&guard);
    assert_equal(&rt, *guard, 7);
    assert_prints(&rt, format_args!("{guard:?}"), "7")?;
    drop(guard);
    let Poll::Ready(Ok(guard)) = task.poll(&mut pool.get()) else {
        panic!(&rt; "not served");
    };
    assert_prints(&rt, format_args!("{guard:?}"), "7")?;
    drop(guard);
    let Poll::Ready(Ok(mut guard)) = task.poll(&mut pool.get_owned()) else {
        panic!(&rt; "not served");
    };
    *guard = 0;
    drop(guard);
    let state = pool.state();
    assert_equal(&rt, state.connections, 0);
    assert_equal(&rt, state.statistics.connections_closed_broken, 1);
    Ok(())
}

#[test]
fn succeeds_to_use_an_owned_guard(rt: HostRuntime) -> Result<(), Fail> {
    try_numbers(rt, 1, Trial::Guards)
}
