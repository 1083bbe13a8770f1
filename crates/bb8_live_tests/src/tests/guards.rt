//! Lists of guards.

use super::{NumberTrial, Trial, assert_equal, try_numbers};
use bb8::{Guards, GuardsCalls, PoolPermits, Runtime};
use bb8_trials::LentHandle;
use futures::task::Poll;
use std::process::Abort;
use std::test::Fail;

/// Three guards go into a list. The first is taken out, and the others move up. One is changed in
/// its place, and the drop of the list returns the rest.
pub(super) fn gathers<R: Runtime + Abort, L: PoolPermits>(
    rt: R,
    numbers: NumberTrial<R, L>,
) -> Result<(), Fail> {
    let NumberTrial { pool, task, .. } = numbers;
    let mut guards = Guards::new(rt.alloc(), &pool);
    assert!(&rt; guards.is_empty());
    for connection in 7..10u64 {
        assert_equal(&rt, pool.add(connection), Ok(()));
        let Poll::Ready(Ok(guard)) = task.poll(&mut pool.get()) else {
            panic!(&rt; "not served");
        };
        assert!(&rt; guards.push(guard).is_ok());
    }
    assert_equal(&rt, guards.len(), 3);
    assert_equal(&rt, pool.state().idle_connections, 0);
    let Some(first) = guards.remove(0) else {
        panic!(&rt; "no guard");
    };
    assert_equal(&rt, *first, 7);
    assert!(&rt; guards.remove(2).is_none());
    let Some(last) = guards.get_mut(1) else {
        panic!(&rt; "no guard");
    };
    assert_equal(&rt, *last, 9);
    *last = 0;
    assert_equal(&rt, guards.get_mut(0).copied(), Some(8));
    assert_equal(&rt, guards.get_mut(2), None);
    drop(first);
    assert_equal(&rt, pool.state().idle_connections, 1);
    assert_equal(&rt, guards.len(), 2);
    drop(guards);
    let state = pool.state();
    assert_equal(&rt, (state.connections, state.idle_connections), (2, 2));
    assert_equal(&rt, state.statistics.connections_closed_broken, 1);
    Ok(())
}

#[test]
fn succeeds_to_gather_three_guards(rt: HostRuntime) -> Result<(), Fail> {
    try_numbers(rt, 3, Trial::ListOfGuards)
}
