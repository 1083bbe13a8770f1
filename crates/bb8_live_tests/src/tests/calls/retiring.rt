//! The calls of a retire.
use super::super::assert_equal;
use super::{TellerPool, Tools};
use bb8::{Gets, Memory, PoolCalls, PoolPermits, Runtime};
use std::process::Abort;

/// All connections are retired: two idle ones are dropped at once, and one that is checked out when
/// it is returned.
pub(super) fn retired<R: Runtime + Abort, L: PoolPermits>(
    tools: &Tools<R>,
    pool: &TellerPool<R, L>,
) -> Result<(), Memory> {
    tools.add(pool)?;
    tools.add(pool)?;
    pool.retire(tools.rt.alloc());
    tools.made("now dropped dropped");
    tools.add(pool)?;
    let mut get = pool.get();
    let polled = tools.task.poll(&mut get);
    tools.made("now is_valid poll_valid ended");
    pool.retire(tools.rt.alloc());
    tools.made("now");
    drop(polled);
    tools.made("has_broken now dropped");
    tools.add(pool)?;
    let state = pool.state();
    tools.made("now");
    assert_equal(&tools.rt, state.connections, 1);
    assert_equal(&tools.rt, state.statistics.connections_closed_retired, 3);
    pool.retire(tools.rt.alloc());
    tools.made("now dropped");
    Ok(())
}
