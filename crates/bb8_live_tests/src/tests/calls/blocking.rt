//! Gets in one call, and gets that are served at their first poll, with and without the check.

use super::{TellerPool, Tools};
use bb8::{Gets, Memory, PoolCalls, PoolPermits, Runtime};
use std::process::Abort;
use std::time::Duration;

/// Makes each get once with nothing idle, if it never waits, and twice with one idle connection,
/// since the first get of a pool takes another path (the lists are the callbacks of one served at
/// once, without and with its own handle); and each get that waits until it times out. A
/// clock reading advances the clock by 60 nanoseconds, so 100 have passed at the second poll, and
/// 200 at the third. At the end there is no connection, and one approval is open.
pub(super) fn served<R: Runtime + Abort, L: PoolPermits>(
    tools: &Tools<R>,
    pool: &TellerPool<R, L>,
    lists: [&str; 2],
) -> Result<(), Memory> {
    let (desk, timeout) = (&tools.desk, Duration::from_nanos(200));
    let [lent, owned] = lists;
    tools.look(pool.try_get(), "now", "");
    tools.add(pool)?;
    for _ in 0..2u32 {
        tools.look(pool.try_get(), lent, "has_broken now");
        tools.look(tools.task.poll(&mut pool.get()), lent, "has_broken now");
        let guard = tools.task.poll(&mut pool.get_owned());
        tools.look(guard, owned, "has_broken now now");
        tools.look(pool.get_blocking(), lent, "has_broken now");
        tools.look(pool.get_blocking_timeout(timeout), lent, "has_broken now");
        tools.look(pool.get_owned_blocking(), owned, "has_broken now now");
    }
    desk.broken.set(1);
    let held = pool.try_get();
    desk.made.set(0);
    desk.step.set(60);
    tools.look(pool.get_blocking(), "now now now", "");
    let none = pool.get_blocking_timeout(timeout);
    tools.look(none, "now now now now now", "");
    tools.look(pool.get_owned_blocking(), "now now now now now", "");
    desk.step.set(0);
    tools.look(held, "", "has_broken now dropped");
    desk.broken.set(0);
    Ok(())
}

/// Makes gets in one call whose check is pending once; one that never waits, with a check that
/// stays pending; and one that, after its check has failed, waits until it times out. At the end
/// there is no connection, and one approval is open.
pub(super) fn unserved<R: Runtime + Abort, L: PoolPermits>(
    tools: &Tools<R>,
    pool: &TellerPool<R, L>,
) -> Result<(), Memory> {
    let desk = &tools.desk;
    tools.add(pool)?;
    desk.check.set(3);
    let guard = pool.get_blocking();
    tools.made("now is_valid poll_valid now now poll_valid ended");
    tools.look(guard, "", "has_broken now");
    desk.check.set(3);
    let guard = pool.get_owned_blocking();
    tools.made("now now is_valid poll_valid now now poll_valid ended");
    tools.look(guard, "", "has_broken now now");
    desk.check.set(1);
    let none = pool.try_get();
    tools.look(none, "now is_valid poll_valid ended has_broken now", "");
    desk.check.set(2);
    desk.step.set(60);
    let none = pool.get_blocking();
    tools.made("now is_valid poll_valid ended sink has_broken dropped now now");
    tools.look(none, "", "");
    desk.step.set(0);
    desk.check.set(0);
    Ok(())
}
