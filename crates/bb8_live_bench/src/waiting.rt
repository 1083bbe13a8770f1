//! Gets that wait while all connections are checked out.

use crate::manager::{NumberGet, NumberGuard, NumberPool};
use bb8::{Clock, Gets, Memory, PoolPermits, Runtime};
use futures::task::Poll;
use futures::test::MockTask;

/// The number of polls of a waiting get.
const POLLS: u64 = 200_000;

/// Waiting gets, and the guards that they wait for.
#[derive(Drop)]
struct Crowd<'a, K: Clock, R: Runtime, L: PoolPermits> {
    task: MockTask,
    guards: Vec<NumberGuard<'a, K, R, L>>,
    gets: Vec<NumberGet<'a, K, R, L>>,
}

/// Checks all connections out, and has this many gets wait, each polled once by hand.
fn waiting<'a, K: Clock, R: Runtime, L: PoolPermits>(
    rt: &R,
    pool: &'a NumberPool<K, R, L>,
    gets: u64,
    size: u32,
) -> Result<Crowd<'a, K, R, L>, Memory> {
    let Ok(task) = MockTask::new(rt) else {
        return Err(Memory);
    };
    let mut crowd = Crowd {
        task,
        guards: Vec::new(rt.alloc()),
        gets: Vec::new(rt.alloc()),
    };
    for _ in 0..size {
        if let Poll::Ready(Ok(guard)) = crowd.task.poll(&mut pool.get()) {
            crowd.guards.push(guard)?;
        }
    }
    for _ in 0..gets {
        let mut get = pool.get();
        if let Poll::Pending = crowd.task.poll(&mut get) {
            crowd.gets.push(get)?;
        }
    }
    Ok(crowd)
}

/// Has this many gets wait. Then it drops the guards one after another, and each time polls the
/// longest waiter by hand. Returns how many were served.
pub fn served_in_turn<K: Clock, R: Runtime, L: PoolPermits>(
    rt: &R,
    pool: &NumberPool<K, R, L>,
    gets: u64,
    size: u32,
) -> Result<u64, Memory> {
    let Crowd {
        task,
        mut guards,
        mut gets,
    } = waiting(rt, pool, gets, size)?;
    let mut served: u64 = 0;
    for get in gets.iter_mut() {
        drop(guards.pop());
        if let Poll::Ready(Ok(guard)) = task.poll(get) {
            served = served.saturating_add(1);
            guards.push(guard)?;
        }
    }
    Ok(served)
}

/// Has this many gets wait, and polls the last one by hand many times. Returns how many wait.
pub fn kept_waiting<K: Clock, R: Runtime, L: PoolPermits>(
    rt: &R,
    pool: &NumberPool<K, R, L>,
    gets: u64,
    size: u32,
) -> Result<u64, Memory> {
    let mut crowd = waiting(rt, pool, gets, size)?;
    let mut last = crowd.gets.pop();
    if let Some(get) = &mut last {
        for _ in 0..POLLS {
            let _ = crowd.task.poll(get);
        }
    }
    Ok(gets)
}

/// Has this many gets wait, and cancels them. Returns how many there were.
pub fn let_go<K: Clock, R: Runtime, L: PoolPermits>(
    rt: &R,
    pool: &NumberPool<K, R, L>,
    gets: u64,
    size: u32,
) -> Result<u64, Memory> {
    let crowd = waiting(rt, pool, gets, size)?;
    let many = crowd.gets.len() as u64;
    drop(crowd.gets);
    Ok(many)
}
