//! The rounds of a benchmark.

use crate::manager::NumberPool;
use bb8::{Clock, Gets, Job, Memory, PoolPermits, Runtime, in_threads};
use futures::executor::block_on;
use futures::future::ready;
use futures::task::Poll;
use futures::test::MockTask;
use std::thread::Threads;

/// Makes gets, each polled once by hand, and drops their guards. Returns how many were served.
pub fn polled<K: Clock, R: Runtime, L: PoolPermits>(
    rt: &R,
    pool: &NumberPool<K, R, L>,
    rounds: u64,
) -> Result<u64, Memory> {
    let Ok(task) = MockTask::new(rt) else {
        return Err(Memory);
    };
    let mut served: u64 = 0;
    for _ in 0..rounds {
        if let Poll::Ready(Ok(guard)) = task.poll(&mut pool.get()) {
            served = served.saturating_add(1);
            drop(guard);
        }
    }
    Ok(served)
}

/// Makes gets as `polled` does, with an executor for each.
pub fn blocked<K: Clock, R: Runtime, L: PoolPermits>(
    rt: &R,
    pool: &NumberPool<K, R, L>,
    rounds: u64,
) -> Result<u64, Memory> {
    let mut served: u64 = 0;
    for _ in 0..rounds {
        if let Ok(Ok(guard)) = block_on(rt, pool.get()) {
            served = served.saturating_add(1);
            drop(guard);
        }
    }
    Ok(served)
}

/// Polls a future that is ready, this many times.
pub fn polled_ready<R: Runtime>(rt: &R, rounds: u64) -> Result<u64, Memory> {
    let Ok(task) = MockTask::new(rt) else {
        return Err(Memory);
    };
    let mut served: u64 = 0;
    for _ in 0..rounds {
        if let Poll::Ready(one) = task.poll(&mut ready(1u64)) {
            served = served.saturating_add(one);
        }
    }
    Ok(served)
}

/// Gets, each polled once by hand, whose guards are dropped.
#[derive(Drop)]
struct Rounds<'a, K: Clock, R: Runtime, L: PoolPermits> {
    pool: &'a NumberPool<K, R, L>,
    rt: R,
    rounds: u64,
}

impl<K: Clock, R: Runtime, L: PoolPermits> Job for &Rounds<'_, K, R, L> {
    /// The number of served gets.
    type Output = u64;

    fn run(self, _thread: usize) -> u64 {
        let Ok(task) = MockTask::new(&self.rt) else {
            return 0;
        };
        let mut served: u64 = 0;
        for _ in 0..self.rounds {
            if let Poll::Ready(Ok(guard)) = task.poll(&mut self.pool.get()) {
                served = served.saturating_add(1);
                drop(guard);
            }
        }
        served
    }
}

/// Runs this many threads of this many rounds each.
pub fn shared<K: Clock, R: Runtime + Threads, L: PoolPermits>(
    rt: R,
    pool: &NumberPool<K, R, L>,
    rounds: u64,
    threads: usize,
) -> Result<u64, Memory> {
    let mut served: u64 = 0;
    for one in in_threads(&rt, threads, &Rounds { pool, rt, rounds })?.iter() {
        served = served.saturating_add(*one);
    }
    Ok(served)
}
