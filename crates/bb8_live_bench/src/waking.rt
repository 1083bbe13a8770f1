//! Threads that sleep until a connection is returned.

use crate::manager::{NumberManager, NumberPool};
use bb8::{
    Blocking, Builder, Clock as PoolClock, MachineClock, NopCustomizer, NopErrorSink, PoolCalls,
    PoolPermits, Runtime, Service,
};
use std::sync::atomic::{AtomicU64, Ordering};
use std::thread;
use std::thread::Threads;
use std::time::Duration;

/// Two threads take turns with the only connection: one holds it for a while, and the other sleeps
/// in its get meanwhile.
#[derive(Drop)]
struct Turns<R> {
    rt: R,
    /// How often each thread checks it out.
    rounds: u64,
    /// When the latest return began, by the machine's clock.
    returned: AtomicU64,
}

impl<R: Runtime> Service<Blocking<NumberManager>, NopErrorSink, NopCustomizer, MachineClock<R>, R>
    for Turns<R> {
    /// The nanoseconds from a return to the result of each get that waited for it.
    type Output = Option<Vec<u64>>;

    /// Their median and 95th percentile.
    type Outcome = Option<(u64, u64)>;

    fn begin<L: PoolPermits>(
        &self,
        _pool: &NumberPool<MachineClock<R>, R, L>,
    ) -> Result<(), Option<(u64, u64)>> {
        Ok(())
    }

    fn run<L: PoolPermits>(
        &self,
        pool: &NumberPool<MachineClock<R>, R, L>,
        _thread: usize,
    ) -> Option<Vec<u64>> {
        let mut results = Vec::new(self.rt.alloc());
        for _ in 0..self.rounds {
            let asked = PoolClock::now(&MachineClock(self.rt)).0;
            let guard = pool.get_blocking().ok()?;
            let served = PoolClock::now(&MachineClock(self.rt)).0;
            let returned = self.returned.load(Ordering::SeqCst);
            if asked < returned {
                results.push(served.saturating_sub(returned)).ok()?;
            }
            thread::sleep(&self.rt, Duration::from_millis(2));
            self.returned
                .store(PoolClock::now(&MachineClock(self.rt)).0, Ordering::SeqCst);
            drop(guard);
            thread::sleep(&self.rt, Duration::from_millis(1));
        }
        Some(results)
    }

    fn end<L: PoolPermits>(
        &self,
        _pool: &NumberPool<MachineClock<R>, R, L>,
        results: &[Option<Vec<u64>>],
    ) -> Option<(u64, u64)> {
        let mut all = Vec::new(self.rt.alloc());
        for one in results {
            for after in one.as_ref()?.iter() {
                all.push(*after).ok()?;
            }
        }
        all.as_mut_slice().sort_unstable();
        let median = *all.get(all.len() / 2)?;
        let most = *all.get(all.len().saturating_sub(all.len() / 20 + 1))?;
        Some((median, most))
    }
}

/// Runs two threads of this many rounds each. Returns the median and the 95th percentile of the
/// nanoseconds from a return to the result of the sleeping get; None if a get was not served or
/// none slept.
pub fn woken<R: Runtime + Threads>(rt: R, rounds: u64) -> Option<(u64, u64)> {
    let turns = Turns {
        rt,
        rounds,
        returned: AtomicU64::new(0),
    };
    Builder::new()
        .max_size(1)
        .min_idle(Some(1))
        .test_on_check_out(false)
        .serve(Blocking(NumberManager), MachineClock(rt), rt, 2, &turns)
        .ok()?
}
