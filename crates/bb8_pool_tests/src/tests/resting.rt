//! A driver that sleeps while it has nothing to do.

use super::{Bench, Metered, Times, Work, assert_below, nanos, serve};
use bb8::{Gets, PoolCalls, PoolPermits, Runtime};
use bb8_trials::{Board, builder_on};
use futures::test::MockTask;
use std::test::Fail;
use std::thread::{self, Threads};
use std::time::{Clock, CpuClock, Duration};

/// One thread gets a connection that must be opened, and then leaves the pool alone for this long.
#[derive(Drop)]
struct Resting {
    rest: Duration,
}

impl<R: Runtime + CpuClock> Work<R> for Resting {
    /// The nanoseconds that the get took, the turns that the driver made while the thread rested,
    /// and the processor time that they took.
    fn run<L: PoolPermits>(&self, bench: &Bench<R>, pool: &Metered<R, L>, _thread: usize) -> Times {
        let (rt, meter) = (&bench.rt, &*bench.meter);
        let task = MockTask::new(rt).ok()?;
        meter.readings.comes_to(meter.readings.get(), false);
        let begun = nanos(rt.monotonic());
        let guard = pool.get_blocking().ok()?;
        // It goes to a get that is cancelled, so gets are signalled more often than drivers.
        let mut next = pool.get();
        drop(task.poll(&mut next));
        drop(guard);
        drop(next);
        let served = nanos(rt.monotonic()).saturating_sub(begun);
        meter.readings.comes_to(meter.readings.get(), false);
        let (turns, used) = (meter.readings.get(), meter.used.get());
        thread::sleep(rt, self.rest);
        let turns = meter.readings.get().saturating_sub(turns);
        let used = meter.used.get().saturating_sub(used);
        meter.readings.comes_to(meter.readings.get(), false);
        meter.caused.set(nanos(rt.monotonic()));
        Some([served, turns, used])
    }
}

/// Returns the measurements of a thread that rests this long, and how many nanoseconds after its
/// end the service returned.
fn serve_resting<R: Runtime + CpuClock + Threads>(
    rt: R,
    rest: Duration,
) -> Result<([u64; 3], u64), Fail> {
    let board = Board::new(rt.alloc())?;
    let builder = builder_on(&board)?.max_size(1);
    let served = serve(rt, &board, builder, 1, Resting { rest })?;
    Ok((served.measured()?, served.ended))
}

/// In a second with nothing to do a service's driver makes fewer than 60 turns, and uses less than
/// 10 milliseconds of a processor.
#[test]
fn idle_driver_sleeps(rt: HostRuntime) -> Result<(), Fail> {
    assert_below(&rt, 10_000_000, || {
        let ([_, turns, used], _) = serve_resting(rt, Duration::from_secs(1))?;
        assert!(&rt; turns < 60, "{turns} turns");
        Ok(used)
    })
}

/// A driver that nothing woke would make its next turn some 50 milliseconds after the previous one,
/// which each thread has just seen: before the get with a granted approval, and before the end of
/// the pool.
#[test]
fn grant_and_end_wake_the_driver(rt: HostRuntime) -> Result<(), Fail> {
    assert_below(&rt, 20_000_000, || {
        let ([served, ..], ended) = serve_resting(rt, Duration::from_millis(1))?;
        Ok(served.max(ended))
    })
}
