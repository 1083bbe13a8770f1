//! A service over a pool whose first connection cannot be opened, or is opened late; and one whose
//! driver must make turns, and end.

use super::{Bench, Metered, Times, Work, assert_below, assert_equal, nanos, serve};
use bb8::{PoolCalls, PoolPermits, Runtime};
use bb8_trials::{Board, Course, SECOND, builder_on};
use std::mem;
use std::sync::Arc;
use std::test::Fail;
use std::time::{Clock, CpuClock, Duration};

/// Checks out two connections at once, and returns their numbers. Each get requests an attempt,
/// which a later turn of the driver has to make.
#[derive(Drop)]
struct TwoAtOnce {
    /// Whether it keeps both, each with its own handle.
    keeps: bool,
}

impl<R: Runtime + CpuClock> Work<R> for TwoAtOnce {
    fn run<L: PoolPermits>(&self, bench: &Bench<R>, pool: &Metered<R, L>, _thread: usize) -> Times {
        let first = pool.get_owned_blocking().ok()?;
        let second = pool.get_owned_blocking().ok()?;
        let numbers = [first.number, second.number, 0];
        if self.keeps {
            mem::forget(first);
            mem::forget(second);
        }
        bench.meter.lag.set(50);
        Some(numbers)
    }
}

/// The driver makes turns while the service runs, the next one in less than half a second. Its
/// thread has ended when the service returns, also if handles are left over, with which the pool's
/// driver would run forever. If none is, it has dropped the pool: nobody else then holds the
/// server's board. The driver takes longer to end than the pool, by two slow readings of the clock
/// to one.
#[test]
fn driver_of_a_service_turns_on_and_ends(rt: HostRuntime) -> Result<(), Fail> {
    for keeps in [true, false] {
        let board = Board::new(rt.alloc())?;
        let builder = builder_on(&board)?
            .max_size(2)
            .connection_timeout(Duration::from_millis(500));
        let served = serve(rt, &board, builder, 1, TwoAtOnce { keeps })?;
        assert_equal(&rt, served.measured()?, [1, 2, 0]);
        assert!(&rt; keeps || Arc::try_unwrap(board).is_ok());
    }
    Ok(())
}

/// A server that is down is tried for a second; or the first attempt takes half a second. The
/// waiting thread uses less than a fifth of a second of a processor. If it polled without a pause,
/// it would use all of that time.
#[test]
fn first_connections_are_awaited_asleep(rt: HostRuntime) -> Result<(), Fail> {
    let board = Board::new(rt.alloc())?;
    for course in [Course::Fails, Course::Passes] {
        board.opening.set(course);
        assert_below(&rt, SECOND / 5, || {
            let ready = nanos(rt.monotonic()).saturating_add(SECOND / 2);
            board.ready.set(ready);
            let builder = builder_on(&board)?
                .max_size(2)
                .min_idle(Some(1))
                .connection_timeout(Duration::from_secs(1));
            let served = serve(rt, &board, builder, 1, TwoAtOnce { keeps: false })?;
            assert_equal(&rt, served.answer.is_ok(), course == Course::Passes);
            assert!(&rt; served.lasted > SECOND / 4, "{} nanoseconds", served.lasted);
            Ok(served.used)
        })?;
    }
    Ok(())
}
