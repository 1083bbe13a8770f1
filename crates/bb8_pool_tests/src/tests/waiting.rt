//! Threads that wait asleep.

use super::{Bench, Metered, Times, Work, assert_below, nanos, serve};
use bb8::{PoolCalls, PoolPermits, RunError, Runtime};
use bb8_trials::{Board, Course, Number, builder_on};
use std::test::Fail;
use std::thread::{self, Threads};
use std::time::{Clock, CpuClock, Duration};

/// How threads wait, and what ends their wait.
#[derive(Clone, Copy, PartialEq, Eq)]
enum How {
    /// With a handle that they share, until the connection is returned.
    Shared,
    /// In the same way, and the first served one holds the connection again for the same time.
    Again,
    /// With their own handles.
    Owned,
    /// Until the pool is closed. The connection is not returned.
    Closes,
}

/// The number of threads, and for how many milliseconds the first one holds the connection; by how
/// many each of the others begins to wait later than the previous one; and how they wait.
type Trial = (usize, u64, u64, How);

/// Thread 0 holds the only connection for a while, and the other threads wait meanwhile.
#[derive(Drop)]
struct Waiting {
    trial: Trial,
    /// 1 once it is held.
    held: Number,
    /// How many gets were served.
    served: Number,
}

impl<R: Runtime + CpuClock> Work<R> for Waiting {
    /// The processor time that a thread used while it waited, and how long after the cause its get
    /// ended, in nanoseconds.
    fn run<L: PoolPermits>(&self, bench: &Bench<R>, pool: &Metered<R, L>, thread: usize) -> Times {
        let rt = &bench.rt;
        let (_, hold, apart, how) = self.trial;
        let hold = Duration::from_millis(hold);
        if thread == 0 {
            let guard = pool.get_blocking().ok()?;
            bench.board.opening.set(Course::Lasts);
            self.held.set(1);
            thread::sleep(rt, hold);
            bench.meter.caused.set(nanos(rt.monotonic()));
            if how == How::Closes {
                pool.close(rt.alloc());
                thread::sleep(rt, hold);
            }
            drop(guard);
            return Some([0; 3]);
        }
        self.held.comes_to(1, true);
        for _ in 1..thread {
            thread::sleep(rt, Duration::from_millis(apart));
        }
        let before = nanos(rt.thread_cpu_time());
        let guard = match how {
            How::Shared | How::Again => pool.get_blocking().ok(),
            How::Owned | How::Closes => None,
        };
        let is_right = match how {
            How::Shared | How::Again => guard.is_some(),
            How::Owned => pool.get_owned_blocking().is_ok(),
            How::Closes => pool.get_blocking().err() == Some(RunError::TimedOut),
        };
        let used = nanos(rt.thread_cpu_time()).saturating_sub(before);
        let after = nanos(rt.monotonic()).saturating_sub(bench.meter.caused.get());
        if how == How::Again && self.served.count() == 1 {
            thread::sleep(rt, hold);
        }
        is_right.then_some([used, after, 0])
    }
}

/// Has all threads of a trial but one wait for a connection of a pool with one connection.
fn wait_in<R: Runtime + CpuClock + Threads>(rt: R, trial: Trial) -> Result<[u64; 3], Fail> {
    let board = Board::new(rt.alloc())?;
    let builder = builder_on(&board)?.max_size(1).min_idle(Some(1));
    let work = Waiting {
        trial,
        held: Number::new(0),
        served: Number::new(0),
    };
    serve(rt, &board, builder, trial.0, work)?.measured()
}

/// Four threads wait for a second; three of them are woken in between and wait for one more second.
/// Each uses less than 10 milliseconds of a processor. A thread that did not sleep, or not after
/// that notification, would use most of a second.
#[test]
fn waiting_threads_sleep(rt: HostRuntime) -> Result<(), Fail> {
    let trial = (5, 1000, 0, How::Again);
    assert_below(&rt, 10_000_000, || Ok(wait_in(rt, trial)?[0]))
}

/// A thread that only polled every 50 milliseconds would come 30 milliseconds after a return at 70.
/// In a closed pool it times out at once, and not after its pool's 30 seconds.
///
/// In the last trial two threads wait, and the second begins 25 milliseconds after the first. So at
/// 62, when the connection is returned, the second one has slept longer: the first one has polled
/// in between. It is the first one's turn. If only the other one were woken, it would come at its
/// next poll, at 100.
#[test]
fn return_wakes_a_waiter(rt: HostRuntime) -> Result<(), Fail> {
    for trial in [
        (2, 70, 0, How::Shared),
        (2, 70, 0, How::Owned),
        (2, 70, 0, How::Closes),
        (3, 62, 25, How::Shared),
    ] {
        assert_below(&rt, 20_000_000, || Ok(wait_in(rt, trial)?[1]))?;
    }
    Ok(())
}

/// Holds the only connection with its own handle, and waits for it in vain.
#[derive(Drop)]
struct InVain;

impl<R: Runtime + CpuClock> Work<R> for InVain {
    /// How many nanoseconds each wait took.
    fn run<L: PoolPermits>(&self, bench: &Bench<R>, pool: &Metered<R, L>, _thread: usize) -> Times {
        let _first = pool.get_owned_blocking().ok()?;
        let begun = nanos(bench.rt.monotonic());
        let first = pool.get_blocking().err()?;
        let between = nanos(bench.rt.monotonic());
        let timeout = Duration::from_millis(120);
        let second = pool.get_blocking_timeout(timeout).err()?;
        let own = nanos(bench.rt.monotonic()).saturating_sub(between);
        let is_right = first == RunError::TimedOut && second == RunError::TimedOut;
        is_right.then_some([between.saturating_sub(begun), own, 0])
    }
}

/// A get that is not served times out after its pool's or its own timeout, and not earlier. A
/// thread that always slept for 50 milliseconds would come 20 and 30 milliseconds late.
#[test]
fn wait_ends_at_its_deadline(rt: HostRuntime) -> Result<(), Fail> {
    assert_below(&rt, 15_000_000, || {
        let board = Board::new(rt.alloc())?;
        let builder = builder_on(&board)?
            .max_size(1)
            .min_idle(Some(1))
            .connection_timeout(Duration::from_millis(30));
        let [pools, own, _] = serve(rt, &board, builder, 1, InVain)?.measured()?;
        let lasted = pools >= 30_000_000 && own >= 120_000_000;
        assert!(&rt; lasted, "{pools} and {own} nanoseconds");
        let late = pools.saturating_sub(30_000_000);
        Ok(late.max(own.saturating_sub(130_000_000)))
    })
}
