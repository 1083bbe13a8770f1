//! A service over a pool: which of its calls are made, how often, and with which number.
ghost use Rattle.std.specs.Prelude.{◌≡◌, Ok, IfOk, length};

use super::{SlowManager, SlowPool, assert_equal};
use bb8::{
    Builder, Gets, Job, Moment, NopCustomizer, NopErrorSink, PoolCalls, PoolPermits, Runtime,
    Service, SetClock, start,
};
use bb8_trials::Number;
use futures::executor::block_on;
use std::process::Abort;
use std::test::Fail;
use std::thread::Threads;
use std::time::Clock;

/// A service that counts its calls.
#[derive(Drop)]
struct CallCounter<R> {
    rt: R,
    /// The connection that it adds when it begins.
    connection: u64,
    begun: Number,
    run: Number,
    ended: Number,
}

impl<R: Runtime + Abort> CallCounter<R> {
    fn new(rt: R, connection: u64) -> Self {
        CallCounter {
            rt,
            connection,
            begun: Number::new(0),
            run: Number::new(0),
            ended: Number::new(0),
        }
    }

    /// Returns how often it began, ran and ended.
    fn calls(&self) -> (u64, u64, u64) {
        (self.begun.get(), self.run.get(), self.ended.get())
    }
}

impl<R: Runtime + Abort> Service<SlowManager, NopErrorSink, NopCustomizer, SetClock, R>
    for CallCounter<R> {
    /// The thread's number, if its get was served.
    type Output = Option<usize>;

    /// Whether all threads returned their numbers, in order; None if the connection was not added.
    type Outcome = Option<bool>;

    fn begin<L: PoolPermits>(&self, pool: &SlowPool<R, L>) -> Result<(), Option<bool>> {
        self.begun.count();
        pool.add(self.connection).map_err(|_| None)
    }

    /// Uses the thread's own handle.
    fn run<L: PoolPermits>(&self, pool: &SlowPool<R, L>, thread: usize) -> Option<usize> {
        self.run.count();
        let handle = pool.try_clone().ok()?;
        let results = match block_on(&self.rt, handle.get()) {
            Ok(Ok(guard)) if *guard == self.connection => Some(thread),
            _ => None,
        };
        results
    }

    fn end<L: PoolPermits>(
        &self,
        _pool: &SlowPool<R, L>,
        results: &[Option<usize>],
    ) -> Option<bool> {
        self.ended.count();
        let in_order = results
            .iter()
            .enumerate()
            .all(|(thread, number)| *number == Some(thread));
        Some(in_order && results.len() == 4)
    }
}

/// Runs four threads over a pool of one connection, which is added, so that the pool's driver opens
/// none.
fn serve_four<R: Runtime + Abort + Threads + Clock>(
    rt: R,
    service: &CallCounter<R>,
) -> Result<Option<bool>, Fail> {
    let clock = SetClock::new(rt.alloc(), Moment(0))?;
    let builder = Builder::new().max_size(1).test_on_check_out(false);
    Ok(builder.serve(SlowManager, clock, rt, 4, service)?)
}

#[test]
fn each_thread_runs_once_under_its_number(rt: HostRuntime) -> Result<(), Fail> {
    let service = CallCounter::new(rt, 7);
    assert_equal(&rt, serve_four(rt, &service)?, Some(true));
    assert_equal(&rt, service.calls(), (1, 4, 1));
    Ok(())
}

#[test]
fn no_thread_starts_if_the_service_cannot_begin(rt: HostRuntime) -> Result<(), Fail> {
    let service = CallCounter::new(rt, 0);
    assert_equal(&rt, serve_four(rt, &service)?, None);
    assert_equal(&rt, service.calls(), (1, 0, 0));
    Ok(())
}

/// A service that returns how many threads ran.
#[derive(Clone, Copy)]
struct HowMany;

impl<R: Runtime + Abort> Service<SlowManager, NopErrorSink, NopCustomizer, SetClock, R>
    for HowMany {
    type Output = ();

    type Outcome = usize;

    ghost suits = { λ _ basis. basis.settings.max_size ≡ 3 };

    ghost begins = { λ _ _ answer. answer ≡ Ok tt };

    ghost ends = { λ _ _ results outcome. outcome ≡ length results };

    fn begin<L: PoolPermits>(&self, _pool: &SlowPool<R, L>) -> Result<(), usize> {
        Ok(())
    }

    fn run<L: PoolPermits>(&self, _pool: &SlowPool<R, L>, _thread: usize) {}

    fn end<L: PoolPermits>(&self, _pool: &SlowPool<R, L>, results: &[()]) -> usize {
        results.len()
    }
}

/// Returns how many threads ran: the service's own relations prove it to the caller of `serve`.
fn how_many<R: Runtime + Abort + Threads + Clock>(rt: R, threads: usize) -> Result<usize, Fail>
    ensures { IfOk result (λ ran. ran ≡ threads) }
{
    let clock = SetClock::new(rt.alloc(), Moment(0))?;
    let builder = Builder::new().max_size(3).test_on_check_out(false);
    Ok(builder.serve(SlowManager, clock, rt, threads, &HowMany)?)
}

#[test]
fn requested_number_of_threads_runs(rt: HostRuntime) -> Result<(), Fail> {
    assert_equal(&rt, how_many(rt, 0)?, 0);
    assert_equal(&rt, how_many(rt, 5)?, 5);
    Ok(())
}

/// A job that returns the number of its thread.
#[derive(Drop)]
struct OwnNumber;

impl Job for OwnNumber {
    type Output = usize;

    fn run(self, thread: usize) -> usize {
        thread
    }
}

#[test]
fn job_gets_the_number_of_its_thread(rt: HostRuntime) -> Result<(), Fail> {
    assert_equal(&rt, start(&rt, 7, OwnNumber)?.join(&rt), 7);
    Ok(())
}
