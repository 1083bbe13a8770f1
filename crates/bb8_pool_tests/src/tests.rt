//! Helpers of the tests: services whose threads measure what they do.
ghost use Rattle.std.specs.Prelude.{◌≡◌, true};
ghost use Rattle.bb8.specs.Settings.{is_lawful};

mod drivers;
mod refusals;
mod resting;
mod runners;
mod serving;
mod waiting;

use bb8::{Clock, Moment, NopCustomizer, PoolPermits, RunError, Runtime, Service};
use bb8_trials::{
    Board, Errors, Number, RandomSource, Refused, Server, ServerBuilder, ServerPool, server_on,
};
use std::alloc::Global;
use std::fmt::Debug;
use std::process::Abort;
use std::sync::Arc;
use std::test::Fail;
use std::thread::{self, Threads};
use std::time::{CpuClock, Duration};

/// Ends the test if the found value is not the wanted one, and prints both.
fn assert_equal<T: PartialEq + Debug + Drop>(rt: &impl Abort, found: T, wanted: T) {
    assert_eq!(rt; found, wanted);
}

/// Makes trials until one measures less than a limit: a machine that pauses spoils some. Fails if
/// none of twenty does.
fn assert_below<F: FnMut() -> Result<u64, Fail>>(
    rt: &impl Abort,
    limit: u64,
    mut trial: F,
) -> Result<(), Fail>
    requires { F.IsAlwaysCallable trial }
{
    let mut least = u64::MAX;
    for _ in 0..20u32 {
        if least >= limit {
            least = least.min(trial()?);
        }
    }
    assert!(rt; least < limit, "{least} nanoseconds");
    Ok(())
}

/// Returns the nanoseconds of a reading of the machine's clock or of a processor's; 0 if it failed.
fn nanos(read: std::io::Result<Duration>) -> u64 {
    read.map_or(
        0,
        |passed| u64::try_from(passed.as_nanos()).unwrap_or(u64::MAX),
    )
}

/// The counts of a clock, and what a trial sets and notes.
#[derive(Drop)]
struct Meter {
    /// How often the clock was read.
    readings: Number,
    /// The processor time of the thread that read it last, in nanoseconds.
    used: Number,
    /// How many milliseconds each reading takes.
    lag: Number,
    /// When the cause of what is measured occurred, by the machine's clock.
    caused: Number,
}

/// What the threads of a trial share. It is the clock of their pool, too: the machine's, whose
/// readings are counted, and take longer if a trial says so.
#[derive(Clone, Drop)]
struct Bench<R> {
    rt: R,
    board: Arc<Board, Global>,
    meter: Arc<Meter, Global>,
}

impl<R: Runtime + CpuClock> Clock for Bench<R> {
    fn now(&self) -> Moment {
        self.meter.readings.count();
        self.meter.used.set(nanos(self.rt.thread_cpu_time()));
        thread::sleep(&self.rt, Duration::from_millis(self.meter.lag.get()));
        Moment(nanos(self.rt.monotonic()))
    }
}

/// A pool on such a clock.
type Metered<R, L> = ServerPool<Bench<R>, R, L>;

/// Three measurements of a thread; None if a get had another result than it should.
type Times = Option<[u64; 3]>;

/// The work of a service's threads.
trait Work<R: Runtime + CpuClock>: Sync {
    /// Returns the measurements of the thread of this number.
    fn run<L: PoolPermits>(&self, bench: &Bench<R>, pool: &Metered<R, L>, thread: usize) -> Times;
}

/// A service whose threads do this work.
#[derive(Drop)]
struct Working<R, W> {
    bench: Bench<R>,
    work: W,
}

impl<R: Runtime + CpuClock, W: Work<R>> Service<Server, Errors, NopCustomizer, Bench<R>, R>
    for Working<R, W> {
    type Output = Times;

    /// The greatest of each measurement.
    type Outcome = Times;

    fn begin<L: PoolPermits>(&self, _pool: &Metered<R, L>) -> Result<(), Times> {
        Ok(())
    }

    fn run<L: PoolPermits>(&self, pool: &Metered<R, L>, thread: usize) -> Times {
        self.work.run(&self.bench, pool, thread)
    }

    fn end<L: PoolPermits>(&self, _pool: &Metered<R, L>, results: &[Times]) -> Times {
        let mut most = [0; 3];
        for result in results {
            let [first, second, third] = (*result)?;
            most = [most[0].max(first), most[1].max(second), most[2].max(third)];
        }
        Some(most)
    }
}

/// The result of a service, and times in nanoseconds.
#[derive(Drop)]
struct Served {
    answer: Result<Times, RunError<Refused>>,
    /// How long it took.
    lasted: u64,
    /// How long it took from the latest cause on.
    ended: u64,
    /// The processor time of the calling thread.
    used: u64,
}

impl Served {
    /// Returns the measurements; fails if a get had another result than it should.
    fn measured(&self) -> Result<[u64; 3], Fail> {
        match self.answer {
            Ok(Some(measured)) => Ok(measured),
            _ => Err(Fail::new("a get had another result than it should")),
        }
    }
}

/// Runs a service whose threads do this work.
fn serve<R: Runtime + CpuClock + Threads, W: Work<R> + Drop>(
    rt: R,
    board: &Arc<Board, Global>,
    builder: ServerBuilder,
    threads: usize,
    work: W,
) -> Result<Served, Fail>
    requires { is_lawful builder.settings ≡ true }
{
    let meter = Meter {
        readings: Number::new(0),
        used: Number::new(0),
        lag: Number::new(0),
        caused: Number::new(0),
    };
    let bench = Bench {
        rt,
        board: Arc::try_clone(board)?,
        meter: Arc::new(rt.alloc(), meter)?,
    };
    let clock = bench.clone()?;
    let service = Working { bench, work };
    let (begun, idle) = (nanos(rt.monotonic()), nanos(rt.thread_cpu_time()));
    let answer = builder.serve(server_on(board)?, clock, rt, threads, &service);
    let ended = nanos(rt.monotonic());
    Ok(Served {
        answer,
        lasted: ended.saturating_sub(begun),
        ended: ended.saturating_sub(service.bench.meter.caused.get()),
        used: nanos(rt.thread_cpu_time()).saturating_sub(idle),
    })
}

/// The sequence of the seed 1234567 begins with these numbers, which other programs by the same
/// rule print.
#[test]
fn numbers_of_a_seed(rt: HostRuntime) {
    let source = RandomSource::new(1_234_567);
    for number in [
        6_457_827_717_110_365_317,
        3_203_168_211_198_807_973,
        9_817_491_932_198_370_423,
        4_593_380_528_125_082_431,
        16_408_922_859_458_223_821,
    ] {
        assert_equal(&rt, source.next(), number);
    }
}
