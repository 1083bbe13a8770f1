//! Job runners over a live pool.
ghost use Rattle.std.specs.Prelude.{◌≡◌, ◌<◌, true};
ghost use Rattle.bb8.specs.Permits.{IsBlankOf};
ghost use Rattle.bb8.specs.Settings.{is_lawful};

mod refusals;

use bb8::{
    Builder, Config, Memory, Moment, NopCustomizer, NopErrorSink, Pool, PoolCalls, PoolPermits,
    Runtime, SetClock,
};
use bb8_trials::sizes;
use futures::task::Poll;
use futures::test::MockTask;
use slots::{Job, Outcome, Phase, Runner, RunnerCalls, SlotManager};
use std::convert::Infallible;
use std::marker::Brand;
use std::process::Abort;
use std::sync::ledger::Blank;

/// A job that is ready at one of its polls, and returns the number of that poll.
#[derive(Drop)]
struct Count {
    polled: u64,
    ready_at: u64,
}

impl Job for Count {
    type Out = u64;

    fn poll(&mut self, _now: Moment) -> Poll<u64> {
        self.polled = self.polled.saturating_add(1);
        if self.polled == self.ready_at {
            Poll::Ready(self.polled)
        } else {
            Poll::Pending
        }
    }
}

/// A runner of counts.
trait CountRunner: RunnerCalls<Job = Count, Outcome = Outcome<u64, Infallible>> + Drop {}

impl<X: RunnerCalls<Job = Count, Outcome = Outcome<u64, Infallible>> + Drop> CountRunner for X {}

/// A runner of counts, and what a test turns it with.
#[derive(Drop)]
struct Bench<R: Drop, X: CountRunner> {
    rt: R,
    runner: X,
    task: MockTask,
}

impl<R: Drop, X: CountRunner> Bench<R, X> {
    /// Makes a turn of the runner. Returns how many jobs ended.
    fn turn(&mut self) -> u64 {
        let Bench { runner, task, .. } = self;
        task.enter(|cx| runner.turn(Moment(0), cx))
    }

    /// Submits a job that is ready at its poll of this number. Returns its id; None if memory was
    /// refused.
    fn submit(&mut self, ready_at: u64) -> Option<u64> {
        let polled = 0;
        self.runner.submit(Count { polled, ready_at }).ok()
    }

    /// Whether the job of this id returned this number.
    fn came_to(&mut self, id: u64, number: u64) -> bool {
        matches!(self.runner.take(id), Some(Outcome::Done(out)) if out == number)
    }
}

/// A pool of slots.
type SlotPool<R, L> = Pool<SlotManager, NopErrorSink, NopCustomizer, SetClock, R, L>;

/// The builder of a pool of slots.
type SlotBuilder = Builder<SlotManager, NopErrorSink, NopCustomizer>;

/// Returns a builder of pools of this many slots, with the check off.
fn slots(max_size: u32) -> SlotBuilder
    requires { 0 < max_size }
{
    Builder::new().max_size(max_size).test_on_check_out(false)
}

/// A test of a runner and its pool.
trait RunnerTrial<R: Runtime> {
    fn run<L: PoolPermits, X: CountRunner>(self, pool: &SlotPool<R, L>, bench: Bench<R, X>);
}

/// Runs a trial on a pool with these permits.
fn run_on<R: Runtime, L: PoolPermits, T: RunnerTrial<R> + Drop>(
    rt: R,
    blank: Blank,
    builder: SlotBuilder,
    trial: T,
) -> Result<(), Memory>
    requires lawful { is_lawful builder.settings ≡ true }
    requires parts { IsBlankOf blank builder.settings L.name L.parts L.settings }
{
    let clock = SetClock::new(rt.alloc(), Moment(0))?;
    let Ok(task) = MockTask::new(&rt) else {
        return Err(Memory);
    };
    let pool: SlotPool<R, L> = builder.build_unchecked(SlotManager, clock, rt, blank)?;
    let runner = Runner::new(rt.alloc(), &pool)?;
    trial.run(&pool, Bench { rt, runner, task });
    Ok(())
}

/// Runs a trial on a pool with these settings and a runner of it, at the moment 0. None if the
/// settings are not lawful, or memory was refused.
fn try_runner<R: Runtime, T: RunnerTrial<R> + Drop>(
    rt: R,
    builder: SlotBuilder,
    trial: T,
) -> Option<()> {
    let config = Config::from(&builder);
    if !config.is_lawful() {
        return None;
    }
    let blank = Blank::new(config.max_size as u64);
    run_on::<R, Brand, T>(rt, blank, builder, trial).ok()
}

/// The jobs of a runner, and the results of its turns.
#[derive(Clone, Copy)]
struct Turns {
    /// The number of the poll at which each job is ready.
    jobs: &'static [u64],
    /// How many jobs end at each turn, and how many run after it.
    ended: &'static [u64],
    running: &'static [u64],
    /// The phase of each job then.
    phases: &'static [Phase],
    /// The connections then, which the driver has opened, the idle ones, and how many gets were
    /// started, served directly, and served after a wait.
    state: (u32, u32, [u64; 3]),
    /// Whether the jobs' results are taken before the runner is dropped.
    takes: bool,
    /// How many gets are cancelled when it is dropped.
    cancelled: u64,
}

impl<R: Runtime + Abort> RunnerTrial<R> for Turns {
    fn run<L: PoolPermits, X: CountRunner>(self, pool: &SlotPool<R, L>, mut bench: Bench<R, X>) {
        let rt = bench.rt;
        for (id, ready_at) in self.jobs.iter().enumerate() {
            assert!(&rt; bench.submit(*ready_at) == Some(id as u64));
        }
        for (ended, running) in self.ended.iter().zip(self.running) {
            assert_eq!(&rt; (bench.turn(), bench.runner.running()), (*ended, *running));
        }
        for (id, phase) in self.phases.iter().enumerate() {
            assert!(&rt; bench.runner.phase(id as u64) == Some(*phase));
        }
        for (id, ready_at) in self.jobs.iter().enumerate() {
            assert!(&rt; !self.takes || bench.came_to(id as u64, *ready_at));
        }
        let state = PoolCalls::state(pool);
        let (connections, idle, wanted) = self.state;
        let found = state.statistics;
        let gets = [found.get_started, found.get_direct, found.get_waited];
        assert!(&rt; sizes(state) == (connections, idle));
        assert_eq!(&rt;
            (gets, found.connections_created),
            (wanted, u64::from(connections))
        );
        drop(bench.runner);
        let state = PoolCalls::state(pool);
        assert!(&rt; sizes(state) == (connections, connections));
        let found = state.statistics;
        assert_eq!(&rt;
            (found.get_cancelled, found.pending_gets()),
            (self.cancelled, 0)
        );
    }
}

/// Five jobs that are ready at their third poll.
const FIVE_JOBS: Turns = Turns {
    jobs: &[3; 5],
    ended: &[0, 0, 0, 0, 2, 0, 0, 2, 0, 0, 1],
    running: &[0, 2, 2, 2, 2, 2, 2, 1, 1, 1, 0],
    phases: &[Phase::Ended; 5],
    state: (2, 2, [5, 0, 5]),
    takes: true,
    cancelled: 0,
};

#[test]
fn five_jobs_on_two_slots(rt: HostRuntime) {
    assert!(&rt; try_runner(rt, slots(2), FIVE_JOBS).is_some());
}

/// The job's get finds the connection that the driver has opened in the same turn: the driver's
/// turn comes first.
const OPENS_FIRST: Turns = Turns {
    jobs: &[1],
    ended: &[0],
    running: &[1],
    phases: &[Phase::Running],
    state: (1, 0, [1, 1, 0]),
    takes: false,
    cancelled: 0,
};

#[test]
fn driver_turns_before_the_jobs(rt: HostRuntime) {
    assert!(&rt; try_runner(rt, slots(1).min_idle(Some(1)), OPENS_FIRST).is_some());
}

/// A runner that is dropped while one job has ended, two run and one waits.
const DROPPED: Turns = Turns {
    jobs: &[1, 9, 9, 9],
    ended: &[0, 0, 1, 0],
    running: &[0, 2, 2, 2],
    phases: &[Phase::Ended, Phase::Running, Phase::Running, Phase::Waiting],
    state: (2, 0, [4, 0, 3]),
    takes: false,
    cancelled: 1,
};

#[test]
fn dropped_runner_returns_all(rt: HostRuntime) {
    assert!(&rt; try_runner(rt, slots(2), DROPPED).is_some());
}
