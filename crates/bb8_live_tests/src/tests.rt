//! Helpers of the tests; the defaults, and every error once.
ghost use Rattle.std.specs.Prelude.{◌≡◌, ◌<◌, ◌==◌};
ghost use Rattle.bb8.specs.Permits.{IsBlankOf, unchecked_of};
ghost use Rattle.futures.specs.declared.task.Poll.TheVariants.{Pending};

mod blocking;
mod calls;
mod clocks;
mod guards;
mod handles;
mod serving;
mod signal;
mod threads;
mod unlocked;

use bb8::{
    AddError, Builder, Config, ManageConnection, Memory, Moment, NopCustomizer, NopErrorSink, Pool,
    PoolPermits, RunError, Runtime, SetClock,
};
use bb8_trials::Refused;
use futures::task::Poll;
use futures::test::MockTask;
use std::fmt::{Debug, Display};
use std::marker::Brand;
use std::process::Abort;
use std::sync::ledger::Blank;
use std::test::Fail;

/// Ends the test if the found value is not the wanted one, and prints both.
fn assert_equal<T: PartialEq + Debug + Drop>(rt: &impl Abort, found: T, wanted: T) {
    assert_eq!(rt; found, wanted);
}

/// A pool whose connections are numbers.
type SlowPool<R, L> = Pool<SlowManager, NopErrorSink, NopCustomizer, SetClock, R, L>;

/// A pool of numbers, its clock, and a task that polls.
#[derive(Drop)]
struct NumberTrial<R: Runtime, L: PoolPermits> {
    pool: SlowPool<R, L>,
    clock: SetClock,
    task: MockTask,
}

/// A trial with such a pool.
#[derive(Clone, Copy)]
enum Trial {
    Guards,
    ListOfGuards,
}

/// Runs a trial on a pool with the check off.
fn tries<R: Runtime + Abort, L: PoolPermits>(
    rt: R,
    blank: Blank,
    max_size: u32,
    trial: Trial,
) -> Result<(), Fail>
    requires some { 0 < max_size }
    requires parts { IsBlankOf blank (unchecked_of max_size) L.name L.parts L.settings }
{
    let clock = SetClock::new(rt.alloc(), Moment(0))?;
    let pool = Builder::new()
        .max_size(max_size)
        .test_on_check_out(false)
        .build_unchecked(SlowManager, clock.try_clone()?, rt, blank)?;
    let task = MockTask::new(&rt)?;
    let numbers: NumberTrial<R, L> = NumberTrial { pool, clock, task };
    match trial {
        Trial::Guards => handles::derefs(rt, numbers),
        Trial::ListOfGuards => guards::gathers(rt, numbers),
    }
}

/// Runs a trial with its own permits.
fn try_numbers<R: Runtime + Abort>(rt: R, max_size: u32, trial: Trial) -> Result<(), Fail>
    requires { 0 < max_size }
{
    tries::<R, Brand>(rt, Blank::new(max_size as u64), max_size, trial)
}

/// Opens connection 7 at the moment 5, finds even connections valid, and reports 0 as broken.
#[derive(Drop)]
struct SlowManager;

impl ManageConnection for SlowManager {
    type Connection = u64;

    type Error = Refused;

    type Connecting = ();

    type Checking = ();

    ghost connect_answers = { λ _ _ moment answer _. moment.0 < 5 → answer ≡ Pending };

    ghost breaks = { λ _ connection answer after.
        (answer ≡ (connection == 0)) × (after ≡ connection) };

    fn connect(&self) {}

    fn poll_connect(&self, _connecting: &mut (), moment: Moment) -> Poll<Result<u64, Refused>> {
        if moment.0 < 5 {
            return Poll::Pending;
        }
        Poll::Ready(Ok(7))
    }

    fn is_valid(&self, _connection: &mut u64) {}

    fn poll_valid(
        &self,
        connection: &mut u64,
        _checking: &mut (),
        _moment: Moment,
    ) -> Poll<Result<(), Refused>> {
        let valid = *connection % 2 == 0;
        Poll::Ready(if valid { Ok(()) } else { Err(Refused(1)) })
    }

    fn has_broken(&self, connection: &mut u64) -> bool {
        *connection == 0
    }
}

/// A connection with neither `Display` nor `Debug`.
#[derive(Drop)]
struct Plain;

#[test]
fn defaults(rt: HostRuntime) -> Result<(), Fail> {
    let wanted = format!(in rt.alloc(); "{:?}", Config::default())?;
    for builder in [Builder::<SlowManager>::new(), Builder::default()] {
        let found = format!(in rt.alloc(); "{:?}", Config::from(&builder))?;
        assert_equal(&rt, found.as_str(), wanted.as_str());
    }
    Ok(())
}

/// Asserts that a value prints as this text.
fn assert_prints<R: Abort + AllocGlobal>(
    rt: &R,
    value: impl Display + Drop,
    text: &str,
) -> Result<(), Fail> {
    assert_equal(rt, format!(in rt.alloc(); "{value}")?.as_str(), text);
    Ok(())
}

#[test]
fn prints_errors(rt: HostRuntime) -> Result<(), Fail> {
    assert_prints(&rt, RunError::from(Refused(3)), "refused 3")?;
    assert_prints(&rt, RunError::<Refused>::TimedOut, "Timed out in bb8")?;
    assert_prints(&rt, RunError::<Refused>::Memory, "No memory in bb8")?;
    let text = "Numbers used up in bb8";
    assert_prints(&rt, RunError::<Refused>::Exhausted, text)?;
    assert_prints(&rt, Memory, "No memory in bb8")?;
    let text = "The connection was broken before it could be added";
    assert_prints(&rt, AddError::Broken(Plain), text)?;
    let text = "Unable to add the connection to the pool due to insufficient capacity";
    assert_prints(&rt, AddError::NoCapacity(Plain), text)?;
    let text = "No memory or number to add the connection";
    assert_prints(&rt, AddError::Withheld(Plain), text)
}
