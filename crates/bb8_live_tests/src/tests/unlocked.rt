//! Calls that acquire no lock, made while another thread holds the pool's lock.
ghost use Rattle.bb8.specs.Permits.{IsBlankOf, unchecked_of};
ghost use Rattle.bb8.specs.Settings.{default_settings};

use super::calls::{Desk, Teller, TellerPool, teller_on};
use super::{SlowManager, assert_equal};
use bb8::{
    Builder, Building, Driver, DriverCalls, Guards, GuardsCalls, Job, Memory, Moment,
    NopCustomizer, NopErrorSink, Pool, PoolPermits, Runtime, SetClock, start,
};
use bb8_trials::{ARMED, LentHandle, OPEN, SECOND, WAITING};
use futures::test::MockTask;
use std::alloc::Global;
use std::marker::Brand;
use std::process::Abort;
use std::sync::Arc;
use std::sync::ledger::Blank;
use std::test::Fail;
use std::thread::Threads;

/// Makes a turn that reaps a connection which was idle for 700 seconds.
#[derive(Drop)]
struct Turner<R: Runtime + Abort, L: PoolPermits> {
    driver: Driver<Teller, Teller, Teller, Teller, R, L>,
}

impl<R: Runtime + Abort, L: PoolPermits> Job for Turner<R, L> {
    /// How many attempts it polled.
    type Output = u64;

    fn run(self, _thread: usize) -> u64 {
        let Turner { mut driver } = self;
        driver.turn(Moment(700 * SECOND)).polled
    }
}

/// Makes a build that is not polled.
fn plans<R: Runtime, L: PoolPermits>(rt: R, blank: Blank) -> Result<(), Memory>
    requires { IsBlankOf blank default_settings L.name L.parts L.settings }
{
    let clock = SetClock::new(rt.alloc(), Moment(0))?;
    let building: Building<SlowManager, NopErrorSink, NopCustomizer, SetClock, R, L> = Pool::<
        SlowManager,
        NopErrorSink,
        NopCustomizer,
        SetClock,
        R,
        L,
    >::builder().build(SlowManager, clock, rt, blank);
    drop(building);
    Ok(())
}

/// Makes all calls that acquire no lock, of a pool of two connections, one of which is in the list.
fn calls<R: Runtime + Abort, L: PoolPermits>(
    rt: R,
    task: &MockTask,
    pool: &TellerPool<R, L>,
    guards: &mut Guards<'_, Teller, Teller, Teller, Teller, R, L>,
) -> Result<(), Memory> {
    assert_equal(&rt, pool.config().max_size, 2);
    drop(pool.get());
    let mut opening = pool.dedicated_connection();
    assert!(&rt; LentHandle::poll_dedicated(pool, task, &mut opening).is_pending());
    drop(opening);
    plans::<R, Brand>(rt, Blank::new(10))?;
    assert_equal(&rt, (guards.len(), guards.is_empty()), (1, false));
    assert!(&rt; guards.get_mut(0).is_some());
    let Some(guard) = guards.remove(0) else {
        panic!(&rt; "no guard");
    };
    assert!(&rt; guards.push(guard).is_ok());
    drop(Guards::new(rt.alloc(), pool));
    Ok(())
}

/// A thread reaps, and the drop of what it closes waits under the lock until all calls were made
/// that acquire no lock.
fn waits_for_nobody<R: Runtime + Abort + Threads, L: PoolPermits + 'static>(
    rt: R,
    blank: Blank,
    desk: &Arc<Desk, Global>,
) -> Result<(), Fail>
    requires { IsBlankOf blank (unchecked_of 2) L.name L.parts L.settings }
{
    let task = MockTask::new(&rt)?;
    let pool: TellerPool<R, L> = Builder::new()
        .max_size(2)
        .test_on_check_out(false)
        .error_sink(teller_on(desk, "")?)
        .connection_customizer(teller_on(desk, "")?)
        .build_unchecked(teller_on(desk, "")?, teller_on(desk, "")?, rt, blank)?;
    assert!(&rt; pool.add(teller_on(desk, "dropped")?).is_ok());
    assert!(&rt; pool.add(teller_on(desk, "dropped")?).is_ok());
    let Some(guard) = LentHandle::lend(&pool, &task) else {
        panic!(&rt; "not served");
    };
    let mut guards = Guards::new(rt.alloc(), &pool);
    assert!(&rt; guards.push(guard).is_ok());
    let driver = Driver::new(&pool)?;
    desk.stage.set(ARMED);
    let Ok(turner) = start(&rt, 0, Turner { driver }) else {
        panic!(&rt; "no thread");
    };
    assert!(&rt; desk.stage.comes_to(WAITING, true));
    calls(rt, &task, &pool, &mut guards)?;
    desk.stage.set(OPEN);
    assert_equal(&rt, turner.join(&rt), 0);
    assert_equal(&rt, (desk.waited.get(), desk.missed.get()), (1, 0));
    assert_equal(&rt, pool.state().connections, 1);
    Ok(())
}

#[test]
fn calls_that_take_no_lock_wait_for_nobody(rt: HostRuntime) -> Result<(), Fail> {
    let desk = Desk::new(rt.alloc())?;
    desk.opening.set(1);
    waits_for_nobody::<HostRuntime, Brand>(rt, Blank::new(2), &desk)
}
