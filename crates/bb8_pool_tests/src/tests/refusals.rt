//! Live pools that are built, cloned, driven and used in runs in which memory is refused: the Nth
//! request of each test, or all from the Nth on. `gate/refusals/run`, at the top of the repository,
//! runs them for every N. Each result is the one with all memory, or the refusal that its call
//! documents, and each connection that was opened or added is dropped once.
ghost use Rattle.std.specs.Prelude.{◌≡◌, ◌<◌, true};
ghost use Rattle.bb8.specs.Permits.{IsBlankOf};
ghost use Rattle.bb8.specs.Settings.{is_lawful};

use super::assert_equal;
use bb8::{
    AddError, Building, Config, Driver, DriverCalls, Memory, Moment, NoThread, NopCustomizer,
    PoolPermits, RunError, Runtime, SetClock, drive,
};
use bb8_trials::{
    Board, Course, Errors, OneTurn, OwnedHandle, Polled, Refused, Server, ServerBuilder,
    ServerPool, Unbuilt, builder_on, connection_on, server_on, sizes,
};
use futures::task::Poll;
use futures::test::MockTask;
use std::alloc::Global;
use std::marker::Brand;
use std::process::Abort;
use std::sync::Arc;
use std::sync::ledger::Blank;
use std::thread::Threads;

/// Whether a request for memory is refused.
fn is_refused(alloc: Global) -> bool {
    Box::new(alloc, 0_u8).is_err()
}

/// Returns the value of a poll that is not pending, and fails with nothing but `Memory`. None if
/// memory was refused.
fn answered<T: Drop>(rt: &impl Abort, polled: Polled<T, Refused>) -> Option<T> {
    match polled {
        Poll::Ready(Ok(answer)) => Some(answer),
        Poll::Ready(Err(error)) => {
            assert_equal(rt, error, RunError::Memory);
            None
        }
        Poll::Pending => panic!(rt; "it is pending"),
    }
}

/// An owned get is served, or returns `Memory`; then the pool is as before. Returns whether it was
/// served.
fn owns<P: OwnedHandle<Server>>(rt: &impl Abort, task: &MockTask, pool: &P) -> bool {
    let before = sizes(pool.state());
    let is_served = answered(rt, P::poll_owned(task, &mut pool.get_owned())).is_some();
    assert_equal(rt, sizes(pool.state()), before);
    is_served
}

/// The first poll of a build opens both first connections, or it returns `Memory`. A connection is
/// added, or withheld; the pool is cloned, or the clone is refused; and an owned get is served on
/// the remaining handle. Returns whether nothing was refused.
fn builds<B: Unbuilt<Server>>(
    rt: &impl Abort,
    task: &MockTask,
    mut building: B,
    board: &Arc<Board, Global>,
) -> Result<bool, Memory> {
    let Some(pool) = answered(rt, building.poll(task)) else {
        return Ok(false);
    };
    assert_equal(rt, sizes(pool.state()), (2, 2));
    match pool.add(connection_on(board, board.begun.count())?) {
        Ok(()) => assert_equal(rt, sizes(pool.state()), (3, 3)),
        Err(AddError::Withheld(conn)) => {
            assert_equal(rt, sizes(pool.state()), (2, 2));
            drop(conn);
            return Ok(false);
        }
        Err(_) => panic!(rt; "a slot is free, and nothing was broken"),
    }
    match pool.try_clone() {
        Ok(clone) => {
            drop(pool);
            Ok(owns(rt, task, &clone))
        }
        Err(error) => {
            assert_equal(rt, error, RunError::Memory);
            let _ = owns(rt, task, &pool);
            Ok(false)
        }
    }
}

/// A driver opens three connections in its first turn. If there is no memory for a task, its claim
/// is left to the next turn, if there is memory then. A claim is also how a driver sees that no
/// handle is left. Returns whether nothing was refused.
fn opens<R: Abort + AllocGlobal, P: OwnedHandle<Server>, D: DriverCalls>(
    rt: &R,
    pool: P,
    driver: &mut D,
) -> bool {
    let first = driver.turn(Moment(0));
    let (opened, _) = sizes(pool.state());
    assert_equal(rt, (first.ended, first.polled), (false, u64::from(opened)));
    let rest = 3_u32.saturating_sub(opened);
    let left = if is_refused(rt.alloc()) { 0 } else { rest };
    let second = driver.turn(Moment(0));
    assert_equal(rt, (second.ended, second.polled), (false, u64::from(left)));
    let all = opened.saturating_add(left);
    assert_equal(rt, sizes(pool.state()), (all, all));
    drop(pool);
    assert!(rt; driver.turn(Moment(0)).ended || is_refused(rt.alloc()));
    opened == 3
}

/// A driver that holds the task of the pool's only approval is moved to a thread, or dropped if
/// none can be started. Either way the approval is freed, so that an add finds capacity. Returns
/// whether nothing was refused.
fn hangs<R: Runtime + Abort + Threads + Eprint, L: PoolPermits + 'static>(
    rt: R,
    board: &Arc<Board, Global>,
    pool: ServerPool<SetClock, R, L>,
    mut driver: Driver<Server, Errors, NopCustomizer, SetClock, R, L>,
) -> Result<bool, Memory> {
    if driver.turn(Moment(0)).polled != 1 {
        return Ok(false);
    }
    let is_run = match drive(&rt, driver, OneTurn) {
        Ok(thread) => thread.join(&rt).turns == 1,
        Err(NoThread) => {
            let _ = rt.eprintln("no thread was made for a driver with a task");
            false
        }
    };
    let conn = connection_on(board, board.begun.count())?;
    assert!(&rt; OwnedHandle::add(&pool, conn).is_ok());
    assert_equal(&rt, sizes(OwnedHandle::state(&pool)), (1, 1));
    Ok(is_run)
}

/// Runs the scenario of this many first connections over a pool with these permits.
fn run_on<R: Runtime + Abort + Threads + Eprint, L: PoolPermits + 'static>(
    rt: R,
    blank: Blank,
    builder: ServerBuilder,
    board: &Arc<Board, Global>,
    first: u32,
) -> Result<bool, Memory>
    requires lawful { is_lawful builder.settings ≡ true }
    requires parts { IsBlankOf blank builder.settings L.name L.parts L.settings }
{
    let clock = SetClock::new(rt.alloc(), Moment(0))?;
    let server = server_on(board)?;
    if first == 2 {
        let task = MockTask::new(&rt).map_err(|_| Memory)?;
        let building: Building<Server, Errors, NopCustomizer, SetClock, R, L> = builder.build(
            server, clock, rt, blank,
        );
        return builds(&rt, &task, building, board);
    }
    let pool: ServerPool<SetClock, R, L> = builder.build_unchecked(server, clock, rt, blank)?;
    let mut driver = Driver::new(&pool)?;
    if first == 1 {
        board.opening.set(Course::Lasts);
        return hangs(rt, board, pool, driver);
    }
    Ok(opens(&rt, pool, &mut driver))
}

/// Runs the scenario of this many first connections over a pool of this size. Each connection is
/// dropped once. If the run had all its memory, `made` connections were made, and this is printed:
/// the first request after it is granted, and the second is refused.
fn runs<R: Runtime + Abort + Threads + Eprint>(rt: R, max_size: u32, first: u32, made: u64) {
    assert!(&rt; max_size > 0);
    let Ok(board) = Board::new(rt.alloc()) else {
        return;
    };
    let Ok(builder) = builder_on(&board) else {
        return;
    };
    let builder = builder
        .max_size(max_size)
        .min_idle(Some(first))
        .test_on_check_out(false);
    let config = Config::from(&builder);
    assert!(&rt; config.is_lawful());
    let blank = Blank::new(config.max_size as u64);
    let met = run_on::<R, Brand>(rt, blank, builder, &board, first);
    assert!(&rt; board.is_each_dropped_once());
    if !is_refused(rt.alloc()) && is_refused(rt.alloc()) {
        assert!(&rt; matches!(met, Ok(true)));
        assert_equal(&rt, board.made.get(), made);
        let _ = rt.eprintln("no request of the run was refused");
    }
}

#[test]
fn building_clones_and_owned_gets_succeed_or_are_refused(rt: HostRuntime) {
    runs(rt, 5, 2, 3);
}

#[test]
fn driver_opens_three_in_two_turns(rt: HostRuntime) {
    runs(rt, 3, 3, 3);
}

#[test]
fn driver_without_a_thread_returns_all(rt: HostRuntime) {
    runs(rt, 1, 1, 1);
}
