//! Runs of turns in a thread of their own.
ghost use Rattle.std.specs.Prelude.{Some};
ghost use Rattle.bb8.specs.Permits.{IsBlankOf, unchecked_of};

use super::assert_equal;
use bb8::{
    Driven, Driver, DriverCalls, Gets, Moment, PoolCalls, PoolPermits, Runtime, SetClock, drive,
};
use bb8_trials::{ARMED, Board, OPEN, OneTurn, ServerPool, WAITING, builder_on, server_on};
use futures::task::Poll;
use futures::test::MockTask;
use std::marker::Brand;
use std::process::Abort;
use std::sync::ledger::Blank;
use std::test::Fail;
use std::thread::Threads;

/// Checks that the type may be sent to other threads and shared with them.
fn is_shared<T: Send + Sync>() {}

#[test]
fn is_send_sync(_rt: HostRuntime) {
    is_shared::<ServerPool<SetClock, HostRuntime, Brand>>();
}

/// A driver's thread hangs in the poll of an attempt. Meanwhile `state` returns in the test's own
/// thread, and another driver opens the connection that a second get requests, which serves the
/// first get. Once the pool is dropped, a turn of the other driver in a thread ends its run.
fn answers_meanwhile<R: Runtime + Abort + Threads, L: PoolPermits + 'static>(
    rt: R,
    blank: Blank,
) -> Result<(), Fail>
    requires { IsBlankOf blank (record (unchecked_of 2) { min_idle = Some 1 }) L.name L.parts
        L.settings }
{
    let task = MockTask::new(&rt)?;
    let clock = SetClock::new(rt.alloc(), Moment(0))?;
    let board = Board::new(rt.alloc())?;
    board.stage.set(ARMED);
    let pool: ServerPool<SetClock, R, L> = builder_on(&board)?
        .max_size(2)
        .min_idle(Some(1))
        .test_on_check_out(false)
        .build_unchecked(server_on(&board)?, clock, rt, blank)?;
    let Ok(thread) = drive(&rt, Driver::new(&pool)?, OneTurn) else {
        panic!(&rt; "no thread");
    };
    assert!(&rt; board.stage.comes_to(WAITING, true));
    assert_equal(&rt, pool.state().connections, 0);
    let mut other = Driver::new(&pool)?;
    let mut first = pool.get();
    assert!(&rt; task.poll(&mut first).is_pending());
    let mut second = pool.get();
    assert!(&rt; task.poll(&mut second).is_pending());
    let _ = other.turn(Moment(0));
    assert!(&rt; matches!(task.poll(&mut first), Poll::Ready(Ok(_))));
    assert_equal(&rt, pool.state().connections, 1);
    board.stage.set(OPEN);
    let Driven { turns, ended } = thread.join(&rt);
    assert_equal(&rt, (turns, ended), (1, false));
    assert_equal(&rt, (pool.state().connections, board.errors.get()), (2, 0));
    drop(first);
    drop(second);
    drop(pool);
    let Ok(thread) = drive(&rt, other, OneTurn) else {
        panic!(&rt; "no thread");
    };
    let Driven { turns, ended } = thread.join(&rt);
    assert_equal(&rt, (turns, ended), (1, true));
    Ok(())
}

#[test]
fn gate_two_threads(rt: HostRuntime) -> Result<(), Fail> {
    answers_meanwhile::<HostRuntime, Brand>(rt, Blank::new(2))
}
