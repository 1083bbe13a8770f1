//! Two threads that check out and return connections of one pool.
ghost use Rattle.std.specs.Prelude.{◌<◌};
ghost use Rattle.bb8.specs.Permits.{IsBlankOf};
ghost use Rattle.bb8.specs.Settings.{default_settings};

use super::assert_equal;
use bb8::{Gets, Job, Moment, PoolCalls, PoolPermits, Runtime, SetClock, in_threads};
use bb8_trials::{Board, ServerConnection, ServerPool, builder_on, connection_on, server_on};
use futures::executor::block_on;
use futures::test::MockTask;
use std::alloc::Global;
use std::marker::Brand;
use std::process::Abort;
use std::sync::Arc;
use std::sync::ledger::Blank;
use std::test::Fail;
use std::thread::{self, Threads};

/// Returns None if the caller is not the only holder of a connection that it just got. It marks the
/// connection as broken for a moment, so that another holder would see it.
fn is_alone(connection: &mut ServerConnection) -> Option<()> {
    if connection.is_broken {
        return None;
    }
    connection.is_broken = true;
    thread::yield_now();
    connection.is_broken = false;
    Some(())
}

/// A thousand rounds. In each the clock moves, a connection is added if there is capacity, the
/// state is read, a get is cancelled after a poll, and two are served, whose connections nobody
/// else may hold. The second one is a get of another handle, which is made for it and dropped
/// before the guard.
#[derive(Drop)]
struct Mixed<'a, R: Runtime + Abort, L: PoolPermits> {
    pool: &'a ServerPool<SetClock, R, L>,
    board: &'a Arc<Board, Global>,
    clock: &'a SetClock,
    max_size: u32,
    rt: R,
}

impl<R: Runtime + Abort, L: PoolPermits> Job for &Mixed<'_, R, L> {
    /// None if a connection had two holders at a time, the state was out of bounds, or a call had
    /// another result than it should.
    type Output = Option<()>;

    fn run(self, _thread: usize) -> Option<()> {
        let task = MockTask::new(&self.rt).ok()?;
        for round in 0..1000u64 {
            self.clock.set(Moment(round));
            let _ = self.pool.add(connection_on(self.board, round).ok()?);
            let state = self.pool.state();
            if state.connections > self.max_size || state.idle_connections > state.connections {
                return None;
            }
            let _ = task.poll(&mut self.pool.get());
            let mut guard = block_on(&self.rt, self.pool.get()).ok()?.ok()?;
            is_alone(&mut guard)?;
            drop(guard);
            let clone = self.pool.try_clone().ok()?;
            let mut guard = block_on(&self.rt, clone.get_owned()).ok()?.ok()?;
            drop(clone);
            is_alone(&mut guard)?;
        }
        Some(())
    }
}

/// Two threads share a pool with the check on or off, and use all its calls. At the end all
/// connections are idle, and none was closed.
fn shares<R: Runtime + Abort + Threads, L: PoolPermits>(
    rt: R,
    blank: Blank,
    max_size: u32,
    checks: bool,
) -> Result<(), Fail>
    requires some { 0 < max_size }
    requires parts { IsBlankOf blank
        (record default_settings { max_size = max_size; test_on_check_out = checks }) L.name L.parts
        L.settings }
{
    let board = Board::new(rt.alloc())?;
    let clock = SetClock::new(rt.alloc(), Moment(0))?;
    let pool: ServerPool<SetClock, R, L> = builder_on(&board)?
        .max_size(max_size)
        .test_on_check_out(checks)
        .build_unchecked(server_on(&board)?, clock.try_clone()?, rt, blank)?;
    let mixed = Mixed {
        pool: &pool,
        board: &board,
        clock: &clock,
        max_size,
        rt,
    };
    for result in in_threads(&rt, 2, &mixed)?.iter() {
        assert_equal(&rt, *result, Some(()));
    }
    let state = pool.state();
    let statistics = state.statistics;
    assert_equal(&rt, state.connections, state.idle_connections);
    assert_equal(&rt, statistics.get_started, 6000);
    assert_equal(&rt, statistics.pending_gets(), 0);
    assert_equal(&rt, statistics.connections_closed_broken, 0);
    assert_equal(&rt, statistics.connections_closed_invalid, 0);
    Ok(())
}

/// Runs `shares` with its own permits.
fn share<R: Runtime + Abort + Threads>(rt: R, max_size: u32, checks: bool) -> Result<(), Fail>
    requires { 0 < max_size }
{
    shares::<R, Brand>(rt, Blank::new(max_size as u64), max_size, checks)
}

/// One connection: each get is served in its turn.
#[test]
fn two_threads_share_one(rt: HostRuntime) -> Result<(), Fail> {
    share(rt, 1, false)
}

#[test]
fn two_threads_share_all(rt: HostRuntime) -> Result<(), Fail> {
    share(rt, 3, false)
}

#[test]
fn two_threads_share_all_with_checks(rt: HostRuntime) -> Result<(), Fail> {
    share(rt, 3, true)
}
