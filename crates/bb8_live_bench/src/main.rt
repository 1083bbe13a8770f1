//! Rounds of a live pool for a profiler: each get is polled once, and its guard is dropped.
//!
//! `bb8_live_bench hand ROUNDS SIZE`: one thread, a pool of `SIZE` idle connections, each get
//! polled by hand, on a clock that is set. `bb8_live_bench check ROUNDS SIZE`: as `hand`, with the
//! check on. `bb8_live_bench machine ROUNDS SIZE`: as `hand`, on the machine's clock.
//! `bb8_live_bench block ROUNDS SIZE`: as `hand`, with an executor for each get. `bb8_live_bench
//! task ROUNDS SIZE`: polls of a ready future, to be subtracted from `hand`. `bb8_live_bench
//! threads ROUNDS SIZE [THREADS]`: this many threads, four by default, of this many rounds each,
//! polled by hand until they are served, on the machine's clock. `bb8_live_bench threads-check
//! ROUNDS SIZE [THREADS]`: as `threads`, with the check on. `bb8_live_bench crowd GETS SIZE`: this
//! many gets wait while all connections are checked out, and are served one by one. `bb8_live_bench
//! let-go GETS SIZE`: as `crowd`, but the gets are cancelled. `bb8_live_bench wait GETS SIZE`: as
//! `crowd`, but the gets wait for a while. It prints how many gets were served, or waited.
//!
//! `bb8_live_bench wake ROUNDS`: two threads take turns with one connection, this many rounds each,
//! and sleep in their gets. It prints the median and the 95th percentile of the nanoseconds from a
//! return to the result of the get that waits for it.
#![tactic(auto)]

ghost use Rattle.std.specs.Prelude.{◌<◌, false};
ghost use Rattle.bb8.specs.Permits.{IsBlankOf};
ghost use Rattle.bb8.specs.Settings.{default_settings};

mod manager;
mod rounds;
mod waiting;
mod waking;

use bb8::{
    Blocking, Builder, Clock, MachineClock, Memory, Moment, PoolCalls, PoolPermits, Runtime,
    SetClock,
};
use manager::{NumberManager, NumberPool, StillClock};
use rounds::{blocked, polled, polled_ready, shared};
use std::marker::Brand;
use std::sync::ledger::Blank;
use std::thread::Threads;
use std::{env, io};
use waiting::{kept_waiting, let_go, served_in_turn};
use waking::woken;

/// The default number of threads.
const THREADS: usize = 4;

/// The measurement of a run.
#[derive(Clone, Copy)]
enum Measure {
    Hand,
    Check,
    Machine,
    Block,
    Task,
    Threads(usize),
    CheckedThreads(usize),
    Crowd,
    LetGo,
    Wait,
}

/// Returns the measure of this name, with this many threads.
fn mode_of(name: &str, threads: usize) -> Option<Measure> {
    match name {
        "hand" => Some(Measure::Hand),
        "check" => Some(Measure::Check),
        "machine" => Some(Measure::Machine),
        "block" => Some(Measure::Block),
        "task" => Some(Measure::Task),
        "threads" => Some(Measure::Threads(threads)),
        "threads-check" => Some(Measure::CheckedThreads(threads)),
        "crowd" => Some(Measure::Crowd),
        "let-go" => Some(Measure::LetGo),
        "wait" => Some(Measure::Wait),
        _ => None,
    }
}

/// Returns a pool of this many idle connections.
fn full<K: Clock, R: Runtime, L: PoolPermits>(
    rt: R,
    clock: K,
    blank: Blank,
    check: bool,
    size: u32,
) -> Result<NumberPool<K, R, L>, Memory>
    requires parts { IsBlankOf blank
        (record default_settings { max_size = size; test_on_check_out = check }) L.name L.parts
        L.settings }
    requires some { 0 < size }
{
    let pool: NumberPool<K, R, L> = Builder::new()
        .max_size(size)
        .test_on_check_out(check)
        .build_unchecked(Blocking(NumberManager), clock, rt, blank)?;
    for number in 0..size {
        let _ = pool.add(number as u64);
    }
    Ok(pool)
}

/// Runs a measure of one thread on a clock that is set, with the check on or off. Returns how many
/// gets were served.
fn alone<R: Runtime, L: PoolPermits>(
    rt: R,
    blank: Blank,
    mode: Measure,
    check: bool,
    rounds: u64,
    size: u32,
) -> Result<u64, Memory>
    requires parts { IsBlankOf blank
        (record default_settings { max_size = size; test_on_check_out = check }) L.name L.parts
        L.settings }
    requires some { 0 < size }
{
    let clock = SetClock::new(rt.alloc(), Moment(0))?;
    let pool: NumberPool<SetClock, R, L> = full(rt, clock, blank, check, size)?;
    match mode {
        Measure::Block => blocked(&rt, &pool, rounds),
        Measure::Task => polled_ready(&rt, rounds),
        _ => polled(&rt, &pool, rounds),
    }
}

/// Runs a measure on the machine's clock, in one thread or several, with the check on or off.
/// Returns how many gets were served.
fn clocked<R: Runtime + Threads, L: PoolPermits>(
    rt: R,
    blank: Blank,
    mode: Measure,
    check: bool,
    rounds: u64,
    size: u32,
) -> Result<u64, Memory>
    requires parts { IsBlankOf blank
        (record default_settings { max_size = size; test_on_check_out = check }) L.name L.parts
        L.settings }
    requires some { 0 < size }
{
    let pool: NumberPool<MachineClock<R>, R, L> = full(rt, MachineClock(rt), blank, check, size)?;
    match mode {
        Measure::Threads(threads) | Measure::CheckedThreads(threads) => {
            shared(rt, &pool, rounds, threads)
        }
        _ => polled(&rt, &pool, rounds),
    }
}

/// Runs a measure of waiting gets, on a clock that never moves, so that the code of the other
/// measures is compiled for them alone. Returns how many gets were served, or waited.
fn crowded<R: Runtime, L: PoolPermits>(
    rt: R,
    blank: Blank,
    mode: Measure,
    gets: u64,
    size: u32,
) -> Result<u64, Memory>
    requires parts { IsBlankOf blank
        (record default_settings { max_size = size; test_on_check_out = false }) L.name L.parts
        L.settings }
    requires some { 0 < size }
{
    let pool: NumberPool<StillClock, R, L> = full(rt, StillClock, blank, false, size)?;
    match mode {
        Measure::Crowd => served_in_turn(&rt, &pool, gets, size),
        Measure::LetGo => let_go(&rt, &pool, gets, size),
        _ => kept_waiting(&rt, &pool, gets, size),
    }
}

/// Runs a measure over a pool with its own permits.
fn start<R: Runtime + Threads>(rt: R, mode: Measure, rounds: u64, size: u32) -> Result<u64, Memory>
    requires { 0 < size }
{
    let blank = Blank::new(size as u64);
    match mode {
        Measure::Hand | Measure::Check | Measure::Block | Measure::Task => {
            let check = matches!(mode, Measure::Check);
            alone::<R, Brand>(rt, blank, mode, check, rounds, size)
        }
        Measure::Machine | Measure::Threads(_) | Measure::CheckedThreads(_) => {
            let check = matches!(mode, Measure::CheckedThreads(_));
            clocked::<R, Brand>(rt, blank, mode, check, rounds, size)
        }
        Measure::Crowd | Measure::LetGo | Measure::Wait => {
            crowded::<R, Brand>(rt, blank, mode, rounds, size)
        }
    }
}

/// Runs the measure that the arguments name.
fn main(rt: HostRuntime) -> io::Result<()> {
    let mut args = env::args(&rt)?;
    let _ = args.next();
    let name = args.next();
    let rounds: Option<u64> = args.next().and_then(|text| text.as_str().parse().ok());
    let sleeps = name.as_ref().is_some_and(|name| name.as_str() == "wake");
    if let (true, Some(rounds)) = (sleeps, rounds) {
        return match woken(rt, rounds) {
            Some((median, most)) => println!(rt; "{median} {most}"),
            None => println!(rt; "no get slept"),
        };
    }
    let size: Option<u32> = args.next().and_then(|text| text.as_str().parse().ok());
    let threads: Option<usize> = args.next().and_then(|text| text.as_str().parse().ok());
    let mode = name.and_then(|name| mode_of(name.as_str(), threads.unwrap_or(THREADS)));
    match (mode, rounds, size) {
        (Some(mode), Some(rounds), Some(size)) if size > 0 => {
            match start(rt, mode, rounds, size) {
                Ok(served) => println!(rt; "{served}"),
                Err(_) => println!(rt; "no memory"),
            }
        }
        _ => println!(rt; "MODE ROUNDS SIZE [THREADS]"),
    }
}
