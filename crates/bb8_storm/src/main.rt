//! A storm over one pool: threads get, check, break, cancel, add, clone and drop at random, with
//! user callbacks whose results change at every call, while a driver in its own thread opens, fails
//! and reaps.
//!
//! `bb8_storm ROUNDS`: three phases. In each, four threads make this many rounds.
//! After a phase, when the threads and the driver have ended, it compares the pool's statistics
//! with the threads' results and with the connections' own counts, and prints a line, which does
//! not depend on the schedule. It exits with status 1 if they differ.
#![tactic(auto)]

ghost use Rattle.std.specs.Prelude.{Some};
ghost use Rattle.bb8.specs.Permits.{IsBlankOf};
ghost use Rattle.bb8.specs.Settings.{default_settings};

mod hostile;
mod rounds;

use bb8::{Builder, Driver, Gate, Memory, PoolCalls, PoolPermits, Runtime, drive, in_threads};
use hostile::{Hostile, HostilePool};
use rounds::{SIZE, Storm, THREADS};
use std::alloc::Global;
use std::marker::Brand;
use std::process::ExitCode;
use std::sync::Arc;
use std::sync::atomic::{AtomicBool, Ordering};
use std::sync::ledger::Blank;
use std::thread::{self, Threads};
use std::time::Duration;
use std::{env, io};

/// The number of phases.
const PHASES: u64 = 3;

/// Whether the driver is to stop.
#[derive(Drop)]
struct Stop(Arc<AtomicBool, Global>);

impl Gate for Stop {
    fn pause(&mut self) -> bool {
        thread::yield_now();
        !self.0.load(Ordering::SeqCst)
    }

    fn longest(&self) -> Duration {
        Duration::ZERO
    }
}

/// Runs a phase beside a driver, which has ended then, and has not found the pool without a handle.
fn in_phase<R: Runtime + Threads, L: PoolPermits + 'static>(
    rt: R,
    storm: &Storm<'_, R, L>,
) -> Result<(), Memory> {
    let asked = Arc::new(rt.alloc(), AtomicBool::new(false))?;
    let stop = Stop(Arc::try_clone(&asked)?);
    let Ok(driving) = drive(&rt, Driver::new(storm.pool)?, stop) else {
        return Err(Memory);
    };
    let results = in_threads(&rt, THREADS, storm);
    asked.store(true, Ordering::SeqCst);
    let driven = driving.join(&rt);
    if driven.ended {
        storm.harness.wrong.count();
    }
    results.map(|_| ())
}

/// Runs all phases over one pool. Returns whether each phase agreed, in order, and whether nothing
/// was left once the pool was dropped.
fn run<R: Runtime + Threads, L: PoolPermits + 'static>(
    rt: R,
    blank: Blank,
    rounds: u64,
) -> Result<(Vec<bool>, bool), Memory>
    requires { IsBlankOf blank
        (record default_settings {
          max_size = 5;
          min_idle = Some 3;
          connection_timeout = 1000;
          idle_timeout = Some 200;
          max_lifetime = Some 2000;
          reaper_rate = 100;
        })
        L.name L.parts L.settings }
{
    let hostile = Hostile::new(rt.alloc(), 1)?;
    let harness = &*hostile.0;
    let pool: HostilePool<R, L> = Builder::new()
        .max_size(SIZE)
        .min_idle(Some(3))
        .connection_timeout(Duration::from_nanos(1000))
        .idle_timeout(Some(Duration::from_nanos(200)))
        .max_lifetime(Some(Duration::from_nanos(2000)))
        .reaper_rate(Duration::from_nanos(100))
        .error_sink(hostile.clone()?)
        .connection_customizer(hostile.clone()?)
        .build_unchecked(hostile.clone()?, hostile.clone()?, rt, blank)?;
    let mut phases = Vec::new(rt.alloc());
    for phase in 0..PHASES {
        let storm = Storm {
            pool: &pool,
            harness,
            rt,
            phase,
            rounds,
        };
        in_phase(rt, &storm)?;
        phases.push(harness.agrees(&pool.state()))?;
    }
    drop(pool);
    let nothing_left = harness.rests_with(0) && Arc::strong_count(&hostile.0) == 1;
    Ok((phases, nothing_left))
}

/// Runs the phases and prints a line for each.
fn main(rt: HostRuntime) -> io::Result<ExitCode> {
    let mut args = env::args(&rt)?;
    let rounds: Option<u64> = args.nth(1).and_then(|text| text.as_str().parse().ok());
    let Some(rounds) = rounds else {
        println!(rt; "ROUNDS")?;
        return Ok(ExitCode::FAILURE);
    };
    let Ok((phases, nothing_left)) = run::<HostRuntime, Brand>(rt, Blank::new(5), rounds) else {
        println!(rt; "no memory")?;
        return Ok(ExitCode::FAILURE);
    };
    for (phase, agrees) in phases.iter().enumerate() {
        let word = if *agrees { "agree" } else { "differ" };
        println!(rt; "phase {phase}: {THREADS} threads, {rounds} rounds each: the counts {word}")?;
    }
    let word = if nothing_left { "nothing" } else { "something" };
    println!(rt; "the pool is dropped: {word} is left")?;
    let is_right = nothing_left && phases.iter().all(|agrees| *agrees);
    Ok(ExitCode::from(u8::from(!is_right)))
}
