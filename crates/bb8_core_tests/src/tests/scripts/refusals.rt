//! Runs of scripts, whatever requests for memory are refused, as `gate/refusals/run` makes them.
//! That each result is allowed is proved; here it is the script's result, or reports a refusal if
//! there was one.

use super::assert_equal;
use crate::tests::FIRST_SCRIPT;
use bb8_core::api::Moment;
use bb8_core::replay::{Answer, replay};
use bb8_runner::fault::Fault;
use bb8_runner::lines::{lines_of, script_of};
use bb8_runner::threads::script::run_threads;
use bb8_runner::verdict::Verdict;
use std::alloc::Global;
use std::io;
use std::process::Abort;

mod rows;

/// Whether a request for memory is refused.
fn is_refused(alloc: Global) -> bool {
    Box::new(alloc, 0_u8).is_err()
}

/// Prints whether the run that has ended certainly met no refusal: the first request after it is
/// granted, and the second is refused. Then the run must have come to its end.
fn tell<R: Abort + AllocGlobal + Eprint>(rt: &R, is_whole: bool) {
    if !is_refused(rt.alloc()) && is_refused(rt.alloc()) {
        assert!(rt; is_whole);
        let _ = rt.eprintln("no request of the run was refused");
    }
}

/// Whether a result reports a refusal. Numbers are never used up here, so memory was refused.
fn is_refusal(answer: Answer) -> bool {
    match answer {
        Answer::Memory | Answer::Withheld => true,
        Answer::Granted(grant) | Answer::Served(_, grant) | Answer::Waiting(grant) => {
            grant.withheld > 0
        }
        Answer::Closed(_, grant, _) | Answer::Reaped { grant, .. } => grant.withheld > 0,
        _ => false,
    }
}

/// Passed, failed and broken checks, and cancelled ones, beside a get that waits; two connections
/// are added, and two reaps close all. The second one asks for `min_idle`. Five connections are
/// opened or added.
const SCRIPT: &[u8] = b"\
    config max_size=4 min_idle=1 lifetime=2000000000 idle=1000000000\n\
    0 begin\n0 try 0\n0 fill\n0 claim\n0 open 0\n\
    0 begin\n0 try 1\n0 ok 1\n0 return 0\n\
    0 begin\n0 try 2\n0 cancel 2\n\
    0 begin\n0 try 3\n0 err 3\n0 claim\n0 open 1\n\
    0 try 3\n0 err 3 broken\n0 claim\n0 open 2\n\
    0 try 3\n0 cancel 3 broken\n0 cancel 0\n\
    0 add\n0 add\n1000000000 reap\n2000000000 reap\n";

/// Replays the script. Returns whether a result reports a refusal, and how many connections were
/// opened or added: these are idle, or were closed. None if there is no memory for the script or
/// the replay.
fn replayed<R: Abort + AllocGlobal>(rt: &R) -> Option<(bool, u64)> {
    let alloc = rt.alloc();
    let lines = lines_of(alloc, SCRIPT).ok()?;
    let script = script_of(alloc, lines.as_slice()).ok()?;
    let (answers, mut pool) = replay(alloc, script.config, &script.events).ok()?;
    let (mut entered, mut closed): (u64, u64) = (0, 0);
    for answer in &answers {
        match *answer {
            Answer::Entered(..) | Answer::Added(..) => entered = entered.saturating_add(1),
            Answer::Closed(..) => closed = closed.saturating_add(1),
            Answer::Reaped { closed: more, .. } => closed = closed.saturating_add(u64::from(more)),
            _ => {}
        }
    }
    let idle = u64::from(pool.state(Moment(0)).idle_connections);
    assert_equal(rt, idle.saturating_add(closed), entered);
    Some((answers.iter().any(|answer| is_refusal(*answer)), entered))
}

/// A replay loses no connection, whatever requests are refused.
#[test]
fn replay_loses_no_connection(rt: HostRuntime) {
    let mut is_whole = false;
    if let Some((refused, entered)) = replayed(&rt) {
        is_whole = !refused && entered == 5;
        assert!(&rt; refused != is_whole);
    }
    tell(&rt, is_whole);
}

/// A thread with a journal runs its script, or there is no memory.
#[test]
fn thread_runs_or_is_refused(rt: HostRuntime) {
    let (mut reader, mut sink, mut errors) = (FIRST_SCRIPT, io::sink(), io::sink());
    let outcome = run_threads(&rt, rt.alloc(), 1, &mut reader, &mut sink, &mut errors);
    assert!(&rt; matches!(outcome, Ok(Verdict::Ran) | Err(Fault::Memory)));
    tell(&rt, outcome == Ok(Verdict::Ran));
}
