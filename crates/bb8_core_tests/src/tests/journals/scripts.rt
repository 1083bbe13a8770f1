//! Scripts that threads run, from bytes to bytes.

use super::assert_equal;
use crate::tests::FIRST_SCRIPT;
use bb8_runner::threads::script::run_threads;
use bb8_runner::verdict::Verdict::{self, Bad, Ran};
use std::fmt::Write;
use std::io;
use std::process::Abort;
use std::sync::Wait;
use std::test::Fail;
use std::thread::Threads;

const FIRST_RESULT: &str = "\
    entries 20\n\
    audit yes\n\
    state connections 5 idle 5 started 3 direct 3 waited 0 timed_out 0 cancelled 0 wait_us 0 created 5 broken 0 invalid 0 lifetime 0 idle_timeout 0\n";

/// Asserts the verdict on a script that this many threads run, and the beginning of its output.
fn assert_runs<R: Threads + Wait + AllocGlobal + Abort + Sync>(
    rt: &R,
    threads: u8,
    input: &[u8],
    verdict: Verdict,
    wanted: &str,
) {
    assert!(rt; threads > 0);
    let (mut reader, mut text, mut sink) = (input, Vec::new(rt.alloc()), io::sink());
    let outcome = run_threads(rt, rt.alloc(), threads, &mut reader, &mut text, &mut sink);
    assert_equal(rt, outcome, Ok(verdict));
    let begins = text.starts_with(wanted.as_bytes());
    assert!(rt; begins, "{threads}: {wanted}");
}

/// The first script in 1, 4 and 64 threads. Events that do not fit are entries, too.
#[test]
fn short_scripts_in_threads(rt: HostRuntime) {
    assert_runs(&rt, 1, FIRST_SCRIPT, Ran, FIRST_RESULT);
    for threads in [4, 64] {
        let wanted = "entries 20\naudit yes\nstate ";
        assert_runs(&rt, threads, FIRST_SCRIPT, Ran, wanted);
    }
    let unfit = b"config\n0 return 7\n0 leave\n0 leave\n";
    let wanted = "entries 3\naudit yes\nstate connections 0 idle 0 ";
    assert_runs(&rt, 2, unfit, Ran, wanted);
    let wrong = b"config\n0 begin\n0 beginn\n";
    assert_runs(&rt, 4, wrong, Bad, "line 3: not an event\n");
}

/// 100,000 events. None depends on another thread's.
#[test]
fn long_script_in_four_threads(rt: HostRuntime) -> Result<(), Fail> {
    let mut script = String::new(rt.alloc());
    script.push_str("config max_size=20 min_idle=5 check=off\n")?;
    for at in 0..20_000u64 {
        write!(script, "{at} fill\n{at} claim\n{at} add\n")?;
        writeln!(script, "{at} join\n{at} look")?;
    }
    let wanted = "entries 100000\naudit yes\nstate ";
    assert_runs(&rt, 4, script.as_bytes(), Ran, wanted);
    Ok(())
}
