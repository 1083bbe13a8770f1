//! Messages about bad lines, worked out by hand, and bytes that a transcript cannot show.

use super::{Stream, assert_equal};
use bb8_runner::script::run_script;
use bb8_runner::verdict::Verdict::{self, Bad, Ran};
use std::process::Abort;
use std::test::Fail;

/// First lines that are no configuration, each with its message.
const CONFIGURATIONS: &str = "\
    |expected \"config\", found \"\"\n\
    confg max_size=1|expected \"config\", found \"confg\"\n\
    config\r|expected printable ASCII\n\
    config check|expected \"=\" and a value after \"check\"\n\
    config  check=on|expected \"=\" and a value after \"\"\n\
    config max_sise=1|unknown setting \"max_sise\"\n\
    config check=on check=on|repeated setting \"check\"\n\
    config retry=yes|expected \"on\" or \"off\", found \"yes\"\n\
    config strategy=lilo|expected \"fifo\" or \"lifo\", found \"lilo\"\n\
    config max_size=4294967296|expected a number below 2^32 without leading zeros, found \"4294967296\"\n\
    config min_idle=all|expected \"none\" or a number below 2^32 without leading zeros, found \"all\"\n\
    config lifetime=01|expected \"none\" or a number below 2^64 without leading zeros, found \"01\"\n\
    config timeout=none|expected a number below 2^64 without leading zeros, found \"none\"\n\
    config max_size=0|expected more than 0 for \"max_size\"\n\
    config min_idle=11|expected at most max_size for \"min_idle\"\n\
    config lifetime=0|expected more than 0 for \"lifetime\"\n\
    config idle=0 lifetime=none|expected more than 0 for \"idle\"\n\
    config timeout=0|expected more than 0 for \"timeout\"\n\
    config reaper=0|expected more than 0 for \"reaper\"\n";

/// Lines that are no event, each with its message.
const EVENTS: &str = "\
    |expected a number below 2^64 without leading zeros, found \"\"\n\
    01 begin|expected a number below 2^64 without leading zeros, found \"01\"\n\
    5|expected an event after \"5\"\n\
    5 tri 0|unknown event \"tri\"\n\
    5 begin 0|expected nothing after \"begin\"\n\
    5 try|expected only the number of a get after \"try\"\n\
    5 try one|expected a number below 2^64 without leading zeros, found \"one\"\n\
    5 ok 0 1|expected only the number of a get after \"ok\"\n\
    5 err 0 broke|expected the number of a get and at most \"broken\" after \"err\"\n\
    5 cancel 0 broken 1|expected the number of a get and at most \"broken\" after \"cancel\"\n\
    5 timeout|expected the number of a get and at most \"broken\" after \"timeout\"\n\
    5 return 0 whole|expected the number of a connection and at most \"broken\" after \"return\"\n\
    5 detach|expected only the number of a connection after \"detach\"\n\
    5 open|expected only the number of an approval after \"open\"\n\
    5 fail 1 2|expected only the number of an approval after \"fail\"\n\
    5 fill 1|expected at most \"claimed\" after \"fill\"\n\
    5 add claimed|expected at most \"broken\" after \"add\"\n\
    5 look\r|expected printable ASCII\n";

/// Asserts that each of these lines is bad after `before`, and the message about it, which begins
/// with `number`.
fn assert_messages<R: Abort + AllocGlobal>(
    rt: &R,
    before: &str,
    number: &str,
    lines: &str,
) -> Result<(), Fail> {
    let alloc = rt.alloc();
    for line in lines.split_terminator('\n') {
        let (bad, wanted) = line.split_once('|').unwrap_or((line, ""));
        let input = format!(in alloc; "{before}{bad}\n")?;
        let message = format!(in alloc; "{number}: {wanted}\n")?;
        let (mut output, mut errors) = (Vec::new(alloc), Vec::new(alloc));
        let mut reader = input.as_bytes();
        let outcome = run_script(alloc, &mut reader, &mut output, &mut errors);
        assert_equal(rt, outcome, Ok(Bad));
        assert_equal(rt, errors.as_slice(), message.as_bytes());
    }
    Ok(())
}

#[test]
fn bad_lines_have_a_message(rt: HostRuntime) -> Result<(), Fail> {
    assert_messages(&rt, "", "line 1", CONFIGURATIONS)?;
    assert_messages(&rt, "config\n0 begin\n", "line 3", EVENTS)
}

const STATE: &[u8] =
    b"state connections 0 idle 0 started 0 direct 0 waited 0 timed_out 0 cancelled 0 wait_us 0 created 0 broken 0 invalid 0 lifetime 0 idle_timeout 0\n";

/// Inputs with their verdict and output: no line, last lines without their line feed, carriage
/// returns, and bytes that are not text.
const INPUTS: [(&[u8], Verdict, &[u8]); 5] = [
    (b"", Bad, b"line 1: not a configuration\n"),
    (b"config", Ran, STATE),
    (b"config\n0 begi", Bad, b"line 2: not an event\n"),
    (b"config\n0 look\r\n", Bad, b"line 2: not an event\n"),
    (
        b"config\n0 fill\n0 look\xff\n",
        Bad,
        b"line 3: not an event\n",
    ),
];

/// A message that cannot be written changes neither the verdict nor the output.
#[test]
fn output_does_not_depend_on_the_message(rt: HostRuntime) {
    for (input, verdict, wanted) in INPUTS {
        let (mut reader, mut output) = (input, Vec::new(rt.alloc()));
        let outcome = run_script(rt.alloc(), &mut reader, &mut output, &mut Stream::new(0));
        assert_equal(&rt, outcome, Ok(verdict));
        assert_equal(&rt, output.as_slice(), wanted);
    }
}
