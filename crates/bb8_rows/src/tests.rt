//! Tests that a wrong result in a transcript is reported.

mod masses;

use bb8::Runtime;
use bb8_live_scripts::run;
use std::process::Abort;

/// A get with another result than the transcript says, a line that does not fit, and lines that are
/// no beginnings.
const WRONG: &[u8] = b"\
    :: a get\n\
    config max_size=1\n\
    begin\n\
    get 0\n\
    poll 0  | pending\n\
    turn 0  | polled 1\n\
    poll 0  | served 2\n\
    :: no such get\n\
    config\n\
    begin built\n\
    cancel 3\n\
    :: no beginning\n\
    config\n\
    get 0   | unfit\n\
    :: no configuration\n\
    config max_size=0\n\
    begin\n\
    :: all right\n\
    config\n\
    begin\n\
    sizes   | 0 idle 0\n";

const WRONG_TOLD: &[u8] = b"\
    line 7, a get: wanted \"served 2\", found \"served 1\"\n\
    line 11, no such get: wanted nothing, found \"unfit\"\n\
    line 14, no beginning: wanted \"unfit\", found \"not a beginning\"\n\
    line 17, no configuration: wanted nothing, found \"not a configuration\"\n\
    transcripts 5 answers 5 not run 0 different 4\n";

/// A transcript with right results, and one whose third and fourth results are wrong.
const WRONG_ANSWER: &[u8] = b"\
    what stands before the first title is no transcript\n\
    == nothing happens\n\
    config\n\
    | state connections 0 idle 0 started 0 direct 0 waited 0 timed_out 0 cancelled 0 wait_us 0 created 0 broken 0 invalid 0 lifetime 0 idle_timeout 0\n\
    \n\
    == one is added twice\n\
    config max_size=2\n\
    # for the reader\n\
    0 add         | added 0\n\
    0 begin       | begun 0\n\
    0 add         | added 2\n\
    0 add broken  | full\n";

const WRONG_ANSWER_TOLD: &[u8] = b"\
    line 11, one is added twice: wanted \"added 2\", found \"added 1\"\n\
    transcripts 2 answers 5 not run 0 different 1\n";

/// A transcript without its state line, one with a bad line and a result too many, one with a line
/// too many, and one that does not run.
const WRONG_LENGTH: &[u8] = b"\
    == no state line\n\
    config\n\
    0 look | looked 0 open\n\
    \n\
    == an answer too many\n\
    config max_size=0\n\
    | line 1: not a configuration\n\
    | line 2: not an event\n\
    == an event without an answer\n\
    config\n\
    5 look | looked 5 open\n\
    0 look\n\
    ~~ not run\n\
    config\n\
    0 look | full\n";

const WRONG_LENGTH_TOLD: &[u8] = b"\
    line 3, no state line: wanted nothing, found \"state connections 0 idle 0 started 0 direct 0 waited 0 timed_out 0 cancelled 0 wait_us 0 created 0 broken 0 invalid 0 lifetime 0 idle_timeout 0\"\n\
    line 8, an answer too many: wanted \"line 2: not an event\", found nothing\n\
    line 12, an event without an answer: wanted nothing, found \"looked 5 open\"\n\
    transcripts 3 answers 4 not run 1 different 3\n";

/// Runs each of these transcripts, and compares the output.
fn assert_reported<R: Runtime + Abort>(rt: R) {
    for (input, wanted) in [
        (WRONG, WRONG_TOLD),
        (WRONG_ANSWER, WRONG_ANSWER_TOLD),
        (WRONG_LENGTH, WRONG_LENGTH_TOLD),
    ] {
        let (mut reader, mut written) = (input, Vec::new(rt.alloc()));
        assert!(&rt; run(rt, &mut reader, &mut written).is_ok());
        assert_eq!(&rt; written.as_slice(), wanted);
    }
}

#[test]
fn reports_each_difference(rt: HostRuntime) {
    assert_reported(rt);
}
