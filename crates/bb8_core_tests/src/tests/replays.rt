//! Replays with other first numbers than 0, which no script can express.

use bb8_core::api::Moment;
use bb8_core::replay::replay_from;
use bb8_runner::lines::{lines_of, script_of};
use bb8_runner::text::output;
use std::test::Fail;

/// The greatest number that is ever given.
const LAST: u64 = 18_446_744_073_709_551_614;

/// First numbers of records and of gets, a script, and its output.
///
/// The last number of a get is given, and the next get is refused. The last two numbers of
/// approvals are given, and three more are withheld. Two numbers are left: a fill is granted both,
/// and one is withheld; then an add is withheld, a broken connection is reported as broken, and a
/// fill is granted none, and one is withheld.
const REPLAYS: [(u64, u64, &str, &str); 3] = [
    (
        0,
        LAST,
        "config\n0 begin\n0 begin\n",
        "\
        begun 18446744073709551614\nexhausted\n\
        state connections 0 idle 0 started 1 direct 0 waited 0 timed_out 0 cancelled 0 wait_us 0 created 0 broken 0 invalid 0 lifetime 0 idle_timeout 0\n",
    ),
    (
        LAST - 1,
        0,
        "config max_size=5 min_idle=5 check=off\n0 fill\n0 claim\n0 claim\n0 claim\n0 open 18446744073709551614\n0 open 18446744073709551613\n",
        "\
        granted grant 2 at 18446744073709551613 withheld 3\n\
        claimed 18446744073709551613\nclaimed 18446744073709551614\nnone\n\
        entered 18446744073709551614\nentered 18446744073709551613\n\
        state connections 2 idle 2 started 0 direct 0 waited 0 timed_out 0 cancelled 0 wait_us 0 created 2 broken 0 invalid 0 lifetime 0 idle_timeout 0\n",
    ),
    (
        LAST - 1,
        0,
        "config max_size=5 min_idle=3 check=off\n0 fill\n0 add\n0 add broken\n0 fill\n",
        "\
        granted grant 2 at 18446744073709551613 withheld 1\nwithheld\nbroken\ngranted withheld 1\n\
        state connections 0 idle 0 started 0 direct 0 waited 0 timed_out 0 cancelled 0 wait_us 0 created 0 broken 0 invalid 0 lifetime 0 idle_timeout 0\n",
    ),
];

#[test]
fn gives_no_number_past_the_last(rt: HostRuntime) -> Result<(), Fail> {
    let alloc = rt.alloc();
    for (number, get, text, wanted) in REPLAYS {
        let lines = lines_of(alloc, text.as_bytes())?;
        let Ok(script) = script_of(alloc, lines.as_slice()) else {
            return Err(Fail::from("no script"));
        };
        let (answers, mut pool) = replay_from(alloc, script.config, number, get, &script.events)?;
        let written = output(alloc, &answers, pool.state(Moment(0)))?;
        assert_eq!(&rt; written.as_str(), wanted, "{text}");
    }
    Ok(())
}
