//! The texts of results that no script has, or has only after a refusal, and of the greatest
//! numbers.

use super::assert_equal;
use crate::tests::grant;
use bb8_core::api::{Config, Moment};
use bb8_core::internals::PoolInternals;
use bb8_core::replay::Answer;
use bb8_runner::text::output;
use std::test::Fail;

/// A line for each result, and the state line.
const TEXTS: &str = "\
    begun 18446744073709551615\n\
    memory\n\
    served 7 grant 2 at 5 withheld 1\n\
    taken 8 withheld 3\n\
    waiting grant 2 at 5 withheld 1\n\
    reaped 10 idle 4 life 6 grant 2 at 5 withheld 1\n\
    left 4294967295\n\
    looked 18446744073709551615 open\n\
    state connections 0 idle 0 started 0 direct 0 waited 0 timed_out 0 cancelled 0 wait_us 0 created 0 broken 0 invalid 0 lifetime 0 idle_timeout 0 retired 12 detached 14\n";

#[test]
fn prints_rare_answers(rt: HostRuntime) -> Result<(), Fail> {
    let granted = grant(5, 2, 1);
    let answers = [
        Answer::Begun(18_446_744_073_709_551_615),
        Answer::Memory,
        Answer::Served(7, granted),
        Answer::Taken(8, grant(0, 0, 3)),
        Answer::Waiting(granted),
        Answer::Reaped {
            closed: 10,
            by_idle: 4,
            by_life: 6,
            grant: granted,
        },
        Answer::Left(4_294_967_295),
        Answer::Looked(Moment(18_446_744_073_709_551_615), true),
    ];
    let mut state = PoolInternals::<u64>::new(rt.alloc(), Config::default()).state(Moment(0));
    state.statistics.connections_closed_retired = 12;
    state.statistics.connections_detached = 14;
    let text = output(rt.alloc(), &answers, state)?;
    assert_equal(&rt, text.as_str(), TEXTS);
    Ok(())
}
