//! Worked rows in which memory is refused, once or for good: the results before, at and after the
//! refusal.

use super::{assert_equal, is_refused, tell};
use crate::tests::{Player, grant};
use Act::{Add, Begin, Claim, Fill, Opened, PutBack, Try};
use Answer::{Added, Begun, Claimed, Closed, Entered, Granted, Memory, Served, Withheld};
use bb8_core::replay::{Act, Answer};
use std::process::Abort;

/// An event, its result, and its result if memory is refused. Without one it needs no memory.
type Line = (Act, Answer, Option<Answer>);

/// Asserts the results of the lines up to the first one whose memory is refused. If that is the
/// last one, also those of the next lines, which have memory unless it stays refused; and prints
/// this.
fn assert_row<R: Abort + AllocGlobal + Eprint>(
    rt: &R,
    config: &str,
    lines: &[Line],
    next: &[Line],
) {
    let Some(mut player) = Player::new(rt.alloc(), config) else {
        return;
    };
    let (mut left, mut is_whole) = (lines.len(), true);
    for (act, wanted, refusal) in lines {
        left = left.saturating_sub(1);
        let answer = player.makes(0, *act);
        is_whole = answer == *wanted;
        if !is_whole {
            assert_equal(rt, Some(answer), *refusal);
            break;
        }
    }
    if !is_whole && left == 0 {
        let stays = is_refused(rt.alloc());
        for (act, wanted, refusal) in next {
            let refused = if stays { *refusal } else { None };
            assert_equal(rt, player.makes(0, *act), refused.unwrap_or(*wanted));
        }
        let _ = rt.eprintln("memory was refused where the row says so");
    }
    tell(rt, is_whole);
}

/// The row `third_adding_withheld`: two connections are added, one is checked out and returned
/// broken, and a third is added, for which there is memory below the peak. A fourth is withheld if
/// its request for memory is refused. Then it is added at the next try.
#[test]
fn adding_is_withheld_past_the_peak_alone(rt: HostRuntime) {
    let fourth = (Add(false), Added(3, None), Some(Withheld));
    let lines = [
        (Add(false), Added(0, None), Some(Withheld)),
        (Add(false), Added(1, None), Some(Withheld)),
        (Begin, Begun(0), Some(Memory)),
        (Try(0), Served(0, grant(2, 0, 0)), None),
        (PutBack(0, true), Closed(0, grant(2, 0, 0), None), None),
        (Add(false), Added(2, None), None),
        fourth,
    ];
    assert_row(&rt, "config max_size=3 check=off", &lines, &[fourth]);
}

/// The row `third_place_refused`: two connections are opened, and a get is served, which requests a
/// third slot. Then the next get requests it, too.
#[test]
fn third_slot_is_granted_at_the_next_ask(rt: HostRuntime) {
    let none = Some(Granted(grant(0, 0, 2)));
    let first = Some(Served(0, grant(2, 0, 1)));
    let second = Some(Served(1, grant(2, 0, 2)));
    let lines = [
        (Fill(false), Granted(grant(0, 2, 0)), none),
        (Claim, Claimed(Some(0)), None),
        (Claim, Claimed(Some(1)), None),
        (Opened(0), Entered(0, None), None),
        (Opened(1), Entered(1, None), None),
        (Begin, Begun(0), Some(Memory)),
        (Try(0), Served(0, grant(2, 1, 0)), first),
    ];
    let next = [
        (Begin, Begun(1), None),
        (Try(1), Served(1, grant(2, 2, 0)), second),
    ];
    assert_row(&rt, "config max_size=5 min_idle=2 check=off", &lines, &next);
}
