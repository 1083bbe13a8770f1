//! A history of two seats that was worked out by hand, with its notes, and each change of it that
//! must fail an audit.

use crate::tests::grant;
use Act::{Begin, GiveUp, Join, Try};
use Answer::{Begun, Exhausted, GaveUp, Joined, Unfit, Waiting};
use bb8_core::api::Moment;
use bb8_core::replay::{Act, Answer, Event, Reason};
use bb8_journal::journal::{Entry, Notes, audit};
use std::alloc::{AllocError, Global};
use std::test::Fail;

/// Returns an entry: an event of a seat at moment 0, and its result.
fn entry(seat: usize, act: Act, answer: Answer) -> Entry {
    Entry {
        seat,
        event: Event { at: Moment(0), act },
        answer,
    }
}

/// A get begins and is cancelled while another seat adds a handle.
fn history() -> [Entry; 4] {
    [
        entry(0, Begin, Begun(0)),
        entry(1, Join, Joined),
        entry(0, GiveUp(0, Reason::Cancelled, false), GaveUp(None)),
        entry(1, Try(0), Unfit),
    ]
}

/// Returns the notes of a seat on two events, with no note missing.
fn notes(alloc: Global, seat: usize, noted: [(u64, Answer); 2]) -> Result<Notes, AllocError> {
    Ok(Notes {
        seat,
        noted: noted.iter().copied().collect(alloc)?,
        missing: 0,
    })
}

/// An audit fails if one answer or one seat of the history is another.
#[test]
fn journal_differs(rt: HostRuntime) -> Result<(), Fail> {
    let first = notes(rt.alloc(), 0, [(0, Begun(0)), (2, GaveUp(None))])?;
    let second = notes(rt.alloc(), 1, [(1, Joined), (3, Unfit)])?;
    let notes = [first, second];
    assert!(&rt; audit(&history(), &notes));
    for (index, seat, answer) in [
        (0, 0, Begun(1)),
        (1, 1, Exhausted),
        (2, 0, GaveUp(Some(0))),
        (3, 1, Waiting(grant(0, 0, 0))),
        (0, 1, Begun(0)),
        (1, 0, Joined),
        (2, 2, GaveUp(None)),
    ] {
        let mut entries = history();
        if let Some(entry) = entries.get_mut(index) {
            entry.seat = seat;
            entry.answer = answer;
        }
        let passes = audit(&entries, &notes);
        assert!(&rt; !passes, "{answer:?} of seat {seat} at {index}");
    }
    Ok(())
}
