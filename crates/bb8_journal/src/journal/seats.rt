//! A seat of the journal: one thread, the count of its steps, and its notes of them.
ghost use Rattle.std.specs.Prelude.{◌≡◌, ◌+◌, ◌<◌, ◌≤◌, ◌^◌};

use bb8_core::replay::Answer;
use std::alloc::Global;
use std::marker::Model;
use std::sync::ledger::{Book, Ledger, Share};

/// The notes of a seat: the index and the result of each of its steps, except those missing.
#[derive(Drop)]
pub struct Notes {
    /// The number of the seat.
    pub seat: usize,
    /// The index and the result of each step, in the order of its steps.
    pub noted: Vec<(u64, Answer)>,
    /// The count of steps without a note, because memory was refused.
    pub missing: u64,
}

/// One thread's access to a journal. It has one part of the journal's ledger, whose amount is the
/// count of its steps. Contracts see its notes.
#[derive(Drop)]
pub struct Seat<L: Ledger> {
    number: usize,
    steps: Share<L>,
    noted: Vec<(u64, Answer)>,
    missing: u64,
}

impl<L: Ledger> Model for Seat<L> {
    ghost use Rattle.std.specs.Prelude.{◌≡◌, ◌+◌, length};
    ghost use Rattle.bb8_journal.specs.Notes.{Noted};

    ghost Value = { Noted };

    ghost view = { λ s. record { seat = s.number; noted = s.noted.items; missing = s.missing } };

    ghost invariant = { λ s. (s.steps.parts ≡ 1) × (s.steps.amount ≡ length s.noted.items + s.missing) };
}

impl<L: Ledger> Seat<L> {
    ghost use Rattle.bb8_journal.specs.Notes.{Noted, steps_of, Makes, notes_of, fresh};

    /// Returns a seat without steps, with one part of the ledger.
    pub(crate) fn new(alloc: Global, number: usize, steps: Share<L>) -> Seat<L>
        requires part { steps.parts ≡ 1 }
        requires none { steps.amount ≡ 0 }
        ensures { result ≡ fresh number }
    {
        Seat {
            number,
            steps,
            noted: Vec::new(alloc),
            missing: 0,
        }
    }

    /// Returns its number.
    pub fn number(&self) -> usize
        ensures { result ≡ self.now.seat }
    {
        self.number
    }

    /// Counts a step, and notes its index and result. The note is missing if memory for it is
    /// refused.
    pub(crate) fn count(&mut self, book: &mut Book<L>, index: u64, answer: Answer)
        requires few { book.old.total + 1 < 2 ^ 64 }
        ensures total { book.new.total ≡ book.old.total + 1 }
        ensures past { steps_of self.old ≤ book.old.total }
        ensures note { Makes self.old index answer self.new }
    {
        let Seat {
            number: _,
            steps,
            noted,
            missing,
        } = self;
        book.audit(steps);
        book.add(steps, 1);
        if noted.push((index, answer)).is_err() {
            *missing += 1;
        }
    }

    /// Returns its notes, and its part of the ledger.
    pub(crate) fn into_parts(self) -> (Notes, Share<L>)
        ensures notes { notes_of result.0 ≡ self }
        ensures part { result.1.parts ≡ 1 }
        ensures steps { result.1.amount ≡ steps_of self }
    {
        let Seat {
            number,
            steps,
            noted,
            missing,
        } = self;
        (
            Notes {
                seat: number,
                noted,
                missing,
            },
            steps,
        )
    }
}
