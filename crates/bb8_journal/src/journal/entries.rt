//! The contents of a shared journal's lock: a pool, its history, and the book that counts the steps
//! of all seats.
ghost use Rattle.std.specs.Prelude.{◌≡◌, ◌+◌, ◌≤◌, ◌++◌, ◌∷◌, [], true, IfOk, OnErr, IsOk, length, vec_len, vec_capacity, map, ℕ};
ghost use Rattle.std.specs.List.{sum_by};
ghost use Rattle.bb8_core.specs.declared.replay.events.Answer.{Answer as ReplayAnswer};
ghost use Rattle.bb8_core.specs.Endings.{endings_of};
ghost use Rattle.bb8_core.specs.Run.{Applies, IsTaken};
ghost use Rattle.bb8_core.specs.StateView.{StateView};
ghost use Rattle.bb8_journal.specs.Endings.{is_named_ending};
ghost use Rattle.bb8_ledger.specs.Limits.{KeepsLimits, KeepsLaws, KeepsPromises};
ghost use Rattle.bb8_types.specs.Settings.{settings_of, is_lawful};

use super::lists::with_room;
use super::seats::{Notes, Seat};
use bb8_core::api::{Config, Memory};
use bb8_core::internals::PoolInternals;
use bb8_core::replay::{Act, Answer, Event, Known, apply, fits};
use std::alloc::Global;
use std::marker::{Brand, Model};
use std::sync::ledger::{Book, Ledger, Share};

/// An event that a seat made, with its result. Entries are numbered from 0.
#[derive(Clone, Copy, Debug, PartialEq, Eq)]
pub struct Entry {
    /// The number of the seat.
    pub seat: usize,
    /// The event. It may be one that did not fit and changed nothing.
    pub event: Event,
    /// The result.
    pub answer: Answer,
}

/// Memory for an entry was refused. Nothing has changed.
#[derive(Clone, Copy, Debug, PartialEq, Eq)]
pub struct NoRoom;

/// The ledger with which the seats of a journal count their steps; each seat has one part. It names
/// the configuration with which the journal was opened. A program names `Brand`.
pub trait Recorded: Ledger {
    ghost use Rattle.bb8_types.specs.Settings.{Settings};

    // The configuration.
    ghost config: { Settings };
}

impl Recorded for Brand {
    ghost use Rattle.bb8_types.specs.Settings.{default_settings};

    ghost config = { default_settings };
}

/// A pool with its history. The entries replay to the pool, they are as many as the book counts
/// steps, and an entry is reserved for each event that may still end something. Contracts see
/// its entries and its pool.
#[derive(Drop)]
pub struct Journal<L: Recorded> {
    pool: PoolInternals<u64>,
    known: Known,
    history: Vec<Entry>,
    steps: Book<L>,
    rest: Share<L>,
}

impl<L: Recorded> Model for Journal<L> {
    ghost use Rattle.std.specs.Prelude.{◌≡◌, ◌+◌, ◌≤◌, true, vec_len, vec_capacity};
    ghost use Rattle.bb8_core.specs.Endings.{endings_of};
    ghost use Rattle.bb8_types.specs.Settings.{is_lawful};
    ghost use Rattle.bb8_journal.specs.History.{Kept, Replays, kept_code};
    ghost use Rattle.bb8_journal.specs.contracts.journal.entries.Entry as entry_type;

    ghost Value = { Kept };

    ghost coded = { kept_code entry_type.the_row.coded };

    ghost view = { λ j. record { entries = j.history.items; pool = j.pool } };

    ghost invariant = { λ j. record {
      lawful : is_lawful L.config ≡ true;
      replays : Replays L.config j.history.items j.pool;
      counted : vec_len j.history ≡ j.steps.total;
      roomy : vec_len j.history + endings_of j.pool ≤ vec_capacity j.history;
      no_part : j.rest.parts ≡ 0;
      no_amount : j.rest.amount ≡ 0;
    } };
}

/// Returns whether an event ends a get, a check-out or a handle.
fn is_ending(act: Act) -> bool
    ensures { result ≡ is_named_ending act }
{
    matches!(
        act,
        Act::GiveUp(..) | Act::PutBack(..) | Act::Detach(..) | Act::Leave | Act::Close
    )
}

/// Allocates for an entry, and for one of each ending event that may come after it. Returns whether
/// memory was granted.
fn reserve(pool: &PoolInternals<u64>, history: &mut Vec<Entry>) -> bool
    requires { vec_len history.old + endings_of pool.now ≤ vec_capacity history.old }
    ensures items { history.new.items ≡ history.old.items }
    ensures len { vec_len history.new ≡ vec_len history.old }
    ensures kept { vec_capacity history.old ≤ vec_capacity history.new }
    ensures room { result ≡ true
        → vec_len history.new + 2 + endings_of pool.now ≤ vec_capacity history.new }
{
    match pool.endings().checked_add(2) {
        None => false,
        Some(needed) => history.reserve(needed as usize).is_ok(),
    }
}

/// Returns whether there is memory for the entry of an event, and for those of the ending events
/// after it. It allocates if needed. If memory is refused, that of an ending event that fits is
/// still reserved.
fn reserve_for(pool: &PoolInternals<u64>, history: &mut Vec<Entry>, event: Event) -> bool
    requires { vec_len history.old + endings_of pool.now ≤ vec_capacity history.old }
    ensures items { history.new.items ≡ history.old.items }
    ensures len { vec_len history.new ≡ vec_len history.old }
    ensures room { result ≡ true → (answer : ReplayAnswer) (after : StateView ℕ)
        → Applies pool.now event answer after
        → vec_len history.new + 1 + endings_of after ≤ vec_capacity history.new }
    ensures kept { vec_capacity history.old ≤ vec_capacity history.new }
    ensures ending { IsTaken pool.now event.act → is_named_ending event.act ≡ true
        → result ≡ true }
{
    pool.limits();
    if reserve(pool, history) {
        return true;
    }
    is_ending(event.act) && fits(pool, event)
}

impl<L: Recorded> Journal<L> {
    ghost use Rattle.bb8_journal.specs.Notes.{steps_of, Makes, notes_of};
    ghost use Rattle.bb8_journal.specs.History.{entry, IsUnwritten, Replays, AfterEachEntry};

    /// Makes a seat's event and records it. Returns the index of the entry and the result of the
    /// event, `Unfit` if it did not fit. Fails with `NoRoom` if memory for an entry is refused;
    /// never for an ending event that fits: a `GiveUp`, a `PutBack`, a `Detach`, a `Leave` or a
    /// `Close`.
    pub fn apply(&mut self, seat: &mut Seat<L>, event: Event) -> Result<(u64, Answer), NoRoom>
        ensures index { IfOk result (λ r. r.0 ≡ length self.old.entries) }
        ensures entry { IfOk result (λ r.
            self.new.entries ≡ self.old.entries ++ entry seat.old.seat event r.1 ∷ []) }
        ensures answer { IfOk result (λ r. Applies self.old.pool event r.1 self.new.pool) }
        ensures note { IfOk result (λ r. Makes seat.old r.0 r.1 seat.new) }
        ensures past { IfOk result (λ r. steps_of seat.old ≤ r.0) }
        ensures no_room { OnErr result ((self.new ≡ self.old) × (seat.new ≡ seat.old)) }
        ensures ending { IsTaken self.old.pool event.act → is_named_ending event.act ≡ true
            → IsOk result }
    {
        let Journal {
            pool,
            known,
            history,
            steps,
            rest: _,
        } = self;
        if !reserve_for(pool, history, event) {
            return Err(NoRoom);
        }
        let index = history.len() as u64;
        let answer = apply(pool, known, event);
        history.push_reserved(Entry {
            seat: seat.number(),
            event,
            answer,
        });
        seat.count(steps, index, answer);
        Ok((index, answer))
    }

    /// States what holds of every journal: its entries replay to its pool, and after each prefix of
    /// them the pool keeps the limits, the laws and the promises. It does nothing.
    pub fn limits(&self)
        ensures replays { Replays L.config self.now.entries self.now.pool }
        ensures limits { AfterEachEntry KeepsLimits L.config self.now.entries }
        ensures laws { AfterEachEntry KeepsLaws L.config self.now.entries }
        ensures promises { AfterEachEntry KeepsPromises L.config self.now.entries }
    {
        let _ = &self.history;
    }

    /// Returns a journal without entries. The book is new, and the share has none of its parts.
    /// An entry is reserved for the end of the one handle.
    pub(crate) fn new(
        alloc: Global,
        config: Config,
        steps: Book<L>,
        rest: Share<L>,
    ) -> Result<Journal<L>, Memory>
        requires lawful { is_lawful (settings_of config) ≡ true }
        requires config { settings_of config ≡ L.config }
        requires none { steps.total ≡ 0 }
        requires no_part { rest.parts ≡ 0 }
        requires no_amount { rest.amount ≡ 0 }
        ensures { IfOk result (IsUnwritten (settings_of config)) }
    {
        let history = with_room(alloc, 1)?;
        Ok(Journal {
            pool: PoolInternals::new(alloc, config),
            known: Known::new(alloc, 0, 0),
            history,
            steps,
            rest,
        })
    }

    /// Returns the history, the final state, and the notes of all seats. Each seat's part of the
    /// ledger shows how many steps it made, so there are as many entries as steps of all seats. The
    /// caller passes the list of notes, with capacity for those of each seat.
    pub(crate) fn close(
        self,
        seats: Vec<Seat<L>>,
        notes: Vec<Notes>,
    ) -> (Vec<Entry>, PoolInternals<u64>, Vec<Notes>)
        requires all { length seats.items ≡ L.parts }
        requires none { vec_len notes ≡ 0 }
        requires room { length seats.items ≤ vec_capacity notes }
        ensures same { (result.0.items ≡ self.entries) × (result.1 ≡ self.pool) }
        ensures counted { length result.0.items ≡ sum_by steps_of seats.items }
        ensures notes { map notes_of result.2.items ≡ seats.items }
    {
        let Journal {
            pool,
            known: _,
            history,
            mut steps,
            mut rest,
        } = self;
        let mut notes = notes;
        for seat in seats {
            let (noted, part) = seat.into_parts();
            rest.merge(part);
            notes.push_reserved(noted);
        }
        steps.audit(&mut rest);
        (history, pool, notes)
    }
}
