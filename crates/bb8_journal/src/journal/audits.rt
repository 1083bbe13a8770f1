//! The audit of a history: whether the notes of all seats are the history.
ghost use Rattle.std.specs.Prelude.{◌≡◌, ℕ, true, All, Some, length, slice_get};
ghost use Rattle.std.specs.Bool.{Decides};
ghost use Rattle.std.specs.List.{Contains, sum_by};
ghost use Rattle.bb8_journal.specs.Audit.{lines_by, lines_from, lines_noted, IsAccount, entries_of, steps_in};

use super::entries::Entry;
use super::same::is_same;
use super::seats::Notes;
use bb8_core::replay::Answer;

/// Returns whether no note is missing.
fn is_complete(notes: &[Notes]) -> bool
    ensures { Decides result (All (λ n. n.missing ≡ 0) notes.now) }
{
    notes.iter().all(|note| note.missing == 0)
}

/// Returns whether there are as many notes as entries.
fn are_as_many(entries: usize, notes: &[Notes]) -> bool
    ensures { Decides result (sum_by (λ n. length n.noted.items) notes.now ≡ entries) }
{
    let mut left = entries;
    for note in notes {
        let more = note.noted.len();
        if left < more {
            return false;
        }
        left -= more;
    }
    left == 0
}

/// Returns where a note with this index would be if the indexes rise. It is a guess, and decides
/// nothing.
fn guess(noted: &[(u64, Answer)], index: u64) -> usize {
    noted.partition_point(|note| note.0 < index)
}

/// Returns whether this note is at an index of the list.
fn stands_at(noted: &[(u64, Answer)], at: usize, index: u64, answer: Answer) -> bool
    ensures { Decides result (slice_get noted.now at ≡ Some (index, answer)) }
{
    match noted.get(at) {
        None => false,
        Some(note) => note.0 == index && is_same(note.1, answer),
    }
}

/// Returns whether a seat has this note. If the indexes rise, as they do in a run, no search is
/// needed.
fn has_note(noted: &[(u64, Answer)], index: u64, answer: Answer) -> bool
    ensures { Decides result (Contains noted.now (index, answer)) }
{
    if stands_at(noted, guess(noted, index), index, answer) {
        return true;
    }
    for at in 0..noted.len() {
        if stands_at(noted, at, index, answer) {
            return true;
        }
    }
    false
}

/// Returns whether a seat has a note of this entry, which must be its own.
fn has_noted(notes: &Notes, index: u64, entry: Entry) -> bool
    ensures { Decides result
        (Contains (lines_by notes.now) (index, (entry.seat, entry.answer))) }
{
    if notes.seat != entry.seat {
        return false;
    }
    has_note(&notes.noted, index, entry.answer)
}

/// Returns whether the entry's seat has a note of it.
fn is_noted(notes: &[Notes], index: u64, entry: Entry) -> bool
    ensures { Decides result (Contains (lines_noted notes.now)
        (index, (entry.seat, entry.answer))) }
{
    for note in notes {
        if has_noted(note, index, entry) {
            return true;
        }
    }
    false
}

/// Returns whether each entry was noted by its seat.
fn are_noted(entries: &[Entry], notes: &[Notes]) -> bool
    ensures { Decides result (All (Contains (lines_noted notes.now)) (lines_from 0 entries.now)) }
{
    for index in 0..entries.len() {
        if !is_noted(notes, index as u64, entries[index]) {
            return false;
        }
    }
    true
}

/// Returns whether no note is missing, and the notes together are the indexes of the entries with
/// their seats and results, each once. Then each seat has as many entries as it made steps. It
/// allocates nothing.
pub fn audit(entries: &[Entry], notes: &[Notes]) -> bool
    ensures account { Decides result (IsAccount entries.now notes.now) }
    ensures seats { result ≡ true
        → (seat : ℕ) → entries_of seat entries.now ≡ steps_in seat notes.now }
{
    if !is_complete(notes) {
        return false;
    }
    if !are_as_many(entries.len(), notes) {
        return false;
    }
    are_noted(entries, notes)
}
