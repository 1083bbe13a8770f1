//! The jobs of a runner, each with its id and its state.
ghost use Rattle.std.specs.Prelude.{◌≡◌, ◌<◌, ℕ, true, Some, None, IfSome, IfNone, OnSome};
ghost use Rattle.std.specs.List.{slice_index_or, remove};
ghost use Rattle.std.specs.VecDeque.{deque_len};
ghost use Rattle.slots.specs.Entries.{is_ended, phase_in, phase_of, place_of, outcome_of, left_after, running, without};

use crate::job::Phase;
use std::collections::VecDeque;

/// The state of a job: `J` is a job, `O` its outcome, `G` a get.
#[derive(Drop)]
pub(crate) enum JobPlace<J, O, G> {
    /// It waits for the result of its get.
    Waiting(J, G),
    /// It runs, and one of the guards is held for it.
    Running(J),
    /// It has ended with this outcome.
    Ended(O),
}

/// A job with its id.
#[derive(Drop)]
pub(crate) struct JobEntry<J, O, G> {
    pub(crate) id: u64,
    pub(crate) place: JobPlace<J, O, G>,
}

impl<J, O, G> JobPlace<J, O, G> {
    /// Returns the phase of a job in this state.
    pub(crate) fn phase(&self) -> Phase
        ensures { result ≡ phase_in self.now }
    {
        match self {
            JobPlace::Waiting(_, _) => Phase::Waiting,
            JobPlace::Running(_) => Phase::Running,
            JobPlace::Ended(_) => Phase::Ended,
        }
    }

    /// Returns whether a job in this state has ended.
    pub(crate) fn is_ended(&self) -> bool
        ensures { result ≡ is_ended self.now }
    {
        match self {
            JobPlace::Ended(_) => true,
            _ => false,
        }
    }
}

/// Returns the index of the job with an id, None if there is none.
pub(crate) fn index_of<J, O, G>(entries: &VecDeque<JobEntry<J, O, G>>, id: u64) -> Option<usize>
    ensures within { IfSome result (λ i. i < deque_len entries.now) }
    ensures place { IfSome result (λ i. (e : _) → e ≡ slice_index_or entries.now.items i e
        → place_of id entries.now.items ≡ Some e.place) }
    ensures rest { IfSome result (λ i. without id entries.now.items ≡ remove entries.now.items i) }
    ensures none { IfNone result (place_of id entries.now.items ≡ None) }
{
    for i in 0..entries.len() {
        if entries[i].id == id {
            return Some(i);
        }
    }
    None
}

/// Returns the phase of the job with an id, None if there is none.
pub(crate) fn phase_at<J, O, G>(entries: &VecDeque<JobEntry<J, O, G>>, id: u64) -> Option<Phase>
    ensures { result ≡ phase_of (place_of id entries.now.items) }
{
    match index_of(entries, id) {
        Some(i) => Some(entries[i].place.phase()),
        None => None,
    }
}

/// Removes the job with an id and returns its outcome. Returns None if it has not ended or there is
/// none.
pub(crate) fn take_ended<J: Drop, O: Drop, G: Drop>(
    entries: &mut VecDeque<JobEntry<J, O, G>>,
    id: u64,
) -> Option<O>
    ensures outcome { result ≡ outcome_of (place_of id entries.old.items) }
    ensures left { entries.new.items ≡ left_after result id entries.old.items }
{
    let i = index_of(entries, id)?;
    if !entries[i].place.is_ended() {
        return None;
    }
    match entries.remove(i) {
        Some(
            JobEntry {
                id: _,
                place: JobPlace::Ended(outcome),
            },
        ) => Some(outcome),
        _ => unreachable!(),
    }
}
