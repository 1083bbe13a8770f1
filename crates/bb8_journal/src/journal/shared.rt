//! A journal that several threads share: one lock around it, and one seat for each thread.
ghost use Rattle.std.specs.Prelude.{◌≡◌, ◌<◌, ◌≤◌, true, IfOk, OnErr, length, map, vec_len, vec_capacity};
ghost use Rattle.std.specs.List.{sum_by, range_with_len};
ghost use Rattle.bb8_journal.specs.History.{Replays, AfterEachEntry};
ghost use Rattle.bb8_ledger.specs.Limits.{KeepsLimits, KeepsLaws, KeepsPromises};
ghost use Rattle.bb8_types.specs.Settings.{settings_of, is_lawful};
ghost use Rattle.bb8_journal.specs.Notes.{steps_of, notes_of, fresh, Makes};

use super::entries::{Entry, Journal, NoRoom, Recorded};
use super::lists::with_room;
use super::seats::{Notes, Seat};
use bb8_core::api::{Config, Memory};
use bb8_core::internals::PoolInternals;
use bb8_core::replay::{Answer, Event};
use std::alloc::Global;
use std::marker::PhantomData;
use std::sync::ledger::{Blank, Ledger, Share};
use std::sync::{Mutex, Wait};

/// The count of seats: as many as the ledger has parts. It is a struct of its own because of
/// *supertrait-ghosts* (docs/TOOLCHAIN.md).
#[derive(Drop)]
struct Seats<L: Ledger> {
    count: usize,
    ledger: PhantomData<L>,
    ghost whole: { count ≡ L.parts },
    ghost some: { 0 < count },
}

/// A journal behind its lock, and memory for the notes of each seat.
#[derive(Drop)]
pub struct SharedJournal<L: Recorded> {
    journal: Mutex<Journal<L>>,
    notes: Vec<Notes>,
    seats: Seats<L>,
    ghost empty: { vec_len notes ≡ 0 },
    ghost room: { seats.count ≤ vec_capacity notes },
}

/// Returns `seats` new seats, numbered from 0, each with one part of the share.
fn cut<L: Ledger>(alloc: Global, rest: &mut Share<L>, seats: usize) -> Result<Vec<Seat<L>>, Memory>
    requires parts { rest.old.parts ≡ seats }
    requires amount { rest.old.amount ≡ 0 }
    ensures seats { IfOk result (λ list. list.items ≡ map fresh (range_with_len 0 seats)) }
    ensures count { IfOk result (λ list. length list.items ≡ seats) }
    ensures parts { IfOk result (λ list. rest.new.parts ≡ 0) }
    ensures amount { IfOk result (λ list. rest.new.amount ≡ 0) }
{
    let mut list = with_room(alloc, seats)?;
    for number in 0..seats {
        let seat = Seat::new(alloc, number, rest.split_off(1, 0));
        list.push_reserved(seat);
    }
    Ok(list)
}

impl<L: Recorded> SharedJournal<L> {
    /// Returns a journal without entries, of a pool with one handle, and its seats, numbered from
    /// 0. It takes a blank ledger with as many parts as seats, at least one. Fails with `Memory` if
    /// memory is refused: for the seats, for `close`, or for the entry of the handle's end.
    pub fn new(
        alloc: Global,
        config: Config,
        blank: Blank,
        seats: usize,
    ) -> Result<(SharedJournal<L>, Vec<Seat<L>>), Memory>
        requires lawful { is_lawful (settings_of config) ≡ true }
        requires config { settings_of config ≡ L.config }
        requires name { blank.name ≡ L.name }
        requires parts { blank.parts ≡ L.parts }
        requires size { blank.parts ≡ seats }
        requires some { 0 < seats }
        ensures count { IfOk result (λ r. length r.1.items ≡ L.parts) }
        ensures seats { IfOk result (λ r. r.1.items ≡ map fresh (range_with_len 0 seats)) }
    {
        let (steps, mut rest) = blank.open::<L>();
        let notes = with_room(alloc, seats)?;
        let list = cut(alloc, &mut rest, seats)?;
        let journal = Mutex::new(Journal::new(alloc, config, steps, rest)?);
        Ok((
            SharedJournal {
                journal,
                notes,
                seats: Seats {
                    count: seats,
                    ledger: PhantomData,
                },
            },
            list,
        ))
    }

    /// Returns the count of seats.
    pub fn seats(&self) -> usize
        ensures count { result ≡ L.parts }
        ensures some { 0 < result }
    {
        self.seats.count
    }

    /// Acquires the lock, makes a seat's event and records it. Returns the index of the entry and
    /// the result of the event, which the seat has noted. Fails with `NoRoom` if memory for the
    /// entry is refused; never for an ending event that fits.
    pub fn step<R: Wait>(
        &self,
        rt: &R,
        seat: &mut Seat<L>,
        event: Event,
    ) -> Result<(u64, Answer), NoRoom>
        ensures note { IfOk result (λ r. Makes seat.old r.0 r.1 seat.new) }
        ensures past { IfOk result (λ r. steps_of seat.old ≤ r.0) }
        ensures no_room { OnErr result (seat.new ≡ seat.old) }
    {
        self.journal.lock(rt).apply(seat, event)
    }

    /// Returns the history, the final state, and the notes of the seats, in the given order. It
    /// takes as many seats as there are; their parts of the ledger show that they are the seats of
    /// this journal, each once. So there are as many entries as steps of the seats. It allocates
    /// nothing.
    pub fn close(self, seats: Vec<Seat<L>>) -> (Vec<Entry>, PoolInternals<u64>, Vec<Notes>)
        requires { length seats.items ≡ L.parts }
        ensures replays { Replays L.config result.0.items result.1 }
        ensures limits { AfterEachEntry KeepsLimits L.config result.0.items }
        ensures laws { AfterEachEntry KeepsLaws L.config result.0.items }
        ensures promises { AfterEachEntry KeepsPromises L.config result.0.items }
        ensures counted { length result.0.items ≡ sum_by steps_of seats.items }
        ensures notes { map notes_of result.2.items ≡ seats.items }
    {
        let SharedJournal {
            journal,
            notes,
            seats: _,
        } = self;
        let journal = journal.into_inner();
        journal.limits();
        journal.close(seats, notes)
    }
}
