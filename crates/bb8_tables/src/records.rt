//! The table of connections and approvals.
#![tactic(auto, using(crate::proofs::RecordPlaces::steps))]

ghost use Rattle.std.specs.Prelude.{◌≡◌, ℕ, true, false, cond, ◌<◌, ◌≤◌, ◌+◌, IsSome, is_some, IfSome, IfNone, IfOk, IfErr, option_copied, OnOk, OnErr, max, min, Some, None, slice_get, length, [], ◌∷◌, ◌++◌, ◌||◌, ltb};
ghost use Rattle.std.specs.FinMap as map;
ghost use Rattle.bb8_types.specs.Places as places;
ghost use Rattle.bb8_tables.specs.Machine as machine;
ghost use Rattle.bb8_types.specs.Numbered as numbered;
ghost use Rattle.bb8_tables.specs.Views.{no_records, NoneAfter};
ghost use Rattle.bb8_types.specs.declared.standing.Place.TheVariants.{Unclaimed, Claimed, Idle};
ghost use Rattle.circular_buffer.specs.Buffer.{buffer};
ghost use Rattle.bb8_types.specs.declared.standing.Standing.{Standing};
ghost use Rattle.bb8_types.specs.Bounds.{end_of_numbers, most_records};
ghost use Rattle.bb8_tables.specs.AccessCount.{AddsReads};
ghost use Rattle.bb8_tables.specs.Reaps.{after_reaped};
ghost use Rattle.bb8_tables.specs.Closed.{offered_all, closed_in, closed_of};
ghost use Rattle.bb8_tables.specs.Holders as holders;
ghost use Rattle.bb8_tables.specs.TableView.{slot_at, freed};
ghost use Rattle.bb8_tables.specs.declared.table.Slot.{Slot};

mod reaps;

use crate::closed::{Closed, ClosedList};
use crate::keys::Key;
use crate::ring::Ring;
use crate::table::{AccessCounter, Slot, Table, UncountedAccess};
use bb8_types::api::QueueStrategy;
use bb8_types::bounds::END_OF_NUMBERS;
use bb8_types::grants::Grant;
use bb8_types::standing::{Holder, Place, Standing};
pub use reaps::Reaped;
use std::alloc::{AllocError, Global};
use std::marker::Model;

/// The table of connections and approvals, the queue of unclaimed approvals, and counters. The
/// table's queue has the idle connections in the order in which they became idle; its births have
/// all connections, idle or checked out, in the order of birth.
#[derive(Drop)]
pub struct Records<C> {
    next: u64,
    slots: Table<Standing<C>>,
    unclaimed: Ring<Key>,
    conns: u64,
    approved: u64,
    peak: u64,
}

impl<C> Model for Records<C> {
    ghost use Rattle.bb8_tables.specs.Views.{RecordsView, records_code};

    ghost Value = { RecordsView C };

    ghost coded = { records_code C.code };

    ghost use Rattle.bb8_tables.specs.State.{view_of_records, AreGoodRecords};

    ghost view = { view_of_records };

    ghost invariant = { AreGoodRecords };
}

fn is_claimed<C>(place: &Place<C>) -> bool
    ensures { result ≡ places.is_claimed place.now }
{
    matches!(place, Place::Claimed)
}

fn is_idle<C>(place: &Place<C>) -> bool
    ensures { result ≡ places.is_idle place.now }
{
    matches!(place, Place::Idle(_))
}

fn is_guarded<C>(place: &Place<C>) -> bool
    ensures { result ≡ places.is_guarded place.now }
{
    matches!(place, Place::Guarded)
}

/// Returns whether a connection is checked out by this holder.
fn is_with<C>(place: &Place<C>, holder: Holder) -> bool
    ensures { result ≡ holders.is_with holder place.now }
{
    match holder {
        Holder::Guard => is_guarded(place),
        Holder::Get(get) => match place {
            Place::Held(number) => get == *number,
            _ => false,
        },
    }
}

/// Returns the connection of an idle record, None for other states.
fn connection_of<C: Drop>(place: Place<C>) -> Option<C>
    ensures some { IfSome result (λ c. place ≡ Idle c) }
    ensures none { IfNone result (places.is_idle place ≡ false) }
{
    match place {
        Place::Idle(conn) => Some(conn),
        _ => None,
    }
}

/// Frees the entry of an idle connection, offers the connection to a list, and returns its number.
fn close_idle_at<C: Drop>(
    slots: &mut Table<Standing<C>>,
    place: usize,
    closed: &mut ClosedList<C>,
) -> u64
    requires { IsSome (slot_at slots.old place) }
    ensures number { (x : Slot (Standing C)) → slot_at slots.old place ≡ Some x
        → result ≡ x.number }
    ensures state { slots.new ≡ freed place slots.old }
    ensures listed { (x : Slot (Standing C)) → slot_at slots.old place ≡ Some x
        → closed.new ≡ offered_all (closed_in x.number (Some x.standing)) closed.old }
{
    let Slot { number, standing } = slots.take_out(place);
    if let Place::Idle(conn) = standing.place {
        closed.offer(Closed { number, conn });
    }
    number
}

/// Returns whether a returned connection must be closed.
fn is_closing(broken: bool, expired: bool, ended: bool) -> bool
    ensures { result ≡ (broken || (expired || ended)) }
{
    broken || expired || ended
}

/// Returns a new approval, claimed or not.
fn approval<C>(claimed: bool) -> Standing<C>
    ensures { result ≡ record { place = cond claimed Claimed Unclaimed; birth = 0; entered = 0 } }
{
    let place = if claimed {
        Place::Claimed
    } else {
        Place::Unclaimed
    };
    Standing {
        place,
        birth: 0,
        entered: 0,
    }
}

/// Adds a new approval to the queue, unless it is claimed already.
fn push_unclaimed(unclaimed: &mut Ring<Key>, claimed: bool, key: Key)
    requires { length unclaimed.old.items < unclaimed.old.capacity }
    ensures { unclaimed.new ≡ buffer (unclaimed.old.items ++ cond claimed [] (key ∷ []))
        unclaimed.old.capacity }
{
    if !claimed {
        unclaimed.push(key);
    }
}

/// Returns 1 if the test passes, else 0.
pub fn one(test: bool) -> u64
    ensures value { result ≡ numbered.one test }
    ensures few { result ≤ 1 }
{
    if test { 1 } else { 0 }
}

impl<C: Drop> Records<C> {
    /// Returns an empty table, which allocates nothing, and the permission to read tables without
    /// counting the access.
    #[tactic(auto, using(crate::proofs::RecordPlaces::new_good))]
    pub fn new(alloc: Global, first: u64) -> (Self, UncountedAccess)
        ensures { result.0 ≡ no_records first }
    {
        let (slots, asking) = Table::new(alloc);
        let records = Records {
            next: first,
            slots,
            unclaimed: Ring::new(alloc),
            conns: 0,
            approved: 0,
            peak: 0,
        };
        (records, asking)
    }

    /// Returns a list without capacity. It allocates nothing.
    pub fn no_list(&self) -> ClosedList<C>
        ensures { result ≡ buffer [] 0 }
    {
        self.unclaimed.another()
    }

    /// Claims the unclaimed approval with the lowest number.
    pub fn claim(&mut self, accesses: &mut AccessCounter) -> Option<Key>
        ensures some { IfSome result (λ key. (slice_get self.old.unclaimed 0 ≡ Some key.number)
            × (self.new ≡ machine.after_claim key.number self.old)) }
        ensures none { IfNone result ((slice_get self.old.unclaimed 0 ≡ None)
            × (self.new ≡ self.old)) }
        ensures examined { AddsReads (numbered.one (is_some result)) 0 accesses.old accesses.new }
        ensures counted { min (accesses.old.reads + numbered.one (is_some result)) end_of_numbers
            ≤ accesses.new.reads }
    {
        let Some(key) = self.unclaimed.pop() else {
            return None;
        };
        let _ = self.slots.put(key.place, Place::Claimed, accesses);
        Some(key)
    }

    /// Returns when the first idle connection became idle. Reads one entry.
    #[inline]
    pub fn first_entered(
        &self,
        strategy: QueueStrategy,
        accesses: &mut AccessCounter,
    ) -> Option<u64>
        ensures some { IfSome result (λ n. (k : ℕ) → places.first_of strategy self.now.idle
            ≡ Some k → n ≡ places.entered_in (map.get self.now.places k)) }
        ensures none { IfNone result (places.first_of strategy self.now.idle ≡ None) }
        ensures examined { AddsReads (numbered.one (is_some result)) 0 accesses.old accesses.new }
        ensures counted { min (accesses.old.reads + numbered.one (is_some result)) end_of_numbers
            ≤ accesses.new.reads }
    {
        match self.slots.first_by(strategy) {
            None => None,
            Some(place) => Some(self.slots.at(place, accesses).standing.entered),
        }
    }

    /// Checks out the first idle connection to this holder.
    #[tactic(auto, using(crate::proofs::RecordPlaces::takes))]
    // Inlining saves 42 instructions of a pair.
    #[inline(always)]
    pub fn take(
        &mut self,
        strategy: QueueStrategy,
        holder: Holder,
        accesses: &mut AccessCounter,
    ) -> Option<(Key, C)>
        ensures some { IfSome result (λ r. (places.first_of strategy self.old.idle ≡ Some
            r.0.number) × ((birth entered : ℕ)
            × (map.get self.old.places r.0.number ≡ Some
            (record { place = Idle r.1; birth = birth; entered = entered })))
            × (self.new ≡ machine.after_take (places.place_with holder) r.0.number
            self.old)) }
        ensures none { IfNone result ((places.first_of strategy self.old.idle ≡ None)
            × (self.new ≡ self.old) × (accesses.new ≡ accesses.old)) }
        ensures examined { AddsReads (numbered.one (is_some result)) 0 accesses.old accesses.new }
        ensures counted { min (accesses.old.reads + numbered.one (is_some result)) end_of_numbers
            ≤ accesses.new.reads }
    {
        let Some(place) = self.slots.first_by(strategy) else {
            return None;
        };
        self.slots.leave(place);
        let out = match holder {
            Holder::Guard => Place::Guarded,
            Holder::Get(get) => Place::Held(get),
        };
        let (number, was) = self.slots.put(place, out, accesses);
        match was {
            Place::Idle(conn) => Some((Key { number, place }, conn)),
            _ => None,
        }
    }

    /// Changes the holder of a checked-out connection to a guard, and returns its key with a fresh
    /// hint.
    pub fn hand_over(&mut self, k: Key, accesses: &mut AccessCounter) -> Key
        requires out { (s : Standing C) × (map.get self.old.places k.number ≡ Some s)
            × (places.is_out s.place ≡ true) }
        ensures key { result.number ≡ k.number }
        ensures state { self.new ≡ machine.after_handover k.number self.old }
        ensures examined { AddsReads 1 1 accesses.old accesses.new }
        ensures counted { min (accesses.old.reads + 1) end_of_numbers ≤ accesses.new.reads }
    {
        let Some(place) = self.slots.locate(k.number, k.place, accesses) else {
            return k;
        };
        let _ = self.slots.put(place, Place::Guarded, accesses);
        Key {
            number: k.number,
            place,
        }
    }

    /// Adds the connection of a claimed approval as idle, born now. Returns the connection and
    /// changes nothing if the number is not that of a claimed approval. No birth and no entry may
    /// be later than `now`. Looks the approval up once.
    pub fn enter(
        &mut self,
        k: Key,
        conn: C,
        now: u64,
        accesses: &mut AccessCounter,
    ) -> Result<(), C>
        requires { NoneAfter now self.old }
        ensures ok { IfOk result (λ u. (places.stands places.is_claimed
            (map.get self.old.places k.number) ≡ true)
            × (self.new ≡ machine.after_entry true k.number
            (record { place = Idle conn; birth = now; entered = now }) self.old)) }
        ensures unfit { IfErr result (λ c. (c ≡ conn) × (self.new ≡ self.old)
            × (places.stands places.is_claimed (map.get self.old.places k.number) ≡ false)) }
        ensures numbers { self.old.next ≤ end_of_numbers }
        ensures examined { AddsReads 2 1 accesses.old accesses.new }
        ensures counted { IfOk result (λ u. min (accesses.old.reads + 1) end_of_numbers
            ≤ accesses.new.reads) }
    {
        let Some(place) = self.slots.locate(k.number, k.place, accesses) else {
            return Err(conn);
        };
        if !is_claimed(&self.slots.at(place, accesses).standing.place) {
            return Err(conn);
        }
        let idle = Standing {
            place: Place::Idle(conn),
            birth: now,
            entered: now,
        };
        let _ = self.slots.replace(place, idle, accesses);
        self.slots.line_up(place);
        self.slots.add_birth(place);
        self.conns += 1;
        self.approved -= 1;
        Ok(())
    }

    /// Makes a checked-out connection idle again; it keeps its birth. Returns it instead, with
    /// whether it is older than `max_age`, and changes nothing, if it is broken or older than
    /// that, or the pool has ended. Returns `Err` with the connection and changes nothing if it is
    /// not checked out by this holder. No birth and no entry may be later than `now`. Looks the
    /// connection up once.
    // Inlining saves 43 instructions of a pair.
    #[inline(always)]
    pub fn put_back(
        &mut self,
        k: Key,
        conn: C,
        holder: Holder,
        broken: bool,
        ended: bool,
        max_age: u64,
        now: u64,
        accesses: &mut AccessCounter,
    ) -> Result<Result<(), (C, bool)>, C>
        requires { NoneAfter now self.old }
        ensures held { IfOk result (λ r. places.stands (holders.is_with holder)
            (map.get self.old.places k.number) ≡ true) }
        ensures ok { IfOk result (λ r. IfOk r (λ u. ((broken || (machine.is_older
            max_age now k.number self.old || ended)) ≡ false)
            × (self.new ≡ machine.after_return k.number conn now self.old))) }
        ensures err { IfOk result (λ r. IfErr r (λ x. (x.0 ≡ conn)
            × (x.1 ≡ machine.is_older max_age now k.number self.old)
            × ((broken || (x.1 || ended)) ≡ true) × (self.new ≡ self.old))) }
        ensures unfit { IfErr result (λ c. (c ≡ conn) × (self.new ≡ self.old)
            × (places.stands (holders.is_with holder) (map.get self.old.places k.number) ≡ false)) }
        ensures numbers { self.old.next ≤ end_of_numbers }
        ensures examined { AddsReads 2 1 accesses.old accesses.new }
    {
        let Some(place) = self.slots.locate(k.number, k.place, accesses) else {
            return Err(conn);
        };
        let standing = &self.slots.at(place, accesses).standing;
        if !is_with(&standing.place, holder) {
            return Err(conn);
        }
        let birth = standing.birth;
        let older = max_age < now - birth;
        if is_closing(broken, older, ended) {
            return Ok(Err((conn, older)));
        }
        let idle = Standing {
            place: Place::Idle(conn),
            birth,
            entered: now,
        };
        let _ = self.slots.replace(place, idle, accesses);
        self.slots.line_up(place);
        Ok(Ok(()))
    }

    /// Ends a claimed approval. Returns false and changes nothing if the number is not that of one.
    /// Looks it up once.
    pub fn end_claimed(&mut self, k: Key, accesses: &mut AccessCounter) -> bool
        ensures ended { result ≡ true → (places.stands places.is_claimed
            (map.get self.old.places k.number) ≡ true)
            × (self.new ≡ machine.after_close true k.number self.old) }
        ensures unfit { result ≡ false → (places.stands places.is_claimed
            (map.get self.old.places k.number) ≡ false) × (self.new ≡ self.old) }
        ensures examined { AddsReads 1 1 accesses.old accesses.new }
    {
        let Some(at) = self.slots.locate(k.number, k.place, accesses) else {
            return false;
        };
        if !is_claimed(&self.slots.at(at, accesses).standing.place) {
            return false;
        }
        let _ = self.slots.take_out(at);
        self.approved -= 1;
        true
    }

    /// Ends a checked-out connection.
    pub fn close(&mut self, k: Key, accesses: &mut AccessCounter)
        requires { (s : Standing C) × (map.get self.old.places k.number ≡ Some s)
            × (places.is_out s.place ≡ true) }
        ensures state { self.new ≡ machine.after_close false k.number self.old }
        ensures numbers { self.old.next ≤ end_of_numbers }
        ensures examined { AddsReads 0 1 accesses.old accesses.new }
    {
        let Some(place) = self.slots.locate(k.number, k.place, accesses) else {
            return;
        };
        let _ = self.slots.take_out(place);
        self.conns -= 1;
    }

    /// Ends an idle connection, wherever it is in the queue, and returns it. Returns None and
    /// changes nothing if the number is not that of one. Looks it up once.
    pub fn evict(&mut self, k: Key, accesses: &mut AccessCounter) -> Option<C>
        ensures some { IfSome result (λ c. ((birth entered : ℕ)
            × (map.get self.old.places k.number ≡ Some
            (record { place = Idle c; birth = birth; entered = entered })))
            × (self.new ≡ after_reaped k.number self.old)) }
        ensures none { IfNone result ((places.stands places.is_idle
            (map.get self.old.places k.number) ≡ false) × (self.new ≡ self.old)) }
        ensures numbers { self.old.next ≤ end_of_numbers }
        ensures examined { AddsReads 1 1 accesses.old accesses.new }
    {
        let Some(place) = self.slots.locate(k.number, k.place, accesses) else {
            return None;
        };
        if !is_idle(&self.slots.at(place, accesses).standing.place) {
            return None;
        }
        let Slot {
            number: _,
            standing,
        } = self.slots.take_out(place);
        self.conns -= 1;
        connection_of(standing.place)
    }

    /// Ends the connection that has been idle longest, and offers it to a list.
    fn end_idle(&mut self, closed: &mut ClosedList<C>) -> Option<Key>
        ensures some { IfSome result (λ key. (slice_get self.old.idle 0 ≡ Some key.number)
            × (self.new ≡ machine.after_idle_end key.number self.old)) }
        ensures none { IfNone result ((slice_get self.old.idle 0 ≡ None) × (self.new ≡ self.old)) }
        ensures listed { IfSome result (λ key. closed.new ≡ offered_all
            (closed_in key.number (map.get self.old.places key.number)) closed.old) }
        ensures same { IfNone result (closed.new ≡ closed.old) }
    {
        let Some(place) = self.slots.first() else {
            return None;
        };
        let number = close_idle_at(&mut self.slots, place, closed);
        self.conns -= 1;
        Some(Key { number, place })
    }

    /// Ends the unclaimed approval with the lowest number.
    fn end_unclaimed(&mut self) -> Option<Key>
        ensures some { IfSome result (λ key. (slice_get self.old.unclaimed 0 ≡ Some key.number)
            × (self.new ≡ machine.after_unclaimed_end key.number self.old)) }
        ensures none { IfNone result ((slice_get self.old.unclaimed 0 ≡ None)
            × (self.new ≡ self.old)) }
    {
        let Some(key) = self.unclaimed.pop() else {
            return None;
        };
        let _ = self.slots.take_out(key.place);
        self.approved -= 1;
        Some(key)
    }

    /// Ends all idle connections, offers them to a list, and returns their count.
    fn end_idles(&mut self, closed: &mut ClosedList<C>) -> u32
        ensures many { result ≡ length self.old.idle }
        ensures listed { closed.new ≡ offered_all (closed_of self.old.idle self.old.places)
            closed.old }
        ensures state { self.new ≡ machine.after_idle_ends self.old.idle self.old }
    {
        let many = self.idle_connections();
        for _ in 0..many {
            let _ = self.end_idle(closed);
        }
        many
    }

    /// Ends all unclaimed approvals.
    fn end_unclaimeds(&mut self)
        ensures { self.new ≡ machine.after_unclaimed_ends self.old.unclaimed self.old }
    {
        for _ in 0..self.unclaimed.len() {
            let _ = self.end_unclaimed();
        }
    }

    /// Ends all idle connections and unclaimed approvals. Offers the connections to a list and
    /// returns their count.
    pub fn leave(&mut self, closed: &mut ClosedList<C>) -> u32
        ensures many { result ≡ length self.old.idle }
        ensures listed { closed.new ≡ offered_all (closed_of self.old.idle self.old.places)
            closed.old }
        ensures state { self.new ≡ machine.after_leave self.old }
    {
        let many = self.end_idles(closed);
        self.end_unclaimeds();
        many
    }

    /// Allocates for a higher peak.
    fn reserve_for(&mut self, peak: u64) -> Result<(), AllocError>
        requires higher { self.old.peak ≤ peak }
        requires few { peak ≤ most_records }
        ensures ok { OnOk result (self.new ≡ record self.old { peak = peak }) }
        ensures err { OnErr result (self.new ≡ self.old) }
    {
        let free = peak - (self.conns + self.approved);
        self.slots.reserve(free as usize)?;
        self.unclaimed.grow(peak as usize)?;
        self.peak = peak;
        Ok(())
    }

    /// Reserves memory for one more record. Returns false if it is refused.
    fn reserve_one(&mut self) -> bool
        requires { self.old.conns + self.old.approved < most_records }
        ensures made { result ≡ true → self.new ≡ record
            self.old { peak = max self.old.peak (self.old.conns + self.old.approved + 1) } }
        ensures refused { result ≡ false → (self.old.conns + self.old.approved ≡ self.old.peak)
            × (self.new ≡ self.old) }
    {
        let used = self.used();
        used < self.peak || self.reserve_for(used + 1).is_ok()
    }

    /// Adds an idle connection with the next number. Memory must be reserved.
    #[tactic(auto, using(crate::proofs::RecordPlaces::bears))]
    fn bear(&mut self, conn: C, now: u64) -> Key
        requires moments { NoneAfter now self.old }
        requires room { self.old.conns + self.old.approved < self.old.peak }
        requires number { self.old.next < end_of_numbers }
        ensures key { result.number ≡ self.old.next }
        ensures state { self.new ≡ machine.after_birth conn now self.old }
    {
        let number = self.next;
        let place = self.slots.insert(Slot {
            number,
            standing: Standing {
                place: Place::Idle(conn),
                birth: now,
                entered: now,
            },
        });
        self.slots.line_up(place);
        self.slots.add_birth(place);
        self.next += 1;
        self.conns += 1;
        Key { number, place }
    }

    /// Adds an idle connection that was born now. Returns it if memory is refused. Memory is
    /// requested only if there are as many records as ever were. No birth and no entry may be later
    /// than `now`.
    pub fn add(&mut self, conn: C, now: u64) -> Result<Key, C>
        requires moments { NoneAfter now self.old }
        requires few { self.old.conns + self.old.approved < most_records }
        requires number { self.old.next < end_of_numbers }
        ensures ok { IfOk result (λ key. (key.number ≡ self.old.next)
            × (self.new ≡ machine.with_peak (machine.after_birth conn now self.old))) }
        ensures err { IfErr result (λ c. (c ≡ conn)
            × (self.old.conns + self.old.approved ≡ self.old.peak) × (self.new ≡ self.old)) }
    {
        if !self.reserve_one() {
            return Err(conn);
        }
        Ok(self.bear(conn, now))
    }

    /// Returns whether a number is left.
    pub fn has_number(&self) -> bool
        ensures { result ≡ ltb self.now.next end_of_numbers }
    {
        self.next < END_OF_NUMBERS
    }

    /// Returns the next number.
    pub fn next_number(&self) -> u64
        ensures { result ≡ self.now.next }
    {
        self.next
    }

    /// Adds one approval. Memory must be reserved.
    #[tactic(auto, using(crate::proofs::RecordPlaces::approves))]
    fn approve(&mut self, claimed: bool)
        requires room { self.old.conns + self.old.approved < self.old.peak }
        requires number { self.old.next < end_of_numbers }
        ensures { self.new ≡ machine.after_approval claimed self.old }
    {
        let number = self.next;
        let place = self.slots.insert(Slot {
            number,
            standing: approval(claimed),
        });
        push_unclaimed(&mut self.unclaimed, claimed, Key { number, place });
        self.next += 1;
        self.approved += 1;
    }

    /// Grants the approvals that are due, if memory and numbers allow it. All memory is requested
    /// before the first one is added.
    #[cold]
    fn grant_some(&mut self, due: u64, claimed: bool) -> Grant
        requires { self.old.conns + self.old.approved + due ≤ most_records }
        ensures granted { machine.IsGrant self.old due result }
        ensures state { self.new ≡ machine.after_grant claimed result self.old }
    {
        let taken = self.conns + self.approved;
        let possible = due.min(END_OF_NUMBERS - self.next);
        let below = possible.min(self.peak - taken);
        let first = self.next;
        let count = if below < possible && self.reserve_for(taken + possible).is_ok() {
            possible
        } else {
            below
        };
        for _ in 0..count {
            self.approve(claimed);
        }
        Grant {
            first,
            count: count as u32,
            withheld: (due - count) as u32,
        }
    }

    /// As `grant_some`. Usually nothing is due, and then no call is made.
    #[inline]
    pub fn grant(&mut self, due: u64, claimed: bool) -> Grant
        requires { self.old.conns + self.old.approved + due ≤ most_records }
        ensures granted { machine.IsGrant self.old due result }
        ensures state { self.new ≡ machine.after_grant claimed result self.old }
    {
        if due > 0 {
            return self.grant_some(due, claimed);
        }
        Grant {
            first: self.next,
            count: 0,
            withheld: 0,
        }
    }

    /// Returns the count of open approvals.
    pub fn approved(&self) -> u64
        ensures { result ≡ self.now.approved }
    {
        self.approved
    }

    /// Returns the count of connections and open approvals.
    pub fn used(&self) -> u64
        ensures { result ≡ self.now.conns + self.now.approved }
    {
        self.conns + self.approved
    }

    /// Returns the count of idle connections and open approvals.
    pub fn ready(&self) -> u64
        ensures { result ≡ length self.now.idle + self.now.approved }
    {
        self.slots.len() as u64 + self.approved
    }

    /// Returns the count of connections.
    pub fn connections(&self) -> u32
        ensures { result ≡ self.now.conns }
    {
        self.conns as u32
    }

    /// Returns the count of idle connections.
    pub fn idle_connections(&self) -> u32
        ensures { result ≡ length self.now.idle }
    {
        self.slots.len() as u32
    }

    /// Returns the state of a record, None if it has ended. Reads one entry.
    #[inline]
    fn standing(&self, k: Key, accesses: &mut AccessCounter) -> Option<&Standing<C>>
        ensures value { option_copied result ≡ map.get self.now.places k.number }
        ensures examined { AddsReads 1 1 accesses.old accesses.new }
        ensures counted { min (accesses.old.reads + 1) end_of_numbers ≤ accesses.new.reads }
    {
        match self.slots.slot(k.number, k.place, accesses) {
            None => None,
            Some(slot) => Some(&slot.standing),
        }
    }

    /// Returns the birth of a record.
    pub fn birth(&self, k: Key, accesses: &mut AccessCounter) -> u64
        ensures value { result ≡ places.birth_in (map.get self.now.places k.number) }
        ensures examined { AddsReads 1 1 accesses.old accesses.new }
        ensures counted { min (accesses.old.reads + 1) end_of_numbers ≤ accesses.new.reads }
    {
        match self.standing(k, accesses) {
            None => 0,
            Some(standing) => standing.birth,
        }
    }

    /// Returns the key of a record, None if it has ended.
    pub fn find(&self, number: u64, accesses: &mut AccessCounter) -> Option<Key>
        ensures some { IfSome result (λ key. (key.number ≡ number)
            × IsSome (map.get self.now.places number)) }
        ensures none { IfNone result (map.get self.now.places number ≡ None) }
        ensures examined { AddsReads 0 1 accesses.old accesses.new }
    {
        match self.slots.locate(number, 0, accesses) {
            None => None,
            Some(place) => Some(Key { number, place }),
        }
    }

    /// Returns whether a record is a claimed approval.
    pub fn is_claimed(&self, k: Key, accesses: &mut AccessCounter) -> bool
        ensures value { result ≡ places.stands places.is_claimed
            (map.get self.now.places k.number) }
        ensures examined { AddsReads 1 1 accesses.old accesses.new }
        ensures counted { min (accesses.old.reads + 1) end_of_numbers ≤ accesses.new.reads }
    {
        match self.standing(k, accesses) {
            None => false,
            Some(standing) => is_claimed(&standing.place),
        }
    }

    /// Returns whether a record is an idle connection.
    pub fn is_idle(&self, k: Key, accesses: &mut AccessCounter) -> bool
        ensures value { result ≡ places.stands places.is_idle
            (map.get self.now.places k.number) }
        ensures examined { AddsReads 1 1 accesses.old accesses.new }
        ensures counted { min (accesses.old.reads + 1) end_of_numbers ≤ accesses.new.reads }
    {
        match self.standing(k, accesses) {
            None => false,
            Some(standing) => is_idle(&standing.place),
        }
    }

    /// Returns whether a guard holds a record.
    pub fn is_guarded(&self, k: Key, accesses: &mut AccessCounter) -> bool
        ensures value { result ≡ places.stands places.is_guarded
            (map.get self.now.places k.number) }
        ensures examined { AddsReads 1 1 accesses.old accesses.new }
        ensures counted { min (accesses.old.reads + 1) end_of_numbers ≤ accesses.new.reads }
    {
        match self.standing(k, accesses) {
            None => false,
            Some(standing) => is_guarded(&standing.place),
        }
    }
}
