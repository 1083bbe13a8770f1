//! The table of gets.
#![tactic(auto, using(crate::proofs::GetPlaces::steps))]

ghost use Rattle.std.specs.Prelude.{◌⊎◌, ◌≡◌, ◌+◌, ◌<◌, ◌≤◌, max, min, true, false, IsSome, is_some, ltb, length, slice_get, IfSome, IfNone, OnOk, OnErr, Some, None};
ghost use Rattle.std.specs.FinMap as map;
ghost use Rattle.bb8_types.specs.declared.standing.Getting.{Getting};
ghost use Rattle.bb8_types.specs.declared.standing.GetPlace.TheVariants.{Active, Holding};
ghost use Rattle.bb8_types.specs.Numbered as numbered;
ghost use Rattle.bb8_types.specs.Places as places;
ghost use Rattle.bb8_tables.specs.Machine as machine;
ghost use Rattle.bb8_tables.specs.Keys.{notified_of};
ghost use Rattle.bb8_tables.specs.Views.{no_gets};
ghost use Rattle.bb8_types.specs.Bounds.{end_of_numbers};
ghost use Rattle.bb8_tables.specs.AccessCount.{AddsReads};

use crate::keys::GetKey;
use crate::table::{AccessCounter, Slot, Table};
use bb8_types::bounds::END_OF_NUMBERS;
use bb8_types::standing::{GetPlace, Getting};
use std::alloc::{AllocError, Global};
use std::marker::Model;

/// The table of gets and its counters. Its queue has the waiters that were not notified.
#[derive(Drop)]
pub struct Gets {
    next: u64,
    slots: Table<Getting>,
    alive: u64,
    peak: u64,
}

impl Model for Gets {
    ghost use Rattle.bb8_tables.specs.Views.{GetsView, gets_code};

    ghost Value = { GetsView };

    ghost coded = { gets_code };

    ghost use Rattle.bb8_tables.specs.State.{view_of_gets, AreGoodGets};

    ghost view = { view_of_gets };

    ghost invariant = { AreGoodGets };
}

/// Returns whether a get waits and was not notified.
pub fn is_unnotified(getting: Option<Getting>) -> bool
    ensures { result ≡ places.gets_stand places.is_unnotified getting }
{
    match getting {
        None => false,
        Some(getting) => matches!(getting.place, GetPlace::Waiting(false)),
    }
}

/// Returns whether a get waits and was notified.
pub fn is_notified(getting: Option<Getting>) -> bool
    ensures { result ≡ places.gets_stand places.is_notified getting }
{
    match getting {
        None => false,
        Some(getting) => matches!(getting.place, GetPlace::Waiting(true)),
    }
}

/// Returns whether a get may try.
pub fn is_trying(getting: Option<Getting>) -> bool
    ensures { result ≡ places.gets_stand places.is_trying getting }
{
    match getting {
        None => false,
        Some(getting) => !matches!(getting.place, GetPlace::Holding(_)),
    }
}

/// Returns the number of the connection that a get holds, None if it holds none.
pub fn held(getting: Option<Getting>) -> Option<u64>
    ensures { result ≡ places.holds getting }
{
    match getting?.place {
        GetPlace::Holding(number) => Some(number),
        _ => None,
    }
}

/// Returns when a get first waited, None if it never did.
pub fn first_wait(getting: Option<Getting>) -> Option<u64>
    ensures { result ≡ places.first_wait_of getting }
{
    getting?.first_wait
}

impl Gets {
    /// Returns an empty table. It allocates nothing.
    pub fn new(alloc: Global, first: u64) -> Self
        ensures { result ≡ no_gets first }
    {
        let (slots, _) = Table::new(alloc);
        Gets {
            next: first,
            slots,
            alive: 0,
            peak: 0,
        }
    }

    /// Returns whether a number is left.
    pub fn has_number(&self) -> bool
        ensures { result ≡ ltb self.now.next end_of_numbers }
    {
        self.next < END_OF_NUMBERS
    }

    /// Returns the count of gets that are alive.
    pub fn alive(&self) -> u64
        ensures { result ≡ self.now.alive }
    {
        self.alive
    }

    /// Returns the count of waiters that were not notified.
    pub fn unnotified(&self) -> u64
        ensures { result ≡ length self.now.waiting }
    {
        self.slots.len() as u64
    }

    /// Allocates for a higher peak. A wait needs no memory beyond this.
    #[cold]
    fn reserve_for(&mut self) -> Result<(), AllocError>
        requires number { self.old.next < end_of_numbers }
        requires full { self.old.alive ≡ self.old.peak }
        ensures ok { OnOk result (self.new ≡ record self.old { peak = self.old.peak + 1 }) }
        ensures err { OnErr result (self.new ≡ self.old) }
    {
        self.slots.reserve(1)?;
        self.peak += 1;
        Ok(())
    }

    /// Reserves memory for one more get, and returns the number that it will have. Returns None if
    /// no number is left or the memory is refused.
    #[inline]
    pub fn reserve_one(&mut self) -> Option<u64>
        ensures some { IfSome result (λ number. (number ≡ self.old.next)
            × (self.old.next < end_of_numbers)
            × (self.new ≡ record self.old { peak = max self.old.peak (self.old.alive + 1) })) }
        ensures none { IfNone result ((self.old.next < end_of_numbers
            → self.old.alive ≡ self.old.peak) × (self.new ≡ self.old)) }
    {
        if self.next < END_OF_NUMBERS && (self.alive < self.peak || self.reserve_for().is_ok()) {
            return Some(self.next);
        }
        None
    }

    /// Adds a get with the next number. Memory must be reserved.
    fn bear(&mut self) -> GetKey
        requires room { self.old.alive < self.old.peak }
        requires number { self.old.next < end_of_numbers }
        ensures key { result.number ≡ self.old.next }
        ensures state { self.new ≡ machine.after_begin self.old }
    {
        let number = self.next;
        let place = self.slots.insert(Slot {
            number,
            standing: Getting {
                place: GetPlace::Active,
                first_wait: None,
            },
        });
        self.next += 1;
        self.alive += 1;
        GetKey { number, place }
    }

    /// Adds a get with the next number that holds this connection at once. Memory must be reserved.
    #[inline]
    pub fn bear_holding(&mut self, held: u64) -> GetKey
        requires room { self.old.alive < self.old.peak }
        requires number { self.old.next < end_of_numbers }
        ensures key { result.number ≡ self.old.next }
        ensures state { self.new ≡ machine.after_turn (Holding held) self.old.next
            (machine.after_begin self.old) }
    {
        let number = self.next;
        let place = self.slots.insert(Slot {
            number,
            standing: Getting {
                place: GetPlace::Holding(held),
                first_wait: None,
            },
        });
        self.next += 1;
        self.alive += 1;
        GetKey { number, place }
    }

    /// Adds a get with the next number that waits at once, since `now`. Memory must be reserved.
    // Inlining saves 8 instructions of a pair.
    #[inline(always)]
    pub fn bear_waiting(&mut self, now: u64) -> GetKey
        requires room { self.old.alive < self.old.peak }
        requires number { self.old.next < end_of_numbers }
        ensures key { result.number ≡ self.old.next }
        ensures state { self.new ≡ machine.after_wait now self.old.next
            (machine.after_begin self.old) }
    {
        let number = self.next;
        let place = self.slots.insert(Slot {
            number,
            standing: Getting {
                place: GetPlace::Waiting(false),
                first_wait: Some(now),
            },
        });
        self.slots.line_up(place);
        self.next += 1;
        self.alive += 1;
        GetKey { number, place }
    }

    /// Returns whether a get can begin without an allocation: a number is left, and more gets were
    /// alive before.
    pub fn has_capacity(&self) -> bool
        ensures number { result ≡ true → self.now.next < end_of_numbers }
        ensures room { result ≡ true → self.now.alive < self.now.peak }
        ensures none { result ≡ false → (end_of_numbers ≤ self.now.next)
            ⊎ (self.now.peak ≤ self.now.alive) }
    {
        self.next < END_OF_NUMBERS && self.alive < self.peak
    }

    /// Returns the next number, for a get that begins and ends at once. Memory must be reserved.
    #[tactic(auto, using(crate::proofs::GetPlaces::passes))]
    pub fn begin_and_end(&mut self) -> u64
        requires room { self.old.alive < self.old.peak }
        requires number { self.old.next < end_of_numbers }
        ensures number { result ≡ self.old.next }
        ensures state { self.new ≡ machine.after_get_end self.old.next
            (machine.after_begin self.old) }
    {
        let number = self.next;
        self.next += 1;
        number
    }

    /// Begins a get. Returns None if memory is refused. Memory is requested only if as many gets
    /// are alive as ever were.
    #[inline]
    pub fn begin(&mut self) -> Option<GetKey>
        requires { self.old.next < end_of_numbers }
        ensures some { IfSome result (λ g. (g.number ≡ self.old.next)
            × (self.new ≡ machine.after_begin self.old)) }
        ensures none { IfNone result ((self.old.alive ≡ self.old.peak) × (self.new ≡ self.old)) }
    {
        self.reserve_one()?;
        Some(self.bear())
    }

    /// Makes a get wait that is not an unnotified waiter. It waits since `now` if it did not wait
    /// before.
    pub fn wait(&mut self, g: GetKey, now: u64, accesses: &mut AccessCounter)
        requires stands { (x : Getting) × (map.get self.old.places g.number ≡ Some x)
            × (places.is_unnotified x.place ≡ false) }
        ensures state { self.new ≡ machine.after_wait now g.number self.old }
        ensures examined { AddsReads 1 1 accesses.old accesses.new }
        ensures counted { min (accesses.old.reads + 1) end_of_numbers ≤ accesses.new.reads }
    {
        let Some(place) = self.slots.locate(g.number, g.place, accesses) else {
            return;
        };
        self.slots.wait(place, now, accesses);
        self.slots.line_up(place);
    }

    /// Changes the state of a get that is in no queue: it holds a connection now, or is active
    /// again.
    pub fn turn(&mut self, g: GetKey, place: GetPlace, accesses: &mut AccessCounter)
        requires off { places.is_unnotified place ≡ false }
        requires stands { (x : Getting) × (map.get self.old.places g.number ≡ Some x)
            × (places.is_unnotified x.place ≡ false) }
        ensures state { self.new ≡ machine.after_turn place g.number self.old }
        ensures examined { AddsReads 1 1 accesses.old accesses.new }
        ensures counted { min (accesses.old.reads + 1) end_of_numbers ≤ accesses.new.reads }
    {
        let Some(at) = self.slots.locate(g.number, g.place, accesses) else {
            return;
        };
        let _ = self.slots.turn(at, place, accesses);
    }

    /// Notifies the longest waiter that was not notified, and returns it.
    // Inlining saves 14 instructions of a pair.
    #[inline(always)]
    pub fn notify(&mut self, accesses: &mut AccessCounter) -> Option<GetKey>
        ensures value { notified_of result ≡ slice_get self.old.waiting 0 }
        ensures state { self.new ≡ machine.after_notice (notified_of result) self.old }
        ensures examined { AddsReads (numbered.one (is_some result)) 0 accesses.old accesses.new }
        ensures counted { min (accesses.old.reads + numbered.one (is_some result)) end_of_numbers
            ≤ accesses.new.reads }
    {
        let Some(place) = self.slots.first() else {
            return None;
        };
        let number = self.slots.turn(place, GetPlace::Waiting(true), accesses);
        self.slots.leave(place);
        Some(GetKey { number, place })
    }

    /// Makes a get active again that holds a connection, and returns that connection's number.
    /// Returns None and changes nothing if it holds none. Looks it up once.
    #[inline]
    pub fn let_go(&mut self, g: GetKey, accesses: &mut AccessCounter) -> Option<u64>
        ensures some { IfSome result (λ k.
            (places.holds (map.get self.old.places g.number) ≡ Some k)
            × (self.new ≡ machine.after_turn Active g.number self.old)) }
        ensures none { IfNone result ((places.holds (map.get self.old.places g.number) ≡ None)
            × (self.new ≡ self.old)) }
        ensures examined { AddsReads 2 1 accesses.old accesses.new }
        ensures counted { IfSome result (λ k. min (accesses.old.reads + 1) end_of_numbers
            ≤ accesses.new.reads) }
    {
        match self.slots.locate(g.number, g.place, accesses) {
            None => None,
            Some(place) => match self.slots.at(place, accesses).standing.place {
                GetPlace::Active | GetPlace::Waiting(_) => None,
                GetPlace::Holding(held) => {
                    let _ = self.slots.turn(place, GetPlace::Active, accesses);
                    Some(held)
                }
            },
        }
    }

    /// Ends a get that is alive and holds nothing, and returns its last state. Returns None and
    /// changes nothing if there is no such get. Looks it up once.
    // Inlining saves 32 instructions of a cancelled get.
    #[inline(always)]
    pub fn end(&mut self, g: GetKey, accesses: &mut AccessCounter) -> Option<Getting>
        ensures some { IfSome result (λ x. (map.get self.old.places g.number ≡ Some x)
            × (places.is_trying x.place ≡ true)
            × (self.new ≡ machine.after_get_end g.number self.old)) }
        ensures none { IfNone result ((places.gets_stand places.is_trying
            (map.get self.old.places g.number) ≡ false) × (self.new ≡ self.old)) }
        ensures numbers { self.old.next ≤ end_of_numbers }
        ensures examined { AddsReads 1 1 accesses.old accesses.new }
    {
        let Some(place) = self.slots.locate(g.number, g.place, accesses) else {
            return None;
        };
        let getting = self.slots.at(place, accesses).standing;
        if !is_trying(Some(getting)) {
            return None;
        }
        let _ = self.slots.take_out(place);
        self.alive -= 1;
        Some(getting)
    }

    /// Ends a get that is alive and in no queue.
    // Inlining saves 11 instructions of a waiting get.
    #[inline(always)]
    pub fn finish(&mut self, g: GetKey, accesses: &mut AccessCounter)
        requires { (x : Getting) × (map.get self.old.places g.number ≡ Some x)
            × (places.is_unnotified x.place ≡ false) }
        ensures state { self.new ≡ machine.after_get_end g.number self.old }
        ensures numbers { self.old.next ≤ end_of_numbers }
        ensures examined { AddsReads 0 1 accesses.old accesses.new }
    {
        let Some(place) = self.slots.locate(g.number, g.place, accesses) else {
            return;
        };
        let _ = self.slots.take_out(place);
        self.alive -= 1;
    }

    /// Ends a get that holds a connection. Returns that connection's number and the moment of the
    /// get's first wait. Returns None and changes nothing if it holds none. Looks it up once.
    // Inlining saves 30 instructions of a pair.
    #[inline(always)]
    pub fn finish_holding(
        &mut self,
        g: GetKey,
        accesses: &mut AccessCounter,
    ) -> Option<(u64, Option<u64>)>
        ensures some { IfSome result (λ r. (places.holds (map.get self.old.places g.number) ≡ Some r.0)
            × (r.1 ≡ places.first_wait_of (map.get self.old.places g.number))
            × (self.new ≡ machine.after_get_end g.number self.old)) }
        ensures none { IfNone result ((places.holds (map.get self.old.places g.number) ≡ None)
            × (self.new ≡ self.old)) }
        ensures numbers { self.old.next ≤ end_of_numbers }
        ensures examined { AddsReads 1 1 accesses.old accesses.new }
    {
        let Some(place) = self.slots.locate(g.number, g.place, accesses) else {
            return None;
        };
        let getting = self.slots.at(place, accesses).standing;
        match getting.place {
            GetPlace::Active | GetPlace::Waiting(_) => None,
            GetPlace::Holding(held) => {
                let _ = self.slots.release(place);
                self.alive -= 1;
                Some((held, getting.first_wait))
            }
        }
    }

    /// Returns the key of a get, None if it is not alive.
    pub fn find(&self, number: u64, accesses: &mut AccessCounter) -> Option<GetKey>
        ensures some { IfSome result (λ g. (g.number ≡ number)
            × IsSome (map.get self.now.places number)) }
        ensures none { IfNone result (map.get self.now.places number ≡ None) }
        ensures examined { AddsReads 0 1 accesses.old accesses.new }
    {
        match self.slots.locate(number, 0, accesses) {
            None => None,
            Some(place) => Some(GetKey { number, place }),
        }
    }

    /// Returns the state of a get, None if it is not alive.
    // Inlining saves 23 instructions of a waiting get.
    #[inline(always)]
    pub fn getting(&self, g: GetKey, accesses: &mut AccessCounter) -> Option<Getting>
        ensures value { result ≡ map.get self.now.places g.number }
        ensures examined { AddsReads 1 1 accesses.old accesses.new }
        ensures counted { min (accesses.old.reads + 1) end_of_numbers ≤ accesses.new.reads }
    {
        match self.slots.slot(g.number, g.place, accesses) {
            None => None,
            Some(slot) => Some(slot.standing),
        }
    }
}
