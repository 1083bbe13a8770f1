//! A table of numbered entries, with a queue of some of them.
ghost use Rattle.std.specs.Prelude.{◌≡◌, ◌≢◌, ℕ, List, ◌+◌, ◌<◌, ◌≤◌, min, IsSome, IfSome, IfNone, OnOk, OnErr, Some, None, option_copied, [], slice_get, length, ◌++◌, ◌∷◌, false};
ghost use Rattle.bb8_tables.specs.declared.table.Slot.{Slot};
ghost use Rattle.bb8_types.specs.declared.standing.Standing.{Standing};
ghost use Rattle.bb8_types.specs.declared.standing.Getting.{Getting};
ghost use Rattle.bb8_types.specs.Bounds.{end_of_numbers};
ghost use Rattle.bb8_types.specs.Places.{get_in_wait, get_with_place, with_place, first_place};
ghost use Rattle.bb8_tables.specs.Machine.{without};
ghost use Rattle.bb8_tables.specs.TableView.{slot_at, filled, freed, Restands};
ghost use Rattle.bb8_tables.specs.Spelled.{Absent};
ghost use Rattle.bb8_tables.specs.AccessCount.{counts_read, counts_search, AddsReads};

mod accesses;

use crate::line::Line;
pub use accesses::{AccessCounter, LatestAccesses, UncountedAccess};
use bb8_types::api::QueueStrategy;
use bb8_types::bounds::END_OF_NUMBERS;
use bb8_types::standing::{GetPlace, Getting, Place, Standing};
use std::alloc::{AllocError, Global};
use std::marker::Model;
use std::mem;

/// A table entry: a number and its state.
#[derive(Drop)]
pub struct Slot<S> {
    /// The number.
    pub number: u64,
    /// The state.
    pub standing: S,
}

/// The most free entries that are added beyond those requested.
const MOST_AT_ONCE: usize = 64;

/// The content of a free entry.
pub trait Vacant {
    /// Returns a state that is never seen.
    fn vacant() -> Self;
}

impl<C> Vacant for Standing<C> {
    fn vacant() -> Self {
        Standing {
            place: Place::Unclaimed,
            birth: 0,
            entered: 0,
        }
    }
}

impl Vacant for Getting {
    fn vacant() -> Self {
        Getting {
            place: GetPlace::Active,
            first_wait: None,
        }
    }
}

/// A table of entries by index. `line` is a queue of some of them; `births` orders connections by
/// birth. Freed indexes are reused, the last one first. Index 0 is never used: it marks the ends of
/// both lists.
#[derive(Drop)]
pub struct Table<S> {
    slots: Vec<Slot<S>>,
    line: Line,
    births: Line,
    free: Vec<u32>,
}

impl<S> Model for Table<S> {
    ghost use Rattle.bb8_tables.specs.TableView.{TableView};
    ghost use Rattle.bb8_tables.specs.declared.table.Slot.{Slot};

    ghost Value = { TableView (Slot S) };

    ghost use Rattle.bb8_tables.specs.Tables.{view_of_table, IsGoodTable};

    ghost view = { view_of_table };

    ghost invariant = { IsGoodTable };
}

impl<S: Drop> Table<S> {
    /// Returns an empty table, which allocates nothing, and the permission to read it without
    /// counting the access.
    pub fn new(alloc: Global) -> (Self, UncountedAccess)
        ensures { result.0 ≡ record { slots = []; line = []; births = []; free = 0 } }
    {
        let table = Table {
            slots: Vec::new(alloc),
            line: Line::new(alloc),
            births: Line::new(alloc),
            free: Vec::new(alloc),
        };
        (table, UncountedAccess::given())
    }

    /// Fills a free entry and returns its index. There must be one.
    #[inline]
    pub fn insert(&mut self, slot: Slot<S>) -> usize
        requires free { 0 < self.old.free }
        requires number { slot.number < end_of_numbers }
        ensures vacant { slot_at self.old result ≡ None }
        ensures within { result < length self.old.slots }
        ensures state { self.new ≡ filled result slot self.old }
        ensures room { self.new.free + 1 ≡ self.old.free }
    {
        match self.free.pop() {
            // Unreachable: one is free.
            None => 0,
            Some(place) => {
                self.slots[place as usize] = slot;
                place as usize
            }
        }
    }

    /// Returns the entry at an index if it has this number.
    #[inline]
    fn found(&self, number: u64, at: usize) -> Option<&Slot<S>>
        ensures some { IfSome (option_copied result)
            (λ x. (slot_at self.now at ≡ Some x) × (x.number ≡ number)) }
        ensures none { IfNone (option_copied result)
            ((x : Slot S) → slot_at self.now at ≡ Some x → x.number ≢ number) }
    {
        let Some(slot) = self.slots.get(at) else {
            return None;
        };
        if slot.number == number && number != END_OF_NUMBERS {
            Some(slot)
        } else {
            None
        }
    }

    /// Searches all entries for a number and returns its index. The search is counted.
    #[cold]
    fn search(&self, number: u64, accesses: &mut AccessCounter) -> Option<usize>
        ensures some { IfSome result (λ i. (x : Slot S) × (slot_at self.now i ≡ Some x)
            × (x.number ≡ number)) }
        ensures none { IfNone result ((i : ℕ) (x : Slot S) → slot_at self.now i ≡ Some x
            → x.number ≢ number) }
        ensures counted { accesses.new ≡ counts_search accesses.old }
    {
        accesses.search();
        for i in 0..self.slots.len() {
            if let Some(_) = self.found(number, i) {
                return Some(i);
            }
        }
        None
    }

    /// Returns the index of a number: the hint if it is right, else the result of a counted search.
    #[inline]
    pub fn locate(&self, number: u64, hint: usize, accesses: &mut AccessCounter) -> Option<usize>
        ensures some { IfSome result (λ i. (x : Slot S) × (slot_at self.now i ≡ Some x)
            × (x.number ≡ number)) }
        ensures none { IfNone result ((i : ℕ) (x : Slot S) → slot_at self.now i ≡ Some x
            → x.number ≢ number) }
        ensures right { (x : Slot S) → slot_at self.now hint ≡ Some x → x.number ≡ number
            → accesses.new ≡ accesses.old }
        ensures stale { ((x : Slot S) → slot_at self.now hint ≡ Some x → x.number ≢ number)
            → accesses.new ≡ counts_search accesses.old }
        ensures searched { AddsReads 0 1 accesses.old accesses.new }
        ensures reads { accesses.new.reads ≡ accesses.old.reads }
    {
        match self.found(number, hint) {
            Some(_) => Some(hint),
            None => self.search(number, accesses),
        }
    }

    /// Returns the entry with a number, by a counted search.
    #[cold]
    fn sought(&self, number: u64, accesses: &mut AccessCounter) -> Option<&Slot<S>>
        ensures some { IfSome (option_copied result)
            (λ x. (i : ℕ) × (slot_at self.now i ≡ Some x) × (x.number ≡ number)) }
        ensures none { IfNone (option_copied result)
            ((i : ℕ) (x : Slot S) → slot_at self.now i ≡ Some x → x.number ≢ number) }
        ensures counted { accesses.new ≡ counts_search accesses.old }
    {
        match self.search(number, accesses) {
            None => None,
            Some(place) => self.found(number, place),
        }
    }

    /// Returns the entry with a number: at the hint if that is right, else by a counted search.
    /// Reads one entry.
    #[inline]
    pub fn slot(&self, number: u64, hint: usize, accesses: &mut AccessCounter) -> Option<&Slot<S>>
        ensures some { IfSome (option_copied result)
            (λ x. (i : ℕ) × (slot_at self.now i ≡ Some x) × (x.number ≡ number)) }
        ensures none { IfNone (option_copied result)
            ((i : ℕ) (x : Slot S) → slot_at self.now i ≡ Some x → x.number ≢ number) }
        ensures right { (x : Slot S) → slot_at self.now hint ≡ Some x → x.number ≡ number
            → accesses.new ≡ counts_read accesses.old }
        ensures stale { ((x : Slot S) → slot_at self.now hint ≡ Some x → x.number ≢ number)
            → accesses.new ≡ counts_search (counts_read accesses.old) }
        ensures searched { AddsReads 1 1 accesses.old accesses.new }
        ensures reads { accesses.new.reads ≡ min (accesses.old.reads + 1) end_of_numbers }
    {
        accesses.count_read();
        match self.found(number, hint) {
            Some(slot) => Some(slot),
            None => self.sought(number, accesses),
        }
    }

    /// Returns the entry at an index. Reads one entry.
    #[inline]
    pub fn at(&self, place: usize, accesses: &mut AccessCounter) -> &Slot<S>
        requires stands { IsSome (slot_at self.now place) }
        ensures value { slot_at self.now place ≡ Some result.now }
        ensures examined { accesses.new ≡ counts_read accesses.old }
    {
        accesses.count_read();
        &self.slots[place]
    }

    /// Returns the length of the queue.
    #[inline]
    pub fn len(&self) -> usize
        ensures { result ≡ length self.now.line }
    {
        self.line.len()
    }

    /// Returns the index at the front of the queue.
    #[inline]
    pub fn first(&self) -> Option<usize>
        ensures { result ≡ slice_get self.now.line 0 }
    {
        self.line.first()
    }

    /// Returns the index at the front of the queue (`Fifo`) or at its back (`Lifo`).
    #[inline]
    pub fn first_by(&self, strategy: QueueStrategy) -> Option<usize>
        ensures { result ≡ slice_get self.now.line
            (first_place strategy (length self.now.line)) }
    {
        match strategy {
            QueueStrategy::Fifo => self.line.first(),
            QueueStrategy::Lifo => self.line.last(),
        }
    }

    /// Adds an index at the back of the queue.
    #[inline]
    pub fn line_up(&mut self, place: usize)
        requires stands { IsSome (slot_at self.old place) }
        requires absent { Absent place self.old.line }
        ensures { self.new ≡ record self.old { line = self.old.line ++ place ∷ [] } }
    {
        self.line.push(place);
    }

    /// Returns the length of the order of births.
    #[inline]
    pub fn births(&self) -> usize
        ensures { result ≡ length self.now.births }
    {
        self.births.len()
    }

    /// Returns the index of the oldest connection.
    #[inline]
    pub fn first_birth(&self) -> Option<usize>
        ensures { result ≡ slice_get self.now.births 0 }
    {
        self.births.first()
    }

    /// Returns the entry at an index, and the next index in the order of births. Reads one entry
    /// for both.
    #[inline]
    pub fn pass(&self, place: usize, accesses: &mut AccessCounter) -> (&Slot<S>, Option<usize>)
        requires member { (j : ℕ) × (slice_get self.now.births j ≡ Some place) }
        requires stands { IsSome (slot_at self.now place) }
        ensures value { slot_at self.now place ≡ Some result.0.now }
        ensures next { (passed rest : List ℕ) → self.now.births ≡ passed ++ place ∷ rest
            → result.1 ≡ slice_get rest 0 }
        ensures examined { accesses.new ≡ counts_read accesses.old }
    {
        let next = self.births.next(place);
        (self.at(place, accesses), next)
    }

    /// Adds an index at the back of the order of births.
    #[inline]
    pub fn add_birth(&mut self, place: usize)
        requires stands { IsSome (slot_at self.old place) }
        requires absent { Absent place self.old.births }
        ensures { self.new ≡ record self.old { births = self.old.births ++ place ∷ [] } }
    {
        self.births.push(place);
    }

    /// Removes an index that is in the queue.
    #[inline]
    pub fn leave(&mut self, place: usize)
        requires stands { IsSome (slot_at self.old place) }
        requires member { (j : ℕ) × (slice_get self.old.line j ≡ Some place) }
        ensures { self.new ≡ record self.old { line = without place self.old.line } }
    {
        self.line.leave(place);
    }

    /// Removes an index from the queue if it is in it.
    #[inline]
    pub fn step_out(&mut self, place: usize)
        requires { IsSome (slot_at self.old place) }
        ensures { self.new ≡ record self.old { line = without place self.old.line } }
    {
        self.line.unlink(place);
    }

    /// Replaces the state at an index and returns the old one.
    #[inline]
    pub fn replace(&mut self, place: usize, standing: S, accesses: &mut AccessCounter) -> S
        requires stands { IsSome (slot_at self.old place) }
        ensures value { (x : Slot S) → slot_at self.old place ≡ Some x → result ≡ x.standing }
        ensures changed { Restands self.old self.new place (λ _. standing) }
        ensures examined { accesses.new ≡ counts_read accesses.old }
    {
        accesses.count_read();
        mem::replace(&mut self.slots[place].standing, standing)
    }
}

impl<S: Drop + Vacant> Table<S> {
    /// Frees an entry, removes it from both orders, and returns it.
    pub fn take_out(&mut self, place: usize) -> Slot<S>
        requires { IsSome (slot_at self.old place) }
        ensures value { (x : Slot S) → slot_at self.old place ≡ Some x → result ≡ x }
        ensures state { self.new ≡ freed place self.old }
    {
        self.step_out(place);
        self.release(place)
    }

    /// Frees an entry that is not in the queue, and returns it.
    // Inlining saves 20 instructions of a pair.
    #[inline(always)]
    pub fn release(&mut self, place: usize) -> Slot<S>
        requires stands { IsSome (slot_at self.old place) }
        requires absent { Absent place self.old.line }
        ensures value { (x : Slot S) → slot_at self.old place ≡ Some x → result ≡ x }
        ensures state { self.new ≡ freed place self.old }
    {
        self.births.unlink(place);
        self.free.push_reserved(place as u32);
        let vacant = Slot {
            number: END_OF_NUMBERS,
            standing: S::vacant(),
        };
        mem::replace(&mut self.slots[place], vacant)
    }

    /// Allocates for this many more entries.
    fn grow(&mut self, additional: usize) -> Result<(), AllocError>
        ensures { self.new ≡ self.old }
    {
        // The largest first, so that little is kept if memory is refused.
        self.slots.reserve(additional)?;
        self.line.reserve(additional)?;
        self.births.reserve(additional)?;
        self.free.reserve(additional)
    }

    /// Adds an empty entry. It is free, except for the one at index 0.
    // Inlining saves 22 instructions of a waiting get.
    #[inline(always)]
    fn add_place(&mut self) -> Result<(), AllocError>
        ensures ok { OnOk result (self.new ≡ record self.old {
          slots = self.old.slots ++ None ∷ [];
          free = self.old.free + min 1 (length self.old.slots);
        }) }
        ensures err { OnErr result (self.new ≡ self.old) }
    {
        let place = self.slots.len();
        self.free
            .reserve((place + 1).saturating_sub(self.free.len()))?;
        self.slots.reserve(1)?;
        self.line.add_place()?;
        self.births.add_place()?;
        self.slots.push_reserved(Slot {
            number: END_OF_NUMBERS,
            standing: S::vacant(),
        });
        if place > 0 {
            self.free.push_reserved(place as u32);
        }
        Ok(())
    }

    /// Adds this many free entries. If memory is refused, some of them may have been added.
    fn add_places(&mut self, count: usize) -> Result<(), AllocError>
        ensures room { OnOk result (self.old.free + count ≤ self.new.free) }
        ensures more { self.old.free ≤ self.new.free }
        ensures kept { (i : ℕ) → slot_at self.new i ≡ slot_at self.old i }
        ensures line { self.new.line ≡ self.old.line }
        ensures births { self.new.births ≡ self.old.births }
    {
        self.grow(count.saturating_add(1))?;
        if self.slots.is_empty() {
            self.add_place()?;
        }
        for _ in 0..count {
            self.add_place()?;
        }
        Ok(())
    }

    /// Makes sure that this many entries are free. If there are fewer, those missing are added; or,
    /// if that is more, as many as the table has, up to `MOST_AT_ONCE`, so that most calls allocate
    /// nothing. If that memory is refused, only those missing are added.
    pub fn reserve(&mut self, additional: usize) -> Result<(), AllocError>
        ensures room { OnOk result (additional ≤ self.new.free) }
        ensures more { self.old.free ≤ self.new.free }
        ensures kept { (i : ℕ) → slot_at self.new i ≡ slot_at self.old i }
        ensures line { self.new.line ≡ self.old.line }
        ensures births { self.new.births ≡ self.old.births }
    {
        let missing = additional.saturating_sub(self.free.len());
        if missing == 0 {
            return Ok(());
        }
        let spare = self.slots.len().min(MOST_AT_ONCE);
        if self.add_places(missing.max(spare)).is_ok() {
            return Ok(());
        }
        let missing = additional.saturating_sub(self.free.len());
        self.add_places(missing)
    }
}

impl<C: Drop> Table<Standing<C>> {
    /// Changes the state of the record at an index, and returns its number and its old state.
    #[inline]
    pub fn put(
        &mut self,
        at: usize,
        place: Place<C>,
        accesses: &mut AccessCounter,
    ) -> (u64, Place<C>)
        requires stands { IsSome (slot_at self.old at) }
        ensures number { (x : Slot (Standing C)) → slot_at self.old at ≡ Some x
            → result.0 ≡ x.number }
        ensures value { (x : Slot (Standing C)) → slot_at self.old at ≡ Some x
            → result.1 ≡ x.standing.place }
        ensures changed { Restands self.old self.new at (with_place place) }
        ensures examined { accesses.new ≡ counts_read accesses.old }
    {
        accesses.count_read();
        let slot = &mut self.slots[at];
        (slot.number, mem::replace(&mut slot.standing.place, place))
    }
}

impl Table<Getting> {
    /// Changes the state of the get at an index, and returns its number.
    #[inline]
    pub fn turn(&mut self, at: usize, place: GetPlace, accesses: &mut AccessCounter) -> u64
        requires stands { IsSome (slot_at self.old at) }
        ensures number { (x : Slot Getting) → slot_at self.old at ≡ Some x → result ≡ x.number }
        ensures changed { Restands self.old self.new at (get_with_place place) }
        ensures examined { accesses.new ≡ counts_read accesses.old }
    {
        accesses.count_read();
        let slot = &mut self.slots[at];
        slot.standing.place = place;
        slot.number
    }

    /// Makes the get at an index wait, since `now` if it did not wait before.
    #[inline]
    pub fn wait(&mut self, at: usize, now: u64, accesses: &mut AccessCounter)
        requires stands { IsSome (slot_at self.old at) }
        ensures changed { Restands self.old self.new at (get_in_wait now) }
        ensures examined { accesses.new ≡ counts_read accesses.old }
    {
        accesses.count_read();
        let standing = &mut self.slots[at].standing;
        *standing = Getting {
            place: GetPlace::Waiting(false),
            first_wait: Some(standing.first_wait.unwrap_or(now)),
        };
    }
}
