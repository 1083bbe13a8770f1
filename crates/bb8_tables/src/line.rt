//! A doubly linked list of table indexes. An index is added at the back, and can be removed from
//! anywhere.
#![tactic(auto, using(crate::proofs::Linked::reads))]

ghost use Rattle.std.specs.Prelude.{◌≡◌, ℕ, List, ◌+◌, ◌-◌, ◌<◌, ◌≤◌, ◌++◌, ◌∷◌, [], length, slice_get, Some, OnOk, OnErr};
ghost use Rattle.std.specs.Vec.{vec_len};
ghost use Rattle.bb8_tables.specs.Ordered.{Ordered, most_places, after_of, before_of, JoinsAt};
ghost use Rattle.bb8_tables.specs.Spelled.{Absent};
ghost use Rattle.bb8_tables.specs.Machine.{without};

use std::alloc::{AllocError, Global};
use std::marker::Model;

/// The indexes before and after one.
#[derive(Clone, Copy)]
struct Link {
    before: u32,
    after: u32,
}

/// The index that marks both ends.
const END: u32 = 0;

/// The links of all indexes.
#[derive(Drop)]
struct Links {
    entries: Vec<Link>,
}

/// An ordered list of some of the indexes from 1 on. An index that is not in it links to itself.
#[derive(Drop)]
pub struct Line {
    links: Links,
    len: usize,
}

impl Model for Line {
    ghost use Rattle.bb8_tables.specs.Ordered.{Ordered, view_of, IsGood};

    ghost Value = { Ordered };

    ghost view = { view_of };

    ghost invariant = { IsGood };
}

impl Links {
    /// Adds an index that links to itself.
    fn append(&mut self, place: u32) -> Result<(), AllocError>
        requires { place ≡ vec_len self.old.entries }
        ensures after { (i : ℕ) → after_of self.new.entries.items i
            ≡ after_of self.old.entries.items i }
        ensures before { (i : ℕ) → before_of self.new.entries.items i
            ≡ before_of self.old.entries.items i }
        ensures more { OnOk result (vec_len self.new.entries ≡ vec_len self.old.entries + 1) }
        ensures same { OnErr result (vec_len self.new.entries ≡ vec_len self.old.entries) }
    {
        let link = Link {
            before: place,
            after: place,
        };
        match self.entries.push(link) {
            Ok(()) => Ok(()),
            Err(_) => Err(AllocError),
        }
    }

    /// Links two indexes: `right` follows `left`.
    #[inline]
    fn join(&mut self, left: u32, right: u32)
        requires left { left < vec_len self.old.entries }
        requires right { right < vec_len self.old.entries }
        ensures joins { JoinsAt self.old.entries.items self.new.entries.items left right }
        ensures len { vec_len self.new.entries ≡ vec_len self.old.entries }
    {
        let entries = self.entries.as_mut_slice();
        entries[left as usize].after = right;
        entries[right as usize].before = left;
    }
}

impl Line {
    /// Returns an empty list. It allocates nothing.
    pub fn new(alloc: Global) -> Self
        ensures { result ≡ record { size = 0; places = [] } }
    {
        Line {
            links: Links {
                entries: Vec::new(alloc),
            },
            len: 0,
        }
    }

    /// Allocates for this many more indexes.
    pub fn reserve(&mut self, additional: usize) -> Result<(), AllocError>
        ensures { self.new ≡ self.old }
    {
        self.links.entries.reserve(additional)
    }

    /// Adds one more index, which is not in the list yet.
    pub fn add_place(&mut self) -> Result<(), AllocError>
        ensures ok { OnOk result (self.new ≡ record self.old { size = self.old.size + 1 }) }
        ensures few { OnOk result (self.new.size ≤ most_places) }
        ensures err { OnErr result (self.new ≡ self.old) }
    {
        let place = self.links.entries.len();
        if place > u32::MAX as usize {
            return Err(AllocError);
        }
        self.links.append(place as u32)
    }

    /// Returns the length of the list.
    #[inline]
    pub fn len(&self) -> usize
        ensures { result ≡ length self.now.places }
    {
        self.len
    }

    /// Returns the index at the front, which was added first.
    #[inline]
    pub fn first(&self) -> Option<usize>
        ensures { result ≡ slice_get self.now.places 0 }
    {
        if self.len == 0 {
            return None;
        }
        Some(self.links.entries[END as usize].after as usize)
    }

    /// Returns the index at the back, which was added last.
    #[inline]
    pub fn last(&self) -> Option<usize>
        ensures { result ≡ slice_get self.now.places (length self.now.places - 1) }
    {
        if self.len == 0 {
            return None;
        }
        Some(self.links.entries[END as usize].before as usize)
    }

    /// Returns the index after one that is in the list.
    #[inline]
    pub fn next(&self, place: usize) -> Option<usize>
        requires { (j : ℕ) × (slice_get self.now.places j ≡ Some place) }
        ensures { (passed rest : List ℕ) → self.now.places ≡ passed ++ place ∷ rest
            → result ≡ slice_get rest 0 }
    {
        let next = self.links.entries[place].after;
        if next == END {
            return None;
        }
        Some(next as usize)
    }

    /// Adds an index at the back.
    #[inline]
    pub fn push(&mut self, place: usize)
        requires within { place < self.old.size }
        requires apart { 0 < place }
        requires absent { Absent place self.old.places }
        ensures { self.new ≡ record self.old { places = self.old.places ++ place ∷ [] } }
    {
        let last = self.links.entries[END as usize].before;
        self.links.join(last, place as u32);
        self.links.join(place as u32, END);
        self.len += 1;
    }

    /// Removes an index that is in the list.
    #[inline]
    pub fn leave(&mut self, place: usize)
        requires member { (j : ℕ) × (slice_get self.old.places j ≡ Some place) }
        requires apart { 0 < place }
        ensures { self.new ≡ record self.old { places = without place self.old.places } }
    {
        let _links = &self.links;
        let at = place as u32;
        let link = self.links.entries[at as usize];
        self.links.join(link.before, link.after);
        self.links.join(at, at);
        self.len -= 1;
    }

    /// Removes an index if it is in the list.
    #[inline]
    pub fn unlink(&mut self, place: usize)
        requires within { place < self.old.size }
        requires apart { 0 < place }
        ensures { self.new ≡ record self.old { places = without place self.old.places } }
    {
        let _links = &self.links;
        let at = place as u32;
        let link = self.links.entries[at as usize];
        if link.after != at {
            self.links.join(link.before, link.after);
            self.links.join(at, at);
            self.len -= 1;
        }
    }
}
