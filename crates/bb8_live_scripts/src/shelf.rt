//! The things that a script calls by number.

use std::alloc::{AllocError, Global};

/// How many numbers there are, from 0 on.
const NUMBERS: u8 = 16;

/// The things of a script, each under its number.
#[derive(Drop)]
pub struct Shelf<T: Drop> {
    things: Vec<Option<T>>,
}

impl<T: Drop> Shelf<T> {
    /// Returns an empty shelf.
    pub fn new(alloc: Global) -> Result<Shelf<T>, AllocError> {
        let mut things = Vec::new(alloc);
        for _ in 0..NUMBERS {
            things.push(None)?;
        }
        Ok(Shelf { things })
    }

    /// Puts a thing under this number, and drops the one that was there. None if there is no such
    /// number.
    pub fn put(&mut self, number: u64, thing: T) -> Option<()> {
        *self.things.get_mut(usize::try_from(number).ok()?)? = Some(thing);
        Some(())
    }

    /// Takes the thing out.
    pub fn take(&mut self, number: u64) -> Option<T> {
        self.things.get_mut(usize::try_from(number).ok()?)?.take()
    }

    pub fn get(&self, number: u64) -> Option<&T> {
        self.things.get(usize::try_from(number).ok()?)?.as_ref()
    }

    pub fn get_mut(&mut self, number: u64) -> Option<&mut T> {
        self.things.get_mut(usize::try_from(number).ok()?)?.as_mut()
    }
}
