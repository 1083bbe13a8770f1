//! A ring buffer that allocates only when it grows.
ghost use Rattle.std.specs.Prelude.{◌≡◌, ◌≤◌, ◌<◌, ◌++◌, ◌∷◌, [], length, slice_get, drop, OnOk, OnErr};
ghost use Rattle.circular_buffer.specs.Buffer.{buffer};
ghost use Rattle.bb8_tables.specs.Closed.{offered};

use circular_buffer::HeapCircularBuffer;
use std::alloc::{AllocError, Global};
use std::marker::Model;

/// A queue of items. Contracts see a buffer of items with a capacity.
#[derive(Drop)]
pub struct Ring<T> {
    alloc: Global,
    made: Option<HeapCircularBuffer<T>>,
}

impl<T> Model for Ring<T> {
    ghost use Rattle.std.specs.Prelude.{unwrap_or, []};
    ghost use Rattle.circular_buffer.specs.Buffer.{Buffer, buffer};

    ghost Value = { Buffer T };

    ghost view = { λ a. unwrap_or a.made (buffer [] 0) };
}

impl<T: Drop> Ring<T> {
    /// Returns an empty ring. It allocates nothing.
    pub fn new(alloc: Global) -> Self
        ensures { result ≡ buffer [] 0 }
    {
        Ring { alloc, made: None }
    }

    /// Returns an empty ring with the same allocator. It allocates nothing.
    pub fn another<U: Drop>(&self) -> Ring<U>
        ensures { result ≡ buffer [] 0 }
    {
        Ring::new(self.alloc)
    }

    /// Grows to a capacity of this many items.
    pub fn grow(&mut self, capacity: usize) -> Result<(), AllocError>
        requires { length self.old.items ≤ capacity }
        ensures ok { OnOk result (self.new ≡ buffer self.old.items capacity) }
        ensures err { OnErr result (self.new ≡ self.old) }
    {
        match &mut self.made {
            Some(ring) => ring.resize(capacity),
            None => {
                let ring = HeapCircularBuffer::with_capacity(self.alloc, capacity)?;
                self.made = Some(ring);
                Ok(())
            }
        }
    }

    /// Adds an item at the back. There must be capacity for it.
    pub fn push(&mut self, item: T)
        requires { length self.old.items < self.old.capacity }
        ensures { self.new ≡ buffer (self.old.items ++ item ∷ []) self.old.capacity }
    {
        self.offer(item);
    }

    /// Adds an item at the back if there is capacity for it; otherwise drops it.
    pub fn offer(&mut self, item: T)
        ensures { self.new ≡ offered item self.old }
    {
        if let Some(ring) = &mut self.made {
            let _ = ring.try_push_back(item);
        }
    }

    /// Removes the item at the front.
    pub fn pop(&mut self) -> Option<T>
        ensures value { result ≡ slice_get self.old.items 0 }
        ensures items { self.new ≡ buffer (drop 1 self.old.items) self.old.capacity }
    {
        match &mut self.made {
            Some(ring) => ring.pop_front(),
            None => None,
        }
    }

    /// Returns the count of items.
    pub fn len(&self) -> usize
        ensures items { result ≡ length self.now.items }
        ensures room { result ≤ self.now.capacity }
    {
        match &self.made {
            Some(ring) => ring.len(),
            None => 0,
        }
    }
}
