//! Counts the table entries that a step reads, and its searches.
ghost use Rattle.std.specs.Prelude.{◌≡◌};
ghost use Rattle.bb8_tables.specs.AccessCount.{no_accesses, after_count, counts_read, counts_search};

use std::marker::Model;

/// The access counter of one step: the table entries that it reads, and its searches of a table.
///
/// Each read or change of an entry counts, whether it is found by its index, along a queue or by
/// its number. Exceptions: the entry's creation and removal, and the linking of its neighbours. A
/// stale hint costs a search.
///
/// It is not `Drop`, so a step cannot throw one away. It must end it in its state's
/// `LatestAccesses`, which counts the ends.
pub struct AccessCounter {
    reads: u64,
    searched: u64,
}

impl Model for AccessCounter {
    ghost use Rattle.bb8_tables.specs.AccessCount.{AccessCount};

    ghost Value = { AccessCount };

    ghost view = { λ a. record { ended = 0; reads = a.reads; searched = a.searched } };
}

/// What the latest step counted, and how many counters ended so far: if one more did, the step made
/// no other. Outside this file only an `UncountedAccess` makes a value, so a step has no other than
/// that of its state.
#[derive(Drop)]
pub struct LatestAccesses {
    ended: u64,
    reads: u64,
    searched: u64,
}

impl Model for LatestAccesses {
    ghost use Rattle.bb8_tables.specs.AccessCount.{AccessCount};

    ghost Value = { AccessCount };

    ghost view = { λ a. record { ended = a.ended; reads = a.reads; searched = a.searched } };
}

/// Permission to drop a counter, and so to read the tables without counting. Only the module of
/// tables creates it, with each new table. A step does not know the type of the one in its state,
/// so it cannot use it.
#[derive(Drop)]
pub struct UncountedAccess {
    given: (),
}

impl UncountedAccess {
    /// Returns the permission, for a new table.
    #[inline]
    pub(super) fn given() -> Self {
        UncountedAccess { given: () }
    }

    /// Returns the count before the first step.
    #[inline]
    pub fn latest(&self) -> LatestAccesses
        ensures { result ≡ no_accesses }
    {
        LatestAccesses {
            ended: 0,
            reads: 0,
            searched: 0,
        }
    }

    /// Drops a counter.
    #[inline]
    pub fn forget(&self, accesses: AccessCounter) {
        let AccessCounter {
            reads: _,
            searched: _,
        } = accesses;
    }
}

impl LatestAccesses {
    /// Ends the counter of a step. The number of ended counters wraps.
    #[inline]
    pub fn end(&mut self, accesses: AccessCounter)
        ensures { self.new ≡ after_count accesses self.old }
    {
        let AccessCounter { reads, searched } = accesses;
        self.ended = self.ended.wrapping_add(1);
        self.reads = reads;
        self.searched = searched;
    }

    /// Ends the counter of a step that does not fit, which is rare. Inlined, it costs other steps
    /// two instructions.
    #[cold]
    #[inline(never)]
    pub fn end_unfit(&mut self, accesses: AccessCounter)
        ensures { self.new ≡ after_count accesses self.old }
    {
        self.end(accesses);
    }

    /// Returns how many entries the latest step read.
    #[inline]
    pub fn reads(&self) -> u64
        ensures { result ≡ self.now.reads }
    {
        self.reads
    }

    /// Returns how often the latest step searched.
    #[inline]
    pub fn searched(&self) -> u64
        ensures { result ≡ self.now.searched }
    {
        self.searched
    }
}

impl AccessCounter {
    /// A counter at zero.
    pub const NONE: Self = AccessCounter {
        reads: 0,
        searched: 0,
    };

    /// Counts one more entry.
    #[inline]
    pub(super) fn count_read(&mut self)
        ensures { self.new ≡ counts_read self.old }
    {
        if self.reads < u64::MAX {
            self.reads += 1;
        }
    }

    /// Counts one search more.
    #[inline]
    pub(super) fn search(&mut self)
        ensures { self.new ≡ counts_search self.old }
    {
        if self.searched < u64::MAX {
            self.searched += 1;
        }
    }
}
