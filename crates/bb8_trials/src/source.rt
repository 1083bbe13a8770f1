//! Numbers that look random and are the same in each run.
ghost use Rattle.std.specs.Prelude.{◌<◌, IfSome};

use std::sync::atomic::{AtomicU64, Ordering};

/// How far the state moves at each number: 2 to the power of 64, divided by the golden ratio, made
/// odd.
const STRIDE: u64 = 0x9e37_79b9_7f4a_7c15;

/// A sequence of numbers that its seed determines, by the rule `splitmix64`. If threads share one,
/// the schedule decides who draws which number. Not for secrets.
#[derive(Drop)]
pub struct RandomSource {
    state: AtomicU64,
}

impl RandomSource {
    /// Returns the sequence of this seed, from its beginning.
    pub fn new(seed: u64) -> RandomSource {
        RandomSource {
            state: AtomicU64::new(seed),
        }
    }

    /// Returns the next number of the sequence, of 64 bits.
    pub fn next(&self) -> u64 {
        let state = self.state.fetch_add(STRIDE, Ordering::SeqCst);
        let first = state.wrapping_add(STRIDE);
        let second = (first ^ (first >> 30)).wrapping_mul(0xbf58_476d_1ce4_e5b9);
        let third = (second ^ (second >> 27)).wrapping_mul(0x94d0_49bb_1331_11eb);
        third ^ (third >> 31)
    }

    /// Returns the next number, reduced below `bound`. Returns 0 and draws none if `bound` is 0.
    pub fn below(&self, bound: u64) -> u64 {
        if bound == 0 {
            return 0;
        }
        self.next() % bound
    }

    /// Returns an index into a list of this length. Returns None and draws no number if it is
    /// empty.
    pub fn index(&self, length: usize) -> Option<usize>
        ensures { IfSome result (λ index. index < length) }
    {
        match usize::try_from(self.below(length as u64)) {
            Ok(index) if index < length => Some(index),
            _ => None,
        }
    }
}
