//! Tables, queues and counters of a pool's state. Nothing here depends on the ledger.
#![tactic(auto)]

pub mod closed;
pub mod counters;
pub mod gets;
pub mod keys;
mod line;
pub mod records;
pub mod ring;
mod table;

pub use table::{AccessCounter, LatestAccesses, UncountedAccess};
