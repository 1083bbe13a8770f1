//! The core of a connection pool: the state behind the lock, its steps, and replays of events.
#![tactic(auto)]

pub use bb8_types::api;

mod answers;
pub mod handing;
pub mod internals;
pub mod replay;
