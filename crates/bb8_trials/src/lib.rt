//! Helpers of tests of live pools. With them a test's body needs neither conditions nor proofs.
//!
//! A test uses its pool by a handle (`LentHandle`, `OwnedHandle`, `Unbuilt`) whose calls have no
//! clauses. A `Server` opens, checks and breaks connections as its `Board` says. A `RandomSource`
//! returns the same numbers in each run.
#![tactic(auto)]

mod board;
mod handle;
mod source;

pub use board::{
    ALWAYS, ARMED, Board, Course, Errors, LOOKS, Number, OPEN, OneTurn, Refused, SECOND, Server,
    ServerBuilder, ServerConnection, ServerPool, WAITING, builder_on, connection_on, server_on,
};
pub use handle::{
    Either, LentHandle, OwnedHandle, Polled, Unbuilt, cancel_either, poll_either, sizes,
};
pub use source::RandomSource;
