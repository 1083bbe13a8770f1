//! The steps of several threads on one pool: the history of all events, kept under one lock with
//! the state that results.

mod audits;
mod entries;
mod lists;
mod same;
mod seats;
mod shared;

pub use audits::audit;
pub use entries::{Entry, Journal, NoRoom, Recorded};
pub use seats::{Notes, Seat};
pub use shared::SharedJournal;
