//! Runs a script of events on a pool, also in threads over one journal.
#![tactic(auto)]

mod errors;
pub mod fault;
pub mod grammar;
mod laws;
pub mod lines;
pub mod report;
pub mod script;
mod settings;
pub mod streams;
pub mod text;
pub mod threads;
pub mod transcripts;
pub mod verdict;
