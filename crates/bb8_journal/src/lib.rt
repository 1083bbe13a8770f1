//! The steps of several threads on one pool: a history that can be replayed, and its audit.
#![tactic(auto)]

pub mod journal;
