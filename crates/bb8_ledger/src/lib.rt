//! The ledger of a pool: the history of its events, and what follows from it. The only code is one
//! law, that of the worked rows.
#![tactic(auto)]

pub mod rows;
