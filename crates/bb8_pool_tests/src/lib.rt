//! Tests of pools, which use public items only: services, drivers, job runners, threads that wait,
//! and memory that is refused.
#![tactic(auto)]

#[cfg(test)]
mod tests;
