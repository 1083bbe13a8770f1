//! Tests of the live pool, which use public items only.
#![tactic(auto)]

#[cfg(test)]
mod tests;
