//! Tests of the core of a connection pool, and of the crates on it that need no live pool: tasks
//! polled one by one, journals of threads' steps, and scripts.
#![tactic(auto)]

#[cfg(test)]
mod tests;
