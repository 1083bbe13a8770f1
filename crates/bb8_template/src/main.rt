//! Threads that share a pool of connections.
#![tactic(auto)]

mod manager;
mod service;
#[cfg(test)]
mod tests;

use crate::manager::Manager;
use crate::service::Questions;
use bb8::{Blocking, Builder, MachineClock};
use std::io;
use std::process::ExitCode;

/// The number of threads that share the pool.
const THREADS: usize = 4;

fn main(rt: HostRuntime) -> io::Result<ExitCode> {
    let manager = Blocking(Manager);
    let outcome = Builder::new()
        .max_size(2)
        .serve(manager, MachineClock(rt), rt, THREADS, &Questions);
    match outcome {
        Ok(answered) => {
            println!(rt; "{answered} questions answered")?;
            Ok(ExitCode::SUCCESS)
        }
        Err(error) => {
            eprintln!(rt; "no pool: {error}")?;
            Ok(ExitCode::FAILURE)
        }
    }
}
