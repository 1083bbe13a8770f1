//! Runs scripts with expected results. Standard input has transcripts: each is a title and a script
//! of the core, or of a live pool, with its expected results. For each one that differs it writes
//! the title, the line, the expected and the found result to standard output; at the end the number
//! of transcripts. docs/SCRIPTS.md has the formats.
#![tactic(auto)]

use bb8_live_scripts::run;
use bb8_runner::report::status_of;
use std::io;
use std::process::ExitCode;

#[cfg(test)]
mod tests;

/// Exits with the status of the run; a fault is printed to standard error.
fn main(rt: HostRuntime) -> io::Result<ExitCode> {
    let came = run(rt, &mut rt.reader(), &mut io::writer(&rt));
    if let Err(fault) = &came {
        eprintln!(rt; "{fault}")?;
    }
    Ok(ExitCode::from(status_of(&came)))
}
