//! Runs transcripts: on the core, or on live pools, with a server that replies as the script says,
//! a clock that the script sets, and a driver that it turns. docs/SCRIPTS.md has the formats.
#![tactic(auto)]

use bb8::Runtime;
use bb8_runner::fault::Fault;
use bb8_runner::report::Report;
use bb8_runner::script::run_script;
use bb8_runner::streams::{Sink, Source};
use bb8_runner::transcripts::{Kind, transcripts_of};
use std::alloc::Global;
use std::{io, str};

mod answer;
mod asked;
mod ending;
mod laying;
mod play;
mod preparing;
mod shelf;

pub use answer::LineAnswer;

/// Returns the output for a script of the core.
fn replay(alloc: Global, script: &str) -> Result<Vec<u8>, Fault> {
    let mut reader = script.as_bytes();
    let mut written = Vec::new(alloc);
    let _ = run_script(alloc, &mut reader, &mut written, &mut io::sink())?;
    Ok(written)
}

/// Reads all transcripts, runs them, and writes the outcome.
pub fn run<R: Runtime, I: Source, W: Sink>(
    rt: R,
    reader: &mut I,
    writer: &mut W,
) -> Result<Report, Fault> {
    let alloc = rt.alloc();
    let input = reader.read_whole(alloc)?;
    let Ok(text) = str::from_utf8(input.as_slice()) else {
        return Err(Fault::Read);
    };
    let mut report = Report::new(alloc);
    for transcript in transcripts_of(alloc, text)?.iter() {
        let script = transcript.script.as_str();
        match transcript.kind {
            Kind::Core => report.add(transcript, replay(alloc, script)?.as_slice())?,
            Kind::Live => report.add(transcript, laying::play(rt, script)?.as_bytes())?,
            Kind::NotRun => report.pass(),
        }
    }
    report.write(alloc, writer)?;
    Ok(report)
}
