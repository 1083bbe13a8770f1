//! The report on transcripts that were run.

use crate::fault::Fault;
use crate::streams::Sink;
use crate::transcripts::Transcript;
use std::alloc::Global;
use std::{fmt, str};

/// The exit status if a transcript has other results than expected.
const DIFFERENT: u8 = 1;

/// The exit status if reading, writing or memory failed, or the input is not text.
const FAULT: u8 = 3;

/// An expected or a found line, or none.
#[derive(Clone, Copy)]
struct Said<'a>(Option<&'a str>);

impl fmt::Display for Said<'_> {
    fn fmt<W: fmt::Write>(&self, f: &mut fmt::Formatter<W>) -> fmt::Result {
        match self.0 {
            Some(text) => write!(f, "\"{text}\""),
            None => write!(f, "nothing"),
        }
    }
}

/// The outcome of transcripts.
#[derive(Drop)]
pub struct Report {
    /// One line for each transcript with other results than expected.
    pub reported: String,
    /// How many were run.
    pub transcripts: u64,
    /// How many results they expect.
    pub answers: u64,
    /// How many were not run.
    pub not_run: u64,
    /// How many of those run have other results than expected.
    pub different: u64,
}

impl Report {
    /// Returns the report on no transcripts.
    pub fn new(alloc: Global) -> Report {
        Report {
            reported: String::new(alloc),
            transcripts: 0,
            answers: 0,
            not_run: 0,
            different: 0,
        }
    }

    /// Counts a transcript that is not run.
    pub fn pass(&mut self) {
        self.not_run = self.not_run.saturating_add(1);
    }

    /// Counts a transcript that was run, and compares the output of its script.
    pub fn add(&mut self, transcript: &Transcript<'_>, written: &[u8]) -> Result<(), Fault> {
        let Ok(written) = str::from_utf8(written) else {
            return Err(Fault::Read);
        };
        self.transcripts = self.transcripts.saturating_add(1);
        self.answers = self.answers.saturating_add(transcript.wanted.len() as u64);
        self.compare(transcript, written)
    }

    /// Writes the differences and the totals.
    pub fn write<W: Sink>(&self, alloc: Global, writer: &mut W) -> Result<(), Fault> {
        writer.write_whole(self.reported.as_bytes())?;
        let sums = format!(in alloc; "{self}\n")?;
        writer.write_whole(sums.as_bytes())?;
        Ok(())
    }

    /// Reports the first output line that is not the expected one.
    fn compare(&mut self, transcript: &Transcript<'_>, written: &str) -> Result<(), Fault> {
        let title = transcript.title;
        let mut lines = written.split_terminator('\n');
        for wanted in transcript.wanted.iter() {
            let found = lines.next();
            if !found.is_some_and(|line| line == wanted.text) {
                return self.tell(title, wanted.line, Said(Some(wanted.text)), Said(found));
            }
        }
        match lines.next() {
            Some(line) => self.tell(title, transcript.last, Said(None), Said(Some(line))),
            None => Ok(()),
        }
    }

    fn tell(
        &mut self,
        title: &str,
        line: u64,
        wanted: Said<'_>,
        found: Said<'_>,
    ) -> Result<(), Fault> {
        self.different = self.different.saturating_add(1);
        writeln!(
            self.reported,
            "line {line}, {title}: wanted {wanted}, found {found}"
        )?;
        Ok(())
    }
}

impl fmt::Display for Report {
    fn fmt<W: fmt::Write>(&self, f: &mut fmt::Formatter<W>) -> fmt::Result {
        let Report {
            transcripts,
            answers,
            not_run,
            different,
            ..
        } = self;
        write!(
            f,
            "transcripts {transcripts} answers {answers} not run {not_run} different {different}"
        )
    }
}

/// Returns the exit status for a report.
pub fn status_of(came: &Result<Report, Fault>) -> u8 {
    match came {
        Ok(report) if report.different == 0 => 0,
        Ok(_) => DIFFERENT,
        Err(_) => FAULT,
    }
}
