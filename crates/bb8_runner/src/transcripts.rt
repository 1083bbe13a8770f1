//! The transcripts of a file: scripts with the expected results.

use std::alloc::{AllocError, Global};

/// How a transcript is run.
#[derive(Clone, Copy)]
pub enum Kind {
    /// On the core alone.
    Core,
    /// On a pool with a server, a clock and a driver.
    Live,
    /// It is only counted.
    NotRun,
}

/// The kind of a line of the file.
#[derive(Clone, Copy)]
enum Line<'a> {
    /// An empty line, or a comment.
    Comment,
    /// The title of a transcript of this kind.
    Title(&'a str, Kind),
    /// A line of the script without a result of its own.
    Script(&'a str),
    /// A line of the script, and its result.
    Answered(&'a str, &'a str),
    /// A result after those of the script's lines.
    Answer(&'a str),
}

impl<'a> Line<'a> {
    fn of(text: &'a str) -> Line<'a> {
        if text.is_empty() || text.starts_with('#') {
            Line::Comment
        } else if let Some(title) = text.strip_prefix("== ") {
            Line::Title(title, Kind::Core)
        } else if let Some(title) = text.strip_prefix(":: ") {
            Line::Title(title, Kind::Live)
        } else if let Some(title) = text.strip_prefix("~~ ") {
            Line::Title(title, Kind::NotRun)
        } else if let Some(answer) = text.strip_prefix("| ") {
            Line::Answer(answer)
        } else if let Some((line, answer)) = text.split_once(" | ") {
            Line::Answered(line.trim_end_matches(' '), answer)
        } else {
            Line::Script(text)
        }
    }
}

/// An expected result, and the number of its line in the file.
#[derive(Clone, Copy)]
pub struct Wanted<'a> {
    pub line: u64,
    pub text: &'a str,
}

/// A script, and its expected output.
#[derive(Drop)]
pub struct Transcript<'a> {
    pub title: &'a str,
    pub kind: Kind,
    pub script: String,
    pub wanted: Vec<Wanted<'a>>,
    /// The number of its last line in the file.
    pub last: u64,
}

impl<'a> Transcript<'a> {
    fn new(alloc: Global, title: &'a str, kind: Kind, line: u64) -> Transcript<'a> {
        Transcript {
            title,
            kind,
            script: String::new(alloc),
            wanted: Vec::new(alloc),
            last: line,
        }
    }

    /// Adds a line of the file that is not a title.
    fn take(&mut self, number: u64, line: Line<'a>) -> Result<(), AllocError> {
        match line {
            Line::Title(..) | Line::Comment => return Ok(()),
            Line::Script(text) => self.add_line(text)?,
            Line::Answered(text, answer) => {
                self.add_line(text)?;
                self.want(number, answer)?;
            }
            Line::Answer(answer) => self.want(number, answer)?,
        }
        self.last = number;
        Ok(())
    }

    fn add_line(&mut self, text: &str) -> Result<(), AllocError> {
        self.script.push_str(text)?;
        self.script.push('\n')
    }

    fn want(&mut self, line: u64, text: &'a str) -> Result<(), AllocError> {
        Ok(self.wanted.push(Wanted { line, text })?)
    }
}

/// Returns the transcripts of a file. Lines before the first title are ignored.
pub fn transcripts_of(alloc: Global, text: &str) -> Result<Vec<Transcript<'_>>, AllocError> {
    let mut transcripts = Vec::new(alloc);
    let mut number: u64 = 0;
    for text in text.split_terminator('\n') {
        number = number.saturating_add(1);
        let line = Line::of(text);
        if let Line::Title(title, kind) = line {
            transcripts.push(Transcript::new(alloc, title, kind, number))?;
        } else if let Some(transcript) = transcripts.last_mut() {
            transcript.take(number, line)?;
        }
    }
    Ok(transcripts)
}
