//! An error sink that prints.
ghost use Rattle.std.specs.Prelude.{◌≡◌};
ghost use Rattle.bb8.specs.Printing.{line_text};

use bb8_core::api::ErrorSink;
use std::fmt;

/// An error of a named pool, as one line: the name, a colon, and the error as it displays.
#[derive(Clone, Copy, Debug)]
pub struct ErrorLine<'a, E> {
    /// The name of the pool or server that the error belongs to.
    pub name: &'a str,
    /// The error.
    pub error: &'a E,
}

impl<E: fmt::Display> fmt::Display for ErrorLine<'_, E> {
    ghost output = { λ line. line_text line.name.now (E.output line.error.now) };

    fn fmt<W: fmt::Write>(&self, f: &mut fmt::Formatter<W>) -> fmt::Result {
        write!(f, "{}: {}", self.name, self.error)
    }
}

/// Prints each error to standard error, as an `ErrorLine`. One that cannot be written is dropped.
/// bb8 leaves the sink to the user.
///
/// The name is that of the pool or of its server. The manager's error may say which connection
/// attempt or check failed.
#[derive(Clone, Copy, Debug)]
pub struct PrintingSink<R> {
    /// The runtime that prints.
    pub rt: R,
    /// The name of the pool or server.
    pub name: &'static str,
}

impl<E: fmt::Display + Drop, R: Eprint + Send + Sync + Drop + 'static> ErrorSink<E>
    for PrintingSink<R> {
    fn sink(&self, error: E) {
        let line = ErrorLine {
            name: self.name,
            error: &error,
        };
        let _ = self.rt.eprintln(line);
    }
}
