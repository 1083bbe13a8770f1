//! The result of a script's line.

use crate::asked::Facts;
use bb8::{AddError, RunError, State, Turn};
use bb8_trials::{Polled, Refused, ServerConnection};
use futures::task::Poll;
use std::fmt;

/// The result of a line.
#[derive(Clone, Copy)]
pub enum LineAnswer {
    /// Nothing is written.
    Done,
    /// The line is unknown, or does not fit.
    Unfit,
    Pending,
    /// The connection of this number.
    Served(u64),
    Built,
    /// No connection was available at once.
    Nothing,
    TimedOut,
    Refused(u64),
    Memory,
    Exhausted,
    /// The connection of a dedicated attempt or of a guard.
    Connection(Facts),
    Added,
    /// A refused add returns its connection.
    Broken(u64),
    Full(u64),
    Withheld(u64),
    Turned(Turn),
    State(State),
    Sizes(State),
    Gets(State),
    Number(u64),
    Yes,
    No,
}

impl fmt::Display for LineAnswer {
    fn fmt<W: fmt::Write>(&self, f: &mut fmt::Formatter<W>) -> fmt::Result {
        match self {
            LineAnswer::Done | LineAnswer::State(_) => Ok(()),
            LineAnswer::Unfit => write!(f, "unfit"),
            LineAnswer::Pending => write!(f, "pending"),
            LineAnswer::Served(number) => write!(f, "served {number}"),
            LineAnswer::Built => write!(f, "built"),
            LineAnswer::Nothing => write!(f, "none"),
            LineAnswer::TimedOut => write!(f, "timed out"),
            LineAnswer::Refused(number) => write!(f, "refused {number}"),
            LineAnswer::Memory => write!(f, "memory"),
            LineAnswer::Exhausted => write!(f, "exhausted"),
            LineAnswer::Connection((number, checks, field)) => {
                write!(f, "connection {number} checks {checks} field {field}")
            }
            LineAnswer::Added => write!(f, "added"),
            LineAnswer::Broken(number) => write!(f, "broken {number}"),
            LineAnswer::Full(number) => write!(f, "full {number}"),
            LineAnswer::Withheld(number) => write!(f, "withheld {number}"),
            LineAnswer::Turned(turn) => {
                let word = if turn.ended { "ended, " } else { "" };
                write!(f, "{word}polled {}", turn.polled)
            }
            LineAnswer::Sizes(state) => {
                write!(f, "{} idle {}", state.connections, state.idle_connections)
            }
            LineAnswer::Gets(State { statistics, .. }) => {
                let (pending, completed) = (statistics.pending_gets(), statistics.completed_gets());
                let waited = statistics.get_wait_time.as_nanos();
                write!(
                    f,
                    "pending {pending} completed {completed} waited {waited} ns"
                )
            }
            LineAnswer::Number(number) => write!(f, "{number}"),
            LineAnswer::Yes => write!(f, "yes"),
            LineAnswer::No => write!(f, "no"),
        }
    }
}

/// Returns the result that shows an error.
pub fn error_of(error: RunError<Refused>) -> LineAnswer {
    match error {
        RunError::User(Refused(number)) => LineAnswer::Refused(number),
        RunError::TimedOut => LineAnswer::TimedOut,
        RunError::Memory => LineAnswer::Memory,
        RunError::Exhausted => LineAnswer::Exhausted,
    }
}

/// Returns the result that shows a poll without a connection.
pub fn poll_of(polled: Polled<(), Refused>) -> LineAnswer {
    match polled {
        Poll::Pending => LineAnswer::Pending,
        Poll::Ready(Ok(())) => LineAnswer::Built,
        Poll::Ready(Err(error)) => error_of(error),
    }
}

/// Returns why an add was refused, and its connection.
pub fn refusal_of(error: AddError<ServerConnection>) -> (LineAnswer, ServerConnection) {
    match error {
        AddError::Broken(connection) => (LineAnswer::Broken(connection.number), connection),
        AddError::NoCapacity(connection) => (LineAnswer::Full(connection.number), connection),
        AddError::Withheld(connection) => (LineAnswer::Withheld(connection.number), connection),
    }
}
