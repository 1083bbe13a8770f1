//! The arguments of the program.
ghost use Rattle.std.specs.Prelude.{◌≡◌, ◌≤◌, ℕ, Some, map, string_bytes};
ghost use Rattle.bb8_runner.specs.Words.{Threads};
ghost use Rattle.bb8_runner.specs.Arguments.{threads_of, arguments_of};

use crate::grammar::number;

/// How a script is run.
#[derive(Clone, Copy, Debug, PartialEq, Eq)]
pub enum Mode {
    /// One event after the other, with all results.
    Script,
    /// In this many threads, from 1 to 64, over one journal.
    Threads(u8),
}

/// Returns this many threads, None if they are not from 1 to 64.
fn threads_of(count: u64) -> Option<Mode>
    ensures { result ≡ threads_of count }
{
    match u8::try_from(count) {
        Ok(count @ 1..=64) => Some(Mode::Threads(count)),
        _ => None,
    }
}

/// Parses the words after the program's name: none, or `threads` and a number from 1 to 64, written
/// as in a script. Returns None for any others.
pub fn arguments(words: &[String]) -> Option<Mode>
    ensures mode { result ≡ arguments_of (map string_bytes words.now) }
    ensures threads { (n : ℕ) → result ≡ Some (Threads n) → (1 ≤ n) × (n ≤ 64) }
{
    match words {
        [] => Some(Mode::Script),
        [word, count] => {
            if word.as_str() != "threads" {
                return None;
            }
            threads_of(number(count.as_str())?)
        }
        _ => None,
    }
}
