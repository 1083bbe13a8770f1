//! Messages about bad lines.
ghost use Rattle.std.specs.Prelude.{◌≡◌, ◌-◌, [], map, slice_index_or, if◌then◌else◌, Some, None, IfOk, option_map, string_bytes};
ghost use Rattle.bb8_runner.specs.Words.{list_all};
ghost use Rattle.bb8_runner.specs.Errors.{line_error, is_printable, error_text};

use crate::grammar::{Message, event_of_fields, fields_of};
use crate::settings::config_of_fields;
use std::alloc::{AllocError, Global};
use std::str;

/// Returns the message about a line with these fields, an empty one if they are good.
#[tactic(auto, unfolding(crate::specs::Errors::line_error))]
fn line_error<'a>(number: u64, fields: &[&'a str]) -> Message<'a>
    ensures { (result.0.now, result.1.now) ≡ line_error number (map (λ x. x.now) fields.now) }
{
    let error = if number == 1 {
        config_of_fields(fields).err()
    } else {
        event_of_fields(fields).err()
    };
    error.unwrap_or(("", ""))
}

fn is_printable(bytes: &[u8]) -> bool
    ensures { result ≡ list_all is_printable bytes.now }
{
    bytes.iter().all(|b| *b == b' ' || b.is_ascii_graphic())
}

/// Returns the line as text, if all its bytes can be printed.
fn printable(line: &[u8]) -> Option<&str>
    ensures { option_map (λ x. x.now) result
        ≡ (if list_all is_printable line.now then Some line.now else None) }
{
    let Ok(text) = str::from_utf8(line) else {
        return None;
    };
    is_printable(line).then_some(text)
}

/// Returns the message about a bad line. Fails if memory is refused.
fn error_text(alloc: Global, number: u64, line: &[u8]) -> Result<String, AllocError>
    ensures { IfOk result (λ text. string_bytes text ≡ error_text number line.now) }
{
    let Some(text) = printable(line) else {
        return format!(in alloc; "line {number}: expected printable ASCII\n");
    };
    let fields = fields_of(alloc, text)?;
    let (what, word) = line_error(number, fields.as_slice());
    format!(in alloc; "line {number}: {what} \"{word}\"\n")
}

/// Returns the message about the line of this number, counted from 1. Fails if memory is refused.
pub fn error_at(alloc: Global, lines: &[&[u8]], number: u64) -> Result<String, AllocError>
    ensures { IfOk result (λ text. string_bytes text ≡ error_text number
        (slice_index_or (map (λ x. x.now) lines.now) (number - 1) [])) }
{
    match lines.get(number.saturating_sub(1) as usize) {
        Some(line) => error_text(alloc, number, line),
        None => error_text(alloc, number, b""),
    }
}
