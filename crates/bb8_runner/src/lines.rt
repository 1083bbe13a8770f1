//! The lines of a script.
ghost use Rattle.std.specs.Prelude.{◌≡◌, map, IfOk, IfErr, true, ◌==◌};
ghost use Rattle.std.specs.List.{slice_split};
ghost use Rattle.bb8_types.specs.Settings.{settings_of, is_lawful};
ghost use Rattle.bb8_runner.specs.Grammar.{event_of};
ghost use Rattle.bb8_runner.specs.Script.{without_line_feed, lines_of, Spells, IsEventFault, IsFault};
ghost use Rattle.bb8_runner.specs.declared.lines.NoScript.TheVariants.{Memory};

use crate::grammar::event_of;
use crate::settings::config_of;
use bb8_core::api::Config;
use bb8_core::replay::Event;
use std::alloc::{AllocError, AllocFailed, Global};

/// A configuration, and the events of a pool with it.
#[derive(Drop)]
pub struct Script {
    /// The configuration, from the first line.
    pub config: Config,
    /// The events, from the other lines.
    pub events: Vec<Event>,
}

/// Why the input is not a script.
#[derive(Clone, Copy)]
pub enum NoScript {
    /// Memory was refused.
    Memory,
    /// The number of the first bad line, counted from 1.
    BadLine(u64),
}

impl From<AllocError> for NoScript {
    ghost from_gives = { λ _ e. e ≡ Memory };

    fn from(_e: AllocError) -> NoScript {
        NoScript::Memory
    }
}

impl<T: Drop> From<AllocFailed<T>> for NoScript {
    ghost from_gives = { λ _ e. e ≡ Memory };

    fn from(_e: AllocFailed<T>) -> NoScript {
        NoScript::Memory
    }
}

/// Returns the input without its last line feed.
fn without_line_feed(input: &[u8]) -> &[u8]
    ensures { result.now ≡ without_line_feed input.now }
{
    if let Some((last, front)) = input.split_last() {
        if *last == b'\n' {
            return front;
        }
    }
    input
}

fn pieces_of(alloc: Global, input: &[u8]) -> Result<Vec<&[u8]>, AllocError>
    ensures { IfOk result (λ lines. map (λ x. x.now) lines.items ≡ slice_split
        (λ b. b == 10) input.now) }
{
    input.split(|b| *b == b'\n').collect(alloc)
}

/// Returns the lines of an input. A line feed ends each line, and may be missing after the last
/// one. An empty input is one empty line. The input is split as bytes, so bytes that are not text
/// make only their own line bad. Fails if memory is refused.
pub fn lines_of(alloc: Global, input: &[u8]) -> Result<Vec<&[u8]>, AllocError>
    ensures { IfOk result (λ lines. map (λ x. x.now) lines.items ≡ lines_of input.now) }
{
    pieces_of(alloc, without_line_feed(input))
}

fn events_of(alloc: Global, lines: &[&[u8]]) -> Result<Vec<Event>, NoScript>
    ensures read { IfOk result (λ events. map event_of
        (map (λ x. x.now) lines.now) ≡ map Some events.items) }
    ensures bad { IfErr result (λ e. IsEventFault (map (λ x. x.now) lines.now) e) }
{
    let mut events = Vec::new(alloc);
    let mut number = 2;
    for line in lines {
        let Some(event) = event_of(alloc, line)? else {
            return Err(NoScript::BadLine(number));
        };
        events.push(event)?;
        number += 1;
    }
    Ok(events)
}

/// Parses a script: a valid configuration, and one event per line. Fails if memory is refused, or
/// with the first bad line.
pub fn script_of(alloc: Global, lines: &[&[u8]]) -> Result<Script, NoScript>
    ensures lawful { IfOk result (λ s. is_lawful (settings_of s.config) ≡ true) }
    ensures read { IfOk result (λ s. Spells (map (λ x. x.now) lines.now)
        (settings_of s.config) s.events.items) }
    ensures bad { IfErr result (λ e. IsFault (map (λ x. x.now) lines.now) e) }
{
    let [first, others @ ..] = lines else {
        return Err(NoScript::BadLine(1));
    };
    let Some(config) = config_of(alloc, first)? else {
        return Err(NoScript::BadLine(1));
    };
    let events = events_of(alloc, others)?;
    Ok(Script { config, events })
}
