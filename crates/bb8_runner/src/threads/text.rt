//! The output of a script that threads ran.
ghost use Rattle.std.specs.Prelude.{◌≡◌, IfOk, string_bytes};
ghost use Rattle.bb8_runner.specs.Words.{figures_of};
ghost use Rattle.bb8_runner.specs.Threads.{dealt_text};

use crate::text::output;
use bb8_core::api::State;
use std::alloc::{AllocError, Global};
use std::fmt::Write;

/// Returns the count of entries, the result of the audit, and the state line. Fails if memory is
/// refused.
pub fn dealt_text(
    alloc: Global,
    entries: usize,
    audited: bool,
    last: State,
) -> Result<String, AllocError>
    ensures { IfOk result (λ text.
        string_bytes text ≡ dealt_text entries audited (figures_of last)) }
{
    let mut text = String::new(alloc);
    writeln!(text, "entries {entries}")?;
    let audit = if audited { "audit yes" } else { "audit no" };
    writeln!(text, "{audit}")?;
    let state = output(alloc, &[], last)?;
    write!(text, "{state}")?;
    Ok(text)
}
