//! Parses a script, runs it, and writes its results.
ghost use Rattle.std.specs.Prelude.{◌≡◌, ◌≢◌, ◌⊎◌, List, ℕ, Ok, IfOk, IfSome, IfErr, IsErrOf, string_bytes};
ghost use Rattle.bb8_runner.specs.Words.{Appends, Verdict, Ran, Bad};
ghost use Rattle.bb8_runner.specs.Errors.{IsErrorText};
ghost use Rattle.bb8_runner.specs.Script.{IsAnswer};

use crate::errors::error_at;
use crate::fault::Fault;
use crate::lines::{NoScript, lines_of, script_of};
use crate::streams::{Sink, Source};
use crate::text::{bad_line, output};
use crate::verdict::Verdict;
use bb8_core::api::Moment;
use bb8_core::replay::replay;
use std::alloc::Global;

/// Returns the output for an input, and the message about its first bad line.
fn answer(alloc: Global, input: &[u8]) -> Result<(Verdict, String, String), Fault>
    ensures reported { IfOk result (λ x. IsAnswer input.now x.0 (string_bytes x.1)) }
    ensures error { IfOk result (λ x. x.0 ≡ Bad → IsErrorText input.now (string_bytes x.2)) }
    ensures fault { IfErr result (λ e. e ≡ Fault.Memory) }
{
    let lines = lines_of(alloc, input)?;
    match script_of(alloc, lines.as_slice()) {
        Ok(script) => {
            let (answers, mut pool) = replay(alloc, script.config, script.events.as_slice())?;
            // No moment is earlier than the first, so this is the state at the latest one.
            let text = output(alloc, answers.as_slice(), pool.state(Moment(0)))?;
            Ok((Verdict::Ran, text, String::new(alloc)))
        }
        Err(NoScript::BadLine(number)) => {
            let error = error_at(alloc, lines.as_slice(), number)?;
            Ok((Verdict::Bad, bad_line(alloc, number)?, error))
        }
        Err(NoScript::Memory) => Err(Fault::Memory),
    }
}

/// Writes the message about a bad line. A failed write is ignored: the output is written already.
pub fn explain<E: Sink>(verdict: Verdict, error: &[u8], errors: &mut E)
    ensures bad { verdict ≡ Bad → Appends (E.contents errors.old) (E.contents errors.new) error.now
        ⊎ E.write_fails errors.old error.now errors.new }
    ensures ran { verdict ≡ Ran → errors.new ≡ errors.old }
{
    match verdict {
        Verdict::Ran => {}
        Verdict::Bad => {
            let _ = errors.write_whole(error);
        }
    }
}

/// Reads a script to its end, runs it, and writes the results and the final state; or the number of
/// the first bad line, and to `errors` a message about it. A failed write to `errors` is ignored.
///
/// Fails with `Read` if a read fails, `Write` if a write fails, `Memory` if a list cannot grow.
/// Nothing is written before the whole input has been read and parsed, so only after `Write` the
/// beginning of the output may have been written. bb8 has no scripts.
pub fn run_script<R: Source, W: Sink, E: Sink>(
    alloc: Global,
    reader: &mut R,
    writer: &mut W,
    errors: &mut E,
) -> Result<Verdict, Fault>
    // The output is the answer to the input.
    ensures reported { IfOk result (λ verdict. IfSome (R.remaining reader.old) (λ input.
        (text : List ℕ) × IsAnswer input verdict text
        × Appends (W.contents writer.old) (W.contents writer.new) text)) }
    // `Read` is returned only if a read failed.
    ensures read_failed { IsErrOf result Fault.Read → R.read_fails reader.old reader.new }
    // If a read failed, nothing was written.
    ensures unread { IsErrOf result Fault.Read → writer.new ≡ writer.old }
    // `Write` is returned only if writing the answer to the input failed.
    ensures write_failed { IsErrOf result Fault.Write
        → ((text : List ℕ) × W.write_fails writer.old text writer.new
        × IfSome (R.remaining reader.old)
        (λ input. (verdict : Verdict) × IsAnswer input verdict text)) }
    // If memory was refused, nothing was written.
    ensures unanswered { IsErrOf result Fault.Memory → writer.new ≡ writer.old }
    // The message about the first bad line was written to `errors`, or this write failed.
    ensures explained { result ≡ Ok Bad → IfSome (R.remaining reader.old) (λ input.
        (text : List ℕ) × IsErrorText input text
        × (Appends (E.contents errors.old) (E.contents errors.new) text
        ⊎ E.write_fails errors.old text errors.new)) }
    // If no line is bad, nothing was written to `errors`.
    ensures silent { result ≢ Ok Bad → errors.new ≡ errors.old }
{
    let input = reader.read_whole(alloc)?;
    let (verdict, text, error) = answer(alloc, input.as_slice())?;
    writer.write_whole(text.as_bytes())?;
    explain(verdict, error.as_bytes(), errors);
    Ok(verdict)
}
