//! A script run from bytes to bytes, in threads.
ghost use Rattle.std.specs.Prelude.{◌≡◌, ◌≢◌, ◌⊎◌, ◌<◌, true, List, ℕ, Ok, IfOk, IfSome, IfErr, IsErrOf, string_bytes};
ghost use Rattle.bb8_runner.specs.Words.{Appends, settings_of, is_lawful, Verdict, Bad};
ghost use Rattle.bb8_runner.specs.Errors.{IsErrorText};
ghost use Rattle.bb8_runner.specs.Threads.{IsThreadsAnswer, IsDealtText};

use crate::errors::error_at;
use crate::fault::Fault;
use crate::lines::{NoScript, Script, lines_of, script_of};
use crate::script::explain;
use crate::streams::{Sink, Source};
use crate::text::bad_line;
use crate::threads::dealing::deal;
use crate::threads::text::dealt_text;
use crate::verdict::Verdict;
use bb8_core::api::Moment;
use bb8_journal::journal::audit;
use std::alloc::Global;
use std::marker::Brand;
use std::sync::Wait;
use std::sync::ledger::Blank;
use std::thread::Threads;

/// Returns the output of a script that is dealt to threads.
fn report_of<H: Threads + Wait + Sync>(
    rt: &H,
    alloc: Global,
    threads: u8,
    script: &Script,
) -> Result<String, Fault>
    requires lawful { is_lawful (settings_of script.now.config) ≡ true }
    requires some { 0 < threads }
    ensures reported { IfOk result (λ text.
        IsDealtText (settings_of script.now.config) (string_bytes text)) }
    ensures fault { IfErr result (λ e. e ≡ Fault.Memory) }
{
    let blank = Blank::new(threads as u64);
    let seats = threads as usize;
    let mut dealt = deal::<H, Brand>(rt, alloc, script.config, blank, seats, &script.events)?;
    let audited = audit(&dealt.entries, &dealt.notes);
    // No moment is earlier than the first, so this is the state at the latest one.
    let last = dealt.pool.state(Moment(0));
    Ok(dealt_text(alloc, dealt.entries.len(), audited, last)?)
}

/// Returns the output for an input, and the message about its first bad line.
fn answer<H: Threads + Wait + Sync>(
    rt: &H,
    alloc: Global,
    threads: u8,
    input: &[u8],
) -> Result<(Verdict, String, String), Fault>
    requires some { 0 < threads }
    ensures reported { IfOk result (λ x. IsThreadsAnswer input.now x.0 (string_bytes x.1)) }
    ensures error { IfOk result (λ x. x.0 ≡ Bad → IsErrorText input.now (string_bytes x.2)) }
    ensures fault { IfErr result (λ e. e ≡ Fault.Memory) }
{
    let lines = lines_of(alloc, input)?;
    match script_of(alloc, lines.as_slice()) {
        Ok(script) => {
            let text = report_of(rt, alloc, threads, &script)?;
            Ok((Verdict::Ran, text, String::new(alloc)))
        }
        Err(NoScript::BadLine(number)) => {
            let error = error_at(alloc, lines.as_slice(), number)?;
            Ok((Verdict::Bad, bad_line(alloc, number)?, error))
        }
        Err(NoScript::Memory) => Err(Fault::Memory),
    }
}

/// Reads a script to its end and deals its events to threads over one journal: event i, from 0,
/// goes to thread i mod `threads`. Writes the count of the history's entries, whether the threads'
/// notes account for it, and the final state; or the number of the first bad line, and to `errors`
/// a message about it. A failed write to `errors` is ignored.
///
/// Fails with `Read` if a read fails, `Write` if a write fails, `Memory` if memory is refused, for
/// an entry too. Nothing is written before the whole input has been read and parsed, so only after
/// `Write` the beginning of the output may have been written.
pub fn run_threads<H: Threads + Wait + Sync, R: Source, W: Sink, E: Sink>(
    rt: &H,
    alloc: Global,
    threads: u8,
    reader: &mut R,
    writer: &mut W,
    errors: &mut E,
) -> Result<Verdict, Fault>
    requires some { 0 < threads }
    // The output is the answer to the input.
    ensures reported { IfOk result (λ verdict. IfSome (R.remaining reader.old) (λ input.
        (text : List ℕ) × IsThreadsAnswer input verdict text
        × Appends (W.contents writer.old) (W.contents writer.new) text)) }
    // `Read` is returned only if a read failed.
    ensures read_failed { IsErrOf result Fault.Read → R.read_fails reader.old reader.new }
    // If a read failed, nothing was written.
    ensures unread { IsErrOf result Fault.Read → writer.new ≡ writer.old }
    // `Write` is returned only if writing the answer to the input failed.
    ensures write_failed { IsErrOf result Fault.Write → ((text : List ℕ)
        × W.write_fails writer.old text writer.new
        × IfSome (R.remaining reader.old) (λ input.
        (verdict : Verdict) × IsThreadsAnswer input verdict text)) }
    // If memory was refused, nothing was written.
    ensures unanswered { IsErrOf result Fault.Memory → writer.new ≡ writer.old }
    // The message about the first bad line was written to `errors`, or this write failed.
    ensures explained { result ≡ Ok Bad → IfSome (R.remaining reader.old) (λ input.
        (text : List ℕ) × IsErrorText input text
        × (Appends (E.contents errors.old) (E.contents errors.new) text
        ⊎ E.write_fails errors.old text errors.new)) }
    // If no line is bad, nothing was written to `errors`.
    ensures silent { result ≢ Ok Bad → errors.new ≡ errors.old }
{
    let input = reader.read_whole(alloc)?;
    let (verdict, text, error) = answer(rt, alloc, threads, input.as_slice())?;
    writer.write_whole(text.as_bytes())?;
    explain(verdict, error.as_bytes(), errors);
    Ok(verdict)
}
