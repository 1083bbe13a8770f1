//! Runs a script of events over a pool: reads it from standard input and writes the results to
//! standard output; or runs it in threads, and writes the verdict of their journal. The message
//! about a bad line is written to standard error.
#![tactic(auto)]

ghost use Rattle.std.specs.Prelude.{◌≡◌, ◌≤◌, ℕ, IsErr, Ok, Some};
ghost use Rattle.bb8_runner.specs.declared.threads.arguments.Mode.TheVariants.{Threads};
ghost use Rattle.bb8_runner.specs.declared.verdict.Verdict.TheVariants.{Ran, Bad};

use bb8_runner::fault::Fault;
use bb8_runner::script::run_script;
use bb8_runner::threads::arguments::{Mode, arguments};
use bb8_runner::threads::script::run_threads;
use bb8_runner::verdict::Verdict;
use std::env::Env;
use std::io::ErrorKind;
use std::process::ExitCode;
use std::{env, io};

/// The exit status for arguments that the program does not take.
const BAD_ARGUMENTS: u8 = 2;

/// Returns the exit status: 0 if the script ran, 2 after a bad line, 3 if reading, writing or
/// memory failed.
fn status_of(outcome: &Result<Verdict, Fault>) -> u8
    ensures ran { outcome.now ≡ Ok Ran → result ≡ 0 }
    ensures bad { outcome.now ≡ Ok Bad → result ≡ 2 }
    ensures fault { IsErr outcome.now → result ≡ 3 }
{
    match outcome {
        Ok(Verdict::Ran) => 0,
        Ok(Verdict::Bad) => 2,
        Err(_) => 3,
    }
}

/// Returns the mode that the arguments ask for. None if the program does not take them, or one is
/// not text; `Memory` if memory for them was refused.
fn mode_of<R: Env + AllocGlobal>(rt: &R) -> Result<Option<Mode>, Fault>
    ensures threads { (n : ℕ) → result ≡ Ok (Some (Threads n)) → 1 ≤ n }
{
    match env::args(rt) {
        Ok(words) => {
            let words: Vec<String> = words.skip(1).collect(rt.alloc())?;
            Ok(arguments(&words))
        }
        Err(error) => match error.kind() {
            ErrorKind::OutOfMemory => Err(Fault::Memory),
            _ => Ok(None),
        },
    }
}

/// Exits with the status of the script's outcome; a fault is printed to standard error. The
/// arguments are checked before anything is read.
fn main(rt: HostRuntime) -> io::Result<ExitCode> {
    let alloc = rt.alloc();
    let outcome = match mode_of(&rt) {
        Ok(None) => {
            eprintln!(rt; "usage: bb8_script [threads N]")?;
            return Ok(ExitCode::from(BAD_ARGUMENTS));
        }
        Ok(Some(Mode::Script)) => {
            run_script(
                alloc,
                &mut rt.reader(),
                &mut io::writer(&rt),
                &mut rt.stderr(),
            )
        }
        Ok(Some(Mode::Threads(threads))) => run_threads(
            &rt,
            alloc,
            threads,
            &mut rt.reader(),
            &mut io::writer(&rt),
            &mut rt.stderr(),
        ),
        Err(fault) => Err(fault),
    };
    if let Err(fault) = &outcome {
        eprintln!(rt; "{fault}")?;
    }
    Ok(ExitCode::from(status_of(&outcome)))
}
