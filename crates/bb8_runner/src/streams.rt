//! The source of a script, and the sink of its output.
//!
//! With Rattle's own traits an error says nothing about the call that failed (*streams* in
//! docs/TOOLCHAIN.md). These traits have a relation that each implementer chooses: generic code can
//! state that an error comes from a failed call, and a body that makes no call cannot prove it.
ghost use Rattle.std.specs.Prelude.{◌≡◌, ◌≢◌, ℕ, List, Option, ⊤, OnOk, IfOk, IfSome, IfErr, IsErr, IsErrOf};
ghost use Rattle.std.specs.Io.KnownBytes.{Appends, IsAtEnd};

use crate::fault::Fault;
use std::alloc::Global;
use std::io::{ErrorKind, Read, Write};

/// The source of a script: every `Read` is one.
pub trait Source {
    // The bytes left, if they are known.
    ghost remaining: { Self → Option (List ℕ) };

    // Relates the states of the source before and after a failed read.
    ghost read_fails: { Self → Self → Type 0 };

    /// Reads everything that is left. Fails with `Read` if a read fails, `Memory` if memory is
    /// refused.
    fn read_whole(&mut self, alloc: Global) -> Result<Vec<u8>, Fault>
        ensures bytes { IfOk result (λ input. IfSome (remaining self.old)
            (λ bytes. input.items ≡ bytes)) }
        ensures end { OnOk result (IsAtEnd (remaining self.new)) }
        ensures failed { IsErrOf result Fault.Read → read_fails self.old self.new }
        ensures reads { IfErr result (λ e. e ≢ Fault.Write) };
}

/// The sink of output: every `Write` is one.
pub trait Sink {
    // The bytes written so far, if they are known.
    ghost contents: { Self → Option (List ℕ) };

    // Relates the states of the sink before and after a failed write of these bytes.
    ghost write_fails: { Self → List ℕ → Self → Type 0 };

    /// Writes all the bytes. Fails with `Write` if a write fails.
    fn write_whole(&mut self, bytes: &[u8]) -> Result<(), Fault>
        ensures bytes { OnOk result (Appends (contents self.old) (contents self.new) bytes.now) }
        ensures failed { IsErr result → write_fails self.old bytes.now self.new }
        ensures writes { IfErr result (λ e. e ≡ Fault.Write) };
}

impl<R: Read> Source for R {
    ghost remaining = { R.remaining };

    ghost read_fails = { λ _ _. ⊤ };

    fn read_whole(&mut self, alloc: Global) -> Result<Vec<u8>, Fault> {
        let mut input = Vec::new(alloc);
        match self.read_to_end(&mut input) {
            Ok(_) => Ok(input),
            Err(error) => Err(match error.kind() {
                ErrorKind::OutOfMemory => Fault::Memory,
                _ => Fault::Read,
            }),
        }
    }
}

impl<W: Write> Sink for W {
    ghost contents = { W.contents };

    ghost write_fails = { λ _ _ _. ⊤ };

    fn write_whole(&mut self, bytes: &[u8]) -> Result<(), Fault> {
        self.write_all(bytes).map_err(|_| Fault::Write)
    }
}
