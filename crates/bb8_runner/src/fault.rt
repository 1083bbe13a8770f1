//! The errors of a script run.
ghost use Rattle.std.specs.Prelude.{◌≡◌, Some};
ghost use Rattle.bb8_runner.specs.Script.{fault_text};
ghost use Rattle.bb8_runner.specs.declared.fault.Fault.TheVariants.{Memory};

use bb8_core::api;
use std::alloc::AllocError;
use std::fmt;

/// Why nothing was written, or not everything.
#[derive(Clone, Copy, Debug, PartialEq, Eq)]
pub enum Fault {
    /// A read failed.
    Read,
    /// A write failed. The beginning of the output may have been written.
    Write,
    /// Memory for the lists was refused.
    Memory,
}

impl fmt::Display for Fault {
    ghost output = { λ fault. Some (fault_text fault) };

    fn fmt<W: fmt::Write>(&self, f: &mut fmt::Formatter<W>) -> fmt::Result {
        match self {
            Fault::Read => write!(f, "cannot read"),
            Fault::Write => write!(f, "cannot write"),
            Fault::Memory => write!(f, "no memory"),
        }
    }
}

impl From<AllocError> for Fault {
    ghost from_gives = { λ _ e. e ≡ Memory };

    fn from(_e: AllocError) -> Fault {
        Fault::Memory
    }
}

impl From<api::Memory> for Fault {
    ghost from_gives = { λ _ e. e ≡ Memory };

    fn from(_e: api::Memory) -> Fault {
        Fault::Memory
    }
}
