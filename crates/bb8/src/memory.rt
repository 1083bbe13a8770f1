//! Turns a refusal of memory into `RunError`.
ghost use Rattle.std.specs.Prelude.{◌≡◌, IfOk, IfErr, Ok, Err};
ghost use Rattle.bb8_types.specs.declared.api.errors.RunError.TheVariants as errors;

use crate::jobs::NoThread;
use bb8_core::api::{Memory, RunError};

impl From<NoThread> for Memory {
    /// No thread could be started, which is treated like refused memory.
    fn from(_: NoThread) -> Memory {
        Memory
    }
}

/// `call.or_memory()?` passes a refusal of memory on, in a function that returns `RunError`. There
/// a plain `?` would treat the error as the manager's own.
pub trait OrMemory {
    /// The result of a call that was not refused.
    type Value;

    /// Returns the value, or `RunError::Memory`.
    fn or_memory<E>(self) -> Result<Self::Value, RunError<E>>;
}

impl<T, X: Into<Memory>> OrMemory for Result<T, X> {
    type Value = T;

    fn or_memory<E>(self) -> Result<T, RunError<E>>
        ensures value { IfOk self (λ value. result ≡ Ok value) }
        ensures refused { IfErr self (λ _. result ≡ Err errors.Memory) }
    {
        match self {
            Ok(value) => Ok(value),
            Err(refused) => {
                let Memory = refused.into();
                Err(RunError::Memory)
            }
        }
    }
}
