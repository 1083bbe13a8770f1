//! The errors that callers of a pool can get.
ghost use Rattle.std.specs.Prelude.{◌≡◌, Some, codes, ⊤};
ghost use Rattle.bb8_types.specs.Errors.{run_error_text, run_error_eq, add_error_text, add_error_eq};
ghost use Rattle.bb8_types.specs.ErrorLaws.{run_error_eq_partial_equivalence, run_error_eq_equivalence, add_error_eq_partial_equivalence, add_error_eq_equivalence};
ghost use Rattle.bb8_types.specs.declared.api.errors.RunError.TheVariants.{User};

use std::alloc::{AllocError, AllocFailed};
use std::error::Error;
use std::fmt;

/// Memory was refused. It prints as `RunError::Memory` does. bb8 aborts if no memory is left.
#[derive(Clone, Copy, Debug, PartialEq, Eq)]
pub struct Memory;

impl fmt::Display for Memory {
    ghost output = { λ _. Some (codes "No memory in bb8") };

    fn fmt<W: fmt::Write>(&self, f: &mut fmt::Formatter<W>) -> fmt::Result {
        write!(f, "No memory in bb8")
    }
}

impl Error for Memory {}

impl<T: Drop> From<AllocFailed<T>> for Memory {
    ghost from_gives = { λ _ _. ⊤ };

    fn from(_refused: AllocFailed<T>) -> Memory {
        Memory
    }
}

impl From<AllocError> for Memory {
    ghost from_gives = { λ _ _. ⊤ };

    fn from(_refused: AllocError) -> Memory {
        Memory
    }
}

/// Why a `get` or `build` failed.
///
/// Two errors are equal if they are of the same case and, if both are `User`, the manager's errors
/// are equal.
#[derive(Debug, Drop, Clone)]
pub enum RunError<E> {
    /// The error of the manager or the customizer; it prints as that error does. As in bb8.
    User(E),
    /// The get was not served within `connection_timeout`. As in bb8.
    TimedOut,
    /// Memory was refused. bb8 aborts if no memory is left.
    Memory,
    /// The pool has no number left for another get: it has given all 18,446,744,073,709,551,615.
    Exhausted,
}

impl<E: fmt::Display> fmt::Display for RunError<E> {
    ghost output = { run_error_text E.output };

    fn fmt<W: fmt::Write>(&self, f: &mut fmt::Formatter<W>) -> fmt::Result {
        match self {
            RunError::User(error) => write!(f, "{error}"),
            RunError::TimedOut => write!(f, "Timed out in bb8"),
            RunError::Memory => write!(f, "No memory in bb8"),
            RunError::Exhausted => write!(f, "Numbers used up in bb8"),
        }
    }
}

impl<E: Error> Error for RunError<E> {}

impl<E> From<E> for RunError<E> {
    ghost from_gives = { λ error run_error. run_error ≡ User error };

    /// Wraps the manager's error in `User`, so that `?` passes it on. As in bb8, which requires an
    /// `Error`.
    fn from(error: E) -> Self {
        RunError::User(error)
    }
}

impl<E: PartialEq> PartialEq for RunError<E> {
    ghost eq = { run_error_eq E.eq };

    ghost laws = { run_error_eq_partial_equivalence E.laws };

    fn eq(&self, other: &Self) -> bool {
        match (self, other) {
            (RunError::User(error), RunError::User(other)) => error == other,
            (RunError::TimedOut, RunError::TimedOut)
            | (RunError::Memory, RunError::Memory)
            | (RunError::Exhausted, RunError::Exhausted) => true,
            _ => false,
        }
    }
}

impl<E: Eq> Eq for RunError<E> {
    ghost laws = { run_error_eq_equivalence E.Eq.laws };
}

/// Why a pool refused a connection passed to `add`. Each case contains the connection.
///
/// Two errors are equal if they are of the same case and the connections are equal. Unlike in bb8,
/// which requires a connection that is an error, it prints for every type of connection, `Display`
/// or not.
#[derive(Debug, Drop, Clone)]
pub enum AddError<C> {
    /// The manager's `has_broken` reported the connection as broken. This is checked first. As in
    /// bb8.
    Broken(C),
    /// Connections and open approvals together were `max_size` already. As in bb8.
    NoCapacity(C),
    /// There was no memory for the connection's table entry, or no number left for it. bb8 aborts
    /// if no memory is left.
    Withheld(C),
}

impl<C> fmt::Display for AddError<C> {
    ghost output = { λ error. Some (add_error_text error) };

    fn fmt<W: fmt::Write>(&self, f: &mut fmt::Formatter<W>) -> fmt::Result {
        match self {
            AddError::Broken(_) => write!(f, "The connection was broken before it could be added"),
            AddError::NoCapacity(_) => write!(
                f,
                "Unable to add the connection to the pool due to insufficient capacity"
            ),
            AddError::Withheld(_) => write!(f, "No memory or number to add the connection"),
        }
    }
}

impl<C: fmt::Debug + Drop> Error for AddError<C> {}

impl<C: PartialEq> PartialEq for AddError<C> {
    ghost eq = { add_error_eq C.eq };

    ghost laws = { add_error_eq_partial_equivalence C.laws };

    fn eq(&self, other: &Self) -> bool {
        match (self, other) {
            (AddError::Broken(connection), AddError::Broken(other))
            | (AddError::NoCapacity(connection), AddError::NoCapacity(other))
            | (AddError::Withheld(connection), AddError::Withheld(other)) => connection == other,
            _ => false,
        }
    }
}

impl<C: Eq> Eq for AddError<C> {
    ghost laws = { add_error_eq_equivalence C.Eq.laws };
}
