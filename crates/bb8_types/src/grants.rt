//! The approvals that a step granted.
ghost use Rattle.bb8_types.specs.Grants.{IsNoGrant};

/// Approvals that a step granted: those numbered `first` to `first + count - 1`. It replaces bb8's
/// list of approvals.
#[derive(Clone, Copy, Debug, PartialEq, Eq)]
pub struct Grant {
    /// The number of the first one, or the next free number if `count` is 0.
    pub first: u64,
    /// The count of approvals granted.
    pub count: u32,
    /// The count of approvals that were due but not granted, because memory was refused or no
    /// number was left.
    pub withheld: u32,
}

impl Grant {
    /// Returns a grant of nothing. `next` is the next free number.
    pub fn of_nothing(next: u64) -> Self
        ensures { IsNoGrant next result }
    {
        Grant {
            first: next,
            count: 0,
            withheld: 0,
        }
    }
}
