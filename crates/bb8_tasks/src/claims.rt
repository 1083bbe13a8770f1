//! The claims of a driver's turn.
ghost use Rattle.bb8_tasks.specs.Turns.{Claims};

use crate::{Home, Tasks};
use bb8_core::api::Moment;
use bb8_core::internals::ClaimAnswer;

/// Claims approvals and adds their tasks until none is unclaimed. If memory for another task is
/// refused, it stops without a claim. Returns whether it stopped because no handle is alive.
pub(crate) fn claim_each<C, V, A, H: Home<C>>(
    tasks: &mut Tasks<C, V, A>,
    at: Moment,
    home: &mut H,
) -> bool
    ensures { Claims H.Home at tasks.old home.old result tasks.new home.new }
{
    for _ in tasks.len()..usize::MAX {
        match tasks.claim(at, home) {
            Ok(ClaimAnswer::Claimed(Some(_))) => {}
            Ok(ClaimAnswer::Claimed(None)) | Err(_) => return false,
            Ok(ClaimAnswer::Ended) => return true,
        }
    }
    false
}
