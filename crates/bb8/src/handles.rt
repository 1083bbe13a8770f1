//! The handles of a pool: how they are made and dropped.
ghost use Rattle.std.specs.Arc.{arc_value};

use crate::pool::Pool;
use bb8_core::api::RunError;
use bb8_lock::gets::Joining;
use bb8_lock::{Handle, OpensScope, Permits, PoolTypes, Shared, join};
use std::alloc::Global;
use std::sync::Arc;

/// A handle with what it shares with the others of its pool. It cannot be dropped implicitly, so
/// every path has to end it.
pub(crate) struct BareHandle<G: PoolTypes, L: Permits> {
    pub shared: Arc<Shared<G, L>, Global>,
    pub handle: Handle,
}

/// Makes one more handle. (A trait because of *trait-for-threads*.)
pub(crate) trait Joins {
    type Joined;

    fn join(self) -> Self::Joined;
}

impl<'a, G: PoolTypes, L: Permits> Joins for &'a Pool<G, L> {
    ghost use Rattle.bb8.specs.Handles.{IsHandleOf};

    type Joined = Result<BareHandle<G, L>, RunError<G::Error>>;

    fn join(self) -> Result<BareHandle<G, L>, RunError<G::Error>>
        ensures { IsHandleOf (arc_value self.now.shared) result }
    {
        let Ok(shared) = Arc::try_clone(&self.shared) else {
            return Err(RunError::Memory);
        };
        let pool = &*self.shared;
        match join(&mut pool.scope()) {
            Joining::Joined(handle) => Ok(BareHandle { shared, handle }),
            Joining::Exhausted | Joining::Unfit => Err(RunError::Exhausted),
        }
    }
}
