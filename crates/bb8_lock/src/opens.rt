//! The data under a pool's lock as the home of connection tasks, its driver and its reaper.
ghost use Rattle.std.specs.Prelude.{◌≡◌};
ghost use Rattle.bb8_tasks.specs.Homes.{TaskStepsBy};

use crate::gets::GetHome;
use crate::locked::{Locked, Permits};
use bb8_core::api::Moment;
use bb8_core::internals::{
    ClaimAnswer, FailedAnswer, Grant, Key, Looked, OpenedAnswer, ReapAnswer, Unfit,
};
use bb8_tasks::Home;

/// Each step leads from the state under the lock to the next one.
impl<C: Drop, L: Permits> Home<C> for Locked<C, L> {
    ghost steps = { λ h at s h'. (h.core.config ≡ L.settings) × TaskStepsBy h.core at s h'.core };

    fn look(&mut self, at: Moment) -> Looked {
        GetHome::<C>::look(self, at)
    }

    fn opened(&mut self, at: Moment, approval: Key, connection: C) -> Result<OpenedAnswer<C>, C> {
        let Locked { core, .. } = self;
        core.opened(at, approval, connection)
    }

    fn failed(&mut self, at: Moment, approval: Key) -> Result<FailedAnswer, Unfit> {
        let Locked { core, .. } = self;
        core.failed(at, approval)
    }

    fn claim(&mut self, at: Moment) -> ClaimAnswer {
        let Locked { core, .. } = self;
        core.claim(at)
    }

    /// Drops the connections that it closes under the lock.
    fn reap(&mut self, at: Moment) -> ReapAnswer {
        let Locked { core, .. } = self;
        core.reap(at)
    }

    fn ask(&mut self, at: Moment) -> Grant {
        let Locked { core, .. } = self;
        core.ask(at)
    }
}
