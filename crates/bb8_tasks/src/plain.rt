//! A pool's plain state as the home of its tasks, driver and reaper.
ghost use Rattle.bb8_tasks.specs.Homes.{TaskStepsBy};

use super::home::Home;
use bb8_core::api::Moment;
use bb8_core::internals::{
    ClaimAnswer, FailedAnswer, Grant, Key, Looked, OpenedAnswer, PoolInternals, ReapAnswer, Unfit,
};

/// Each step is the state's own.
impl<C: Drop> Home<C> for PoolInternals<C> {
    ghost steps = { λ pool at s after. TaskStepsBy pool at s after };

    fn look(&mut self, at: Moment) -> Looked {
        PoolInternals::look(self, at)
    }

    fn opened(&mut self, at: Moment, approval: Key, connection: C) -> Result<OpenedAnswer<C>, C> {
        self.opened(at, approval, connection)
    }

    fn failed(&mut self, at: Moment, approval: Key) -> Result<FailedAnswer, Unfit> {
        self.failed(at, approval)
    }

    fn claim(&mut self, at: Moment) -> ClaimAnswer {
        PoolInternals::claim(self, at)
    }

    fn reap(&mut self, at: Moment) -> ReapAnswer {
        PoolInternals::reap(self, at)
    }

    fn ask(&mut self, at: Moment) -> Grant {
        PoolInternals::ask(self, at)
    }
}
