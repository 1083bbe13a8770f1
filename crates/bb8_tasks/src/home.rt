//! The home of a pool's tasks: the trait of the steps that they make.
ghost use Rattle.bb8_types.specs.declared.api.moments.Moment.{Moment as MomentOf};
ghost use Rattle.bb8_tasks.specs.TaskSteps.{TaskStep, Looks, Opens, Fails, Claims, Reaps, Asks};

use bb8_core::api::Moment;
use bb8_core::internals::{
    ClaimAnswer, FailedAnswer, Grant, Key, Looked, OpenedAnswer, ReapAnswer, Unfit,
};

/// The steps that a pool's tasks, its driver and its reaper make, on connections `C`. A pool's
/// plain state is a home.
///
/// The ghost member relates the home before a step, the step with its arguments and result, and the
/// home after it. It has no default, so what is proved of polls and turns holds for every choice.
pub trait Home<C> {
    // Holds of the home before a step, its moment, the step with its arguments and result, and the
    // home after it. The moment of a look is a clock reading.
    ghost steps: { Self → MomentOf → TaskStep C → Self → Type 0 };

    /// Returns the effective moment at this clock reading, and whether a handle is alive.
    fn look(&mut self, at: Moment) -> Looked
        ensures { steps self.old at (Looks result) self.new };

    /// Adds the connection that was opened for a claimed approval. If no such approval is claimed,
    /// the connection is returned as the error.
    fn opened(&mut self, at: Moment, approval: Key, connection: C) -> Result<OpenedAnswer<C>, C>
        ensures { steps self.old at (Opens approval connection result) self.new };

    /// Frees an approval for which no connection was opened.
    fn failed(&mut self, at: Moment, approval: Key) -> Result<FailedAnswer, Unfit>
        ensures { steps self.old at (Fails approval result) self.new };

    /// Claims the unclaimed approval with the least number.
    fn claim(&mut self, at: Moment) -> ClaimAnswer
        ensures { steps self.old at (Claims result) self.new };

    /// Closes idle connections that exceed `max_lifetime`, and those beyond `min_idle` that exceed
    /// `idle_timeout`.
    fn reap(&mut self, at: Moment) -> ReapAnswer
        ensures { steps self.old at (Reaps result) self.new };

    /// Grants approvals for waiters whose connection attempts were given up or came too late.
    fn ask(&mut self, at: Moment) -> Grant
        ensures { steps self.old at (Asks result) self.new };
}
