//! Grants and claims approvals.
ghost use Rattle.std.specs.Prelude.{◌≡◌};
ghost use Rattle.bb8_ledger.specs.Acts as acts;
ghost use Rattle.bb8_ledger.specs.Answers as answers;
ghost use Rattle.bb8_core.specs.StepBounds.{IsBounded};
ghost use Rattle.bb8_core.specs.StateView.{Steps};
ghost use Rattle.bb8_core.specs.StepAnswers.{answer_of_claim};

use super::decided::{due_asked, want};
use super::{ClaimAnswer, Grant, PoolInternals};
use bb8_tables::AccessCounter;
use bb8_types::api::Moment;

impl<C: Drop, A> PoolInternals<C, A> {
    /// Grants what is wanted: `min_idle` minus idle connections and open approvals. The approvals
    /// are claimed at once if `claimed` is set.
    pub fn fill(&mut self, at: Moment, claimed: bool) -> Grant
        ensures step { Steps self.old at.0 (acts.Fill claimed) (answers.Granted result) self.new }
        ensures bounds { IsBounded 0 0 0 0 self.old self.new }
    {
        self.latest = self.latest.max(at.0);
        self.accesses.end(AccessCounter::NONE);
        let wanted = want(&self.config, self.handles, &self.records);
        self.records.grant(wanted, claimed)
    }

    /// Grants what waiters lack: one approval for each unnotified waiter beyond the open approvals.
    /// This is for waiters whose connection attempts were given up: none of them asks again by
    /// itself.
    pub fn ask(&mut self, at: Moment) -> Grant
        ensures step { Steps self.old at.0 acts.Ask (answers.Granted result) self.new }
        ensures bounds { IsBounded 0 0 0 0 self.old self.new }
    {
        self.latest = self.latest.max(at.0);
        self.accesses.end(AccessCounter::NONE);
        let waiting = self.gets.unnotified();
        let due = due_asked(&self.config, self.handles, &self.records, waiting);
        self.records.grant(due, false)
    }

    /// Claims the unclaimed approval with the lowest number.
    pub fn claim(&mut self, at: Moment) -> ClaimAnswer
        ensures step { Steps self.old at.0 acts.Claim (answer_of_claim result) self.new }
        ensures bounds { IsBounded 0 0 1 0 self.old self.new }
    {
        self.latest = self.latest.max(at.0);
        let mut accesses = AccessCounter::NONE;
        if self.handles == 0 {
            self.accesses.end(accesses);
            return ClaimAnswer::Ended;
        }
        let claimed = self.records.claim(&mut accesses);
        self.accesses.end(accesses);
        ClaimAnswer::Claimed(claimed)
    }
}
