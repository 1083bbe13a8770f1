//! The statistics of a pool, and its handles.
ghost use Rattle.std.specs.Prelude.{◌≡◌, ◌≤◌, IfOk};
ghost use Rattle.bb8_ledger.specs.Acts as acts;
ghost use Rattle.bb8_ledger.specs.Answers as answers;
ghost use Rattle.bb8_ledger.specs.Ledger as ledger;
ghost use Rattle.bb8_types.specs.Figures.{figures_of};
ghost use Rattle.bb8_core.specs.Closings.{OffersLeft, OffersShut};
ghost use Rattle.bb8_core.specs.StepBounds.{IsBounded};
ghost use Rattle.bb8_core.specs.StateView.{Represents, Steps, IsFitting};
ghost use Rattle.bb8_core.specs.StepAnswers.{answer_of_join, answer_of_leave, answer_of_look};
ghost use Rattle.bb8_core.specs.Unfit.{Stepped};

use super::{ClosedList, JoinAnswer, LeaveAnswer, Looked, PoolInternals, Unfit};
use bb8_tables::AccessCounter;
use bb8_types::api::{Moment, State};

impl<C: Drop, A> PoolInternals<C, A> {
    /// Returns the size and the statistics of the pool.
    pub fn state(&mut self, at: Moment) -> State
        ensures step { Steps self.old at.0 acts.State (answers.Shown (figures_of result)) self.new }
        ensures figures { (l : ledger.Ledger C) → Represents l self.old
            → figures_of result ≡ ledger.figures l }
        ensures size { result.connections ≤ self.old.config.max_size }
        ensures idle { result.idle_connections ≤ result.connections }
        ensures bounds { IsBounded 0 0 0 0 self.old self.new }
    {
        self.latest = self.latest.max(at.0);
        self.accesses.end(AccessCounter::NONE);
        State {
            connections: self.records.connections(),
            idle_connections: self.records.idle_connections(),
            statistics: self.counters.statistics(),
        }
    }

    /// Adds a handle, if fewer than 4,294,967,295 are alive. If none is, nothing changes.
    pub fn join(&mut self, at: Moment) -> Result<JoinAnswer, Unfit>
        ensures step { Stepped Steps answer_of_join self.old at.0 acts.Join result self.new }
        ensures bounds { IsBounded 0 0 0 0 self.old self.new }
    {
        if !self.fits_join() {
            self.accesses.end_unfit(AccessCounter::NONE);
            return Err(Unfit);
        }
        self.latest = self.latest.max(at.0);
        self.accesses.end(AccessCounter::NONE);
        if self.handles >= u32::MAX as u64 {
            return Ok(JoinAnswer::Exhausted);
        }
        self.handles += 1;
        Ok(JoinAnswer::Joined)
    }

    /// Drops a handle. With the last one all idle connections and all unclaimed approvals end; the
    /// connections are dropped here. If no handle is alive, nothing changes.
    pub fn leave(&mut self, at: Moment) -> Result<LeaveAnswer, Unfit>
        ensures step { Stepped Steps answer_of_leave self.old at.0 acts.Leave result self.new }
        ensures bounds { IsBounded 0 0 0 0 self.old self.new }
    {
        if !self.fits_leave() {
            self.accesses.end_unfit(AccessCounter::NONE);
            return Err(Unfit);
        }
        let mut dropped = self.records.no_list();
        Ok(self.leave_into(at, &mut dropped))
    }

    /// As `leave`, but moves the connections that it closes into a list, the longest idle first.
    /// Those for which the list has no capacity are dropped.
    pub fn leave_into(&mut self, at: Moment, closed: &mut ClosedList<C>) -> LeaveAnswer
        requires { IsFitting self.old acts.Leave }
        ensures step { Steps self.old at.0 acts.Leave (answer_of_leave result) self.new }
        ensures closed { OffersLeft self.old closed.old closed.new }
        ensures bounds { IsBounded 0 0 0 0 self.old self.new }
    {
        self.latest = self.latest.max(at.0);
        self.accesses.end(AccessCounter::NONE);
        if self.handles == 1 {
            self.handles = 0;
            self.closed_below = u64::MAX;
            return LeaveAnswer::Left(self.records.leave(closed));
        }
        self.handles -= 1;
        LeaveAnswer::Left(0)
    }

    /// Closes the pool: drops all handles at once. All idle connections and all unclaimed approvals
    /// end, as with the last handle; the connections are dropped here. If no handle is alive,
    /// nothing changes.
    pub fn close(&mut self, at: Moment) -> Result<LeaveAnswer, Unfit>
        ensures step { Stepped Steps answer_of_leave self.old at.0 acts.Close result self.new }
        ensures bounds { IsBounded 0 0 0 0 self.old self.new }
    {
        if !self.fits_close() {
            self.accesses.end_unfit(AccessCounter::NONE);
            return Err(Unfit);
        }
        let mut dropped = self.records.no_list();
        Ok(self.close_into(at, &mut dropped))
    }

    /// As `close`, but moves the connections that it closes into a list, the longest idle first.
    /// Those for which the list has no capacity are dropped.
    pub fn close_into(&mut self, at: Moment, closed: &mut ClosedList<C>) -> LeaveAnswer
        requires { IsFitting self.old acts.Close }
        ensures step { Steps self.old at.0 acts.Close (answer_of_leave result) self.new }
        ensures closed { OffersShut self.old closed.old closed.new }
        ensures bounds { IsBounded 0 0 0 0 self.old self.new }
    {
        self.latest = self.latest.max(at.0);
        self.accesses.end(AccessCounter::NONE);
        self.handles = 0;
        self.closed_below = u64::MAX;
        LeaveAnswer::Left(self.records.leave(closed))
    }

    /// Returns the effective moment, and whether a handle is alive.
    pub fn look(&mut self, at: Moment) -> Looked
        ensures step { Steps self.old at.0 acts.Look (answer_of_look result) self.new }
        ensures bounds { IsBounded 0 0 0 0 self.old self.new }
    {
        self.latest = self.latest.max(at.0);
        self.accesses.end(AccessCounter::NONE);
        Looked {
            moment: Moment(self.latest),
            alive: self.handles > 0,
        }
    }
}
