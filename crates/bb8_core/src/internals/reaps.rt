//! The reap, the eviction of one idle connection, and the retirement of everything that exists.
ghost use Rattle.std.specs.Prelude.{◌≡◌, ◌+◌, IfOk};
ghost use Rattle.bb8_ledger.specs.Acts as acts;
ghost use Rattle.bb8_core.specs.Closings.{OffersReaped, OffersRetired};
ghost use Rattle.bb8_core.specs.StepBounds.{out_of, IsBounded};
ghost use Rattle.bb8_core.specs.StateView.{Steps};
ghost use Rattle.bb8_core.specs.StepAnswers.{answer_of_evict, answer_of_reap, closed_in, HandsOutIdle};
ghost use Rattle.bb8_core.specs.Unfit.{Stepped};

use super::decided::{retiring, want};
use super::{ClosedList, EvictAnswer, Key, PoolInternals, ReapAnswer, Unfit};
use bb8_tables::AccessCounter;
use bb8_types::api::Moment;

impl<C: Drop, A> PoolInternals<C, A> {
    /// Closes each idle connection that exceeds `max_lifetime`, then those that exceed
    /// `idle_timeout`, the longest idle first, sparing `min_idle`; then grants what is wanted. Each
    /// counts once: as too old, or else as idle too long. No get is notified. The connections are
    /// dropped here. If no handle is alive, only the latest moment changes. It reads the entries of
    /// the connections that end, at most those of checked-out ones, and two more.
    pub fn reap(&mut self, at: Moment) -> ReapAnswer
        ensures step { Steps self.old at.0 acts.Reap (answer_of_reap result) self.new }
        ensures bounds { IsBounded 0 0 (closed_in result + out_of self.old + 2) 0
            self.old self.new }
    {
        let mut dropped = self.records.no_list();
        self.reap_into(at, &mut dropped)
    }

    /// Evicts an idle connection, for the caller to drop. Its record ends, what is wanted is
    /// granted, and the longest waiter is notified, as when a guard detaches it. If the number is
    /// not that of an idle connection, nothing changes. It is looked up once.
    pub fn evict(&mut self, at: Moment, k: Key) -> Result<EvictAnswer<C>, Unfit>
        ensures step { Stepped Steps (answer_of_evict k.number)
            self.old at.0 (acts.Evict k.number) result self.new }
        ensures connection { IfOk result (HandsOutIdle self.old k.number) }
        ensures bounds { IsBounded 0 0 2 1 self.old self.new }
    {
        let mut accesses = AccessCounter::NONE;
        match self.records.evict(k, &mut accesses) {
            None => {
                self.accesses.end_unfit(accesses);
                Err(Unfit)
            }
            Some(conn) => {
                self.latest = self.latest.max(at.0);
                let wanted = want(&self.config, self.handles, &self.records);
                let grant = self.records.grant(wanted, false);
                self.counters.detach();
                let notified = self.gets.notify(&mut accesses);
                self.accesses.end(accesses);
                Ok(EvictAnswer::Evicted(conn, grant, notified))
            }
        }
    }

    /// Retires all connections and approvals that have numbers now. Idle connections are closed,
    /// checked-out ones when they are returned, and those of attempts in progress when they are
    /// opened. No get is notified. The connections are dropped here. While no handle is alive, none
    /// is idle.
    pub fn retire(&mut self, at: Moment) -> ReapAnswer
        ensures step { Steps self.old at.0 acts.Retire (answer_of_reap result) self.new }
        ensures bounds { IsBounded 0 0 (closed_in result + out_of self.old + 2) 0
            self.old self.new }
    {
        let mut dropped = self.records.no_list();
        self.retire_into(at, &mut dropped)
    }

    /// As `reap`, but moves the connections that it closes into a list, in the order in which it
    /// closes them. Those for which the list has no capacity are dropped.
    pub fn reap_into(&mut self, at: Moment, closed: &mut ClosedList<C>) -> ReapAnswer
        ensures closed { OffersReaped self.old at.0 result closed.old closed.new }
        ensures step { Steps self.old at.0 acts.Reap (answer_of_reap result) self.new }
        ensures bounds { IsBounded 0 0 (closed_in result + out_of self.old + 2) 0
            self.old self.new }
    {
        let now = self.latest.max(at.0);
        self.latest = now;
        let mut accesses = AccessCounter::NONE;
        if self.handles == 0 {
            self.accesses.end(accesses);
            return ReapAnswer::Ended;
        }
        let reaped = self.records.reap(&self.config, now, closed, &mut accesses);
        self.accesses.end(accesses);
        let wanted = want(&self.config, self.handles, &self.records);
        let grant = self.records.grant(wanted, false);
        self.counters.reap(reaped.by_idle, reaped.by_life);
        ReapAnswer::Reaped {
            closed: reaped.closed,
            by_idle: reaped.by_idle,
            by_life: reaped.by_life,
            grant,
        }
    }

    /// As `retire`, but moves the connections that it closes into a list, as `reap_into` does.
    pub fn retire_into(&mut self, at: Moment, closed: &mut ClosedList<C>) -> ReapAnswer
        ensures closed { OffersRetired self.old at.0 result closed.old closed.new }
        ensures step { Steps self.old at.0 acts.Retire (answer_of_reap result) self.new }
        ensures bounds { IsBounded 0 0 (closed_in result + out_of self.old + 2) 0
            self.old self.new }
    {
        let now = self.latest.max(at.0);
        self.latest = now;
        self.retired = self.records.next_number();
        let mut accesses = AccessCounter::NONE;
        if self.handles == 0 {
            self.accesses.end(accesses);
            return ReapAnswer::Ended;
        }
        self.closed_below = self.retired;
        // A reap at which every idle connection has lived too long.
        let all = retiring(&self.config);
        let reaped = self.records.reap(&all, now, closed, &mut accesses);
        self.accesses.end(accesses);
        let wanted = want(&self.config, self.handles, &self.records);
        let grant = self.records.grant(wanted, false);
        let count = reaped.closed;
        self.counters.retire(count);
        ReapAnswer::Reaped {
            closed: count,
            by_idle: 0,
            by_life: 0,
            grant,
        }
    }
}
