//! A runner of jobs on a pool.
ghost use Rattle.std.specs.Prelude.{◌≡◌, ◌≤◌, ◌+◌, ℕ, [], None, IfOk, OnOk, IfErr, OnErr, OnSome};
ghost use Rattle.futures.specs.Task.{Keeps};
ghost use Rattle.bb8_types.specs.declared.api.moments.Moment.{Moment as MomentOf};
ghost use Rattle.bb8.specs.GuardLists.{most_in, number_in};
ghost use Rattle.bb8.specs.Pools.{settings_in};
ghost use Rattle.slots.specs.Entries.{ids, left_after, outcome_of, phase_of, place_of, running, AreIds, AreIds-prop};

use crate::entries::{JobEntry, JobPlace, phase_at, take_ended};
use crate::job::{Job, Outcome, Phase};
use crate::steps::Steps;
use bb8::driver::Driver;
use bb8::get::GetFuture;
use bb8::guards::Guards;
use bb8::pool::Pool;
use bb8::{DriverCalls, Gets, GuardsCalls, Memory, Moment, Permits, PoolCalls, PoolTypes};
use futures::task::Context;
use std::alloc::Global;
use std::collections::VecDeque;
use std::sync::Wait;

/// Runs jobs, each while it holds a connection of the pool, so at most the pool's `max_size` run at
/// a time.
///
/// Jobs are submitted, continue in each turn, and their outcomes are taken by id. When a runner is
/// dropped, the gets of waiting jobs are cancelled and the guards of running ones are returned; for
/// this it may wait for the pool's lock.
pub struct Runner<'a, J: Job, G: PoolTypes, L: Permits> {
    entries: VecDeque<JobEntry<J, Outcome<J::Out, G::Error>, GetFuture<'a, G, L>>>,
    guards: Guards<'a, G, L>,
    driver: Driver<G, L>,
    pool: &'a Pool<G, L>,
    next: u64,
    pub ghost ordered: { AreIds 0 next (ids entries.items) } by { AreIds-prop 0 next (ids entries.items) },
    pub ghost held: { running entries.items ≡ number_in guards },
    pub ghost most: { most_in guards ≡ (settings_in pool.now).max_size },
    pub ghost within: { running entries.items ≤ (settings_in pool.now).max_size },
}

impl<J: Job, G: PoolTypes, L: Permits> Drop for Runner<'_, J, G, L> {
    ghost use Rattle.slots.specs.Runners.{LetsRunnerGo};

    fn drop(self)
        ensures { LetsRunnerGo self.entry }
    {
        let Runner {
            mut entries,
            guards,
            driver,
            pool: _,
            next: _,
        } = self;
        while let Some(JobEntry { id: _, place }) = entries.pop_front() {
            match place {
                JobPlace::Waiting(_job, get) => drop(get),
                JobPlace::Running(job) => drop(job),
                JobPlace::Ended(outcome) => drop(outcome),
            }
        }
        drop(guards);
        drop(driver);
    }
}

/// The two parts of a turn, in this order.
pub trait TurnParts {
    // Relates the runner before the driver's turn at a moment, and after it.
    ghost turns: { Self → MomentOf → Self → Type 0 };

    // Relates the runner before the steps of all jobs at a moment, the count of jobs that end, and
    // the runner after them.
    ghost steps: { Self → MomentOf → ℕ → Self → Type 0 };

    /// Makes a turn of the pool's driver.
    fn turn_driver(&mut self, moment: Moment)
        ensures { turns self.old moment self.new };

    /// Makes one step of each job that has not ended, and returns how many jobs ended.
    fn step_jobs(&mut self, moment: Moment, cx: &mut Context<'_>) -> u64
        ensures steps { steps self.old moment result self.new }
        ensures kept { Keeps cx.old cx.new };
}

/// The methods of a runner. (A trait because of *trait-for-threads* in docs/TOOLCHAIN.md.)
pub trait RunnerCalls: TurnParts {
    /// The type of jobs.
    type Job;

    /// The outcome of a job.
    type Outcome;

    /// Adds a job and returns its id; ids count from 0. If memory is refused, or each id below the
    /// greatest u64 was given, `Err` has the job and nothing changes.
    fn submit(&mut self, job: Self::Job) -> Result<u64, Self::Job>;

    /// Makes a turn at a moment, in nanoseconds of the pool's clock, and returns how many jobs
    /// ended. It may wait for the pool's lock.
    ///
    /// First the pool's driver makes a turn. Then each job that has not ended makes one step, in
    /// the order of ids. If it waits, its get is polled: if that is served, the job runs from the
    /// next turn on; if it fails, the job ends with the error; if there is no memory to keep the
    /// guard, the guard is dropped and the job ends with `Memory`. If it runs, it is polled once:
    /// if it is ready, it has ended, and a guard is dropped at once.
    final fn turn(&mut self, moment: Moment, cx: &mut Context<'_>) -> u64
        ensures chain { (between : Self) × Self.turns self.old moment between
            × Self.steps between moment result self.new }
        ensures kept { Keeps cx.old cx.new }
    {
        self.turn_driver(moment);
        self.step_jobs(moment, cx)
    }

    /// Returns the phase of the job with an id. None if no such id was given, or its outcome was
    /// taken.
    fn phase(&self, id: u64) -> Option<Phase>;

    /// Returns the count of running jobs.
    fn running(&self) -> u64;

    /// Returns the outcome of the job with an id, once: the job is then forgotten. None if it has
    /// not ended, no such id was given, or its outcome was taken.
    fn take(&mut self, id: u64) -> Option<Self::Outcome>;
}

impl<'a, J: Job, G: PoolTypes<Runtime: Wait + AllocGlobal>, L: Permits> Runner<'a, J, G, L> {
    ghost use Rattle.bb8.specs.Drivers.{IsDriverOf};
    ghost use Rattle.slots.specs.Runners.{driver_of, jobs_in, next_id, pool_of};

    /// Returns a runner on the pool without jobs, with a driver of the pool. Fails only if
    /// `Driver::new` does.
    pub fn new(alloc: Global, pool: &'a Pool<G, L>) -> Result<Self, Memory>
        ensures pool { IfOk result (λ runner. pool_of runner ≡ pool.now) }
        ensures driver { IfOk result (λ runner. IsDriverOf (driver_of runner) pool.now) }
        ensures empty { IfOk result (λ runner. jobs_in runner ≡ []) }
        ensures next { IfOk result (λ runner. next_id runner ≡ 0) }
    {
        let driver = Driver::new(pool)?;
        Ok(Runner {
            entries: VecDeque::new(alloc),
            guards: Guards::new(alloc, pool),
            driver,
            pool,
            next: 0,
        })
    }
}

impl<'a, J: Job, G: PoolTypes<Runtime: Wait>, L: Permits> TurnParts for Runner<'a, J, G, L> {
    ghost use Rattle.slots.specs.Runners.{StepsJobsOf, TurnsDriverOf};

    ghost turns = { λ runner moment runner'. TurnsDriverOf runner moment runner' };

    ghost steps = { λ runner moment ended runner'. StepsJobsOf runner moment ended runner' };

    fn turn_driver(&mut self, moment: Moment) {
        let _ = self.driver.turn(moment);
    }

    fn step_jobs(&mut self, moment: Moment, cx: &mut Context<'_>) -> u64 {
        self.guards.step_each(&mut self.entries, moment, cx)
    }
}

impl<'a, J: Job, G: PoolTypes<Runtime: Wait>, L: Permits> RunnerCalls for Runner<'a, J, G, L> {
    ghost use Rattle.slots.specs.Runners.{jobs_in, most_running, next_id, pool_of, running_in, TakesJobOn};

    type Job = J;

    type Outcome = Outcome<J::Out, G::Error>;

    fn submit(&mut self, job: J) -> Result<u64, J>
        ensures id { IfOk result (λ id. id ≡ next_id self.old) }
        ensures next { OnOk result (next_id self.new ≡ next_id self.old + 1) }
        ensures added { OnOk result (TakesJobOn self.old job self.new) }
        ensures back { IfErr result (λ back. back ≡ job) }
        ensures same { OnErr result (jobs_in self.new ≡ jobs_in self.old) }
        ensures unnumbered { OnErr result (next_id self.new ≡ next_id self.old) }
        ensures pool { pool_of self.new ≡ pool_of self.old }
    {
        if self.next == u64::MAX || self.entries.reserve(1).is_err() {
            return Err(job);
        }
        let id = self.next;
        let get = self.pool.get();
        self.entries.push_back_reserved(JobEntry {
            id,
            place: JobPlace::Waiting(job, get),
        });
        self.next += 1;
        Ok(id)
    }

    fn phase(&self, id: u64) -> Option<Phase>
        ensures { result ≡ phase_of (place_of id (jobs_in self.now)) }
    {
        phase_at(&self.entries, id)
    }

    fn running(&self) -> u64
        ensures number { result ≡ running_in self.now }
        ensures within { result ≤ most_running self.now }
    {
        self.guards.len() as u64
    }

    fn take(&mut self, id: u64) -> Option<Outcome<J::Out, G::Error>>
        ensures outcome { result ≡ outcome_of (place_of id (jobs_in self.old)) }
        ensures left { jobs_in self.new ≡ left_after result id (jobs_in self.old) }
        ensures gone { OnSome result (place_of id (jobs_in self.new) ≡ None) }
        ensures next { next_id self.new ≡ next_id self.old }
        ensures pool { pool_of self.new ≡ pool_of self.old }
    {
        take_ended(&mut self.entries, id)
    }
}
