//! The tasks of a pool, in the order in which their approvals were claimed.
ghost use Rattle.std.specs.Prelude.{◌≡◌, ◌+◌, ◌^◌, ◌<◌, ◌↔◌, true, [], IfOk, OnErr, length};
ghost use Rattle.std.specs.Duration.{as_nanos};
ghost use Rattle.bb8_tasks.specs.Dues.{earlier, earliest};
ghost use Rattle.bb8_tasks.specs.Replenishing.{TaskPolls, LetsGo};
ghost use Rattle.bb8_tasks.specs.Rounds.{PollsEach};
ghost use Rattle.bb8_tasks.specs.Sweeping.{AreFor, AtReading, TakesTaskOn, PollsUntil, QueueTurns, LetsGoEach, Rounds};
ghost use Rattle.bb8_tasks.specs.TaskSteps.{Claims};

use super::home::Home;
use super::opener::Opener;
use super::replenish::{Replenish, ReplenishAnswer};
use super::rounds::{OnFailure, Round};
use bb8_core::api::{Config, Memory, Moment};
use bb8_core::internals::{ClaimAnswer, Grant, Key};
use std::alloc::Global;
use std::collections::VecDeque;
use std::marker::Model;

/// Returns the earlier of two moments. None is never.
fn earlier(one: Option<Moment>, other: Option<Moment>) -> Option<Moment>
    ensures { result ≡ earlier one other }
{
    match (one, other) {
        (Some(one), Some(other)) => Some(Moment(one.0.min(other.0))),
        (Some(only), None) | (None, Some(only)) => Some(only),
        (None, None) => None,
    }
}

/// A list of tasks, in the order in which their approvals were claimed. bb8 spawns each separately.
///
/// It cannot be dropped implicitly: `give_back` ends it, so that the tasks' approvals are given
/// back to their home. Contracts see the list of the tasks.
pub struct Tasks<C, V, A> {
    queue: VecDeque<Replenish<C, V, A>>,
}

impl<C, V, A> Model for Tasks<C, V, A> {
    ghost use Rattle.std.specs.Prelude.{List};
    ghost use Rattle.bb8_tasks.specs.declared.replenish.Replenish.{Replenish as ReplenishOf};

    ghost Value = { List (ReplenishOf C V A) };

    ghost view = { λ tasks. tasks.queue.items };
}

impl<C, V, A> Tasks<C, V, A> {
    /// Returns an empty list.
    pub fn new(alloc: Global) -> Self
        ensures { result ≡ [] }
    {
        Tasks {
            queue: VecDeque::new(alloc),
        }
    }

    /// Returns a task for each of `count` claimed approvals, numbered from `first` on; none was
    /// polled yet. Returns `Memory` if memory for them is refused.
    ///
    /// The table indexes of the approvals are guessed, as in a new pool. A wrong guess costs a
    /// search and changes no result.
    pub fn for_approvals(alloc: Global, first: u64, count: u32) -> Result<Self, Memory>
        requires { first + count < 2 ^ 64 }
        ensures { IfOk result (λ tasks. AreFor first count tasks) }
    {
        let Ok(mut queue) = VecDeque::with_capacity(alloc, count as usize) else {
            return Err(Memory);
        };
        for i in 0..count {
            let approval = Key {
                number: first + u64::from(i),
                place: i as usize + 1,
            };
            queue.push_back_reserved(Replenish::new(approval));
        }
        Ok(Tasks { queue })
    }

    /// Returns the number of tasks.
    pub fn len(&self) -> usize
        ensures { result ≡ length self.now }
    {
        self.queue.len()
    }

    /// Whether there is no task.
    pub fn is_empty(&self) -> bool
        ensures { result ≡ true ↔ (self.now ≡ []) }
    {
        self.queue.is_empty()
    }

    /// Returns the earliest of `tick` and the moments at which tasks are due. None is never.
    pub fn next_due(&self, tick: Option<Moment>) -> Option<Moment>
        ensures { result ≡ earliest tick self.now }
    {
        let mut due = tick;
        for i in 0..self.queue.len() {
            due = earlier(due, self.queue[i].next_due());
        }
        due
    }

    /// Claims an approval at its home and adds its task. Memory for the task is reserved first: if
    /// it is refused, no approval is claimed.
    pub fn claim<H: Home<C>>(&mut self, at: Moment, home: &mut H) -> Result<ClaimAnswer, Memory>
        ensures claimed { IfOk result (λ answer. H.steps home.old at (Claims answer) home.new) }
        ensures task { IfOk result (λ answer. TakesTaskOn answer self.old self.new) }
        ensures refused { OnErr result ((self.new ≡ self.old) × (home.new ≡ home.old)) }
    {
        if self.queue.reserve(1).is_err() {
            return Err(Memory);
        }
        let answer = home.claim(at);
        if let ClaimAnswer::Claimed(Some(approval)) = answer {
            self.queue.push_back_reserved(Replenish::new(approval));
        }
        Ok(answer)
    }

    /// Polls each task once, in order, at a clock reading `at`, and removes those that end.
    ///
    /// The error of a try that is repeated goes to the sink. So does the error of a last try, if
    /// `on_failure` is `GoOn`. Otherwise the round stops and returns that error; the remaining
    /// tasks are kept unpolled.
    fn poll_until<E, X: Home<C> + Opener<C, E, Connecting = V, Acquiring = A>>(
        &mut self,
        at: Moment,
        pool: &mut X,
        config: &Config,
        on_failure: OnFailure,
    ) -> Option<E>
        ensures { PollsUntil (TaskPolls X.Home X.Opener (as_nanos config.now.connection_timeout)
            config.now.retry_connection at) on_failure X.sinks self.old pool.old result self.new
            pool.new }
    {
        let mut stopped = None;
        let count = self.len();
        for _ in 0..count {
            stopped = self.turn(at, pool, config, on_failure, stopped);
        }
        stopped
    }

    /// Takes the first task's turn in a round: polls it, or only moves it back if the round
    /// stopped.
    fn turn<E, X: Home<C> + Opener<C, E, Connecting = V, Acquiring = A>>(
        &mut self,
        at: Moment,
        pool: &mut X,
        config: &Config,
        on_failure: OnFailure,
        stopped: Option<E>,
    ) -> Option<E>
        requires { 0 < length self.old }
        ensures { QueueTurns (TaskPolls X.Home X.Opener (as_nanos config.now.connection_timeout)
            config.now.retry_connection at) on_failure X.sinks stopped self.old pool.old result
            self.new pool.new }
    {
        let Some(mut task) = self.queue.pop_front() else {
            return stopped;
        };
        match stopped {
            Some(error) => {
                self.queue.push_back_reserved(task);
                return Some(error);
            }
            None => {}
        }
        match task.poll(at, pool, config) {
            ReplenishAnswer::Pending => {
                self.queue.push_back_reserved(task);
                None
            }
            ReplenishAnswer::Retrying(error) => {
                pool.sink(error);
                self.queue.push_back_reserved(task);
                None
            }
            ReplenishAnswer::Failed(error) => {
                task.finish();
                match on_failure {
                    OnFailure::Stop => Some(error),
                    OnFailure::GoOn => {
                        pool.sink(error);
                        None
                    }
                }
            }
            ReplenishAnswer::Entered | ReplenishAnswer::Late | ReplenishAnswer::GivenBack => {
                task.finish();
                None
            }
        }
    }

    /// Cancels each task in order, and frees the approval of each that has not ended.
    pub fn give_back<E, X: Home<C> + Opener<C, E, Connecting = V, Acquiring = A>>(
        self,
        at: Moment,
        pool: &mut X,
    )
        ensures { LetsGoEach (LetsGo X.Home X.Opener at) self pool.old pool.new }
    {
        let Tasks { mut queue } = self;
        while let Some(task) = queue.pop_front() {
            task.give_back(at, pool);
        }
        queue.destroy_empty();
    }

    /// Reads the clock, and cancels the tasks as `give_back` does.
    pub fn let_go<E, X: Home<C> + Opener<C, E, Connecting = V, Acquiring = A>>(self, pool: &mut X)
        ensures { AtReading X.reports (λ at. LetsGoEach (LetsGo X.Home X.Opener at) self)
            pool.old pool.new }
    {
        let at = pool.now();
        self.give_back(at, pool);
    }

    /// Reads the clock and polls the tasks until the first failure of a last try. On such a failure
    /// it cancels all other tasks.
    pub fn round<E, X: Home<C> + Opener<C, E, Connecting = V, Acquiring = A>>(
        mut self,
        pool: &mut X,
        config: &Config,
    ) -> Round<Self, E>
        ensures { AtReading X.reports (λ at x x'. Rounds (TaskPolls X.Home X.Opener
            (as_nanos config.now.connection_timeout) config.now.retry_connection at) X.sinks
            (LetsGo X.Home X.Opener at) self x result x') pool.old pool.new }
    {
        let at = pool.now();
        match self.poll_until(at, pool, config, OnFailure::Stop) {
            Some(error) => {
                self.give_back(at, pool);
                Round::Failed(error)
            }
            None => {
                if self.is_empty() {
                    self.finish();
                    return Round::Complete;
                }
                Round::Going(self)
            }
        }
    }

    /// Drops an empty list.
    fn finish(self)
        requires { self ≡ [] }
    {
        let Tasks { queue } = self;
        queue.destroy_empty();
    }

    /// Polls each task once, and goes on after failures: each error goes to the sink.
    #[tactic(auto, using(crate::proofs::Sweeps::polls_each))]
    pub fn poll_each<E, X: Home<C> + Opener<C, E, Connecting = V, Acquiring = A>>(
        &mut self,
        at: Moment,
        pool: &mut X,
        config: &Config,
    )
        ensures { PollsEach (TaskPolls X.Home X.Opener (as_nanos config.now.connection_timeout)
            config.now.retry_connection at) X.sinks self.old pool.old self.new pool.new }
    {
        match self.poll_until(at, pool, config, OnFailure::GoOn) {
            None => {}
            Some(_) => unreachable!(),
        }
    }
}
