//! The steps of jobs in a turn.
ghost use Rattle.std.specs.Prelude.{◌≡◌, ◌+◌, ◌≤◌, ◌<◌};
ghost use Rattle.std.specs.VecDeque.{deque_len};
ghost use Rattle.futures.specs.Task.{Keeps};
ghost use Rattle.bb8.specs.Gets.{PollsGet};
ghost use Rattle.bb8.specs.GuardLists.{most_in, number_in, AreOfOne};
ghost use Rattle.slots.specs.Entries.{guards_for, running};
ghost use Rattle.slots.specs.Guards.{GivesBack, GivesOneBack};
ghost use Rattle.slots.specs.Turns.{StepsJob, StepsGet, JobSteps, StepsFirst, StepsEach};

use crate::entries::{JobEntry, JobPlace};
use crate::job::{Job, Outcome};
use bb8::get::GetFuture;
use bb8::guards::Guards;
use bb8::{GuardsCalls, Moment, Permits, PoolTypes, RunError};
use futures::Future;
use futures::task::{Context, Poll};
use std::collections::VecDeque;
use std::sync::Wait;

/// The result of a job's step.
pub(crate) struct Stepped<P> {
    /// The job's state after it.
    pub(crate) place: P,
    /// 1 if the job ended in it, else 0.
    pub(crate) ended: u64,
}

/// The steps of jobs, on the guards of the running ones. (A trait because of *trait-for-threads* in
/// docs/TOOLCHAIN.md.)
pub(crate) trait Steps<J> {
    /// The get of a waiting job.
    type Get;

    /// The state of a job.
    type Place;

    /// The jobs with their states, in the order of their steps.
    type Queue;

    /// Polls a running job once. If it is ready, its guard is dropped at once.
    fn step_job(&mut self, job: J, now: Moment) -> Stepped<Self::Place>;

    /// Polls the get of a waiting job once.
    fn step_get(&mut self, job: J, get: Self::Get, cx: &mut Context<'_>) -> Stepped<Self::Place>;

    /// Makes one step of a job in this state.
    fn step(
        &mut self,
        place: Self::Place,
        now: Moment,
        cx: &mut Context<'_>,
    ) -> Stepped<Self::Place>;

    /// Makes one step of the first job, and moves it to the back. Returns how many jobs ended.
    fn step_first(&mut self, queue: &mut Self::Queue, now: Moment, cx: &mut Context<'_>) -> u64;

    /// Makes one step of each job, in their order. Returns how many jobs ended.
    fn step_each(&mut self, queue: &mut Self::Queue, now: Moment, cx: &mut Context<'_>) -> u64;
}

impl<'a, J: Job, G: PoolTypes<Runtime: Wait>, L: Permits> Steps<J> for Guards<'a, G, L> {
    type Get = GetFuture<'a, G, L>;

    type Place = JobPlace<J, Outcome<J::Out, G::Error>, GetFuture<'a, G, L>>;

    type Queue = VecDeque<JobEntry<J, Outcome<J::Out, G::Error>, GetFuture<'a, G, L>>>;

    fn step_job(&mut self, job: J, now: Moment) -> Stepped<Self::Place>
        ensures steps { 0 < number_in self.old
            → StepsJob J.polls (GivesOneBack self.old) now job result.place result.ended }
        ensures held { 0 < number_in self.old
            → number_in self.new + 1 ≡ number_in self.old + guards_for result.place }
        ensures pool { AreOfOne self.new self.old }
        ensures one { result.ended ≤ 1 }
    {
        let mut job = job;
        match job.poll(now) {
            Poll::Pending => Stepped {
                place: JobPlace::Running(job),
                ended: 0,
            },
            Poll::Ready(out) => {
                match self.remove(0) {
                    Some(guard) => drop(guard),
                    None => {}
                }
                Stepped {
                    place: JobPlace::Ended(Outcome::Done(out)),
                    ended: 1,
                }
            }
        }
    }

    fn step_get(&mut self, job: J, get: Self::Get, cx: &mut Context<'_>) -> Stepped<Self::Place>
        ensures steps { StepsGet PollsGet GivesBack job get.entry result.place
            result.ended }
        ensures held { number_in self.new ≡ number_in self.old + guards_for result.place }
        ensures pool { AreOfOne self.new self.old }
        ensures one { result.ended ≤ 1 }
        ensures kept { Keeps cx.old cx.new }
    {
        let mut get = get;
        match get.poll(cx) {
            Poll::Pending => Stepped {
                place: JobPlace::Waiting(job, get),
                ended: 0,
            },
            Poll::Ready(Err(error)) => Stepped {
                place: JobPlace::Ended(Outcome::Refused(error)),
                ended: 1,
            },
            Poll::Ready(Ok(guard)) => match self.push(guard) {
                Ok(()) => Stepped {
                    place: JobPlace::Running(job),
                    ended: 0,
                },
                Err(refused) => {
                    drop(refused);
                    Stepped {
                        place: JobPlace::Ended(Outcome::Refused(RunError::Memory)),
                        ended: 1,
                    }
                }
            },
        }
    }

    fn step(
        &mut self,
        place: Self::Place,
        now: Moment,
        cx: &mut Context<'_>,
    ) -> Stepped<Self::Place>
        ensures steps { guards_for place.entry ≤ number_in self.old
            → JobSteps J.polls PollsGet GivesBack now place.entry result.place result.ended }
        ensures held { guards_for place.entry ≤ number_in self.old
            → number_in self.new + guards_for place.entry
            ≡ number_in self.old + guards_for result.place }
        ensures pool { AreOfOne self.new self.old }
        ensures one { result.ended ≤ 1 }
        ensures kept { Keeps cx.old cx.new }
    {
        match place {
            JobPlace::Waiting(job, get) => self.step_get(job, get, cx),
            JobPlace::Running(job) => self.step_job(job, now),
            JobPlace::Ended(outcome) => Stepped {
                place: JobPlace::Ended(outcome),
                ended: 0,
            },
        }
    }

    #[tactic(auto, using(crate::proofs::Listed::running_append))]
    fn step_first(&mut self, queue: &mut Self::Queue, now: Moment, cx: &mut Context<'_>) -> u64
        ensures steps { 0 < deque_len queue.old → running queue.old.items ≡ number_in self.old
            → StepsFirst J.polls PollsGet GivesBack now queue.old.items queue.new.items result }
        ensures held { running queue.old.items ≡ number_in self.old
            → running queue.new.items ≡ number_in self.new }
        ensures length { deque_len queue.new ≡ deque_len queue.old }
        ensures pool { AreOfOne self.new self.old }
        ensures one { result ≤ 1 }
        ensures kept { Keeps cx.old cx.new }
    {
        let Some(JobEntry { id, place }) = queue.pop_front() else {
            return 0;
        };
        let Stepped { place, ended } = self.step(place, now, cx);
        queue.push_back_reserved(JobEntry { id, place });
        ended
    }

    fn step_each(&mut self, queue: &mut Self::Queue, now: Moment, cx: &mut Context<'_>) -> u64
        ensures steps { running queue.old.items ≡ number_in self.old
            → StepsEach J.polls PollsGet GivesBack now queue.old.items queue.new.items result }
        ensures held { running queue.old.items ≡ number_in self.old
            → running queue.new.items ≡ number_in self.new }
        ensures pool { AreOfOne self.new self.old }
        ensures within { number_in self.new ≤ most_in self.new }
        ensures kept { Keeps cx.old cx.new }
    {
        let count = queue.len();
        let mut ended: u64 = 0;
        for _ in 0..count {
            ended += self.step_first(queue, now, cx);
        }
        // The call states that the list has not passed its bound.
        let _held = self.len();
        ended
    }
}
