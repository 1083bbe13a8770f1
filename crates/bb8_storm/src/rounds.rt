//! The work of each thread with the pool.

use crate::hostile::{Counted, Harness, HostilePool};
use bb8::{Cancel, Gets, Job, PoolCalls, PoolPermits, RunError, Runtime};
use bb8_trials::{RandomSource, Refused};
use futures::Future;
use futures::task::Poll;
use futures::test::MockTask;
use std::ops::DerefMut;
use std::thread;

/// The `max_size`: so small that gets wait, as attempts and checks take time.
pub const SIZE: u32 = 5;

/// The number of threads.
pub const THREADS: usize = 4;

/// The greatest number of polls of a get.
const POLLS: u64 = 16;

/// A phase over the pool.
#[derive(Drop)]
pub struct Storm<'a, R: Runtime, L: PoolPermits> {
    pub pool: &'a HostilePool<R, L>,
    pub harness: &'a Harness,
    pub rt: R,
    pub phase: u64,
    pub rounds: u64,
}

/// What a thread makes its rounds with.
#[derive(Drop)]
struct Hand<'a> {
    harness: &'a Harness,
    task: MockTask,
    source: RandomSource,
}

impl Hand<'_> {
    /// Polls a future this often, or until it has a result, and then cancels or drops it.
    fn polled<F: Future<Output: Drop> + Cancel + Drop>(
        &self,
        mut future: F,
        polls: u64,
    ) -> Option<F::Output>
        requires { (f : F) → F.can_poll f }
    {
        let mut result = None;
        for _ in 0..polls {
            if let Poll::Ready(answer) = self.task.poll(&mut future) {
                result = Some(answer);
                break;
            }
            thread::yield_now();
        }
        if self.source.below(2) == 0 {
            future.cancel();
        } else {
            drop(future);
        }
        result
    }

    /// Polls a get a few times, and counts it: it began with its first poll.
    fn get<
        G: DerefMut<Target = Counted> + Drop,
        F: Future<Output = Result<G, RunError<Refused>>> + Cancel + Drop,
    >(&self, get: F)
        requires { (f : F) → F.can_poll f }
    {
        let polls = self.source.below(POLLS);
        let answer = self.polled(get, polls);
        if polls > 0 {
            self.end(answer);
        }
    }

    /// Counts a get that began, and its result; it was cancelled if it has none. A connection that
    /// served it is held, and returned.
    fn end<G: DerefMut<Target = Counted> + Drop>(
        &self,
        answer: Option<Result<G, RunError<Refused>>>,
    ) {
        let harness = self.harness;
        harness.begun.count();
        match answer {
            Some(Ok(mut guard)) => {
                if !guard.hold(harness) {
                    harness.wrong.count();
                }
                thread::yield_now();
                harness.served.count()
            }
            Some(Err(RunError::TimedOut)) => harness.timed_out.count(),
            Some(Err(_)) => harness.wrong.count(),
            None => harness.cancelled.count(),
        };
    }
}

/// The work of a thread in a round. (A trait because of *trait-for-threads*.)
trait MakesRounds {
    /// Makes a get, with or without its own handle and blocking or not, opens a dedicated
    /// connection, or compares the state with its bounds; and maybe adds a connection.
    fn round(&self, hand: &Hand<'_>);
}

impl<R: Runtime, L: PoolPermits> MakesRounds for Storm<'_, R, L> {
    fn round(&self, hand: &Hand<'_>) {
        match hand.source.below(10) {
            0..=2 => hand.get(self.pool.get()),
            3..=5 => match self.pool.try_clone() {
                Ok(clone) => {
                    let get = clone.get_owned();
                    drop(clone);
                    hand.get(get);
                }
                Err(_) => drop(self.harness.wrong.count()),
            },
            6..=7 if hand.source.below(2) == 0 => hand.end(Some(self.pool.get_blocking())),
            6..=7 => hand.end(Some(self.pool.get_owned_blocking())),
            8 => {
                let opening = self.pool.dedicated_connection();
                let _ = hand.polled(opening, hand.source.below(POLLS));
            }
            _ => {
                let state = self.pool.state();
                if state.idle_connections > state.connections || state.connections > SIZE {
                    self.harness.wrong.count();
                }
            }
        }
        if hand.source.below(4) == 0 {
            let _ = self.pool.add(self.harness.connection());
        }
    }
}

impl<R: Runtime, L: PoolPermits> Job for &Storm<'_, R, L> {
    type Output = ();

    /// Makes all rounds of the thread.
    fn run(self, thread: usize) {
        let Ok(task) = MockTask::new(&self.rt) else {
            self.harness.wrong.count();
            return;
        };
        let seed = self.phase.saturating_mul(1000);
        let hand = Hand {
            harness: self.harness,
            task,
            source: RandomSource::new(seed.saturating_add(thread as u64)),
        };
        for _ in 0..self.rounds {
            self.round(&hand);
        }
    }
}
