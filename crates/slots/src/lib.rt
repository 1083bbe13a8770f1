//! A runner of jobs on a pool: each job holds a guard of the pool while it runs, so at most the
//! pool's `max_size` run at a time.
//!
//! It uses the public contract of `bb8` alone. It shows how a bounded executor, a job queue or a
//! worker pool can be proved on it. With `SlotManager` the connections are empty slots, and a guard
//! is permission to run.
//! Jobs are submitted (`RunnerCalls::submit`) and continue in each turn (`turn`). Their outcomes
//! are taken by id (`take`). bb8 has no such thing, so the behaviour is our own choice.
//!
//! This program is complete. In `crates.txt` it depends on `bb8`, `futures` and `slots`:
//!
//! ```text
//! #![tactic(auto)]
//!
//! ghost use Rattle.bb8.specs.Permits.{IsBlankOf, unchecked_of};
//!
//! use bb8::{Builder, Memory, Moment, NopCustomizer, NopErrorSink, Pool, PoolPermits, SetClock};
//! use futures::task::Poll;
//! use futures::test::MockTask;
//! use slots::{Job, Outcome, Runner, RunnerCalls, SlotManager};
//! use std::io;
//! use std::marker::Brand;
//! use std::random::RandomSource;
//! use std::sync::Wait;
//! use std::sync::ledger::Blank;
//!
//! /// Adds the numbers below `end`, one in each poll.
//! #[derive(Drop)]
//! struct Sum {
//!     next: u64,
//!     end: u64,
//!     sum: u64,
//! }
//!
//! impl Job for Sum {
//!     type Out = u64;
//!
//!     fn poll(&mut self, _now: Moment) -> Poll<u64> {
//!         if self.next >= self.end {
//!             return Poll::Ready(self.sum);
//!         }
//!         self.sum = self.sum.saturating_add(self.next);
//!         self.next = self.next.saturating_add(1);
//!         Poll::Pending
//!     }
//! }
//!
//! type SlotPool<R, L> = Pool<SlotManager, NopErrorSink, NopCustomizer, SetClock, R, L>;
//!
//! /// Returns the sum of the outputs of ten jobs. Two run at a time.
//! fn run<
//!     R: Wait + RandomSource + AllocGlobal + Copy + Send + Sync + Drop + 'static,
//!     L: PoolPermits,
//! >(
//!     rt: R,
//!     blank: Blank,
//! ) -> Result<u64, Memory>
//!     requires { IsBlankOf blank (unchecked_of 2) L.name L.parts L.settings }
//! {
//!     let Ok(task) = MockTask::new(&rt) else {
//!         return Err(Memory);
//!     };
//!     let clock = SetClock::new(rt.alloc(), Moment(0))?;
//!     let pool: SlotPool<R, L> = Builder::new()
//!         .max_size(2)
//!         .test_on_check_out(false)
//!         .build_unchecked(SlotManager, clock, rt, blank)?;
//!     let mut runner = Runner::new(rt.alloc(), &pool)?;
//!     for end in 0..10u64 {
//!         let job = Sum { next: 0, end, sum: 0 };
//!         if runner.submit(job).is_err() {
//!             return Err(Memory);
//!         }
//!     }
//!     let mut ended: u64 = 0;
//!     for _ in 0..100 {
//!         ended = ended.saturating_add(task.enter(|cx| runner.turn(Moment(0), cx)));
//!     }
//!     let mut total: u64 = 0;
//!     for id in 0..ended {
//!         if let Some(Outcome::Done(sum)) = runner.take(id) {
//!             total = total.saturating_add(sum);
//!         }
//!     }
//!     Ok(total)
//! }
//!
//! fn main(rt: HostRuntime) -> io::Result<()> {
//!     match run::<HostRuntime, Brand>(rt, Blank::new(2)) {
//!         Ok(total) => println!(rt; "{total}"),
//!         Err(_) => println!(rt; "no memory"),
//!     }
//! }
//! ```
//!
//! It prints 120. It has one proof file, `proofs/main/Invariants.antt`, with the name and the
//! number of the pool's permits and its settings (`ghosts-run-L-Ledger` and
//! `ghosts-run-L-Permits`), as in `bb8_live_bench`.
#![tactic(auto)]

mod entries;
mod job;
mod runner;
mod slot;
mod steps;

pub use job::{Job, Outcome, Phase};
pub use runner::{Runner, RunnerCalls, TurnParts};
pub use slot::{Slot, SlotManager};
