//! Threads that run a job over a pool.
ghost use Rattle.std.specs.Prelude.{ℕ, ⊤, IfOk};
ghost use Rattle.bb8.specs.Services.{EachOutput};

use bb8_core::api::Memory;
use std::thread;
use std::thread::{JoinHandle, Threads, map_indices};

/// The work of a thread. (A trait instead of a closure because of *closure-in-a-thread*.)
///
/// Its method calls the pool by `PoolCalls`, as those of a `Service` do. The implementer chooses
/// its ghost members, and one that is left out allows everything.
pub trait Job {
    /// The result of the thread.
    type Output;

    // Holds of each job that may be run.
    ghost is_ready: { Self → Type 0 } = { λ _. ⊤ };

    // Holds of a job, the number of its thread, and each result that it may return.
    ghost reports: { Self → ℕ → Self.Output → Type 0 } = { λ _ _ _. ⊤ };

    /// Does the job in the thread of this number.
    fn run(self, thread: usize) -> Self::Output
        requires { is_ready self }
        ensures { reports self thread result };
}

/// No thread could be started, and its job was dropped.
#[derive(Clone, Copy, Debug, PartialEq, Eq)]
pub struct NoThread;

/// Starts a job in its own thread, with this number. If no thread can be started, the job is
/// dropped.
pub fn start<R: Threads, J: Job + Send + Drop + 'static>(
    threads: &R,
    number: usize,
    job: J,
) -> Result<JoinHandle<J::Output>, NoThread>
where
    J::Output: Send + Drop + 'static,
    requires { J.is_ready job }
{
    match thread::spawn(threads, move || job.run(number)) {
        Ok(handle) => Ok(handle),
        Err(_) => Err(NoThread),
    }
}

/// Runs a job `threads` times, with the numbers from 0 on, each in its own thread if one can be
/// started, and returns their results in order. Returns `Memory` only if memory for the results is
/// refused; then some may have run.
pub fn in_threads<R: Threads + AllocGlobal + Sync, J: Job + Copy + Sync>(
    rt: &R,
    threads: usize,
    job: J,
) -> Result<Vec<J::Output>, Memory>
where
    J::Output: Send + Drop,
    requires { J.is_ready job }
    ensures { IfOk result (λ results. EachOutput (J.reports job) threads results.items) }
{
    match map_indices(rt, rt.alloc(), threads, &|thread| job.run(thread)) {
        Ok(results) => Ok(results),
        Err(_) => Err(Memory),
    }
}
