//! How to distinguish the errors of a get.
use crate::blocking::{Down, FilePool, Files};
use bb8::{
    Blocking, Builder, MachineClock, NopCustomizer, PoolCalls, PoolPermits, PrintingSink, RunError,
    Runtime, Service,
};
use std::thread::Threads;
use std::time::Duration;

/// The outcomes of two gets in words.
pub type Outcomes = (&'static str, &'static str);

/// Returns in words why a get was not served.
fn cause_of(error: RunError<Down>) -> &'static str {
    match error {
        RunError::TimedOut => "timed out",
        // It had no memory or no number.
        _ => "refused by the pool",
    }
}

/// Makes one get while the only connection is idle, and one while it is checked out.
#[derive(Drop)]
struct Twice;

impl<R: Runtime + Eprint> Service<
    Blocking<Files<R>>,
    PrintingSink<R>,
    NopCustomizer,
    MachineClock<R>,
    R,
> for Twice {
    type Output = ();

    type Outcome = Outcomes;

    fn begin<L: PoolPermits>(&self, _pool: &FilePool<R, L>) -> Result<(), Outcomes> {
        Ok(())
    }

    fn run<L: PoolPermits>(&self, _pool: &FilePool<R, L>, _thread: usize) {}

    fn end<L: PoolPermits>(&self, pool: &FilePool<R, L>, _results: &[()]) -> Outcomes {
        let first = pool.get_blocking();
        let second = match pool.get_blocking() {
            Ok(_guard) => "served",
            Err(error) => cause_of(error),
        };
        match first {
            Ok(_guard) => ("served", second),
            Err(error) => (cause_of(error), second),
        }
    }
}

/// Returns the outcomes of two gets on a pool of one connection. The service has no threads of its
/// own: both gets are made in its `end`.
pub fn ends<R: Runtime + Threads + Eprint>(rt: R) -> Result<Outcomes, RunError<Down>> {
    Builder::new()
        .max_size(1)
        .connection_timeout(Duration::from_millis(100))
        .error_sink(PrintingSink { rt, name: "files" })
        .serve(Blocking(Files::up(rt)), MachineClock(rt), rt, 0, &Twice)
}
