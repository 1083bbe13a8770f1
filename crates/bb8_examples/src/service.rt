//! A service: threads that write to SQLite databases through one pool. A connection that is
//! returned with an open transaction is closed, and the pool opens another. Each connection has its
//! own database in memory, as the toolchain's `sqlite` lets only one handle open a file.
use crate::databases::{Databases, Sums, held, write};
use bb8::{
    Blocking, Builder, MachineClock, NopCustomizer, NopErrorSink, PlainPool, PoolCalls,
    PoolPermits, Runtime, Service, State,
};
use std::io;
use std::thread::Threads;

/// The number of threads that share the pool.
const THREADS: usize = 4;

/// The `max_size`: fewer than threads, so that some gets wait.
const CONNECTIONS: u32 = 3;

/// How often each thread gets a connection, writes to its database and returns it.
const ROUNDS: u32 = 25;

/// The amounts of the rows cycle from 0 to the last number below this. A row of amount 0 is
/// refused.
const AMOUNTS: u32 = 5;

/// What the databases hold in the end, and the pool's state. None if a get was not served, or a
/// database could not be read.
type Visits = Option<(Sums, State)>;

/// The pool of the service.
type DatabasePool<R, L> = PlainPool<Blocking<Databases>, R, L>;

/// Threads that write to the databases of one pool.
#[derive(Drop)]
struct SharedDatabases<R> {
    /// The runtime with which the list of guards allocates.
    rt: R,
}

impl<R: Runtime> Service<Blocking<Databases>, NopErrorSink, NopCustomizer, MachineClock<R>, R>
    for SharedDatabases<R> {
    /// None in the cases of `Visits`.
    type Output = Option<Sums>;

    type Outcome = Visits;

    /// Does nothing: the pool opens its connections by itself.
    fn begin<L: PoolPermits>(&self, _pool: &DatabasePool<R, L>) -> Result<(), Visits> {
        Ok(())
    }

    /// In each round gets a connection, writes to its database, and returns it. A connection that
    /// is left with an open transaction is closed then, so its rows are counted first.
    fn run<L: PoolPermits>(&self, pool: &DatabasePool<R, L>, _thread: usize) -> Option<Sums> {
        let mut sums = Sums::default();
        for round in 0..ROUNDS {
            let mut guard = pool.get_blocking().ok()?;
            if write(&mut guard, round % AMOUNTS).is_ok() {
                sums.committed = sums.committed.saturating_add(1);
                continue;
            }
            sums = sums.plus(held(&mut guard).ok()?);
            sums.left_open = sums.left_open.saturating_add(1);
        }
        Some(sums)
    }

    /// Checks out all connections at once, and adds what their databases hold to the threads'
    /// results.
    fn end<L: PoolPermits>(&self, pool: &DatabasePool<R, L>, results: &[Option<Sums>]) -> Visits {
        let mut sums = Sums::default();
        for one in results {
            sums = sums.plus((*one)?);
        }
        let mut guards = Vec::new(self.rt.alloc());
        for _ in 0..CONNECTIONS {
            let mut guard = pool.get_blocking().ok()?;
            sums = sums.plus(held(&mut guard).ok()?);
            guards.push(guard).ok()?;
        }
        Some((sums, pool.state()))
    }
}

/// Runs the service over its pool, and prints the outcome, which does not depend on the schedule.
pub fn print_visits<R: Runtime + Threads + Print>(rt: R) -> io::Result<()> {
    let manager = Blocking(Databases { alloc: rt.alloc() });
    let service = SharedDatabases { rt };
    let outcome = Builder::new()
        .max_size(CONNECTIONS)
        .min_idle(Some(2))
        .serve(manager, MachineClock(rt), rt, THREADS, &service);
    let Ok(Some((sums, state))) = outcome else {
        return println!(rt; "service: no pool");
    };
    println!(rt;
        "service: transactions committed {}, left open {}, rows {}, amount {}",
        sums.committed, sums.left_open, sums.rows, sums.amount
    )?;
    println!(rt;
        "service: gets completed {}, connections opened {}, closed as broken {}",
        state.statistics.completed_gets(),
        state.statistics.connections_created,
        state.statistics.connections_closed_broken
    )
}
