//! A service: threads that share a pool for as long as they run.
ghost use Rattle.std.specs.Prelude.{◌≡◌, ℕ, ⊤, List, Result, Ok, IfOk, IfErr, true, false};
ghost use Rattle.bb8_types.specs.Settings.{is_lawful};
ghost use Rattle.bb8_lock.specs.Permits.{IsBlankOf};
ghost use Rattle.bb8.specs.Buildings.{IsBuildError};
ghost use Rattle.bb8.specs.Services.{Basis, basis, basis_of, EachOutput, IsOutcome};

use crate::building::BuildingCalls;
use crate::driver::{Driven, Driver, Gate, drive};
use crate::jobs::{Job, in_threads};
use crate::memory::OrMemory;
use crate::{Builder, Building, Pool, pool};
use bb8_core::api::{
    Clock, Config, CustomizeConnection, ErrorSink, ManageConnection, Memory, RunError,
};
use bb8_lock::{Locks, PoolPermits, PoolTypes, TypesOf};
use std::alloc::Global;
use std::marker::Brand;
use std::sync::atomic::{AtomicBool, Ordering};
use std::sync::ledger::Blank;
use std::sync::{Arc, Wait};
use std::thread::{JoinHandle, Threads};

/// The work of a program's threads with its pool, for any permits `L`. `Builder::serve` runs it.
///
/// Its methods call the pool by `PoolCalls`; a function that takes the pool cannot be proved there
/// (*trait-for-threads*). Each has a ghost member, a relation between its arguments and its result,
/// with the pool's settings, manager and clock. The implementer chooses it, and one that is left
/// out allows everything.
pub trait Service<
    M: ManageConnection,
    S: ErrorSink<M::Error>,
    Z: CustomizeConnection<M::Connection, M::Error>,
    K: Clock,
    R: Locks,
>: Sync {
    /// The result of a thread.
    type Output: Send + Drop;

    /// The result of the service.
    type Outcome;

    // Holds of a service, and the `Basis` of each pool that it may run over.
    ghost suits: { Self → Basis M S Z K → Type 0 } = { λ _ _. ⊤ };

    // Holds of a service, the `Basis` of its pool, and each result that `begin` may have.
    ghost begins: { Self → Basis M S Z K → Result (Unit {0}) Self.Outcome → Type 0 } = { λ _ _ _. ⊤ };

    // Holds of a service, the `Basis` of its pool, the number of a thread, and each result that the
    // thread may have.
    ghost reports: { Self → Basis M S Z K → ℕ → Self.Output → Type 0 } = { λ _ _ _ _. ⊤ };

    // Holds of a service, the `Basis` of its pool, the threads' results in order, and each outcome
    // that it may end with.
    ghost ends: { Self → Basis M S Z K → List Self.Output → Self.Outcome → Type 0 } = { λ _ _ _ _. ⊤ };

    /// Runs before the threads start. If it returns an error, none is started, and the error is the
    /// service's result.
    fn begin<L: PoolPermits>(&self, pool: &Pool<M, S, Z, K, R, L>) -> Result<(), Self::Outcome>
        requires { suits self.now (basis_of pool.now) }
        ensures { begins self.now (basis_of pool.now) result };

    /// Runs in the thread of this number, from 0 on, once the service has begun.
    fn run<L: PoolPermits>(&self, pool: &Pool<M, S, Z, K, R, L>, thread: usize) -> Self::Output
        requires suits { suits self.now (basis_of pool.now) }
        requires begun { begins self.now (basis_of pool.now) (Ok tt) }
        ensures { reports self.now (basis_of pool.now) thread result };

    /// Runs once all threads have ended, with their results in order. Then the pool is dropped.
    fn end<L: PoolPermits>(
        &self,
        pool: &Pool<M, S, Z, K, R, L>,
        results: &[Self::Output],
    ) -> Self::Outcome
        requires suits { suits self.now (basis_of pool.now) }
        requires begun { begins self.now (basis_of pool.now) (Ok tt) }
        ensures { ends self.now (basis_of pool.now) results.now result };
}

/// A service on its pool.
#[derive(Drop)]
struct OnPool<'a, G: PoolTypes, L: PoolPermits, V> {
    pool: &'a pool::Pool<G, L>,
    service: &'a V,
}

impl<
    M: ManageConnection,
    S: ErrorSink<M::Error>,
    Z: CustomizeConnection<M::Connection, M::Error>,
    K: Clock,
    R: Locks,
    L: PoolPermits,
    V: Service<M, S, Z, K, R>,
> Job for &OnPool<'_, TypesOf<M, S, Z, K, R>, L, V> {
    type Output = V::Output;

    ghost is_ready = { λ job. V.suits job.now.service.now (basis_of job.now.pool.now)
        × V.begins job.now.service.now (basis_of job.now.pool.now) (Ok tt) };

    ghost reports = { λ job thread results. V.reports job.now.service.now (basis_of job.now.pool.now) thread results };

    fn run(self, thread: usize) -> V::Output {
        self.service.run(self.pool, thread)
    }
}

/// Keeps a driver running as long as its service runs.
#[derive(Drop)]
struct WhileServing {
    over: Arc<AtomicBool, Global>,
}

impl Gate for WhileServing {
    fn pause(&mut self) -> bool {
        !self.over.load(Ordering::Relaxed)
    }
}

/// Builds a pool with these permits, and sleeps until its first connections are open.
fn built<
    M: ManageConnection,
    S: ErrorSink<M::Error>,
    Z: CustomizeConnection<M::Connection, M::Error>,
    K: Clock,
    R: Wait + AllocGlobal + Copy + Send + Sync + Drop + 'static,
    L: PoolPermits,
>(
    builder: Builder<M, S, Z>,
    manager: M,
    clock: K,
    rt: R,
    blank: Blank,
) -> Result<Pool<M, S, Z, K, R, L>, RunError<M::Error>>
    requires lawful { is_lawful builder.settings ≡ true }
    requires parts { IsBlankOf blank builder.settings L.name L.parts L.settings }
    ensures made { IfOk result (λ pool. basis_of pool ≡ basis builder manager clock) }
    ensures failed { IfErr result (IsBuildError
        (M.connect_answers manager) (Z.acquire_answers builder.connection_customizer)) }
{
    let building: Building<M, S, Z, K, R, L> = builder.build(manager, clock, rt, blank);
    building.wait(&rt)
}

/// Runs a service over its pool, in this many threads.
fn run_service<
    M: ManageConnection,
    S: ErrorSink<M::Error>,
    Z: CustomizeConnection<M::Connection, M::Error>,
    K: Clock,
    R: Threads + Wait + AllocGlobal + Copy + Send + Sync + Drop + 'static,
    L: PoolPermits,
    V: Service<M, S, Z, K, R>,
>(rt: &R, pool: &Pool<M, S, Z, K, R, L>, threads: usize, service: &V) -> Result<V::Outcome, Memory>
    requires suits { V.suits service.now (basis_of pool.now) }
    ensures outcome { IfOk result (IsOutcome
        (V.begins service.now) (V.reports service.now) (V.ends service.now)
        (basis_of pool.now) threads) }
{
    if let Err(outcome) = service.begin(pool) {
        return Ok(outcome);
    }
    let job = OnPool { pool, service };
    let results = in_threads(rt, threads, &job)?;
    Ok(service.end(pool, &results))
}

/// Starts a driver of the pool in its own thread, which makes turns until the flag is set.
fn drive_while<
    M: ManageConnection,
    S: ErrorSink<M::Error>,
    Z: CustomizeConnection<M::Connection, M::Error>,
    K: Clock,
    R: Threads + Wait + AllocGlobal + Copy + Send + Sync + Drop + 'static,
    L: PoolPermits + 'static,
>(
    pool: &Pool<M, S, Z, K, R, L>,
    rt: R,
    over: Arc<AtomicBool, Global>,
) -> Result<JoinHandle<Driven>, Memory> {
    let driver = Driver::new(pool)?;
    Ok(drive(&rt, driver, WhileServing { over })?)
}

/// Runs a service over a pool with these permits.
fn serve_with<
    M: ManageConnection,
    S: ErrorSink<M::Error>,
    Z: CustomizeConnection<M::Connection, M::Error>,
    K: Clock,
    R: Threads + Wait + AllocGlobal + Copy + Send + Sync + Drop + 'static,
    L: PoolPermits + 'static,
    V: Service<M, S, Z, K, R>,
>(
    builder: Builder<M, S, Z>,
    manager: M,
    clock: K,
    rt: R,
    blank: Blank,
    threads: usize,
    service: &V,
) -> Result<V::Outcome, RunError<M::Error>>
    requires lawful { is_lawful builder.settings ≡ true }
    requires parts { IsBlankOf blank builder.settings L.name L.parts L.settings }
    requires suits { V.suits service.now (basis builder manager clock) }
    ensures outcome { IfOk result (IsOutcome
        (V.begins service.now) (V.reports service.now) (V.ends service.now)
        (basis builder manager clock) threads) }
    ensures failed { IfErr result (IsBuildError
        (M.connect_answers manager) (Z.acquire_answers builder.connection_customizer)) }
{
    let over = Arc::new(rt.alloc(), AtomicBool::new(false)).or_memory::<M::Error>()?;
    let seen = Arc::try_clone(&over).or_memory::<M::Error>()?;
    let pool: Pool<M, S, Z, K, R, L> = built(builder, manager, clock, rt, blank)?;
    let thread = drive_while(&pool, rt, seen).or_memory::<M::Error>()?;
    let outcome = run_service(&rt, &pool, threads, service);
    over.store(true, Ordering::Relaxed);
    drop(pool);
    let _ = thread.join(&rt);
    outcome.or_memory()
}

impl<
    M: ManageConnection,
    S: ErrorSink<M::Error>,
    Z: CustomizeConnection<M::Connection, M::Error>,
> Builder<M, S, Z> {
    /// Builds a pool as `build` does, with its own permits, and sleeps until its first connections
    /// are open. Then it runs a service over the pool: `begin`, then `run` for each number, in its
    /// own thread if one can be started, and `end` once all have ended. Meanwhile a driver makes
    /// the pool's turns in one more thread, which sleeps while there is nothing to do
    /// (`Driver::run`). Then the pool and the driver are dropped.
    ///
    /// Returns `User` with the error of a first connection that could not be opened, and `Memory`
    /// if the pool or a thread for its driver could not be made; then the service did not begin. It
    /// returns `Memory`, too, if memory for the threads' results is refused; then some may have
    /// run, but `end` does not run. Settings are as for `build`.
    pub fn serve<
        K: Clock,
        R: Threads + Wait + AllocGlobal + Copy + Send + Sync + Drop + 'static,
        V: Service<M, S, Z, K, R>,
    >(
        self,
        manager: M,
        clock: K,
        rt: R,
        threads: usize,
        service: &V,
    ) -> Result<V::Outcome, RunError<M::Error>>
        requires lawful { is_lawful self.settings ≡ true }
        requires suits { V.suits service.now (basis self manager clock) }
        ensures outcome { IfOk result (IsOutcome
            (V.begins service.now) (V.reports service.now) (V.ends service.now)
            (basis self manager clock) threads) }
        ensures failed { IfErr result (IsBuildError
            (M.connect_answers manager) (Z.acquire_answers self.connection_customizer)) }
    {
        let config = Config::from(&self);
        let blank = Blank::new(config.max_size as u64);
        serve_with::<M, S, Z, K, R, Brand, V>(self, manager, clock, rt, blank, threads, service)
    }
}
