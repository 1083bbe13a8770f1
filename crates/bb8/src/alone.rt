//! A pool for one thread, for small programs and tests.
ghost use Rattle.std.specs.Prelude.{◌≡◌, ⊤, IfOk, true};
ghost use Rattle.bb8_types.specs.Settings.{is_lawful};
ghost use Rattle.bb8_lock.specs.Permits.{IsBlankOf};
ghost use Rattle.bb8.specs.Drivers.{IsDriverOf};
ghost use Rattle.bb8.specs.Services.{Basis, basis, basis_of};

use crate::{Builder, Driver, Pool};
use bb8_core::api::{Clock, Config, CustomizeConnection, ErrorSink, ManageConnection, Memory};
use bb8_lock::{Locks, PoolPermits};
use std::marker::Brand;
use std::sync::Wait;
use std::sync::ledger::Blank;

/// The work of one thread with a pool and its driver, for any permits `L`, run by
/// `Builder::with_pool`.
///
/// As in a `Service`, its method calls the pool by `PoolCalls` and the driver by `DriverCalls`. Its
/// ghost members relate its arguments and its result, with what the pool was built from. One that
/// is left out allows everything.
pub trait User<
    M: ManageConnection,
    S: ErrorSink<M::Error>,
    Z: CustomizeConnection<M::Connection, M::Error>,
    K: Clock,
    R: Locks,
> {
    /// The result.
    type Outcome;

    // Holds of a user and the `Basis` of each pool that it may run over.
    ghost suits: { Self → Basis M S Z K → Type 0 } = { λ _ _. ⊤ };

    // Holds of a user, the `Basis` of its pool, and each outcome that it may have.
    ghost comes_to: { Self → Basis M S Z K → Self.Outcome → Type 0 } = { λ _ _ _. ⊤ };

    /// Runs over the pool, which has no connection yet, and its driver, which has made no turn.
    fn run<L: PoolPermits>(
        &self,
        pool: &Pool<M, S, Z, K, R, L>,
        driver: &mut Driver<M, S, Z, K, R, L>,
    ) -> Self::Outcome
        requires pool { suits self.now (basis_of pool.now) }
        requires driver { IsDriverOf driver.old pool.now }
        ensures { comes_to self.now (basis_of pool.now) result };
}

/// Runs a user over a pool with these permits.
fn run_with<
    M: ManageConnection,
    S: ErrorSink<M::Error>,
    Z: CustomizeConnection<M::Connection, M::Error>,
    K: Clock,
    R: Wait + AllocGlobal + Send + Sync + Drop + 'static,
    L: PoolPermits,
    V: User<M, S, Z, K, R>,
>(
    builder: Builder<M, S, Z>,
    manager: M,
    clock: K,
    rt: R,
    blank: Blank,
    user: &V,
) -> Result<V::Outcome, Memory>
    requires lawful { is_lawful builder.settings ≡ true }
    requires parts { IsBlankOf blank builder.settings L.name L.parts L.settings }
    requires suits { V.suits user.now (basis builder manager clock) }
    ensures { IfOk result (V.comes_to user.now (basis builder manager clock)) }
{
    let pool: Pool<M, S, Z, K, R, L> = builder.build_unchecked(manager, clock, rt, blank)?;
    let mut driver = Driver::new(&pool)?;
    Ok(user.run(&pool, &mut driver))
}

impl<
    M: ManageConnection,
    S: ErrorSink<M::Error>,
    Z: CustomizeConnection<M::Connection, M::Error>,
> Builder<M, S, Z> {
    /// Builds a pool as `build_unchecked` does, with its own permits, and runs a user over it and a
    /// driver of it, in this thread. Then both are dropped.
    ///
    /// It starts no thread and waits for nothing: connections are opened when the user turns the
    /// driver. It is for small programs, and for tests on a `SetClock`. It returns `Memory` only if
    /// memory for the pool or its driver was refused; then the user did not run.
    pub fn with_pool<
        K: Clock,
        R: Wait + AllocGlobal + Send + Sync + Drop + 'static,
        V: User<M, S, Z, K, R>,
    >(self, manager: M, clock: K, rt: R, user: &V) -> Result<V::Outcome, Memory>
        requires lawful { is_lawful self.settings ≡ true }
        requires suits { V.suits user.now (basis self manager clock) }
        ensures { IfOk result (V.comes_to user.now (basis self manager clock)) }
    {
        let config = Config::from(&self);
        let blank = Blank::new(config.max_size as u64);
        run_with::<M, S, Z, K, R, Brand, V>(self, manager, clock, rt, blank, user)
    }
}
