//! The pool's types by manager, error sink, customizer, clock, runtime and permits. In their
//! modules the first five are one parameter.
use crate::{MachineClock, building, dedicated, driver, get, guards, owned, pool};
use bb8_core::api::{NopCustomizer, NopErrorSink};
use bb8_lock::TypesOf;

/// A handle of a pool, `pool::Pool`.
pub type Pool<M, S, Z, K, R, L> = pool::Pool<TypesOf<M, S, Z, K, R>, L>;

/// A handle of a pool without sink and customizer, on the machine's clock, as `Builder::new()` and
/// `serve` make it with a `MachineClock`.
pub type PlainPool<M, R, L> = Pool<M, NopErrorSink, NopCustomizer, MachineClock<R>, R, L>;

/// A guard, `pool::PooledConnection`.
pub type PooledConnection<'a, M, S, Z, K, R, L> = pool::PooledConnection<
    'a,
    TypesOf<M, S, Z, K, R>,
    L,
>;

/// The future of a get, `get::GetFuture`.
pub type GetFuture<'a, M, S, Z, K, R, L> = get::GetFuture<'a, TypesOf<M, S, Z, K, R>, L>;

/// The future of a get with its own handle, `owned::GetOwnedFuture`.
pub type GetOwnedFuture<M, S, Z, K, R, L> = owned::GetOwnedFuture<TypesOf<M, S, Z, K, R>, L>;

/// A guard with its own handle, `owned::OwnedConnection`.
pub type OwnedConnection<M, S, Z, K, R, L> = owned::OwnedConnection<TypesOf<M, S, Z, K, R>, L>;

/// The future of a connection that the pool does not count, `dedicated::DedicatedFuture`.
pub type DedicatedFuture<'a, M, S, Z, K, R, L> = dedicated::DedicatedFuture<
    'a,
    TypesOf<M, S, Z, K, R>,
    L,
>;

/// The future of a pool that is being built, `building::Building`.
pub type Building<M, S, Z, K, R, L> = building::Building<TypesOf<M, S, Z, K, R>, L>;

/// A driver, `driver::Driver`.
pub type Driver<M, S, Z, K, R, L> = driver::Driver<TypesOf<M, S, Z, K, R>, L>;

/// A list of guards, `guards::Guards`.
pub type Guards<'a, M, S, Z, K, R, L> = guards::Guards<'a, TypesOf<M, S, Z, K, R>, L>;
