//! The measured manager and pool.

use bb8::{
    Blocking, BlockingManager, Clock, GetFuture, Moment, NopCustomizer, NopErrorSink, Pool,
    PooledConnection,
};
use std::error::Error;
use std::fmt;

/// A clock that never moves.
#[derive(Drop)]
pub struct StillClock;

impl Clock for StillClock {
    fn now(&self) -> Moment {
        Moment(0)
    }
}

/// A pool whose connections are numbers.
pub type NumberPool<K, R, L> = Pool<Blocking<NumberManager>, NopErrorSink, NopCustomizer, K, R, L>;

/// The future of a get of such a pool.
pub type NumberGet<'a, K, R, L> = GetFuture<
    'a,
    Blocking<NumberManager>,
    NopErrorSink,
    NopCustomizer,
    K,
    R,
    L,
>;

/// A guard of such a pool.
pub type NumberGuard<'a, K, R, L> = PooledConnection<
    'a,
    Blocking<NumberManager>,
    NopErrorSink,
    NopCustomizer,
    K,
    R,
    L,
>;

/// Opens connections with the number 7, and finds each one valid and not broken.
#[derive(Drop)]
pub struct NumberManager;

/// An error that never occurs.
#[derive(Clone, Copy, Debug)]
pub struct Never;

impl fmt::Display for Never {
    fn fmt<W: fmt::Write>(&self, f: &mut fmt::Formatter<W>) -> fmt::Result {
        f.write_str("never")
    }
}

impl Error for Never {}

impl BlockingManager for NumberManager {
    type Connection = u64;

    type Error = Never;

    fn connect(&self) -> Result<u64, Never> {
        Ok(7)
    }

    fn is_valid(&self, _connection: &mut u64) -> Result<(), Never> {
        Ok(())
    }

    fn has_broken(&self, _connection: &mut u64) -> bool {
        false
    }
}
