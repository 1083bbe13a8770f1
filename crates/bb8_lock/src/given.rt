//! The user's types of a pool, as one type.
use crate::Locks;
use bb8_core::api::{Clock, CustomizeConnection, ErrorSink, ManageConnection};
use std::fmt::Debug;
use std::marker::PhantomData;

/// The user's types of one pool: manager, sink, customizer, clock, runtime, and their own types.
/// `TypesOf` is the only implementer.
pub trait PoolTypes: Drop + 'static {
    /// The manager.
    type Manager: ManageConnection<
        Connection = Self::Connection,
        Error = Self::Error,
        Connecting = Self::Connecting,
        Checking = Self::Checking,
    >;

    /// The sink of errors that no caller waits for.
    type Sink: ErrorSink<Self::Error>;

    /// The customizer, which prepares connections.
    type Customizer: CustomizeConnection<
        Self::Connection,
        Self::Error,
        Acquiring = Self::Acquiring,
    >;

    /// The clock.
    type Clock: Clock;

    /// The runtime that acquires the lock.
    type Runtime: Locks;

    /// The manager's connections.
    type Connection: Send + Drop + 'static;

    /// The manager's errors.
    type Error: Debug + Send + Drop + 'static;

    /// The manager's connection attempts.
    type Connecting: Send + Drop + 'static;

    /// The manager's checks.
    type Checking: Send + Drop + 'static;

    /// The customizer's preparations.
    type Acquiring: Send + Drop + 'static;
}

/// A manager, an error sink, a customizer, a clock and a runtime, as one type. It has no values.
#[derive(Drop)]
pub struct TypesOf<M, S, Z, K, R> {
    which: PhantomData<(M, S, Z, K, R)>,
}

impl<
    M: ManageConnection,
    S: ErrorSink<M::Error>,
    Z: CustomizeConnection<M::Connection, M::Error>,
    K: Clock,
    R: Locks,
> PoolTypes for TypesOf<M, S, Z, K, R> {
    type Manager = M;

    type Sink = S;

    type Customizer = Z;

    type Clock = K;

    type Runtime = R;

    type Connection = M::Connection;

    type Error = M::Error;

    type Connecting = M::Connecting;

    type Checking = M::Checking;

    type Acquiring = Z::Acquiring;
}
