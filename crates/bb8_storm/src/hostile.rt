//! The user callbacks of the storm's pool, whose results change at every call, and what they and
//! the threads count.

use bb8::{Clock, CustomizeConnection, ErrorSink, ManageConnection, Memory, Moment, Pool, State};
use bb8_trials::{Number, RandomSource, Refused};
use futures::task::Poll;
use std::alloc::Global;
use std::mem;
use std::sync::Arc;
use std::sync::atomic::{AtomicU64, Ordering};

/// One of this many connections is found broken.
const BROKEN: u64 = 8;

/// The greatest step of the clock, forwards and backwards, in nanoseconds.
const STRIDE: u64 = 100;

/// A clone of a gauge, which counts its clones until they are dropped. None if there are too many.
type Token = Option<Arc<(), Global>>;

/// A connection, which is counted until its drop, and while it is held.
#[derive(Drop)]
pub struct Counted {
    life: Token,
    held: Token,
}

impl Counted {
    /// Counts it as held by the caller. Returns false if it was held already.
    pub fn hold(&mut self, harness: &Harness) -> bool {
        mem::replace(&mut self.held, harness.busy()).is_none()
    }
}

/// The source of all results of a pool's callbacks, the state of its clock, and all counts.
#[derive(Drop)]
pub struct Harness {
    source: RandomSource,
    /// How often the clock was read, and its latest forward reading.
    readings: Number,
    latest: AtomicU64,
    /// The gauge of connections.
    connections: Arc<(), Global>,
    /// The gauge of attempts, preparations and checks in progress, and of connections that were
    /// served, until the manager is asked about them again.
    busy: Arc<(), Global>,
    /// The gets of all threads, and how they ended.
    pub begun: Number,
    pub served: Number,
    pub timed_out: Number,
    pub cancelled: Number,
    /// Connections with two holders at a time, results that no get of the pool may have, and states
    /// out of bounds.
    pub wrong: Number,
}

impl Harness {
    fn busy(&self) -> Token {
        Arc::try_clone(&self.busy).ok()
    }

    /// Returns a counted connection, which nobody holds.
    pub fn connection(&self) -> Counted {
        Counted {
            life: Arc::try_clone(&self.connections).ok(),
            held: None,
        }
    }

    /// Returns the result of a poll of a check or a preparation: pending in half of the cases, an
    /// error in an eighth of them.
    fn poll(&self) -> Poll<Result<(), Refused>> {
        match self.source.below(8) {
            0..=2 => Poll::Ready(Ok(())),
            3 => Poll::Ready(Err(Refused(self.source.next()))),
            _ => Poll::Pending,
        }
    }

    /// Whether nothing is busy, and there are this many connections.
    pub fn rests_with(&self, connections: u32) -> bool {
        Arc::strong_count(&self.busy) == 1
            && Arc::strong_count(&self.connections) as u64 - 1 == u64::from(connections)
    }

    /// Whether nothing was wrong, the pool has counted the same gets, none of them is pending,
    /// nothing is busy, and all connections that were not dropped are in the pool and idle.
    pub fn agrees(&self, state: &State) -> bool {
        let counts = state.statistics;
        self.wrong.get() == 0
            && counts.get_started == self.begun.get()
            && counts.get_direct.saturating_add(counts.get_waited) == self.served.get()
            && counts.get_timed_out == self.timed_out.get()
            && counts.get_cancelled == self.cancelled.get()
            && counts.pending_gets() == 0
            && state.connections == state.idle_connections
            && self.rests_with(state.connections)
    }
}

/// A pool whose callbacks are all hostile.
pub type HostilePool<R, L> = Pool<Hostile, Hostile, Hostile, Hostile, R, L>;

/// The manager, the error sink, the customizer or the clock of a pool. No result depends on the
/// connection or on the moment, and in one thread they are the same in each run.
#[derive(Drop, Clone)]
pub struct Hostile(pub Arc<Harness, Global>);

impl Hostile {
    /// Returns a callback whose clones' results this seed determines. Returns `Memory` if memory is
    /// refused.
    pub fn new(alloc: Global, seed: u64) -> Result<Hostile, Memory> {
        let harness = Harness {
            source: RandomSource::new(seed),
            readings: Number::new(0),
            latest: AtomicU64::new(0),
            connections: Arc::new(alloc, ())?,
            busy: Arc::new(alloc, ())?,
            begun: Number::new(0),
            served: Number::new(0),
            timed_out: Number::new(0),
            cancelled: Number::new(0),
            wrong: Number::new(0),
        };
        Ok(Hostile(Arc::new(alloc, harness)?))
    }
}

/// Opens, checks and breaks connections: each poll of an attempt is pending in half of the cases,
/// and fails in a quarter of them.
impl ManageConnection for Hostile {
    type Connection = Counted;

    type Error = Refused;

    type Connecting = Token;

    type Checking = Token;

    fn connect(&self) -> Token {
        self.0.busy()
    }

    fn poll_connect(&self, _: &mut Token, _: Moment) -> Poll<Result<Counted, Refused>> {
        match self.0.source.below(4) {
            0 => Poll::Ready(Ok(self.0.connection())),
            1 => Poll::Ready(Err(Refused(self.0.source.next()))),
            _ => Poll::Pending,
        }
    }

    fn is_valid(&self, _: &mut Counted) -> Token {
        self.0.busy()
    }

    fn poll_valid(&self, _: &mut Counted, _: &mut Token, _: Moment) -> Poll<Result<(), Refused>> {
        self.0.poll()
    }

    /// Counts the connection as no longer held, since it was returned.
    fn has_broken(&self, connection: &mut Counted) -> bool {
        connection.held = None;
        self.0.source.below(BROKEN) == 0
    }
}

impl CustomizeConnection<Counted, Refused> for Hostile {
    type Acquiring = Token;

    fn on_acquire(&self, _: &mut Counted) -> Token {
        self.0.busy()
    }

    fn poll_acquire(&self, _: &mut Counted, _: &mut Token, _: Moment) -> Poll<Result<(), Refused>> {
        self.0.poll()
    }
}

impl ErrorSink<Refused> for Hostile {
    fn sink(&self, _: Refused) {}
}

/// The readings alternately go forwards and backwards. The first, third and so on advance from the
/// previous of these; each other one is earlier than the one before it, unless that was 0.
impl Clock for Hostile {
    fn now(&self) -> Moment {
        let harness = &*self.0;
        let span = harness.source.below(STRIDE).saturating_add(1);
        if harness.readings.count() % 2 == 1 {
            let before = harness.latest.fetch_add(span, Ordering::SeqCst);
            return Moment(before.saturating_add(span));
        }
        Moment(harness.latest.load(Ordering::SeqCst).saturating_sub(span))
    }
}
