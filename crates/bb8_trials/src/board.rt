//! A server that a test configures as it goes on.
ghost use Rattle.std.specs.Prelude.{◌≡◌, IfOk};
ghost use Rattle.bb8.specs.Settings.{default_settings};

use bb8::{Builder, ErrorSink, Gate, ManageConnection, Memory, Moment, NopCustomizer, Pool};
use futures::task::Poll;
use std::alloc::Global;
use std::error::Error;
use std::sync::Arc;
use std::sync::atomic::{AtomicU64, Ordering};
use std::{fmt, thread};

/// One second in nanoseconds.
pub const SECOND: u64 = 1_000_000_000;

/// An unlimited number of times.
pub const ALWAYS: u64 = u64::MAX;

/// The stage in which no callback waits.
pub const OPEN: u64 = 0;

/// The stage in which the next callback waits.
pub const ARMED: u64 = 1;

/// The stage in which a callback waits for another stage.
pub const WAITING: u64 = 2;

/// How often a thread looks before it gives up.
pub const LOOKS: u32 = 10_000_000;

/// A number that a test shares with its pool.
#[derive(Drop, Default)]
pub struct Number {
    value: AtomicU64,
}

impl Number {
    /// Returns a `Number` with this value.
    pub fn new(value: u64) -> Number {
        Number {
            value: AtomicU64::new(value),
        }
    }

    pub fn get(&self) -> u64 {
        self.value.load(Ordering::SeqCst)
    }

    pub fn set(&self, value: u64) {
        self.value.store(value, Ordering::SeqCst);
    }

    /// Adds one, and returns the new value.
    pub fn count(&self) -> u64 {
        self.value.fetch_add(1, Ordering::SeqCst).saturating_add(1)
    }

    /// Whether the value becomes `value` (or, if not `is_it`, another one) within `LOOKS` looks.
    pub fn comes_to(&self, value: u64, is_it: bool) -> bool {
        for _ in 0..LOOKS {
            if (self.get() == value) == is_it {
                return true;
            }
            thread::yield_now();
        }
        false
    }

    /// Takes one, and returns whether there was one. `ALWAYS` never decreases.
    fn take_one(&self) -> bool {
        let left = self.get();
        if left != 0 && left != ALWAYS {
            self.set(left - 1);
        }
        left != 0
    }
}

/// The result of each poll of an attempt or a check.
#[derive(Clone, Copy, Debug, PartialEq, Eq)]
pub enum Course {
    /// Ready and Ok.
    Passes,
    /// Pending.
    Lasts,
    /// An error.
    Fails,
}

/// A course that a test sets, at first `Passes`.
#[derive(Drop, Default)]
pub struct Switch {
    course: Number,
}

impl Switch {
    pub fn set(&self, course: Course) {
        self.course.set(course as u64);
    }

    fn get(&self) -> Course {
        match self.course.get() {
            0 => Course::Passes,
            1 => Course::Lasts,
            _ => Course::Fails,
        }
    }
}

/// How a server replies, and what it has counted. A test and its pool share it.
#[derive(Drop, Default)]
pub struct Board {
    /// `ARMED` if the next poll of an attempt is to wait. It fails if it waits too long.
    pub stage: Number,
    /// Before this moment, in nanoseconds of the pool's clock, each attempt is pending.
    pub ready: Number,
    /// The course of attempts.
    pub opening: Switch,
    /// How many attempts pass; later ones fail.
    pub opens: Number,
    /// How many attempts fail before that.
    pub fails: Number,
    /// The course of checks.
    pub check: Switch,
    /// How often a connection is found broken.
    pub breaks: Number,
    /// How many attempts were begun.
    pub begun: Number,
    /// How many connections were made, and how many were dropped.
    pub made: Number,
    pub closed: Number,
    /// How often each of the first fifteen was dropped: a hexadecimal digit each, the last digit
    /// for the first one.
    drops: Number,
    /// How many errors the sink has taken.
    pub errors: Number,
}

impl Board {
    /// Returns a server whose attempts and checks all pass, and whose connections are never broken.
    pub fn new(alloc: Global) -> Result<Arc<Board, Global>, Memory> {
        let board = Board::default();
        board.opens.set(ALWAYS);
        Ok(Arc::new(alloc, board)?)
    }

    /// Whether each connection that was made was dropped once.
    pub fn is_each_dropped_once(&self) -> bool {
        let mut once: u64 = 0;
        for _ in 0..self.made.get() {
            once = once.wrapping_mul(16).saturating_add(1);
        }
        self.made.get() < 16 && self.drops.get() == once
    }
}

/// Returns a server that replies as this board says.
pub fn server_on(board: &Arc<Board, Global>) -> Result<Server, Memory> {
    Ok(Server {
        board: Arc::try_clone(board)?,
    })
}

/// A builder of pools of a server's connections.
pub type ServerBuilder = Builder<Server, Errors>;

/// A pool of a server's connections, with a clock of this type.
pub type ServerPool<K, R, L> = Pool<Server, Errors, NopCustomizer, K, R, L>;

/// Returns a builder with the defaults, whose pools' errors are counted on the board.
pub fn builder_on(board: &Arc<Board, Global>) -> Result<ServerBuilder, Memory>
    ensures { IfOk result (λ builder. builder.settings ≡ default_settings) }
{
    Ok(Builder::new().error_sink(Errors {
        board: Arc::try_clone(board)?,
    }))
}

/// Returns a connection of this number, made without an attempt.
pub fn connection_on(board: &Arc<Board, Global>, number: u64) -> Result<ServerConnection, Memory> {
    let shared = Arc::try_clone(board)?;
    let before = board.made.count().min(17).saturating_sub(1);
    Ok(ServerConnection {
        number,
        checks: 0,
        field: 0,
        is_broken: false,
        digit: 16_u64.wrapping_pow(before as u32),
        board: shared,
    })
}

/// A connection, which counts its drop.
pub struct ServerConnection {
    /// The number of its attempt, from 1 on, or one that a test gives it.
    pub number: u64,
    /// How many of its checks were begun.
    pub checks: u64,
    /// 0, or a number that a customizer set.
    pub field: u64,
    /// Whether it is found broken, whatever the board's `breaks`.
    pub is_broken: bool,
    digit: u64,
    board: Arc<Board, Global>,
}

impl Drop for ServerConnection {
    fn drop(self) {
        let ServerConnection {
            number: _number,
            checks: _checks,
            field: _field,
            is_broken: _is_broken,
            digit,
            board,
        } = self;
        board.closed.count();
        board.drops.value.fetch_add(digit, Ordering::SeqCst);
    }
}

/// The error of a server: the attempt of this number failed, or, if 0, a check.
#[derive(Clone, Copy, Debug, PartialEq, Eq)]
pub struct Refused(pub u64);

impl fmt::Display for Refused {
    fn fmt<W: fmt::Write>(&self, f: &mut fmt::Formatter<W>) -> fmt::Result {
        write!(f, "refused {}", self.0)
    }
}

impl Error for Refused {}

/// Replies as its board says.
#[derive(Drop)]
pub struct Server {
    board: Arc<Board, Global>,
}

impl ManageConnection for Server {
    type Connection = ServerConnection;

    type Error = Refused;

    type Connecting = u64;

    type Checking = ();

    fn connect(&self) -> u64 {
        self.board.begun.count()
    }

    fn poll_connect(
        &self,
        connecting: &mut u64,
        moment: Moment,
    ) -> Poll<Result<ServerConnection, Refused>> {
        let board = &*self.board;
        let number = *connecting;
        if board.stage.get() == ARMED {
            board.stage.set(WAITING);
            if !board.stage.comes_to(WAITING, false) {
                return Poll::Ready(Err(Refused(number)));
            }
        }
        match board.opening.get() {
            _ if moment < Moment(board.ready.get()) => Poll::Pending,
            Course::Lasts => Poll::Pending,
            Course::Passes if !board.fails.take_one() && board.opens.take_one() => {
                Poll::Ready(connection_on(&self.board, number).map_err(|_| Refused(number)))
            }
            _ => Poll::Ready(Err(Refused(number))),
        }
    }

    fn is_valid(&self, connection: &mut ServerConnection) {
        connection.checks = connection.checks.saturating_add(1);
    }

    fn poll_valid(
        &self,
        _connection: &mut ServerConnection,
        _checking: &mut (),
        _moment: Moment,
    ) -> Poll<Result<(), Refused>> {
        match self.board.check.get() {
            Course::Passes => Poll::Ready(Ok(())),
            Course::Lasts => Poll::Pending,
            Course::Fails => Poll::Ready(Err(Refused(0))),
        }
    }

    fn has_broken(&self, connection: &mut ServerConnection) -> bool {
        connection.is_broken || self.board.breaks.take_one()
    }
}

/// Counts the errors that it takes on its board.
#[derive(Drop)]
pub struct Errors {
    board: Arc<Board, Global>,
}

impl ErrorSink<Refused> for Errors {
    fn sink(&self, _error: Refused) {
        self.board.errors.count();
    }
}

/// A gate that ends a driver's run after one turn.
#[derive(Clone, Copy)]
pub struct OneTurn;

impl Gate for OneTurn {
    fn pause(&mut self) -> bool {
        false
    }
}
