//! The task that opens the connection of one approval, and its polls.
ghost use Rattle.std.specs.Prelude.{◌≡◌};
ghost use Rattle.std.specs.Duration.{as_nanos};
ghost use Rattle.bb8_tasks.specs.Dues.{poll_due};
ghost use Rattle.bb8_tasks.specs.Replenishing.{IsDue, failed_once_more, is_done, DropsTask, TaskFails, Enters, TaskAcquires, TaskConnects, TaskBegins, TaskAdvances, TaskProceeds, TaskPolls, LetsGo, fresh};
ghost use Rattle.bb8_tasks.specs.declared.replenish.ReplenishStage.TheVariants.{Done as IsDone};

use super::home::Home;
use super::opener::Opener;
use super::waits::wait_after;
use bb8_core::api::{Config, Moment};
use bb8_core::internals::{Key, OpenedAnswer};
use futures::task::Poll;
use std::mem;
use std::time::Duration;

/// The result of a poll of a task.
#[derive(Drop, Debug, PartialEq, Eq)]
pub enum ReplenishAnswer<E> {
    /// In progress; poll again.
    Pending,
    /// A try failed with this error. The task tries again later.
    Retrying(E),
    /// The last try failed with this error. The approval was freed, and the task has ended.
    Failed(E),
    /// The connection was added to the pool, and the task has ended.
    Entered,
    /// The connection was opened too late: it had been retired, or no handle was alive. It was
    /// dropped, an approval for a waiter was asked for, and the task has ended.
    Late,
    /// The approval was freed or was no longer known, and the task has ended; or it had ended
    /// before this poll.
    GivenBack,
}

/// The tries of a task so far.
#[derive(Clone, Copy, Debug)]
pub struct Tries {
    /// The moment of the first try.
    pub start: Moment,
    /// The number of failed tries. It saturates.
    pub failures: u32,
}

/// The stage of a task between its polls. It cannot be dropped implicitly.
pub enum ReplenishStage<C, V, A> {
    /// Not polled yet.
    Start,
    /// Connecting.
    Connecting(Tries, V),
    /// The connection is open and is being prepared by the customizer.
    Acquiring(Tries, C, A),
    /// A try failed. The next one is due at this moment; if None, never.
    Sleeping(Tries, Option<Moment>),
    /// The task has ended.
    Done,
}

/// The result of a poll, and the stage after it.
pub struct ReplenishStep<C, V, A, E> {
    /// The result.
    pub answer: ReplenishAnswer<E>,
    /// The stage after the poll.
    pub stage: ReplenishStage<C, V, A>,
}

/// The inputs of one poll: two settings, the approval and the effective moment.
#[derive(Clone, Copy)]
struct PollInput {
    timeout: Duration,
    retry: bool,
    approval: Key,
    moment: Moment,
}

/// Returns the moment that is `span` after `moment`; None (never) if it exceeds the greatest
/// moment.
fn moment_after(moment: Moment, span: Duration) -> Option<Moment>
    ensures { IsDue moment (as_nanos span) result }
{
    let nanos = u64::try_from(span.as_nanos()).ok()?;
    Some(Moment(moment.0.checked_add(nanos)?))
}

/// Counts one more failure.
fn one_more(tries: Tries) -> Tries
    ensures { result ≡ failed_once_more tries }
{
    Tries {
        start: tries.start,
        failures: tries.failures.saturating_add(1),
    }
}

/// Returns this result and stage as one value.
fn leaves<C, V, A, E>(
    answer: ReplenishAnswer<E>,
    stage: ReplenishStage<C, V, A>,
) -> ReplenishStep<C, V, A, E>
    ensures answer { result.answer ≡ answer }
    ensures stage { result.stage ≡ stage }
{
    ReplenishStep { answer, stage }
}

/// Ends what is in progress, then drops the connection, if the stage has one.
fn let_go<C, E, X: Opener<C, E>>(
    pool: &mut X,
    stage: ReplenishStage<C, X::Connecting, X::Acquiring>,
)
    ensures { DropsTask X.Opener stage pool.old pool.new }
{
    match stage {
        ReplenishStage::Acquiring(_, connection, acquiring) => {
            pool.end_acquire(acquiring);
            pool.let_go(connection);
        }
        ReplenishStage::Connecting(_, connecting) => pool.end_connect(connecting),
        ReplenishStage::Sleeping(_tries, _due) => {}
        ReplenishStage::Start | ReplenishStage::Done => {}
    }
}

impl<C, V, A> ReplenishStage<C, V, A> {
    /// Whether the task has ended.
    fn is_done(&self) -> bool
        ensures { result ≡ is_done self.now }
    {
        match self {
            ReplenishStage::Done => true,
            ReplenishStage::Start
            | ReplenishStage::Connecting(..)
            | ReplenishStage::Acquiring(..)
            | ReplenishStage::Sleeping(..) => { false }
        }
    }
}

impl PollInput {
    /// Handles a failed try: gives the approval back after the last one, else schedules the next.
    fn fail<C, V, A, E, X: Home<C>>(
        self,
        pool: &mut X,
        tries: Tries,
        error: E,
    ) -> ReplenishStep<C, V, A, E>
        ensures { TaskFails X.Home (as_nanos self.timeout) self.retry self.approval self.moment
            tries error pool.old result pool.new }
    {
        let elapsed = u128::from(self.moment.0.saturating_sub(tries.start.0));
        if !self.retry || elapsed > self.timeout.as_nanos() {
            let _ = pool.failed(self.moment, self.approval);
            return leaves(ReplenishAnswer::Failed(error), ReplenishStage::Done);
        }
        let tries = one_more(tries);
        let due = moment_after(self.moment, wait_after(tries.failures, self.timeout));
        leaves(
            ReplenishAnswer::Retrying(error),
            ReplenishStage::Sleeping(tries, due),
        )
    }

    /// Adds the connection to the pool. If it comes too late, it is dropped, and then the home is
    /// asked to grant approvals for waiters, which have lost this one.
    fn enter<C, E, X: Home<C> + Opener<C, E>>(
        self,
        pool: &mut X,
        connection: C,
    ) -> ReplenishStep<C, X::Connecting, X::Acquiring, E>
        ensures { Enters X.Home (as_nanos self.timeout) self.retry self.approval self.moment
            X.Opener connection pool.old result pool.new }
    {
        match pool.opened(self.moment, self.approval, connection) {
            Ok(OpenedAnswer::Entered(_)) => leaves(ReplenishAnswer::Entered, ReplenishStage::Done),
            Ok(OpenedAnswer::Late(connection)) => {
                pool.let_go(connection);
                let _ = pool.ask(self.moment);
                leaves(ReplenishAnswer::Late, ReplenishStage::Done)
            }
            Err(connection) => {
                pool.let_go(connection);
                leaves(ReplenishAnswer::GivenBack, ReplenishStage::Done)
            }
        }
    }

    /// Polls the preparation of an open connection.
    fn acquire<C, E, X: Home<C> + Opener<C, E>>(
        self,
        pool: &mut X,
        tries: Tries,
        mut connection: C,
        mut acquiring: X::Acquiring,
    ) -> ReplenishStep<C, X::Connecting, X::Acquiring, E>
        ensures { TaskAcquires X.Home (as_nanos self.timeout) self.retry self.approval self.moment
            X.Opener tries connection acquiring pool.old result pool.new }
    {
        match pool.poll_acquire(&mut connection, &mut acquiring, self.moment) {
            Poll::Pending => leaves(
                ReplenishAnswer::Pending,
                ReplenishStage::Acquiring(tries, connection, acquiring),
            ),
            Poll::Ready(Ok(())) => {
                pool.end_acquire(acquiring);
                self.enter(pool, connection)
            }
            Poll::Ready(Err(error)) => {
                pool.end_acquire(acquiring);
                pool.let_go(connection);
                self.fail(pool, tries, error)
            }
        }
    }

    /// Polls the connection attempt.
    fn connect<C, E, X: Home<C> + Opener<C, E>>(
        self,
        pool: &mut X,
        tries: Tries,
        mut connecting: X::Connecting,
    ) -> ReplenishStep<C, X::Connecting, X::Acquiring, E>
        ensures { TaskConnects X.Home (as_nanos self.timeout) self.retry self.approval self.moment
            X.Opener tries connecting pool.old result pool.new }
    {
        match pool.poll_connect(&mut connecting, self.moment) {
            Poll::Pending => leaves(
                ReplenishAnswer::Pending,
                ReplenishStage::Connecting(tries, connecting),
            ),
            Poll::Ready(Ok(mut connection)) => {
                pool.end_connect(connecting);
                let acquiring = pool.on_acquire(&mut connection);
                self.acquire(pool, tries, connection, acquiring)
            }
            Poll::Ready(Err(error)) => {
                pool.end_connect(connecting);
                self.fail(pool, tries, error)
            }
        }
    }

    /// Begins a connection attempt and polls it.
    fn begin<C, E, X: Home<C> + Opener<C, E>>(
        self,
        pool: &mut X,
        tries: Tries,
    ) -> ReplenishStep<C, X::Connecting, X::Acquiring, E>
        ensures { TaskBegins X.Home (as_nanos self.timeout) self.retry self.approval self.moment
            X.Opener tries pool.old result pool.new }
    {
        let connecting = pool.connect();
        self.connect(pool, tries, connecting)
    }

    /// Makes the poll that belongs to the stage. A handle is alive.
    fn advance<C, E, X: Home<C> + Opener<C, E>>(
        self,
        pool: &mut X,
        stage: ReplenishStage<C, X::Connecting, X::Acquiring>,
    ) -> ReplenishStep<C, X::Connecting, X::Acquiring, E>
        ensures { TaskAdvances X.Home (as_nanos self.timeout) self.retry self.approval self.moment
            X.Opener stage pool.old result pool.new }
    {
        match stage {
            ReplenishStage::Start => {
                let tries = Tries {
                    start: self.moment,
                    failures: 0,
                };
                self.begin(pool, tries)
            }
            ReplenishStage::Connecting(tries, connecting) => self.connect(pool, tries, connecting),
            ReplenishStage::Acquiring(tries, connection, acquiring) => {
                self.acquire(pool, tries, connection, acquiring)
            }
            ReplenishStage::Sleeping(tries, Some(due)) => {
                if due <= self.moment {
                    self.begin(pool, tries)
                } else {
                    leaves(
                        ReplenishAnswer::Pending,
                        ReplenishStage::Sleeping(tries, Some(due)),
                    )
                }
            }
            ReplenishStage::Sleeping(tries, None) => {
                leaves(
                    ReplenishAnswer::Pending,
                    ReplenishStage::Sleeping(tries, None),
                )
            }
            ReplenishStage::Done => leaves(ReplenishAnswer::GivenBack, ReplenishStage::Done),
        }
    }

    /// Makes the poll after its look at the home. If no handle is alive, the task is cancelled.
    fn proceed<C, E, X: Home<C> + Opener<C, E>>(
        self,
        pool: &mut X,
        alive: bool,
        stage: ReplenishStage<C, X::Connecting, X::Acquiring>,
    ) -> ReplenishStep<C, X::Connecting, X::Acquiring, E>
        ensures { TaskProceeds X.Home (as_nanos self.timeout) self.retry self.approval self.moment
            X.Opener alive stage pool.old result pool.new }
    {
        if alive {
            return self.advance(pool, stage);
        }
        let_go(pool, stage);
        let _ = pool.failed(self.moment, self.approval);
        leaves(ReplenishAnswer::GivenBack, ReplenishStage::Done)
    }
}

/// The task that opens the connection of one approval: `C` is the connection, `V` a connection
/// attempt, `A` a preparation. bb8's is a spawned task.
///
/// It does nothing until it is polled. It cannot be dropped implicitly: `give_back` ends it, so
/// that its approval is freed.
pub struct Replenish<C, V, A> {
    approval: Key,
    latest: Moment,
    stage: ReplenishStage<C, V, A>,
}

impl<C, V, A> Replenish<C, V, A> {
    /// Returns a task for an approval. It was not polled yet.
    pub fn new(approval: Key) -> Self
        ensures { result ≡ fresh approval }
    {
        Replenish {
            approval,
            latest: Moment(0),
            stage: ReplenishStage::Start,
        }
    }

    /// Sets the stage; the old one has ended.
    fn stand(&mut self, stage: ReplenishStage<C, V, A>)
        requires { self.old.stage ≡ IsDone }
        ensures { self.new ≡ record {
          approval = self.old.approval;
          latest = self.old.latest;
          stage
              = stage;
        } }
    {
        match mem::replace(&mut self.stage, stage) {
            ReplenishStage::Done => {}
            _ => unreachable!(),
        }
    }

    /// Polls the task once over a home, at a clock reading `at`.
    ///
    /// It looks at the home first, and begins at most one connection attempt. A failed try is
    /// repeated later if `retry_connection` is set and at most `connection_timeout` has passed
    /// since the first try; otherwise the approval is freed. After a result other than
    /// `Pending` and `Retrying` each poll returns `GivenBack`, makes no call and changes nothing.
    pub fn poll<E, X: Home<C> + Opener<C, E, Connecting = V, Acquiring = A>>(
        &mut self,
        at: Moment,
        pool: &mut X,
        config: &Config,
    ) -> ReplenishAnswer<E>
        ensures { TaskPolls X.Home X.Opener (as_nanos config.now.connection_timeout)
            config.now.retry_connection at self.old pool.old result self.new pool.new }
    {
        if self.stage.is_done() {
            return ReplenishAnswer::GivenBack;
        }
        let seen = pool.look(at);
        let moment = Moment(seen.moment.0.max(self.latest.0));
        self.latest = moment;
        let input = PollInput {
            timeout: config.connection_timeout,
            retry: config.retry_connection,
            approval: self.approval,
            moment,
        };
        let stage = mem::replace(&mut self.stage, ReplenishStage::Done);
        let ReplenishStep { answer, stage } = input.proceed(pool, seen.alive, stage);
        self.stand(stage);
        answer
    }

    /// Returns when to poll the task next: a moment in the past means at once, None means never.
    pub fn next_due(&self) -> Option<Moment>
        ensures { result ≡ poll_due self.now.stage }
    {
        match &self.stage {
            ReplenishStage::Start
            | ReplenishStage::Connecting(..)
            | ReplenishStage::Acquiring(..) => Some(Moment(0)),
            ReplenishStage::Sleeping(_, due) => *due,
            ReplenishStage::Done => None,
        }
    }

    /// Drops a task that has ended.
    pub(crate) fn finish(self)
        requires { self.stage ≡ IsDone }
    {
        let Replenish {
            approval: _,
            latest: _,
            stage,
        } = self;
        match stage {
            ReplenishStage::Done => {}
            _ => unreachable!(),
        }
    }

    /// Cancels the task at a clock reading `at`. If it has not ended, its connection attempt or
    /// connection is dropped and its approval is freed.
    pub fn give_back<E, X: Home<C> + Opener<C, E, Connecting = V, Acquiring = A>>(
        self,
        at: Moment,
        pool: &mut X,
    )
        ensures { LetsGo X.Home X.Opener at self pool.old pool.new }
    {
        let Replenish {
            approval,
            latest: _,
            stage,
        } = self;
        if stage.is_done() {
            return let_go(pool, stage);
        }
        let_go(pool, stage);
        let _ = pool.failed(at, approval);
    }
}
