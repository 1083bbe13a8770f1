//! Attempts to open a connection that the pool does not count.
ghost use Rattle.std.specs.Prelude.{◌≡◌};
ghost use Rattle.bb8_tasks.specs.Dedicating.{fresh, is_done, AttemptAcquires, AttemptAdvances, AttemptBegins, AttemptConnects, DropsAttempt, AttemptPolls};
ghost use Rattle.bb8_tasks.specs.declared.dedicated.Attempt.TheVariants.{Done as IsDone};

use super::opener::Opener;
use bb8_core::api::Moment;
use futures::task::Poll;
use std::mem;

/// The stage of an attempt between its polls. It cannot be dropped implicitly.
pub enum Attempt<C, V, A> {
    /// Not polled yet.
    Fresh,
    /// Connecting.
    Connecting(V),
    /// The connection is open and is being prepared by the customizer.
    Acquiring(C, A),
    /// It has returned its result.
    Done,
}

/// The result of a poll, and the stage after it.
pub struct Opened<C, V, A, E> {
    /// The result.
    pub answer: Poll<Result<C, E>>,
    /// The stage after the poll.
    pub stage: Attempt<C, V, A>,
}

/// Returns this result and stage as one value.
fn leaves<C, V, A, E>(answer: Poll<Result<C, E>>, stage: Attempt<C, V, A>) -> Opened<C, V, A, E>
    ensures answer { result.answer ≡ answer }
    ensures stage { result.stage ≡ stage }
{
    Opened { answer, stage }
}

/// Polls the preparation of an open connection.
fn acquire<C, E, W: Opener<C, E>>(
    opener: &mut W,
    moment: Moment,
    mut connection: C,
    mut acquiring: W::Acquiring,
) -> Opened<C, W::Connecting, W::Acquiring, E>
    ensures { AttemptAcquires W.Opener moment connection acquiring opener.old result opener.new }
{
    match opener.poll_acquire(&mut connection, &mut acquiring, moment) {
        Poll::Pending => leaves(Poll::Pending, Attempt::Acquiring(connection, acquiring)),
        Poll::Ready(Ok(())) => {
            opener.end_acquire(acquiring);
            leaves(Poll::Ready(Ok(connection)), Attempt::Done)
        }
        Poll::Ready(Err(error)) => {
            opener.end_acquire(acquiring);
            opener.let_go(connection);
            leaves(Poll::Ready(Err(error)), Attempt::Done)
        }
    }
}

/// Polls the connection attempt.
fn connect<C, E, W: Opener<C, E>>(
    opener: &mut W,
    moment: Moment,
    mut connecting: W::Connecting,
) -> Opened<C, W::Connecting, W::Acquiring, E>
    ensures { AttemptConnects W.Opener moment connecting opener.old result opener.new }
{
    match opener.poll_connect(&mut connecting, moment) {
        Poll::Pending => leaves(Poll::Pending, Attempt::Connecting(connecting)),
        Poll::Ready(Ok(mut connection)) => {
            opener.end_connect(connecting);
            let acquiring = opener.on_acquire(&mut connection);
            acquire(opener, moment, connection, acquiring)
        }
        Poll::Ready(Err(error)) => {
            opener.end_connect(connecting);
            leaves(Poll::Ready(Err(error)), Attempt::Done)
        }
    }
}

/// Begins a connection attempt and polls it.
fn begin<C, E, W: Opener<C, E>>(
    opener: &mut W,
    moment: Moment,
) -> Opened<C, W::Connecting, W::Acquiring, E>
    ensures { AttemptBegins W.Opener moment opener.old result opener.new }
{
    let connecting = opener.connect();
    connect(opener, moment, connecting)
}

/// Makes the poll that belongs to the stage.
fn advance<C, E, W: Opener<C, E>>(
    opener: &mut W,
    moment: Moment,
    stage: Attempt<C, W::Connecting, W::Acquiring>,
) -> Opened<C, W::Connecting, W::Acquiring, E>
    ensures { AttemptAdvances W.Opener moment stage opener.old result opener.new }
{
    match stage {
        Attempt::Fresh => begin(opener, moment),
        Attempt::Connecting(connecting) => connect(opener, moment, connecting),
        Attempt::Acquiring(connection, acquiring) => {
            acquire(opener, moment, connection, acquiring)
        }
        Attempt::Done => leaves(Poll::Pending, Attempt::Done),
    }
}

impl<C, V, A> Attempt<C, V, A> {
    /// Whether the attempt has returned its result.
    fn is_done(&self) -> bool
        ensures { result ≡ is_done self.now }
    {
        match self {
            Attempt::Done => true,
            Attempt::Fresh | Attempt::Connecting(_) | Attempt::Acquiring(..) => false,
        }
    }
}

/// An attempt to open a connection that the pool does not count: `C` is the connection, `V` a
/// connection attempt, `A` a preparation. bb8's is an async function.
///
/// It does nothing until it is polled. It cannot be dropped implicitly: `cancel` ends it.
pub struct Dedicated<C, V, A> {
    /// The latest moment that it has seen.
    pub latest: Moment,
    /// The current stage.
    pub stage: Attempt<C, V, A>,
}

impl<C, V, A> Dedicated<C, V, A> {
    /// Returns an attempt that was not polled yet.
    pub fn new() -> Self
        ensures { result ≡ fresh }
    {
        Dedicated {
            latest: Moment(0),
            stage: Attempt::Fresh,
        }
    }

    /// Sets the stage; the old one has ended.
    fn stand(&mut self, stage: Attempt<C, V, A>)
        requires { self.old.stage ≡ IsDone }
        ensures { self.new ≡ record { latest = self.old.latest; stage = stage } }
    {
        match mem::replace(&mut self.stage, stage) {
            Attempt::Done => {}
            _ => unreachable!(),
        }
    }

    /// Polls the attempt once, at the latest clock reading so far.
    ///
    /// The first poll begins one connection attempt. Once that succeeds, the same poll begins and
    /// polls the preparation. It returns the connection or the first error; a connection whose
    /// preparation failed is dropped. A finished attempt or preparation is ended before the next
    /// callback. After a result each poll returns `Pending` and makes no callback.
    pub fn poll<E, W: Opener<C, E, Connecting = V, Acquiring = A>>(
        &mut self,
        outside: &mut W,
    ) -> Poll<Result<C, E>>
        ensures { AttemptPolls W.Opener self.old outside.old result self.new outside.new }
    {
        if self.stage.is_done() {
            return Poll::Pending;
        }
        let at = outside.now();
        let moment = Moment(at.0.max(self.latest.0));
        self.latest = moment;
        let stage = mem::replace(&mut self.stage, Attempt::Done);
        let Opened { answer, stage } = advance(outside, moment, stage);
        self.stand(stage);
        answer
    }

    /// Cancels the attempt: ends what is in progress, then drops the connection, if there is one.
    pub fn cancel<E, W: Opener<C, E, Connecting = V, Acquiring = A>>(self, outside: &mut W)
        ensures { DropsAttempt W.Opener self.stage outside.old outside.new }
    {
        let Dedicated { latest: _, stage } = self;
        match stage {
            Attempt::Acquiring(connection, acquiring) => {
                outside.end_acquire(acquiring);
                outside.let_go(connection);
            }
            Attempt::Connecting(connecting) => outside.end_connect(connecting),
            Attempt::Fresh | Attempt::Done => {}
        }
    }
}
