//! Replays one task over a list of polls, each with the manager's reply.
ghost use Rattle.std.specs.Prelude.{◌≡◌, ◌<◌, ◌≤◌, ◌+◌, IfOk, None, Ok, true, false, length};
ghost use Rattle.std.specs.Duration.{as_nanos};
ghost use Rattle.futures.specs.declared.task.Poll.TheVariants.{Ready};
ghost use Rattle.bb8_tasks.specs.Bounded.{IsBounded, IsReached};
ghost use Rattle.bb8_tasks.specs.Played.{outcome, begun, IsSteady, Polled, Plays, Runs};

use super::home::Home;
use super::opener::Opener;
use super::replenish::{Replenish, ReplenishAnswer};
use bb8_core::api::{Config, Memory, Moment};
use bb8_core::internals::{
    ClaimAnswer, FailedAnswer, Grant, Key, Looked, OpenedAnswer, ReapAnswer, Unfit,
};
use futures::task::Poll;
use std::alloc::Global;

/// The manager's reply to one poll of a connection attempt.
#[derive(Clone, Copy, Debug, PartialEq, Eq)]
pub enum Reply {
    /// Still connecting.
    Pending,
    /// The connection is open.
    Ok,
    /// The attempt failed.
    Err,
}

/// A manager that gives this reply to each poll of an attempt, counts the attempts, and prepares
/// connections at once. As a home it has a handle, accepts opened connections, has nothing to
/// claim, reap or ask for, and its moment is each clock reading. Connections are `()`.
#[derive(Drop)]
pub struct Scripted {
    reply: Reply,
    tries: u8,
}

impl Opener<(), ()> for Scripted {
    type Connecting = ();

    type Acquiring = ();

    ghost reports = { λ script _ after. after ≡ script };

    ghost sinks = { λ script _ after. after ≡ script };

    ghost connects = { λ script _ after. after ≡ begun script };

    ghost connect_answers = { λ script _ _ answer _ after. (answer ≡ outcome script.reply) × (after ≡ script) };

    ghost ends_connect = { λ script _ after. after ≡ script };

    ghost acquires = { λ script _ _ _ after. after ≡ script };

    ghost acquire_answers = { λ script _ _ _ answer _ _ after. (answer ≡ Ready (Ok tt)) × (after ≡ script) };

    ghost ends_acquire = { λ script _ after. after ≡ script };

    ghost lets_go = { λ script _ after. after ≡ script };

    fn now(&mut self) -> Moment {
        Moment(0)
    }

    fn sink(&mut self, _error: ()) {}

    fn connect(&mut self) {
        self.tries = self.tries.saturating_add(1);
    }

    fn poll_connect(&mut self, _connecting: &mut (), _moment: Moment) -> Poll<Result<(), ()>> {
        match self.reply {
            Reply::Pending => Poll::Pending,
            Reply::Ok => Poll::Ready(Ok(())),
            Reply::Err => Poll::Ready(Err(())),
        }
    }

    fn end_connect(&mut self, _connecting: ()) {}

    fn on_acquire(&mut self, _connection: &mut ()) {}

    fn poll_acquire(
        &mut self,
        _connection: &mut (),
        _acquiring: &mut (),
        _moment: Moment,
    ) -> Poll<Result<(), ()>> {
        Poll::Ready(Ok(()))
    }

    fn end_acquire(&mut self, _acquiring: ()) {}

    fn let_go(&mut self, _connection: ()) {}
}

impl Home<()> for Scripted {
    ghost steps = { λ script at step after. IsSteady at step × (after ≡ script) };

    fn look(&mut self, at: Moment) -> Looked {
        Looked {
            moment: at,
            alive: true,
        }
    }

    fn opened(
        &mut self,
        _at: Moment,
        _approval: Key,
        _connection: (),
    ) -> Result<OpenedAnswer<()>, ()> {
        Ok(OpenedAnswer::Entered(None))
    }

    fn failed(&mut self, _at: Moment, _approval: Key) -> Result<FailedAnswer, Unfit> {
        Ok(FailedAnswer::GivenBack)
    }

    fn claim(&mut self, _at: Moment) -> ClaimAnswer {
        ClaimAnswer::Claimed(None)
    }

    fn reap(&mut self, _at: Moment) -> ReapAnswer {
        ReapAnswer::Ended
    }

    fn ask(&mut self, _at: Moment) -> Grant {
        Grant {
            first: 0,
            count: 0,
            withheld: 0,
        }
    }
}

/// The results of a replay.
#[derive(Drop)]
pub struct Backoff {
    /// The result of each poll.
    pub answers: Vec<ReplenishAnswer<()>>,
    /// The number of connection attempts that were begun.
    pub tries: u64,
}

/// Makes one poll of the replay. Returns its result and the number of attempts that it began.
fn play(
    task: &mut Replenish<(), (), ()>,
    config: &Config,
    at: Moment,
    reply: Reply,
) -> (ReplenishAnswer<()>, u8)
    ensures { Polled (as_nanos config.now.connection_timeout) config.now.retry_connection
        (at, reply) task.old result.1 result.0 task.new }
{
    let mut script = Scripted { reply, tries: 0 };
    let answer = task.poll(at, &mut script, config);
    (answer, script.tries)
}

/// Makes all polls of the replay in order.
fn play_all(
    alloc: Global,
    task: &mut Replenish<(), (), ()>,
    config: &Config,
    polls: &[(Moment, Reply)],
) -> Result<Backoff, Memory>
    ensures { IfOk result (λ b. Runs (as_nanos config.now.connection_timeout)
        config.now.retry_connection task.old polls.now b.answers.items b.tries task.new) }
{
    let mut answers = Vec::new(alloc);
    let mut tries = 0;
    for (at, reply) in polls {
        let (answer, begun) = play(task, config, *at, *reply);
        tries += u64::from(begun);
        answers.push(answer)?;
    }
    Ok(Backoff { answers, tries })
}

/// Polls a task at these moments, which may go backwards, with a manager that gives these replies.
/// A handle stays alive, and opened connections are accepted. Returns `Memory` only if the list of
/// results could not grow.
///
/// Whatever the moments and the replies, the task begins at most n + 2 connection attempts, if the
/// sum of the first n waits is at most `connection_timeout` and n is the greatest such number.
/// Exception: a timeout below two nanoseconds, whose waits are zero, has no such bound.
pub fn replay_backoff(
    alloc: Global,
    config: Config,
    polls: &[(Moment, Reply)],
) -> Result<Backoff, Memory>
    ensures run { IfOk result (λ b. Plays (as_nanos config.connection_timeout)
        config.retry_connection polls.now b.answers.items b.tries) }
    ensures answers { IfOk result (λ b. length b.answers.items ≡ length polls.now) }
    ensures bounded { IfOk result (λ b. IsBounded (as_nanos config.connection_timeout) b.tries) }
    ensures reached { IfOk result (λ b. IsReached (as_nanos config.connection_timeout)
        config.retry_connection polls.now b.tries) }
    ensures once { IfOk result (λ b. config.retry_connection ≡ false → b.tries ≤ 1) }
    ensures begun { IfOk result (λ b. 0 < length polls.now → 1 ≤ b.tries) }
{
    let mut task = Replenish::new(Key {
        number: 0,
        place: 0,
    });
    let played = play_all(alloc, &mut task, &config, polls);
    let mut script = Scripted {
        reply: Reply::Pending,
        tries: 0,
    };
    task.give_back(Moment(0), &mut script);
    played
}
