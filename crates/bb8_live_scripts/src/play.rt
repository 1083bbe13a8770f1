//! The effect of each line of a script.

use crate::answer::{LineAnswer, error_of, poll_of, refusal_of};
use crate::asked::{Asked, facts_of};
use crate::laying::LiveDriver;
use crate::shelf::Shelf;
use bb8::{DriverCalls, Moment, PoolPermits, Runtime, SetClock, Turn};
use bb8_runner::fault::Fault;
use bb8_runner::grammar::{fields_of, number};
use bb8_runner::text::output;
use bb8_trials::{ALWAYS, Board, Course, ServerConnection, connection_on};
use futures::task::Poll;
use futures::test::MockTask;
use std::alloc::{AllocError, Global};
use std::fmt::Write;
use std::sync::Arc;

/// The environment of a script's pool.
#[derive(Drop)]
pub struct Setup {
    pub alloc: Global,
    pub clock: SetClock,
    /// A second handle of the same clock.
    pub copy: SetClock,
    pub board: Arc<Board, Global>,
    pub task: MockTask,
}

/// Runs a line that sets the server's replies. None if it is another line.
pub fn set_board(board: &Board, verb: &str, word: &str) -> Option<LineAnswer> {
    let course = match word {
        "passes" => Some(Course::Passes),
        "lasts" => Some(Course::Lasts),
        "fails" => Some(Course::Fails),
        _ => None,
    };
    match verb {
        "opening" => board.opening.set(course?),
        "check" => board.check.set(course?),
        "opens" => board.opens.set(number(word)?),
        "fails" => board.fails.set(number(word)?),
        "ready" => board.ready.set(number(word)?),
        "breaks" if word == "always" => board.breaks.set(ALWAYS),
        "breaks" => board.breaks.set(number(word)?),
        _ => return None,
    }
    Some(LineAnswer::Done)
}

/// A running script, with all that it has under numbers.
#[derive(Drop)]
pub struct Play<A: Asked, R: Runtime, L: PoolPermits> {
    asked: A,
    drivers: Shelf<LiveDriver<R, L>>,
    gets: Shelf<A::Get>,
    guards: Shelf<A::Guard>,
    openings: Shelf<A::Dedicated>,
    connections: Shelf<ServerConnection>,
    setup: Setup,
}

impl<A: Asked, R: Runtime, L: PoolPermits> Play<A, R, L> {
    pub fn new(
        asked: A,
        drivers: Shelf<LiveDriver<R, L>>,
        setup: Setup,
    ) -> Result<Play<A, R, L>, AllocError> {
        let alloc = setup.alloc;
        Ok(Play {
            asked,
            drivers,
            gets: Shelf::new(alloc)?,
            guards: Shelf::new(alloc)?,
            openings: Shelf::new(alloc)?,
            connections: Shelf::new(alloc)?,
            setup,
        })
    }

    /// Runs a line, and writes its result, if it has one.
    pub fn line(&mut self, line: &str, written: &mut String) -> Result<(), Fault> {
        let alloc = self.setup.alloc;
        match self
            .answer(fields_of(alloc, line)?.as_slice())
            .unwrap_or(LineAnswer::Unfit)
        {
            LineAnswer::Done => {}
            LineAnswer::State(state) => written.push_str(output(alloc, &[], state)?.as_str())?,
            answer => writeln!(written, "{answer}")?,
        }
        Ok(())
    }

    fn answer(&mut self, fields: &[&str]) -> Option<LineAnswer> {
        match fields {
            ["build"] => Some(poll_of(self.asked.build(&self.setup.task)?)),
            ["leave", "building"] => self.asked.cancel_building().map(|_| LineAnswer::Done),
            [verb] => match self.counted(verb) {
                None => self.by_handle(verb, 0),
                result => result,
            },
            [verb, word] => match set_board(&self.setup.board, verb, word) {
                None => self.numbered(verb, number(word)?),
                set => set,
            },
            [verb, first, second] => self.paired(verb, number(first)?, number(second)?),
            _ => None,
        }
    }

    /// Returns how many attempts were begun, connections dropped, and errors taken; or whether the
    /// script's task was woken.
    fn counted(&self, verb: &str) -> Option<LineAnswer> {
        let board = &self.setup.board;
        match verb {
            "begun" => Some(LineAnswer::Number(board.begun.get())),
            "closed" => Some(LineAnswer::Number(board.closed.get())),
            "errors" => Some(LineAnswer::Number(board.errors.get())),
            "woken" => Some(yes_or_no(self.setup.task.is_woken())),
            _ => None,
        }
    }

    /// Runs a line that calls a handle. `close` with a number cancels an attempt.
    fn by_handle(&mut self, verb: &str, handle: u64) -> Option<LineAnswer> {
        match verb {
            "state" => self.asked.state(handle).map(LineAnswer::State),
            "sizes" => self.asked.state(handle).map(LineAnswer::Sizes),
            "gets" => self.asked.state(handle).map(LineAnswer::Gets),
            "serves" => self.asked.serves(&self.setup.task, handle).map(yes_or_no),
            "clone" => self.asked.clone_to(handle).map(|_| LineAnswer::Done),
            "leave" => self.asked.leave(handle).map(|_| LineAnswer::Done),
            "retire" => self
                .asked
                .retire(self.setup.alloc, handle)
                .map(|_| LineAnswer::Done),
            "close" => self
                .asked
                .close(self.setup.alloc, handle)
                .map(|_| LineAnswer::Done),
            "is_closed" => self.asked.is_closed(handle).map(yes_or_no),
            _ => None,
        }
    }

    /// Runs a line with one number, mostly that of a get or its guard.
    fn numbered(&mut self, verb: &str, n: u64) -> Option<LineAnswer> {
        match verb {
            "clock" => self.setup.clock.set(Moment(n)),
            "copy" => self.setup.copy.set(Moment(n)),
            "poll" => return self.poll(n),
            "lend" => return self.lend(n),
            "try" => return self.try_get(n),
            "drop" => drop(self.gets.take(n)?),
            "cancel" => self.asked.cancel(self.gets.take(n)?),
            "guard" => return Some(LineAnswer::Connection(A::facts(self.guards.get(n)?))),
            "spoil" => A::spoil(self.guards.get_mut(n)?),
            "return" => drop(self.guards.take(n)?),
            "detach" => return self.detach(n),
            "rest" => drop(self.drivers.take(n)?),
            "drive" => {
                let _ = self.turn(n, 0)?;
            }
            "dedicated" => self.openings.put(n, self.asked.dedicated()?)?,
            "open" => return self.open(n),
            "close" => self.asked.cancel_dedicated(self.openings.take(n)?),
            "get" | "own" | "add" | "turn" => return self.paired(verb, n, 0),
            _ => return self.by_handle(verb, n),
        }
        Some(LineAnswer::Done)
    }

    /// Runs a line with two numbers; the second one is mostly that of a handle or a driver.
    fn paired(&mut self, verb: &str, n: u64, m: u64) -> Option<LineAnswer> {
        match verb {
            "get" => self.gets.put(n, self.asked.get(m)?)?,
            "own" => self.gets.put(n, self.asked.get_owned(m)?)?,
            "make" => self.make(n, m, false)?,
            "spoiled" => self.make(n, m, true)?,
            "add" => return self.add(n, m),
            "turn" => return Some(LineAnswer::Turned(self.turn(n, m)?)),
            _ => return None,
        }
        Some(LineAnswer::Done)
    }

    /// Polls a get. Its guard is kept under the get's number.
    fn poll(&mut self, n: u64) -> Option<LineAnswer> {
        let get = self.gets.get_mut(n)?;
        match self.asked.poll(&self.setup.task, get) {
            Poll::Pending => Some(LineAnswer::Pending),
            Poll::Ready(Err(error)) => Some(error_of(error)),
            Poll::Ready(Ok(guard)) => self.serve(n, guard),
        }
    }

    fn serve(&mut self, n: u64, guard: A::Guard) -> Option<LineAnswer> {
        let (number, _, _) = A::facts(&guard);
        self.guards.put(n, guard)?;
        Some(LineAnswer::Served(number))
    }

    /// Makes a get that never waits. Its guard is kept under this number.
    fn try_get(&mut self, n: u64) -> Option<LineAnswer> {
        match self.asked.try_get()? {
            Ok(None) => Some(LineAnswer::Nothing),
            Ok(Some(guard)) => self.serve(n, guard),
            Err(error) => Some(error_of(error)),
        }
    }

    /// Makes a get, polls it once and drops it.
    fn lend(&mut self, n: u64) -> Option<LineAnswer> {
        self.gets.put(n, self.asked.get(0)?)?;
        let answer = self.poll(n);
        drop(self.gets.take(n)?);
        answer
    }

    /// Polls a dedicated attempt. Its connection is kept under its number.
    fn open(&mut self, n: u64) -> Option<LineAnswer> {
        let opening = self.openings.get_mut(n)?;
        match self.asked.poll_dedicated(&self.setup.task, opening) {
            Poll::Pending => Some(LineAnswer::Pending),
            Poll::Ready(Err(error)) => Some(LineAnswer::Refused(error.0)),
            Poll::Ready(Ok(connection)) => self.keep(n, connection),
        }
    }

    /// Detaches a guard's connection, which is kept under the guard's number.
    fn detach(&mut self, n: u64) -> Option<LineAnswer> {
        let connection = A::detach(self.guards.take(n)?);
        self.keep(n, connection)
    }

    /// Keeps a connection outside the pool under this number.
    fn keep(&mut self, n: u64, connection: ServerConnection) -> Option<LineAnswer> {
        let facts = facts_of(&connection);
        self.connections.put(n, connection)?;
        Some(LineAnswer::Connection(facts))
    }

    /// Makes a turn of a driver at this moment.
    fn turn(&mut self, moment: u64, driver: u64) -> Option<Turn> {
        Some(self.drivers.get_mut(driver)?.turn(Moment(moment)))
    }

    /// Makes a connection without an attempt.
    fn make(&mut self, n: u64, number: u64, is_broken: bool) -> Option<()> {
        let mut connection = connection_on(&self.setup.board, number).ok()?;
        connection.is_broken = is_broken;
        self.connections.put(n, connection)
    }

    /// Adds a connection by a handle. If it is refused, it is kept again.
    fn add(&mut self, n: u64, handle: u64) -> Option<LineAnswer> {
        let connection = self.connections.take(n)?;
        match self.asked.add(handle, connection)? {
            Ok(()) => Some(LineAnswer::Added),
            Err(error) => {
                let (answer, connection) = refusal_of(error);
                self.connections.put(n, connection)?;
                Some(answer)
            }
        }
    }
}

fn yes_or_no(yes: bool) -> LineAnswer {
    if yes { LineAnswer::Yes } else { LineAnswer::No }
}
