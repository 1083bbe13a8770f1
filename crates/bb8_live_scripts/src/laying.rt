//! Builds a script's pool with its permits, in this one place.
ghost use Rattle.std.specs.Prelude.{◌≡◌, true};
ghost use Rattle.bb8.specs.Permits.{IsBlankOf};
ghost use Rattle.bb8.specs.Settings.{settings_of, is_lawful};

use crate::asked::{Asked, Handles, Lent};
use crate::ending::{LentEnding, OwnedEnding};
use crate::play::{Play, Setup, set_board};
use crate::preparing::Preparer;
use crate::shelf::Shelf;
use bb8::{
    Builder, Building, Config, Driver, Memory, Moment, Pool, PoolCalls, PoolPermits, Runtime,
    SetClock,
};
use bb8_runner::fault::Fault;
use bb8_runner::grammar::{fields_of, number};
use bb8_runner::lines::{NoScript, script_of};
use bb8_trials::{Board, Errors, Number, Server, Unbuilt, builder_on, server_on};
use futures::task::Poll;
use futures::test::MockTask;
use std::alloc::Global;
use std::marker::Brand;
use std::sync::Arc;
use std::sync::ledger::Blank;

type LivePool<R, L> = Pool<Server, Errors, Preparer, SetClock, R, L>;

type LiveBuilding<R, L> = Building<Server, Errors, Preparer, SetClock, R, L>;

/// The driver of a script's pool. A name instead of a bound keeps the callers' proofs small
/// (*step-limit*).
pub type LiveDriver<R, L> = Driver<Server, Errors, Preparer, SetClock, R, L>;

type LiveBuilder = Builder<Server, Errors, Preparer>;

/// How a script's pool begins.
#[derive(Clone, Copy)]
struct Beginning {
    /// The number of lines before it, after the configuration.
    lines: usize,
    /// The pool has its first connections after at most two polls of its build.
    built: bool,
    /// The script polls the build itself.
    building: bool,
    /// The script owns its handles, and may drop them.
    owned: bool,
    /// There is a second driver, and, by reference, a second handle.
    two: bool,
}

/// Parses the line of the beginning: `begin` and other words. None if it is another line.
fn beginning_of(fields: &[&str], lines: usize) -> Option<Beginning> {
    let ["begin", words @ ..] = fields else {
        return None;
    };
    let mut beginning = Beginning {
        lines,
        built: false,
        building: false,
        owned: false,
        two: false,
    };
    for word in words {
        match *word {
            "built" => beginning.built = true,
            "building" => beginning.building = true,
            "owned" => beginning.owned = true,
            "two" => beginning.two = true,
            _ => return None,
        }
    }
    Some(beginning)
}

/// Returns a builder with these settings.
fn builder_of(
    board: &Arc<Board, Global>,
    config: Config,
    most: Option<u64>,
) -> Result<LiveBuilder, Memory>
    requires { is_lawful (settings_of config) ≡ true }
{
    let preparer = Preparer {
        most,
        prepared: Number::new(0),
    };
    Ok(
        builder_on(board)?
            .max_size(config.max_size)
            .min_idle(config.min_idle)
            .test_on_check_out(config.test_on_check_out)
            .test_on_check_out_after(config.test_after)
            .max_lifetime(config.max_lifetime)
            .idle_timeout(config.idle_timeout)
            .connection_timeout(config.connection_timeout)
            .retry_connection(config.retry_connection)
            .reaper_rate(config.reaper_rate)
            .queue_strategy(config.queue_strategy)
            .connection_customizer(preparer),
    )
}

/// Runs the lines after the beginning, which is preceded by `lines` lines.
fn perform<A: Asked, R: Runtime, L: PoolPermits>(
    asked: A,
    drivers: Shelf<LiveDriver<R, L>>,
    setup: Setup,
    lines: &[&str],
    beginning: usize,
) -> Result<String, Fault> {
    let mut written = String::new(setup.alloc);
    let mut play = Play::new(asked, drivers, setup)?;
    for (before, line) in lines.iter().enumerate() {
        if before > beginning {
            play.line(line, &mut written)?;
        }
    }
    Ok(written)
}

/// Runs a script with handles by reference.
fn lend<P: LentEnding<Server> + Drop, R: Runtime, L: PoolPermits>(
    lent: (P, Option<P>),
    drivers: Shelf<LiveDriver<R, L>>,
    setup: Setup,
    lines: &[&str],
    beginning: usize,
) -> Result<String, Fault> {
    let (first, second) = lent;
    perform(Lent { first, second }, drivers, setup, lines, beginning)
}

/// Runs a script that owns its handles, or polls the build of its pool.
fn hold<B: Unbuilt<Server, Pool: OwnedEnding<Server>>, R: Runtime, L: PoolPermits>(
    held: (Option<B>, Shelf<B::Pool>),
    drivers: Shelf<LiveDriver<R, L>>,
    setup: Setup,
    lines: &[&str],
    beginning: usize,
) -> Result<String, Fault> {
    let (building, handles) = held;
    perform(
        Handles { building, handles },
        drivers,
        setup,
        lines,
        beginning,
    )
}

/// Returns a pool with these settings. None if its first connections were not there after two polls
/// of its build.
fn pool_of<R: Runtime, L: PoolPermits>(
    rt: R,
    blank: Blank,
    builder: LiveBuilder,
    setup: &Setup,
    built: bool,
) -> Result<Option<LivePool<R, L>>, Memory>
    requires lawful { is_lawful builder.settings ≡ true }
    requires parts { IsBlankOf blank builder.settings L.name L.parts L.settings }
{
    let server = server_on(&setup.board)?;
    let clock = setup.clock.try_clone()?;
    if !built {
        return Ok(Some(builder.build_unchecked(server, clock, rt, blank)?));
    }
    let mut building = builder.build(server, clock, rt, blank);
    let polled = match setup.task.poll(&mut building) {
        Poll::Pending => setup.task.poll(&mut building),
        ready => ready,
    };
    Ok(match polled {
        Poll::Ready(Ok(pool)) => Some(pool),
        _ => None,
    })
}

/// Runs a script over a pool with these permits.
fn play_on<R: Runtime, L: PoolPermits>(
    rt: R,
    blank: Blank,
    builder: LiveBuilder,
    beginning: Beginning,
    setup: Setup,
    lines: &[&str],
) -> Result<String, Fault>
    requires lawful { is_lawful builder.settings ≡ true }
    requires parts { IsBlankOf blank builder.settings L.name L.parts L.settings }
{
    let alloc = rt.alloc();
    let mut drivers: Shelf<LiveDriver<R, L>> = Shelf::new(alloc)?;
    let mut handles: Shelf<LivePool<R, L>> = Shelf::new(alloc)?;
    if beginning.building {
        let clock = setup.clock.try_clone()?;
        let building: LiveBuilding<R, L> = builder.build(
            server_on(&setup.board)?,
            clock,
            rt,
            blank,
        );
        return hold(
            (Some(building), handles),
            drivers,
            setup,
            lines,
            beginning.lines,
        );
    }
    let Some(pool) = pool_of::<R, L>(rt, blank, builder, &setup, beginning.built)? else {
        return Ok(format!(in alloc; "not built\n")?);
    };
    let _ = drivers.put(0, Driver::new(&pool)?);
    if beginning.two {
        let _ = drivers.put(1, Driver::new(&pool)?);
    }
    if beginning.owned {
        let _ = handles.put(0, pool);
        let building: Option<LiveBuilding<R, L>> = None;
        return hold((building, handles), drivers, setup, lines, beginning.lines);
    }
    let other = match beginning.two {
        true => pool.try_clone().ok(),
        false => None,
    };
    let second = other.as_ref();
    lend((&pool, second), drivers, setup, lines, beginning.lines)
}

/// Applies the lines before the beginning, and returns it. None if another line comes first.
fn prelude(
    alloc: Global,
    board: &Board,
    most: &mut Option<u64>,
    lines: &[&str],
) -> Result<Option<Beginning>, Fault> {
    for (before, line) in lines.iter().enumerate() {
        let fields = fields_of(alloc, line)?;
        if let Some(beginning) = beginning_of(fields.as_slice(), before) {
            return Ok(Some(beginning));
        }
        match fields.as_slice() {
            ["prepares", word] => *most = number(word),
            [verb, word] if set_board(board, verb, word).is_some() => {}
            _ => return Ok(None),
        }
    }
    Ok(None)
}

/// Returns the output for a script of a live pool.
pub fn play<R: Runtime>(rt: R, script: &str) -> Result<String, Fault> {
    let alloc = rt.alloc();
    let lines: Vec<&str> = script.split_terminator('\n').collect(alloc)?;
    let [first, others @ ..] = lines.as_slice() else {
        return Ok(format!(in alloc; "not a configuration\n")?);
    };
    let config = match script_of(alloc, &[first.as_bytes()]) {
        Ok(script) => script.config,
        Err(NoScript::Memory) => return Err(Fault::Memory),
        Err(NoScript::BadLine(_)) => return Ok(format!(in alloc; "not a configuration\n")?),
    };
    let board = Board::new(alloc)?;
    let mut most = None;
    let Some(beginning) = prelude(alloc, &board, &mut most, others)? else {
        return Ok(format!(in alloc; "not a beginning\n")?);
    };
    let clock = SetClock::new(alloc, Moment(0))?;
    let Ok(task) = MockTask::new(&rt) else {
        return Err(Fault::Memory);
    };
    let builder = builder_of(&board, config, most)?;
    let setup = Setup {
        alloc,
        copy: clock.try_clone()?,
        clock,
        board,
        task,
    };
    let settings = Config::from(&builder);
    if !settings.is_lawful() {
        return Ok(format!(in alloc; "not a configuration\n")?);
    }
    let blank = Blank::new(settings.max_size as u64);
    play_on::<R, Brand>(rt, blank, builder, beginning, setup, others)
}
