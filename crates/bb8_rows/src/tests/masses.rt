//! Random transcripts of live pools: each result, and the state after it, is what the core's replay
//! returns for the same events.

use bb8::{Moment, Runtime, Turn};
use bb8_core::internals::PoolInternals;
use bb8_core::replay::{Act, Answer, Event, Known, Reason, apply};
use bb8_live_scripts::{LineAnswer, run};
use bb8_runner::fault::Fault;
use bb8_runner::lines::script_of;
use bb8_runner::text::output;
use bb8_trials::RandomSource;
use std::alloc::Global;
use std::fmt::Write;
use std::mem;
use std::process::Abort;
use std::test::Fail;

/// The number of transcripts of a test, and the steps and gets of each transcript.
const TRANSCRIPTS: u64 = 1000;

const STEPS: u32 = 40;

const GETS: usize = 5;

/// The stage of a get.
#[derive(Clone, Copy)]
enum Stage {
    Fresh,
    /// It has no handle, as the pool was closed.
    Refused,
    /// Its number and its deadline.
    Begun(u64, u64),
    /// Its guard has the connection of this number.
    Served(u64),
    Ended,
}

/// The stage of a get, and whether it has its own handle.
type Caller = (Stage, bool);

/// A transcript being written, the core of its pool, and how its server replies.
#[derive(Drop)]
struct Writer {
    alloc: Global,
    source: RandomSource,
    core: PoolInternals<u64>,
    known: Known,
    text: String,
    clock: u64,
    /// When the reaper is due.
    due: u64,
    callers: [Caller; GETS],
    /// The claimed approvals.
    tasks: Vec<u64>,
    /// The connections that are or were the pool's: the number in the core, the number in the
    /// script, and how many checks began.
    named: Vec<(u64, u64, u64)>,
    /// Whether a connection outside the pool is kept at each index: a detached one at that of its
    /// get, and one whose add was refused at the last.
    kept: [bool; GETS + 1],
    /// Whether attempts and checks pass, last or fail.
    opening: &'static str,
    check: &'static str,
    breaks: u64,
    begun: u64,
    closed: u64,
}

/// Returns one of these words, chosen by the source.
fn pick(source: &RandomSource, words: &[&'static str]) -> &'static str {
    let index = source.index(words.len()).unwrap_or(0);
    words.get(index).copied().unwrap_or("")
}

/// Returns a random configuration.
fn config_line(alloc: Global, source: &RandomSource) -> Result<String, Fault> {
    let size = source.below(4).saturating_add(1);
    let idle = source.below(size.saturating_add(1));
    let check = match source.below(3) {
        0 => "on strategy=fifo",
        1 => "on strategy=lifo test_after=150",
        _ => "off strategy=lifo",
    };
    let times = pick(source, &["idle=500 lifetime=none", "lifetime=2000"]);
    Ok(format!(in alloc;
        "config max_size={size} min_idle={idle} check={check} {times} \
        timeout=1000 reaper=300 retry=off"
    )?)
}

impl Writer {
    fn new(alloc: Global, seed: u64) -> Result<Writer, Fault> {
        let source = RandomSource::new(seed);
        let line = config_line(alloc, &source)?;
        let Ok(script) = script_of(alloc, &[line.as_bytes()]) else {
            return Err(Fault::Read);
        };
        let mut writer = Writer {
            alloc,
            source,
            core: PoolInternals::new(alloc, script.config),
            known: Known::new(alloc, 0, 0),
            text: format!(in alloc; ":: {seed}\n{line}\nbegin\n")?,
            clock: 0,
            due: 300,
            callers: [(Stage::Ended, false); GETS],
            tasks: Vec::new(alloc),
            named: Vec::new(alloc),
            kept: [false; GETS + 1],
            opening: "passes",
            check: "passes",
            breaks: 0,
            begun: 0,
            closed: 0,
        };
        writer.apply(Act::Fill(false));
        Ok(writer)
    }

    /// Applies an event at the clock's moment, and counts the connections that it drops.
    fn apply(&mut self, act: Act) -> Answer {
        let at = Moment(self.clock);
        let answer = apply(&mut self.core, &mut self.known, Event { at, act });
        let closed = match answer {
            Answer::Closed(..) if !matches!(act, Act::Detach(_)) => 1,
            Answer::Late(_) => 1,
            Answer::Reaped { closed, .. } | Answer::Left(closed) => u64::from(closed),
            _ => 0,
        };
        self.closed = self.closed.saturating_add(closed);
        answer
    }

    /// Returns the effective moment, and whether the pool is open.
    fn look(&mut self) -> (u64, bool) {
        match self.apply(Act::Look) {
            Answer::Looked(moment, alive) => (moment.0, alive),
            _ => (0, false),
        }
    }

    /// Writes a line and its result, and then how many connections there are.
    fn say(&mut self, verb: &str, number: u64, answer: LineAnswer) -> Result<(), Fault> {
        match answer {
            LineAnswer::Done => writeln!(self.text, "{verb} {number}")?,
            answer => writeln!(self.text, "{verb} {number} | {answer}")?,
        }
        if let Answer::Shown(state) = self.apply(Act::State) {
            writeln!(self.text, "sizes | {}", LineAnswer::Sizes(state))?;
        }
        Ok(())
    }

    /// Whether the connection that the server is asked about next is broken.
    fn is_broken(&mut self) -> bool {
        let broken = self.breaks > 0;
        self.breaks = self.breaks.saturating_sub(1);
        broken
    }

    /// Begins a get at this index.
    fn begin(&mut self, n: usize) -> Result<(), Fault> {
        let owned = self.source.below(2) == 0;
        let stage = match owned && self.apply(Act::Join) == Answer::Unfit {
            true => Stage::Refused,
            false => Stage::Fresh,
        };
        self.put(n, (stage, owned));
        let verb = if owned { "own" } else { "get" };
        self.say(verb, n as u64, LineAnswer::Done)
    }

    /// Gives a get up, if it has not ended.
    fn give_up(&mut self, (stage, owned): Caller, reason: Reason) {
        if let Stage::Begun(get, _) = stage {
            self.apply(Act::GiveUp(get, reason, false));
        }
        if owned && !matches!(stage, Stage::Ended) {
            self.apply(Act::Leave);
        }
    }

    /// Checks a connection, and returns its number if it passed.
    fn check(&mut self, get: u64, number: u64) -> Option<u64> {
        for (known, _, checks) in self.named.iter_mut() {
            if *known == number {
                *checks = checks.saturating_add(1);
            }
        }
        if self.check == "fails" {
            let broken = self.is_broken();
            self.apply(Act::CheckedErr(get, broken));
            return None;
        }
        self.apply(Act::CheckedOk(get));
        Some(number)
    }

    /// Returns the name of the connection of this number, and how many checks of it began.
    fn named(&self, number: u64) -> (u64, u64) {
        let found = self.named.iter().find(|named| named.0 == number);
        found.map_or((0, 0), |named| (named.1, named.2))
    }

    /// Polls a get once. Returns its next stage and the result. A closed pool serves none.
    fn poll(&mut self, (stage, owned): Caller) -> (Stage, LineAnswer) {
        let (now, is_open) = self.look();
        let (get, deadline) = match stage {
            Stage::Ended | Stage::Served(_) => return (stage, LineAnswer::Pending),
            Stage::Refused => return (Stage::Ended, LineAnswer::Exhausted),
            _ if !is_open => {
                self.give_up((stage, owned), Reason::TimedOut);
                return (Stage::Ended, LineAnswer::TimedOut);
            }
            Stage::Begun(get, deadline) => (get, deadline),
            Stage::Fresh => match self.apply(Act::Begin) {
                Answer::Begun(get) => (get, now.saturating_add(1000)),
                _ => return (Stage::Ended, LineAnswer::Memory),
            },
        };
        let served = match self.apply(Act::Try(get)) {
            Answer::Served(number, _) => Some(number),
            Answer::Taken(number, _) => self.check(get, number),
            _ => None,
        };
        let stage = Stage::Begun(get, deadline);
        match served {
            Some(number) => {
                let (name, _) = self.named(number);
                (Stage::Served(number), LineAnswer::Served(name))
            }
            None if now < deadline => (stage, LineAnswer::Pending),
            None => {
                self.give_up((stage, owned), Reason::TimedOut);
                (Stage::Ended, LineAnswer::TimedOut)
            }
        }
    }

    /// Keeps a connection outside the pool at this index, and drops the one that was there.
    fn keep(&mut self, n: usize) {
        if let Some(is_kept) = self.kept.get_mut(n) {
            let dropped = u64::from(mem::replace(is_kept, true));
            self.closed = self.closed.saturating_add(dropped);
        }
    }

    /// Sets the get at this index.
    fn put(&mut self, n: usize, caller: Caller) {
        if let Some(place) = self.callers.get_mut(n) {
            *place = caller;
        }
    }

    /// Drops or detaches the guard of a get, which has this connection.
    fn end_guard(&mut self, n: usize, owned: bool, number: u64) -> Result<(), Fault> {
        let (verb, answer) = if self.source.below(6) == 0 {
            self.apply(Act::Detach(number));
            self.keep(n);
            let (name, checks) = self.named(number);
            ("detach", LineAnswer::Connection((name, checks, 0)))
        } else {
            let broken = self.is_broken();
            self.apply(Act::PutBack(number, broken));
            ("return", LineAnswer::Done)
        };
        if owned {
            self.apply(Act::Leave);
        }
        self.put(n, (Stage::Ended, owned));
        self.say(verb, n as u64, answer)
    }

    /// Ends a guard, replaces a get, or polls one.
    fn go_on(&mut self, n: usize) -> Result<(), Fault> {
        let Some((stage, owned)) = self.callers.get(n).copied() else {
            return Ok(());
        };
        let dice = self.source.below(8);
        match stage {
            Stage::Served(number) if dice < 6 => self.end_guard(n, owned, number),
            Stage::Served(_) => self.say("poll", n as u64, LineAnswer::Pending),
            _ if dice < 2 => {
                self.give_up((stage, owned), Reason::Cancelled);
                let verb = pick(&self.source, &["drop", "cancel"]);
                self.say(verb, n as u64, LineAnswer::Done)?;
                self.begin(n)
            }
            _ => {
                let (stage, answer) = self.poll((stage, owned));
                self.put(n, (stage, owned));
                self.say("poll", n as u64, answer)
            }
        }
    }

    /// Makes a turn: it reaps and asks if a tick is due, claims, and polls all attempts. If the
    /// pool is closed, it gives all approvals back.
    fn turn(&mut self) -> Result<(), Fault> {
        let (now, is_open) = self.look();
        if is_open && self.due <= now {
            self.apply(Act::Reap);
            self.apply(Act::Ask);
            self.due = (now / 300).saturating_add(1).saturating_mul(300);
        }
        for _ in 0..5u32 {
            if let Answer::Claimed(Some(number)) = self.apply(Act::Claim) {
                self.begun = self.begun.saturating_add(1);
                let _ = self.tasks.push(number);
                let _ = self.named.push((number, self.begun, 0));
            }
        }
        let polled = if is_open { self.tasks.len() as u64 } else { 0 };
        let passes = is_open && self.opening == "passes";
        if !is_open || self.opening != "lasts" {
            self.end_tasks(passes);
        }
        let ended = !is_open;
        let turn = LineAnswer::Turned(Turn { polled, ended });
        self.say("turn", self.clock, turn)
    }

    /// Ends all attempts. After one that comes too late the pool asks.
    fn end_tasks(&mut self, passes: bool) {
        let tasks = mem::replace(&mut self.tasks, Vec::new(self.alloc));
        for approval in tasks.iter() {
            let answer = self.apply(match passes {
                true => Act::Opened(*approval),
                false => Act::Failed(*approval),
            });
            if let Answer::Late(_) = answer {
                self.apply(Act::Ask);
            }
        }
    }

    /// Adds a new connection. If it is refused, it is kept until the next one is made.
    fn add(&mut self) -> Result<(), Fault> {
        let name = (self.named.len() as u64).saturating_add(1000);
        self.keep(GETS);
        writeln!(self.text, "make {GETS} {name}")?;
        let broken = self.is_broken();
        let answer = match self.apply(Act::Add(broken)) {
            Answer::Added(number, _) => {
                self.kept[GETS] = false;
                let _ = self.named.push((number, name, 0));
                LineAnswer::Added
            }
            Answer::Broken => LineAnswer::Broken(name),
            _ => LineAnswer::Full(name),
        };
        self.say("add", GETS as u64, answer)
    }

    /// Retires all connections or closes the pool, and asks whether it is closed.
    fn end(&mut self) -> Result<(), Fault> {
        let (verb, act) = match self.source.below(4) {
            0 => ("close", Act::Close),
            _ => ("retire", Act::Retire),
        };
        self.apply(act);
        let answer = match self.look() {
            (_, true) => LineAnswer::No,
            (_, false) => LineAnswer::Yes,
        };
        writeln!(self.text, "{verb}")?;
        self.say("is_closed", 0, answer)
    }

    /// Sets the clock, forwards or backwards, or the server.
    fn set(&mut self) -> Result<(), Fault> {
        let span = self.source.below(400);
        match self.source.below(6) {
            0..=2 => {
                self.clock = match span % 4 {
                    0 => self.clock.saturating_sub(span),
                    _ => self.clock.saturating_add(span),
                };
                self.say("clock", self.clock, LineAnswer::Done)
            }
            3 => {
                self.breaks = span % 3;
                self.say("breaks", self.breaks, LineAnswer::Done)
            }
            4 => {
                self.opening = pick(&self.source, &["passes", "lasts", "fails"]);
                Ok(writeln!(self.text, "opening {}", self.opening)?)
            }
            _ => {
                self.check = pick(&self.source, &["passes", "fails"]);
                Ok(writeln!(self.text, "check {}", self.check)?)
            }
        }
    }

    /// Writes all steps; then the state and the server's counts.
    fn write(&mut self) -> Result<(), Fault> {
        for n in 0..GETS {
            self.begin(n)?;
        }
        for _ in 0..STEPS {
            let n = self.source.index(GETS).unwrap_or(0);
            match self.source.below(30) {
                0..=17 => self.go_on(n)?,
                18..=22 => self.turn()?,
                23..=25 => self.add()?,
                26..=28 => self.set()?,
                _ => self.end()?,
            }
        }
        if let Answer::Shown(state) = self.apply(Act::State) {
            let shown = output(self.alloc, &[], state)?;
            write!(self.text, "state | {}", shown.as_str())?;
        }
        let (begun, closed) = (self.begun, self.closed);
        writeln!(self.text, "begun | {begun}\nclosed | {closed}")?;
        Ok(())
    }
}

/// Runs the transcripts of half of the seeds.
fn are_answered<R: Runtime + Abort>(rt: R, half: u64) -> Result<(), Fail> {
    let first = half.saturating_mul(TRANSCRIPTS);
    let mut answers: u64 = 0;
    for seed in first..first.saturating_add(TRANSCRIPTS) {
        let mut writer = Writer::new(rt.alloc(), seed)?;
        writer.write()?;
        let mut reader = writer.text.as_bytes();
        let report = run(rt, &mut reader, &mut Vec::new(rt.alloc()))?;
        assert!(&rt; report.different == 0, "{}{}", writer.text, report.reported);
        answers = answers.saturating_add(report.answers);
    }
    assert!(&rt; answers > TRANSCRIPTS * 72, "{answers}");
    Ok(())
}

#[test]
fn live_pools_match_the_core(rt: HostRuntime) -> Result<(), Fail> {
    are_answered(rt, 0)
}

#[test]
fn live_pools_match_the_core_in_the_second_half(rt: HostRuntime) -> Result<(), Fail> {
    are_answered(rt, 1)
}
