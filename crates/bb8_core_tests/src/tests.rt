//! Tests against values from outside: rows that were worked out by hand, each call once, audits
//! that must fail, and refused memory.

use bb8_core::api::Moment;
use bb8_core::internals::{Grant, PoolInternals};
use bb8_core::replay::{Act, Answer, Event, Known, apply};
use bb8_runner::grammar::event_of;
use bb8_runner::lines::script_of;
use bb8_runner::text::output;
use std::alloc::Global;
use std::fmt::Debug;
use std::process::Abort;
use std::test::Fail;

mod crowd;
mod journals;
mod reads;
mod replays;
mod scripts;
mod surface;
mod tasks;
mod vast;

/// Ends the test if the found value is not the wanted one, and prints both.
fn assert_equal<T: PartialEq + Debug + Drop>(rt: &impl Abort, found: T, wanted: T) {
    assert_eq!(rt; found, wanted);
}

/// Three gets are served while two connections are kept idle, and all are returned.
const FIRST_SCRIPT: &[u8] = b"\
    config max_size=5 min_idle=2 check=off\n\
    0 fill\n0 claim\n0 claim\n0 open 0\n0 open 1\n\
    0 begin\n0 try 0\n0 claim\n0 open 2\n\
    0 begin\n0 try 1\n0 claim\n0 open 3\n\
    0 begin\n0 try 2\n0 claim\n0 open 4\n\
    0 return 0\n0 return 1\n0 return 2\n";

/// Returns a grant from a number on, with this many granted and withheld.
fn grant(first: u64, count: u32, withheld: u32) -> Grant {
    Grant {
        first,
        count,
        withheld,
    }
}

/// A pool of numbers whose events and results are lines, as in transcripts.
#[derive(Drop)]
struct Player {
    alloc: Global,
    pool: PoolInternals<u64>,
    known: Known,
}

impl Player {
    /// Returns an empty pool with the settings of this line, if there is memory for them.
    fn new(alloc: Global, config: &str) -> Option<Player> {
        let script = script_of(alloc, &[config.as_bytes()]).ok()?;
        Some(Player {
            alloc,
            pool: PoolInternals::new(alloc, script.config),
            known: Known::new(alloc, 0, 0),
        })
    }

    /// Makes an event at this moment, and returns its result.
    fn makes(&mut self, at: u64, act: Act) -> Answer {
        let at = Moment(at);
        apply(&mut self.pool, &mut self.known, Event { at, act })
    }

    /// Makes the event of each line and asserts its result, which follows after ` | `. If the line
    /// goes on, it has the number of entries that the step read, and how many it searched for.
    fn plays(&mut self, rt: &impl Abort, lines: &str) -> Result<(), Fail> {
        for line in lines.split_terminator('\n') {
            let (text, wanted) = line.split_once(" | ").unwrap_or((line, ""));
            let Some(event) = event_of(self.alloc, text.as_bytes())? else {
                return Err(Fail::from("no event"));
            };
            let answer = apply(&mut self.pool, &mut self.known, event);
            let (read, searched) = (self.pool.examined(), self.pool.searched());
            let written = output(self.alloc, &[answer], self.pool.state(Moment(0)))?;
            let result = written.split('\n').next().unwrap_or("");
            let (wanted, counts) = wanted.split_once(" | ").unwrap_or((wanted, ""));
            assert_eq!(rt; result, wanted, "{line}");
            if !counts.is_empty() {
                let found = format!(in self.alloc; "{read} {searched}")?;
                assert_eq!(rt; found.as_str(), counts, "{line}");
            }
        }
        Ok(())
    }
}
