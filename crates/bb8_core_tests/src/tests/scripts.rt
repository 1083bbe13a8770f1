//! Scripts, as far as no transcript can show them: streams that fail, messages, rare results, and
//! refused memory.

use super::assert_equal;
use bb8_runner::fault::Fault;
use bb8_runner::script::run_script;
use bb8_runner::verdict::Verdict;
use std::io::{self, ErrorKind, Read, Write};

mod answers;
mod errors;
mod refusals;

/// One connection is added, checked out and returned.
const SCRIPT: &[u8] = b"\
    config max_size=1 check=off\n0 add\n0 begin\n0 try 0\n0 return 0\n";

/// The number of a call that is never made.
const NEVER: u32 = u32::MAX;

/// A stream that reads these bytes, or takes others, three at a time, and fails at one call.
#[derive(Drop)]
struct Stream {
    rest: &'static [u8],
    calls: u32,
    fails_at: u32,
}

impl Stream {
    fn new(fails_at: u32) -> Stream {
        Stream {
            rest: SCRIPT,
            calls: 0,
            fails_at,
        }
    }

    /// Counts a call.
    fn call(&mut self) -> io::Result<()> {
        if self.calls == self.fails_at {
            return Err(io::Error::from(ErrorKind::Other));
        }
        self.calls = self.calls.saturating_add(1);
        Ok(())
    }
}

impl Read for Stream {
    fn read(&mut self, buf: &mut [u8]) -> io::Result<usize> {
        self.call()?;
        let count = self.rest.len().min(buf.len()).min(3);
        let (front, rest) = self.rest.split_at(count);
        buf[..count].copy_from_slice(front);
        self.rest = rest;
        Ok(count)
    }
}

impl Write for Stream {
    fn write(&mut self, buf: &[u8]) -> io::Result<usize> {
        self.call()?;
        Ok(buf.len().min(3))
    }

    fn flush(&mut self) -> io::Result<()> {
        Ok(())
    }
}

#[test]
fn fails_at_each_read_and_write(rt: HostRuntime) {
    let alloc = rt.alloc();
    let (mut reader, mut writer) = (Stream::new(NEVER), Stream::new(NEVER));
    let outcome = run_script(alloc, &mut reader, &mut writer, &mut io::sink());
    assert_equal(&rt, outcome, Ok(Verdict::Ran));
    assert!(&rt; reader.calls > 20 && writer.calls > 20);
    for call in 0..reader.calls {
        let mut failing = Stream::new(call);
        let outcome = run_script(alloc, &mut failing, &mut io::sink(), &mut io::sink());
        assert_equal(&rt, outcome, Err(Fault::Read));
    }
    for call in 0..writer.calls {
        let (mut whole, mut failing) = (Stream::new(NEVER), Stream::new(call));
        let outcome = run_script(alloc, &mut whole, &mut failing, &mut io::sink());
        assert_equal(&rt, outcome, Err(Fault::Write));
    }
}
