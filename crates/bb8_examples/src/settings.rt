//! A pool whose settings are read at run time: they are checked before it is built.
use crate::blocking::{Down, Files, Reading};
use bb8::{Blocking, Builder, Config, MachineClock, PrintingSink, RunError, Runtime};
use std::thread::Threads;

/// Settings as they might be read: `max_size` and `min_idle`.
pub const SETTINGS: [(u32, u32); 3] = [(3, 1), (2, 5), (0, 0)];

/// Returns how many threads were served by a pool with these settings. None if they are not lawful.
pub fn served<R: Runtime + Threads + Eprint>(
    rt: R,
    size: u32,
    idle: u32,
) -> Option<Result<u64, RunError<Down>>> {
    if size == 0 {
        return None;
    }
    let builder = Builder::new()
        .max_size(size)
        .min_idle(Some(idle))
        .error_sink(PrintingSink { rt, name: "files" });
    if !Config::from(&builder).is_lawful() {
        return None;
    }
    let reading = Reading { rt };
    Some(builder.serve(Blocking(Files::up(rt)), MachineClock(rt), rt, 4, &reading))
}
