//! The machine's clock, and the runtime that a program passes in.
use bb8_core::api::{Clock, Moment};
use std::random::RandomSource;
use std::sync::Wait;
use std::time::Clock as MachineTime;

/// The bounds of the runtime that a program passes to its pool, under one name: it waits, reads
/// the time, draws random bits for `block_on`, allocates, and may be copied and sent. The runtime
/// of `main` is one. `Builder::serve` also asks for `Threads`.
pub trait Runtime: Wait
    + MachineTime
    + RandomSource
    + AllocGlobal
    + Copy
    + Send
    + Sync
    + Drop
    + 'static {}

impl<
    R: Wait + MachineTime + RandomSource + AllocGlobal + Copy + Send + Sync + Drop + 'static,
> Runtime for R {}

/// The machine's monotonic clock, read through a runtime. bb8 reads that clock itself.
///
/// Its zero is the machine's choice. If the clock cannot be read it returns zero, which a pool
/// treats as the last moment that it has seen. A reading of more nanoseconds than a moment can
/// count (some 584 years) is returned as the greatest moment.
#[derive(Clone, Copy)]
pub struct MachineClock<R>(pub R);

impl<R: MachineTime + Send + Sync + Drop + 'static> Clock for MachineClock<R> {
    fn now(&self) -> Moment {
        match self.0.monotonic() {
            Ok(passed) => Moment(u64::try_from(passed.as_nanos()).unwrap_or(u64::MAX)),
            Err(_) => Moment(0),
        }
    }
}
