//! A connection pool: its builder, and all of `bb8_core` that users need. Items that Rust's bb8
//! has, too, are marked "as bb8"; all others have no counterpart there.
//!
//! A program whose threads share a pool has three parts: a manager, which opens and checks
//! connections (`ManageConnection`); a service, which says what is done before its threads run, in
//! each, and after them (`Service`); and a `main`, which builds the pool and runs the service over
//! it (`Builder::serve`). It needs no proof file. `./new NAME` at the top of the repository creates
//! such a program, and its line in `crates.txt`. `crates/bb8_examples/src/service.rt` is one over
//! the toolchain's `sqlite`. It runs by
//!
//! ```text
//! let outcome = Builder::new()
//!     .max_size(CONNECTIONS)
//!     .min_idle(Some(2))
//!     .serve(manager, MachineClock(rt), rt, THREADS, &service);
//! ```
//!
//! and each of its threads has
//!
//! ```text
//! let mut guard = pool.get_blocking().ok()?;
//! ```
//!
//! `use bb8::{Cancel, Detach, Gets, PoolCalls}` brings the calls into scope. A program for one
//! thread, or a test, is a `User` of `Builder::with_pool`. `docs/CALLING.md` has each call, and how
//! to use threads and permits of your own.
#![tactic(auto)]

mod alone;
mod blocking;
mod builder;
pub mod building;
pub mod dedicated;
pub mod driver;
pub mod get;
mod given;
pub mod guards;
mod handles;
mod jobs;
mod machine;
mod memory;
pub mod owned;
pub mod pool;
mod printing;
mod serving;

pub use alone::User;
pub use bb8_core::api::{
    AddError, Clock, Config, CustomizeConnection, ErrorSink, ManageConnection, Memory, Moment,
    NopCustomizer, NopErrorSink, QueueStrategy, RunError, SetClock, State, Statistics,
};
pub use bb8_core::{api, internals, replay};
pub use bb8_lock::{Locks, Permits, PoolPermits, PoolTypes, TypesOf};
pub use bb8_tasks as tasks;
pub use blocking::{Blocking, BlockingManager};
pub use builder::Builder;
pub use building::BuildingCalls;
pub use driver::{Driven, DriverCalls, Gate, Turn, drive};
pub use given::{
    Building, DedicatedFuture, Driver, GetFuture, GetOwnedFuture, Guards, OwnedConnection,
    PlainPool, Pool, PooledConnection,
};
pub use guards::GuardsCalls;
pub use jobs::{Job, NoThread, in_threads, start};
pub use machine::{MachineClock, Runtime};
pub use memory::OrMemory;
pub use pool::{Cancel, Detach, Gets, PoolCalls};
pub use printing::{ErrorLine, PrintingSink};
pub use serving::Service;
