//! The public data of a pool: configuration, moments, statistics, errors, and the traits that users
//! implement.

mod clocks;
mod configuration;
mod customizers;
mod errors;
mod figures;
mod managers;
mod moments;
mod sinks;

pub use clocks::{Clock, SetClock};
pub use configuration::{Config, QueueStrategy};
pub use customizers::{CustomizeConnection, NopCustomizer};
pub use errors::{AddError, Memory, RunError};
pub use figures::{State, Statistics};
pub use managers::ManageConnection;
pub use moments::Moment;
pub use sinks::{ErrorSink, NopErrorSink};
