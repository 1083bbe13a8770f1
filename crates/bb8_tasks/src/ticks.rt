//! Ticks at a constant rate.
ghost use Rattle.std.specs.Prelude.{◌<◌};
ghost use Rattle.std.specs.Duration.{as_nanos};

mod passing;

use bb8_core::api::Moment;
use std::time::Duration;

/// The ticks `start + rate`, `start + 2 * rate` and so on, and which of them is next.
#[derive(Clone, Copy, Debug)]
pub struct Ticks {
    start: Moment,
    rate: Duration,
    due: Option<Moment>,
    ghost ticks_apart: { 0 < as_nanos rate },
}
