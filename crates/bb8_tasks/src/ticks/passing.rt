//! Ticks, and the moment at which the next one is due.
ghost use Rattle.std.specs.Prelude.{◌≡◌, ◌<◌};
ghost use Rattle.std.specs.Duration.{as_nanos};
ghost use Rattle.bb8_tasks.specs.Ticks.{AreFrom, IsNextTick, is_due, Passes};

use super::Ticks;
use bb8_core::api::Moment;
use std::time::Duration;

/// Returns the first tick after a moment. None if that is past the greatest moment.
fn next_tick(start: Moment, rate: Duration, moment: Moment) -> Option<Moment>
    requires { 0 < as_nanos rate }
    ensures { IsNextTick start (as_nanos rate) moment result }
{
    match u64::try_from(rate.as_nanos()) {
        Ok(nanos) => {
            let from = moment.0.max(start.0);
            let passed = from - (from - start.0) % nanos;
            match passed.checked_add(nanos) {
                Some(tick) => Some(Moment(tick)),
                None => None,
            }
        }
        Err(_) => None,
    }
}

impl Ticks {
    /// Returns ticks `rate` apart that count from the moment `start` on. None has passed yet.
    pub fn new(start: Moment, rate: Duration) -> Self
        requires { 0 < as_nanos rate }
        ensures { AreFrom start (as_nanos rate) result }
    {
        Ticks {
            start,
            rate,
            due: next_tick(start, rate, start),
        }
    }

    /// Returns the tick that is due next. None, which means never, if each is past the greatest
    /// moment.
    pub fn next_due(&self) -> Option<Moment>
        ensures { result ≡ self.now.due }
    {
        self.due
    }

    /// Whether a tick is due.
    pub fn is_due(&self, moment: Moment) -> bool
        ensures { result ≡ is_due self.now.due moment }
    {
        match self.due {
            Some(due) => due.0 <= moment.0,
            None => false,
        }
    }

    /// The ticks up to this moment pass: the first one after it is due next.
    pub fn pass(&mut self, moment: Moment)
        ensures { Passes moment self.old self.new }
    {
        self.due = next_tick(self.start, self.rate, moment);
    }
}
