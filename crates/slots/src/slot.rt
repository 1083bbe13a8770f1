//! Connections that are only permission to run.
ghost use Rattle.std.specs.Prelude.{◌≡◌, Ok, false};
ghost use Rattle.futures.specs.declared.task.Poll.TheVariants.{Ready};

use bb8::{ManageConnection, Moment};
use futures::task::Poll;
use std::convert::Infallible;

/// An empty connection. The holder of its guard may run a job.
#[derive(Clone, Copy, Debug, PartialEq, Eq)]
pub struct Slot;

/// Opens slots. Each is open, and passes its check, at the first poll; none is ever broken.
#[derive(Clone, Copy, Debug, PartialEq, Eq)]
pub struct SlotManager;

impl ManageConnection for SlotManager {
    type Connection = Slot;

    type Error = Infallible;

    type Connecting = ();

    type Checking = ();

    ghost connect_answers = { λ _ _ _ answer _. answer ≡ Ready (Ok (record {})) };

    ghost checks = { λ _ before _ after. after ≡ before };

    ghost check_answers = { λ _ before _ _ answer after _. (answer ≡ Ready (Ok tt)) × (after ≡ before) };

    ghost breaks = { λ _ before broken after. (broken ≡ false) × (after ≡ before) };

    /// Does nothing.
    fn connect(&self) {}

    /// Returns a slot at once.
    fn poll_connect(
        &self,
        _connecting: &mut (),
        _moment: Moment,
    ) -> Poll<Result<Slot, Infallible>> {
        Poll::Ready(Ok(Slot))
    }

    /// Does nothing.
    fn is_valid(&self, _slot: &mut Slot) {}

    /// Returns Ok at once.
    fn poll_valid(
        &self,
        _slot: &mut Slot,
        _checking: &mut (),
        _moment: Moment,
    ) -> Poll<Result<(), Infallible>> {
        Poll::Ready(Ok(()))
    }

    /// Returns false.
    fn has_broken(&self, _slot: &mut Slot) -> bool {
        false
    }
}
