//! The number of calls that a poll of an attempt of `Blocking` makes, which no clause states.

use bb8::{Blocking, BlockingManager, ManageConnection, Moment};
use bb8_trials::Number;
use futures::task::Poll;
use std::convert::Infallible;

/// Opens the connections 1, 2, 3 and so on.
#[derive(Drop)]
struct Numbers {
    opened: Number,
}

impl BlockingManager for Numbers {
    type Connection = u64;

    type Error = Infallible;

    fn connect(&self) -> Result<u64, Infallible> {
        Ok(self.opened.count())
    }

    fn is_valid(&self, _connection: &mut u64) -> Result<(), Infallible> {
        Ok(())
    }

    fn has_broken(&self, _connection: &mut u64) -> bool {
        false
    }
}

#[test]
fn each_poll_opens_once(rt: HostRuntime) {
    let manager = Blocking(Numbers {
        opened: Number::new(0),
    });
    for number in 1..4u64 {
        manager.connect();
        let polled = manager.poll_connect(&mut (), Moment(0));
        assert!(&rt; matches!(polled, Poll::Ready(Ok(opened)) if opened == number));
    }
}
