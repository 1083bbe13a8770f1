//! 25,000 waiting gets: the notified one, the statistics, and that a step reads at most four
//! entries.

use super::{Player, assert_equal, grant};
use Act::{Begin, Claim, Opened, PutBack, Try};
use Answer::{Begun, Claimed, Entered, Kept, Served, Waiting};
use bb8_core::replay::{Act, Answer};
use std::process::Abort;
use std::test::Fail;

/// The last of the waiters.
const LAST: u64 = 24_999;

impl Player {
    /// Makes an event, and asserts its result, and that it read at most four entries.
    fn reads_few(&mut self, rt: &impl Abort, act: Act, wanted: Answer) {
        assert_equal(&rt, self.makes(0, act), wanted);
        assert!(rt; self.pool.examined() <= 4);
    }

    /// Serves a get with a connection, whose return notifies another get.
    fn serves(&mut self, rt: &impl Abort, number: u64, get: u64, notified: Option<u64>) {
        self.reads_few(rt, Try(get), Served(number, grant(3, 0, 0)));
        self.reads_few(rt, PutBack(number, false), Kept(number, notified));
    }
}

/// 25,000 gets wait for three connections. Each notified one tries, is served and returns its
/// connection (bb8's test_lots_of_waiters): the first one, and then each but the two that the other
/// attempts notified, which come last.
#[test]
fn crowd_is_served_over_three_connections(rt: HostRuntime) -> Result<(), Fail> {
    let config = "config max_size=3 check=off";
    let mut player = Player::new(rt.alloc(), config).expect(&rt, "no memory");
    for get in 0..25_000 {
        player.reads_few(&rt, Begin, Begun(get));
        let granted = grant(get.min(3), if get < 3 { 1 } else { 0 }, 0);
        player.reads_few(&rt, Try(get), Waiting(granted));
    }
    for number in 0..3 {
        player.reads_few(&rt, Claim, Claimed(Some(number)));
        player.reads_few(&rt, Opened(number), Entered(number, Some(number)));
    }
    player.serves(&rt, 0, 0, Some(3));
    for get in 3..LAST {
        let number = get.saturating_sub(2) % 3;
        player.serves(&rt, number, get, Some(get.saturating_add(1)));
    }
    player.serves(&rt, (LAST - 2) % 3, LAST, None);
    player.serves(&rt, (LAST - 1) % 3, 1, None);
    player.serves(&rt, LAST % 3, 2, None);
    player.plays(
        &rt,
        "0 state | state connections 3 idle 3 started 25000 direct 0 waited 25000 timed_out 0 cancelled 0 wait_us 0 created 3 broken 0 invalid 0 lifetime 0 idle_timeout 0 | 0 0\n",
    )
}
