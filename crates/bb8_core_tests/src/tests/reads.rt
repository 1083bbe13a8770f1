//! How many entries each step reads, and that it searches for none, as each key has the index of
//! its number.

use super::Player;
use std::test::Fail;

/// A get waits for one connection, which is opened, served, returned, evicted; and a get that is
/// given up. An attempt that fails is read once. A reap looks at the oldest connection, and at the
/// one that has been idle longest.
const UNCHECKED: &str = "\
    0 begin | begun 0 | 0 0\n\
    0 try 0 | waiting grant 1 at 0 | 2 0\n\
    0 claim | claimed 0\n\
    0 open 0 | entered 0 notifies 0 | 3 0\n\
    0 try 0 | served 0 | 2 0\n\
    0 return 0 | kept 0 | 2 0\n\
    0 reap | reaped 0 idle 0 life 0 | 2 0\n\
    0 begin | begun 1\n\
    0 cancel 1 | gave up | 1 0\n\
    0 look | looked 0 open | 0 0\n\
    0 evict 0 | closed 0 | 1 0\n\
    0 begin | begun 2\n\
    0 try 2 | waiting grant 1 at 1\n\
    0 claim | claimed 1\n\
    0 fail 1 | given back | 1 0\n";

/// The first check passes, the second fails, and during the third the get times out. A try reads
/// the get, checks the connection out, and the get holds it. The end of a check reads the get and
/// the connection, which a guard then has, or whose birth is compared.
const CHECKED: &str = "\
    0 add | added 0\n\
    0 begin | begun 0\n\
    0 try 0 | taken 0 | 3 0\n\
    0 ok 0 | served 0 | 2 0\n\
    0 return 0 | kept 0\n\
    0 begin | begun 1\n\
    0 try 1 | taken 0\n\
    0 err 1 | closed 0 | 3 0\n\
    0 add | added 1\n\
    0 begin | begun 2\n\
    0 try 2 | taken 1\n\
    0 timeout 2 | kept 1 | 3 0\n";

#[test]
fn steps_report_what_they_read(rt: HostRuntime) -> Result<(), Fail> {
    for (config, lines) in [
        ("config max_size=1 check=off", UNCHECKED),
        ("config max_size=1", CHECKED),
    ] {
        let mut player = Player::new(rt.alloc(), config).expect(&rt, "no memory");
        player.plays(&rt, lines)?;
    }
    Ok(())
}
