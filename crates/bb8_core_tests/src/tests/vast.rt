//! Connections so large that no machine has memory for all that a pool wants at once: refusals that
//! occur in each run of the tests. A pool of 4,294,967,295 of them would take 35 terabytes.

use super::{assert_equal, grant};
use bb8_core::api::{Config, Moment};
use bb8_core::internals::{AddAnswer, PoolInternals};

const NOW: Moment = Moment(0);

/// The pool's `max_size` and `min_idle`.
const MANY: u32 = 4_294_967_295;

/// A connection of 8 KiB. With 64 KiB the compiler takes minutes.
#[derive(Drop)]
struct Vast {
    words: [u64; 1024],
}

/// A grant of 4,294,967,295 is withheld, a connection is added, and the rest is withheld, too.
#[test]
fn vast_grants_are_withheld(rt: HostRuntime) {
    let config = Config {
        max_size: MANY,
        min_idle: Some(MANY),
        test_on_check_out: false,
        ..Config::default()
    };
    assert!(&rt; config.is_lawful());
    let mut pool = PoolInternals::new(rt.alloc(), config);
    assert_equal(&rt, pool.fill(NOW, false), grant(0, 0, MANY));
    let added = pool.add(NOW, Vast { words: [7; 1024] }, false);
    assert!(&rt; matches!(added, Ok(AddAnswer::Added(_, None))));
    assert_equal(&rt, pool.fill(NOW, true), grant(1, 0, MANY - 1));
}
