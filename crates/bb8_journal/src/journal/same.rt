//! Equality of results, field by field.
ghost use Rattle.std.specs.Prelude.{◌≡◌};
ghost use Rattle.std.specs.Bool.{Decides};

use bb8_core::api::{State, Statistics};
use bb8_core::replay::Answer;

/// Returns whether two statistics are equal.
fn is_same_statistics(one: Statistics, other: Statistics) -> bool
    ensures { Decides result (one ≡ other) }
{
    one == other
}

/// Returns whether two states are equal.
fn is_same_state(one: State, other: State) -> bool
    ensures { Decides result (one ≡ other) }
{
    one.connections == other.connections
        && one.idle_connections == other.idle_connections
        && is_same_statistics(one.statistics, other.statistics)
}

/// Returns whether two results are equal.
pub(crate) fn is_same(one: Answer, other: Answer) -> bool
    ensures { Decides result (one ≡ other) }
{
    match one {
        Answer::Begun(g) => matches!(other, Answer::Begun(h) if g == h),
        Answer::Memory => matches!(other, Answer::Memory),
        Answer::Exhausted => matches!(other, Answer::Exhausted),
        Answer::Served(k, x) => matches!(other, Answer::Served(m, y) if k == m && x == y),
        Answer::Taken(k, x) => matches!(other, Answer::Taken(m, y) if k == m && x == y),
        Answer::Waiting(x) => matches!(other, Answer::Waiting(y) if x == y),
        Answer::Kept(k, n) => matches!(other, Answer::Kept(m, o) if k == m && n == o),
        Answer::Closed(k, x, n) => {
            matches!(other, Answer::Closed(m, y, o) if k == m && x == y && n == o)
        }
        Answer::GaveUp(n) => matches!(other, Answer::GaveUp(o) if n == o),
        Answer::Granted(x) => matches!(other, Answer::Granted(y) if x == y),
        Answer::Claimed(n) => matches!(other, Answer::Claimed(o) if n == o),
        Answer::Ended => matches!(other, Answer::Ended),
        Answer::Entered(k, n) => matches!(other, Answer::Entered(m, o) if k == m && n == o),
        Answer::Late(k) => matches!(other, Answer::Late(m) if k == m),
        Answer::GivenBack => matches!(other, Answer::GivenBack),
        Answer::Added(k, n) => matches!(other, Answer::Added(m, o) if k == m && n == o),
        Answer::Broken => matches!(other, Answer::Broken),
        Answer::NoCapacity => matches!(other, Answer::NoCapacity),
        Answer::Withheld => matches!(other, Answer::Withheld),
        Answer::Reaped {
            closed,
            by_idle,
            by_life,
            grant,
        } => {
            matches!(other, Answer::Reaped { closed: n, by_idle: i, by_life: l, grant: g } if closed == n && by_idle == i && by_life == l && grant == g)
        }
        Answer::Shown(x) => matches!(other, Answer::Shown(y) if is_same_state(x, y)),
        Answer::Joined => matches!(other, Answer::Joined),
        Answer::Left(n) => matches!(other, Answer::Left(o) if n == o),
        Answer::Looked(x, a) => matches!(other, Answer::Looked(y, b) if x.0 == y.0 && a == b),
        Answer::Unfit => matches!(other, Answer::Unfit),
    }
}
