//! The calls of guards and handles, over any home and any user callbacks.
//!
//! The home is released after each critical section, before any other callback.
ghost use Rattle.std.specs.Prelude.{◌≡◌};
ghost use Rattle.std.specs.Duration.{as_nanos};
ghost use Rattle.bb8_lock.specs.Traces.{AddsOutside, AfterReturn, CancelsAndLeaves, IsAddResult, Joins, HandleLeaves, Returns, ReturnsAndLeaves, Retires, RetiresInto, Shows, TakesNow, TriesOnce, Closes, ClosesInto, Detaches, DetachesAndLeaves, DropsEach, IsListFor, ReportsClosed};

use crate::gets::{GetHome, GetState, Joining, Outside, Taken, ask};
use bb8_core::api::{AddError, Moment, RunError, State};
use bb8_core::internals::{AddAnswer, ClosedList, PutBackAnswer};
use futures::task::Poll;
use std::alloc::Global;
use std::time::Duration;

/// Returns a guard's connection: asks whether it is broken, reads the clock, gives it to the home
/// and releases the home. If the pool does not keep the connection, it is dropped then.
pub fn give_back<C, V, P, E, X: GetHome<C, Permit = P> + Outside<C, E, Checking = V>>(
    pool: &mut X,
    taken: Taken<C, P>,
)
    ensures { Returns X.GetHome X.Outside taken pool.old pool.new }
{
    let returned = ask(pool, taken);
    let at = pool.now();
    let answer = pool.put_back(at, returned);
    pool.release();
    drop_closed(pool, answer);
}

/// Drops a returned connection that the pool does not keep.
fn drop_closed<C, E, X: Outside<C, E>>(pool: &mut X, answer: Result<PutBackAnswer<C>, C>)
    ensures { AfterReturn X.Outside answer pool.old pool.new }
{
    match answer {
        Ok(PutBackAnswer::Kept(_)) => {}
        Ok(PutBackAnswer::Closed(closed, ..)) => pool.let_go(closed),
        Err(unfit) => pool.let_go(unfit),
    }
}

/// Adds a connection: asks whether it is broken, reads the clock, offers it to the home and
/// releases the home.
pub fn add<C, V, P, E, X: GetHome<C, Permit = P> + Outside<C, E, Checking = V>>(
    pool: &mut X,
    mut conn: C,
) -> Result<(), AddError<C>>
    ensures { AddsOutside X.GetHome X.Outside conn pool.old result pool.new }
{
    let broken = pool.has_broken(&mut conn);
    let at = pool.now();
    let answer = pool.add(at, conn, broken);
    pool.release();
    outcome(answer)
}

/// Turns the result of an add into the caller's. A pool whose last handle left would have no
/// capacity, but the caller has a handle.
fn outcome<C>(answer: Result<AddAnswer<C>, C>) -> Result<(), AddError<C>>
    ensures { IsAddResult answer result }
{
    match answer {
        Ok(AddAnswer::Added(_, _)) => Ok(()),
        Ok(AddAnswer::Broken(conn)) => Err(AddError::Broken(conn)),
        Ok(AddAnswer::NoCapacity(conn)) | Err(conn) => Err(AddError::NoCapacity(conn)),
        Ok(AddAnswer::Withheld(conn)) => Err(AddError::Withheld(conn)),
    }
}

/// Returns the home's statistics at a clock reading.
pub fn state<C, V, P, E, X: GetHome<C, Permit = P> + Outside<C, E, Checking = V>>(
    pool: &mut X,
) -> State
    ensures { Shows X.GetHome X.Outside pool.old result pool.new }
{
    let at = pool.now();
    let state = pool.state(at);
    pool.release();
    state
}

/// Returns a connection at once, or None. If the home has none idle, no get begins. Otherwise one
/// get tries once in the same critical section, and is cancelled if it has no result.
pub fn take_now<C, V, P, E, X: GetHome<C, Permit = P> + Outside<C, E, Checking = V>>(
    pool: &mut X,
    timeout: Duration,
) -> Result<Option<Taken<C, P>>, RunError<E>>
    ensures { TakesNow X.GetHome X.Outside (as_nanos timeout) pool.old result
        pool.new }
{
    let at = pool.now();
    if pool.state(at).idle_connections == 0 {
        pool.release();
        return Ok(None);
    }
    try_once(pool, at, timeout)
}

/// Begins a get that tries once at this reading of the clock, and cancels it if it has no result.
fn try_once<C, V, P, E, X: GetHome<C, Permit = P> + Outside<C, E, Checking = V>>(
    pool: &mut X,
    at: Moment,
    timeout: Duration,
) -> Result<Option<Taken<C, P>>, RunError<E>>
    ensures { TriesOnce X.GetHome X.Outside at (as_nanos timeout) pool.old result pool.new }
{
    let mut get = GetState::new();
    let answer = get.start_step(pool, at, timeout);
    pool.release();
    get.cancel_step(pool);
    match answer {
        Poll::Ready(Ok(taken)) => Ok(Some(taken)),
        Poll::Ready(Err(error)) => Err(error),
        Poll::Pending => Ok(None),
    }
}

/// Asks the home for one more handle at a clock reading.
pub fn join<C, V, P, E, X: GetHome<C, Permit = P> + Outside<C, E, Checking = V>>(
    pool: &mut X,
) -> Joining<X::Handle>
    ensures { Joins X.GetHome X.Outside pool.old result pool.new }
{
    let at = pool.now();
    let answer = pool.join(at);
    pool.release();
    answer
}

/// Takes a handle away at a clock reading. Connections that the last one closes are dropped before
/// the home is released.
pub fn leave<C, V, P, E, X: GetHome<C, Permit = P> + Outside<C, E, Checking = V>>(
    pool: &mut X,
    handle: X::Handle,
)
    ensures { HandleLeaves X.GetHome X.Outside pool.old pool.new }
{
    let at = pool.now();
    let _ = pool.leave(at, handle);
    pool.release();
}

/// Returns the connection of a guard with its own handle, and then takes the handle away.
pub fn give_back_and_leave<C, V, P, E, X: GetHome<C, Permit = P> + Outside<C, E, Checking = V>>(
    pool: &mut X,
    taken: Taken<C, P>,
    handle: X::Handle,
)
    ensures { ReturnsAndLeaves X.GetHome X.Outside taken pool.old pool.new }
{
    give_back(pool, taken);
    leave(pool, handle);
}

/// Cancels a get with its own handle, releases the home, and then takes the handle away.
pub fn cancel_and_leave<C, V, P, E, X: GetHome<C, Permit = P> + Outside<C, E, Checking = V>>(
    pool: &mut X,
    get: GetState<C, V, P>,
    handle: X::Handle,
)
    ensures { CancelsAndLeaves X.GetHome X.Outside get.stage pool.old pool.new }
{
    get.cancel_step(pool);
    pool.release();
    leave(pool, handle);
}

/// Retires all connections: makes a list for `size` connections, reads the clock, has the home
/// retire them, and releases the home. Then the closed connections are dropped. If memory for the
/// list is refused, the home drops them.
pub fn retire<C: Drop, V, P, E, X: GetHome<C, Permit = P> + Outside<C, E, Checking = V>>(
    pool: &mut X,
    alloc: Global,
    size: u32,
)
    ensures { Retires X.GetHome X.Outside size pool.old pool.new }
{
    let list = list_for(alloc, size);
    retire_into(pool, list);
}

/// Retires all connections, then drops those that the home put into the list.
fn retire_into<C: Drop, V, P, E, X: GetHome<C, Permit = P> + Outside<C, E, Checking = V>>(
    pool: &mut X,
    mut retired: ClosedList<C>,
)
    ensures { RetiresInto X.GetHome X.Outside retired pool.old pool.new }
{
    let at = pool.now();
    let _ = pool.retire(at, &mut retired);
    pool.release();
    drop_each(pool, retired);
}

/// Takes the connection of a guard out of the pool for good: reads the clock, ends its record in
/// the home and releases the home. The connection is not asked whether it is broken.
pub fn detach<C, V, P, E, X: GetHome<C, Permit = P> + Outside<C, E, Checking = V>>(
    pool: &mut X,
    taken: Taken<C, P>,
) -> C
    ensures step { Detaches X.GetHome X.Outside taken pool.old pool.new }
    ensures connection { result ≡ taken.connection }
{
    let Taken {
        key,
        connection,
        permit,
    } = taken;
    let at = pool.now();
    let _ = pool.detach(at, key, permit);
    pool.release();
    connection
}

/// Takes the connection of a guard with its own handle out of the pool for good, and then takes the
/// handle away.
pub fn detach_and_leave<C, V, P, E, X: GetHome<C, Permit = P> + Outside<C, E, Checking = V>>(
    pool: &mut X,
    taken: Taken<C, P>,
    handle: X::Handle,
) -> C
    ensures step { DetachesAndLeaves X.GetHome X.Outside taken pool.old pool.new }
    ensures connection { result ≡ taken.connection }
{
    let connection = detach(pool, taken);
    leave(pool, handle);
    connection
}

/// Closes the pool: makes a list for `size` connections, reads the clock, has the home end all
/// handles, and releases the home. Then the closed connections are dropped. If memory for the list
/// is refused, the home drops them.
pub fn close<C: Drop, V, P, E, X: GetHome<C, Permit = P> + Outside<C, E, Checking = V>>(
    pool: &mut X,
    alloc: Global,
    size: u32,
)
    ensures { Closes X.GetHome X.Outside size pool.old pool.new }
{
    let list = list_for(alloc, size);
    close_into(pool, list);
}

/// Returns an empty list with capacity for `size` closed connections, or for none if memory is
/// refused.
fn list_for<C: Drop>(alloc: Global, size: u32) -> ClosedList<C>
    ensures { IsListFor size result }
{
    let mut list = ClosedList::new(alloc);
    let _ = list.grow(size as usize);
    list
}

/// Closes the pool, then drops the connections that the home put into the list.
fn close_into<C: Drop, V, P, E, X: GetHome<C, Permit = P> + Outside<C, E, Checking = V>>(
    pool: &mut X,
    mut list: ClosedList<C>,
)
    ensures { ClosesInto X.GetHome X.Outside list pool.old pool.new }
{
    let at = pool.now();
    let _ = pool.close(at, &mut list);
    pool.release();
    drop_each(pool, list);
}

/// Drops closed connections, one after another.
fn drop_each<C: Drop, E, X: Outside<C, E>>(pool: &mut X, mut list: ClosedList<C>)
    ensures { DropsEach X.Outside list.items pool.old pool.new }
{
    while let Some(closed) = list.pop() {
        pool.let_go(closed.conn);
    }
}

/// Whether no handle of the home is alive, at a clock reading.
pub fn is_closed<C, V, P, E, X: GetHome<C, Permit = P> + Outside<C, E, Checking = V>>(
    pool: &mut X,
) -> bool
    ensures { ReportsClosed X.GetHome X.Outside pool.old result pool.new }
{
    let at = pool.now();
    let seen = pool.look(at);
    pool.release();
    !seen.alive
}
