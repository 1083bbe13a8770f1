//! The pool, and the guard of a checked-out connection.
ghost use Rattle.std.specs.Prelude.{◌≡◌, ◌≤◌, ◌<◌, true, false, IfOk};
ghost use Rattle.std.specs.Arc.{arc_value};
ghost use Rattle.std.specs.Duration.{as_nanos};
ghost use Rattle.bb8_types.specs.declared.grants.Grant.{Grant as GrantOf};
ghost use Rattle.bb8_types.specs.Settings.{settings_of, default_settings, is_lawful};
ghost use Rattle.bb8_lock.specs.Permits.{HasBegun};
ghost use Rattle.bb8_lock.specs.Scope.{OwnAdds, OwnCloses, OwnRetires, OwnShows, OwnTellsClosed};

use crate::Builder;
use crate::building::{MakesPool, Plan};
use crate::dedicated::{Dedicated, DedicatedFuture};
use crate::get::GetFuture;
use crate::handles::{BareHandle, Joins};
use crate::owned::{GetOwnedFuture, OwnedCalls, OwnedConnection, OwnedStage};
use bb8_core::api::{
    AddError, Clock, Config, CustomizeConnection, ErrorSink, ManageConnection, Memory,
    NopCustomizer, NopErrorSink, RunError, SetClock, State,
};
use bb8_lock::gets::{GetState, Taken};
use bb8_lock::{
    Handle, Locks, OpensScope, Permit, Permits, PoolTypes, Shared, TypesOf, add, close, detach,
    give_back, is_closed, retire, state, take_now, wait,
};
use std::alloc::Global;
use std::fmt;
use std::fmt::{Debug, Formatter};
use std::marker::PhantomData;
use std::ops::{Deref, DerefMut};
use std::sync::ledger::Blank;
use std::sync::{Arc, Wait};
use std::time::Duration;

/// A handle of a pool of connections. Threads share one by reference, or each have their own
/// (`try_clone`). It checks connections out as guards, which return them when they are dropped.
///
/// As bb8, except for the type parameters. `G` is the manager, the error sink, the
/// customizer, the clock and the runtime that the pool was built with; `bb8::Pool` names them one
/// by one. The permits `L` count checked-out connections in proofs, and state the pool's settings
/// there. They take no memory at run time. Calls of the pool may wait for the lock.
///
/// When a handle is dropped, it reads the clock and leaves under the lock. The last one closes all
/// idle connections, which are dropped under the lock, and ends all approvals that no task has
/// claimed.
pub struct Pool<G: PoolTypes, L: Permits> {
    pub(crate) shared: Arc<Shared<G, L>, Global>,
    pub(crate) handle: Handle,
}

/// A guard: a checked-out connection, to which it dereferences. As bb8.
///
/// Its drop calls the manager's `has_broken`, reads the pool's clock, and returns the connection
/// under the pool's lock, for which it may wait. If the pool closes the connection, it is dropped
/// after the lock is released. A forgotten guard keeps its connection and its permit: the pool has
/// one slot less from then on.
pub struct PooledConnection<'a, G: PoolTypes, L: Permits> {
    pub(crate) shared: &'a Shared<G, L>,
    pub(crate) taken: Taken<G::Connection, Permit<L>>,
    /// Shows the borrow checker that the guard borrows its pool (*mutable-access*).
    pub(crate) lends: PhantomData<&'a ()>,
}

impl<
    M: ManageConnection,
    S: ErrorSink<M::Error>,
    Z: CustomizeConnection<M::Connection, M::Error>,
> Builder<M, S, Z> {
    ghost use Rattle.bb8.specs.Pools.{clock_in, customizer_in, made_in, manager_in, settings_in, sink_in};

    /// Builds a pool without connections, and waits for none. Approvals for the first ones, up to
    /// `min_idle`, are granted; a driver of the pool opens them.
    ///
    /// As bb8, except that the clock and the runtime are passed in, with a blank of `max_size`
    /// permits, and that memory can be refused. If it is, for the pool or for a first approval, it
    /// returns `Memory` and drops all arguments. The settings must be lawful; bb8 panics otherwise.
    pub fn build_unchecked<
        K: Clock,
        R: Wait + AllocGlobal + Send + Sync + Drop + 'static,
        L: Permits,
    >(
        self,
        manager: M,
        clock: K,
        rt: R,
        blank: Blank,
    ) -> Result<Pool<TypesOf<M, S, Z, K, R>, L>, Memory>
        requires lawful { is_lawful self.settings ≡ true }
        requires parts { (L.name ≡ blank.name) × (L.parts ≡ blank.parts) }
        requires size { blank.parts ≡ self.settings.max_size }
        requires settings { L.settings ≡ self.settings }
        ensures settings { IfOk result (λ pool. settings_in pool ≡ self.settings) }
        ensures first { IfOk result (λ pool. (grant : GrantOf) × HasBegun M.Connection
            (λ at. K.reports clock at × (made_in pool ≡ at)) self.settings false grant) }
        ensures manager { IfOk result (λ pool. manager_in pool ≡ manager) }
        ensures clock { IfOk result (λ pool. clock_in pool ≡ clock) }
        ensures sink { IfOk result (λ pool. sink_in pool ≡ self.error_sink) }
        ensures customizer { IfOk result (λ pool. customizer_in pool ≡ self.connection_customizer) }
    {
        let plan = Plan {
            builder: self,
            manager,
            clock,
            rt,
            blank,
            parts: PhantomData,
        };
        let (pool, _) = plan.open(false)?;
        Ok(pool)
    }
}

/// Takes a guard apart. (A trait because of *trait-for-threads*.)
pub(crate) trait IntoParts {
    type Permits;

    /// Returns the connection and its permit, with the pool that they return to.
    fn into_parts(self) -> Self::Permits;
}

impl<'a, G: PoolTypes, L: Permits> IntoParts for PooledConnection<'a, G, L> {
    type Permits = (&'a Shared<G, L>, Taken<G::Connection, Permit<L>>);

    fn into_parts(self) -> (&'a Shared<G, L>, Taken<G::Connection, Permit<L>>)
        ensures pool { result.0 ≡ self.entry.shared }
        ensures taken { result.1 ≡ self.entry.taken }
    {
        let PooledConnection {
            shared,
            taken,
            lends: _,
        } = self;
        (shared, taken)
    }
}

/// The calls of a pool that acquire no lock, so they cannot wait.
pub trait Gets {
    /// The future of a get.
    type Get;

    /// The future of a dedicated connection.
    type Dedicated;

    /// Gets a connection: an idle one, or, in the get's turn, the first that becomes available. As
    /// bb8, except for the future's name.
    ///
    /// A get that finds nothing idle waits, and may have a connection attempt approved. Without a
    /// driver no task makes the attempt: the get waits for a connection that is returned or added,
    /// and the approval stays open, which may leave no capacity for `add`. A pending poll asks to
    /// be polled again at once, so an executor does not sleep while a get waits.
    ///
    /// It resolves to `TimedOut` once `connection_timeout` has passed since the first poll, or the
    /// pool was closed, and to `Memory` or `Exhausted` if the get could not begin.
    fn get(self) -> Self::Get;

    /// Opens a connection that the pool does not count: it takes no slot, is not checked, and is
    /// never returned to the pool. The customizer prepares it. As bb8, except for the future's
    /// name.
    ///
    /// It tries once, and resolves to the first error of the manager or the customizer. A
    /// connection whose preparation failed is dropped.
    fn dedicated_connection(self) -> Self::Dedicated;
}

impl<'a, G: PoolTypes, L: Permits> Gets for &'a Pool<G, L> {
    ghost use Rattle.bb8.specs.Dedicated.{opening_of};
    ghost use Rattle.bb8.specs.Pools.{stage_of, IsOf};
    ghost use Rattle.bb8_tasks.specs.Dedicating.{fresh};
    ghost use Rattle.bb8_lock.specs.declared.gets.state.Stage.TheVariants.{Fresh as IsFresh};

    type Get = GetFuture<'a, G, L>;

    type Dedicated = DedicatedFuture<'a, G, L>;

    fn get(self) -> GetFuture<'a, G, L>
        ensures new { stage_of result ≡ IsFresh }
        ensures pool { IsOf result self.now }
    {
        GetFuture {
            shared: &*self.shared,
            get: GetState::new(),
        }
    }

    fn dedicated_connection(self) -> DedicatedFuture<'a, G, L>
        ensures new { opening_of result ≡ fresh }
        ensures pool { result.shared.now ≡ arc_value self.now.shared }
    {
        let Dedicated { latest, stage } = Dedicated::new();
        DedicatedFuture {
            shared: &*self.shared,
            latest,
            stage,
        }
    }
}

/// The calls of a pool that may wait for its lock. (A trait because of *trait-for-threads*.)
pub trait PoolCalls {
    /// The pool's connections.
    type Connection;

    /// The manager's errors.
    type Error;

    /// A handle of the pool.
    type Handle;

    /// The future of a get with its own handle.
    type GetOwned;

    /// A guard.
    type Guard;

    /// A guard with its own handle.
    type Owned;

    /// Gets a connection as `get` does, with its own handle, so that neither the get nor its guard
    /// borrows the pool. As bb8, except that the handle is made in this call; bb8 makes it once the
    /// get is served.
    ///
    /// If the handle is refused, as `try_clone` may refuse it, the first poll returns that error,
    /// and no get begins.
    fn get_owned(self) -> Self::GetOwned;

    /// Gets a connection if one is idle, and never waits for one. If none is idle, it returns
    /// `None`: no get began and none is counted. It decides this in one critical section.
    ///
    /// A connection that is handed out unchecked is returned. With the check on, unless
    /// `test_on_check_out_after` spares it, the check is polled once. If it does not pass at that
    /// poll, the result is `None`, and the get counts as cancelled. Returns `Memory` or `Exhausted`
    /// if the get could not begin.
    fn try_get(self) -> Result<Option<Self::Guard>, RunError<Self::Error>>;

    /// Gets a connection as `get` does, in one call: it blocks the thread until the get resolves,
    /// at most for `connection_timeout`, unless a check blocks. bb8 awaits.
    ///
    /// Between the polls of its get the thread sleeps until a connection is returned, opened or
    /// added, or the deadline has come, and 50 milliseconds at most; while its connection is
    /// checked, a millisecond at most. Each poll reads the pool's clock, which is read again before
    /// each sleep. The errors are those of `get`.
    fn get_blocking(self) -> Result<Self::Guard, RunError<Self::Error>>;

    /// Gets a connection as `get_blocking` does, with its own timeout instead of
    /// `connection_timeout`. With bb8 the caller sets a timer.
    fn get_blocking_timeout(self, timeout: Duration) -> Result<Self::Guard, RunError<Self::Error>>;

    /// Gets a connection as `get_owned` does, and blocks as `get_blocking` does. The handle is made
    /// first; if it is refused, that is the error, and no get begins.
    fn get_owned_blocking(self) -> Result<Self::Owned, RunError<Self::Error>>;

    /// Adds a connection that the pool did not open. `has_broken` is called first; if it returns
    /// false, the connection is idle at once, and its age counts from now. It does not count as
    /// created, and no customizer prepares it. As bb8.
    ///
    /// An error returns the connection as `has_broken` left it: `Broken` if it is broken; else
    /// `NoCapacity` if connections and open approvals are already `max_size`; else `Withheld` if no
    /// memory or no number was left for it.
    ///
    /// An approval stays open until its connection is opened. A get that finds nothing idle may
    /// cause one, and without a driver it stays open, even after that get was cancelled. So `add`
    /// may find no capacity although there are fewer than `max_size` connections.
    fn add(self, conn: Self::Connection) -> Result<(), AddError<Self::Connection>>;

    /// Returns how many connections the pool has, how many of them are idle, and its statistics. As
    /// bb8.
    fn state(self) -> State;

    /// Makes one more handle of the same pool. The pool lives as long as one of its handles; the
    /// drop of the last one closes all idle connections.
    ///
    /// Returns `Exhausted` if 4,294,967,295 handles are alive or the pool was closed, and `Memory`
    /// if memory for sharing the pool was refused; the pool is then as before. bb8's `Clone`, which
    /// never fails.
    fn try_clone(self) -> Result<Self::Handle, RunError<Self::Error>>;

    /// Retires all connections: each present one is treated as past `max_lifetime` from now on, and
    /// the connection of an attempt in progress is not accepted. bb8 has no such call; its callers
    /// wait for `max_lifetime`.
    ///
    /// Use it after a server was moved or a password was changed. Idle connections are closed now.
    /// A checked-out one stays valid until it is returned, and is closed then. Each one counts in
    /// `connections_closed_retired`, unless it is broken. The connection of an attempt in progress
    /// is dropped once it is open, and is not counted; a get that waits for it is served with a new
    /// one, which a driver opens. Connections that are requested later are not affected.
    ///
    /// New connections are opened as far as `min_idle` requires, and no waiter is woken. The closed
    /// ones are dropped one after another once the lock is released, so a slow drop delays only
    /// this call; meanwhile their replacements may already be open. If memory for a list of
    /// `max_size` connections is refused, they are dropped under the lock.
    fn retire(self, alloc: Global);

    /// Closes the pool, for all its handles at once. bb8 has no such call.
    ///
    /// All idle connections are closed, and dropped once the lock is released; if memory for a list
    /// of them is refused, they are dropped under the lock. Connection attempts that no driver has
    /// begun are given up. A connection that is checked out, or is just being opened, is closed
    /// when it is returned or opened. Waiting gets return `TimedOut` at their next poll, and
    /// blocked threads are woken for it. From then on `get` returns `TimedOut`, `add` returns
    /// `NoCapacity`, `try_clone` and `get_owned` return `Exhausted`, and drivers end. Closing the
    /// pool again does nothing.
    fn close(self, alloc: Global);

    /// Returns whether the pool was closed. bb8 has no such call.
    fn is_closed(self) -> bool;
}

/// Takes connections out of their pool.
pub trait Detach {
    /// The guard's connection.
    type Connection;

    /// Takes the connection out of the pool for good, and returns it. Its slot is freed: the
    /// longest waiter is notified, and a new connection is requested if one is wanted. `has_broken`
    /// is not called, and the connection counts as closed in no statistic. The handle of an
    /// `OwnedConnection` is dropped then. bb8 has no such call.
    fn detach(self) -> Self::Connection;
}

/// Cancels futures.
pub trait Cancel {
    /// Cancels the get, the connection attempt or the build, as a drop does.
    fn cancel(self);
}

impl<'a, G: PoolTypes<Runtime: Wait>, L: Permits> PoolCalls for &'a Pool<G, L> {
    ghost use Rattle.bb8.specs.Blocking.{GetsAtOnce, WaitsForGet, WaitsForOwned};
    ghost use Rattle.bb8.specs.Handles.{IsClone};
    ghost use Rattle.bb8.specs.Owned.{BeginsOwned};
    ghost use Rattle.bb8.specs.Pools.{settings_in};

    type Connection = G::Connection;

    type Error = G::Error;

    type Handle = Pool<G, L>;

    type GetOwned = GetOwnedFuture<G, L>;

    type Guard = PooledConnection<'a, G, L>;

    type Owned = OwnedConnection<G, L>;

    fn get_owned(self) -> GetOwnedFuture<G, L>
        ensures { BeginsOwned self.now result.stage }
    {
        let stage = match self.join() {
            Ok(holding) => OwnedStage::Open(holding, GetState::new()),
            Err(error) => OwnedStage::Refused(error),
        };
        GetOwnedFuture { stage: Some(stage) }
    }

    fn try_get(self) -> Result<Option<PooledConnection<'a, G, L>>, RunError<G::Error>>
        ensures { GetsAtOnce self.now result }
    {
        let shared = &*self.shared;
        let answer = take_now(&mut shared.scope(), shared.config.connection_timeout);
        match answer {
            Ok(Some(taken)) => Ok(Some(PooledConnection {
                shared,
                taken,
                lends: PhantomData,
            })),
            Ok(None) => Ok(None),
            Err(error) => Err(error),
        }
    }

    fn get_blocking(self) -> Result<PooledConnection<'a, G, L>, RunError<G::Error>>
        ensures { WaitsForGet (settings_in self.now).connection_timeout self.now result }
    {
        self.get_blocking_timeout(self.shared.config.connection_timeout)
    }

    fn get_blocking_timeout(
        self,
        timeout: Duration,
    ) -> Result<PooledConnection<'a, G, L>, RunError<G::Error>>
        ensures { WaitsForGet (as_nanos timeout) self.now result }
    {
        let shared = &*self.shared;
        let answer = wait(&mut shared.scope(), &shared.rt, timeout);
        match answer {
            Ok(taken) => Ok(PooledConnection {
                shared,
                taken,
                lends: PhantomData,
            }),
            Err(error) => Err(error),
        }
    }

    fn get_owned_blocking(self) -> Result<OwnedConnection<G, L>, RunError<G::Error>>
        ensures { WaitsForOwned self.now result }
    {
        let holding = match self.join() {
            Ok(holding) => holding,
            Err(error) => return Err(error),
        };
        let shared = &*holding.shared;
        let answer = wait(
            &mut shared.scope(),
            &shared.rt,
            shared.config.connection_timeout,
        );
        match answer {
            Ok(taken) => Ok(OwnedConnection { holding, taken }),
            Err(error) => {
                holding.leave_owned();
                Err(error)
            }
        }
    }

    fn add(self, conn: G::Connection) -> Result<(), AddError<G::Connection>>
        ensures { OwnAdds (arc_value self.now.shared) conn result }
    {
        let shared = &*self.shared;
        add(&mut shared.scope(), conn)
    }

    fn state(self) -> State
        ensures shown { OwnShows (arc_value self.now.shared) result }
        ensures size { result.connections ≤ (settings_in self.now).max_size }
        ensures idle { result.idle_connections ≤ result.connections }
    {
        let shared = &*self.shared;
        state(&mut shared.scope())
    }

    fn try_clone(self) -> Result<Pool<G, L>, RunError<G::Error>>
        ensures { IsClone self.now result }
    {
        match self.join() {
            Ok(BareHandle { shared, handle }) => Ok(Pool { shared, handle }),
            Err(error) => Err(error),
        }
    }

    fn retire(self, alloc: Global)
        ensures { OwnRetires (arc_value self.now.shared) }
    {
        let shared = &*self.shared;
        retire(&mut shared.scope(), alloc, shared.config.max_size);
    }

    fn close(self, alloc: Global)
        ensures { OwnCloses (arc_value self.now.shared) }
    {
        let shared = &*self.shared;
        close(&mut shared.scope(), alloc, shared.config.max_size);
    }

    fn is_closed(self) -> bool
        ensures { OwnTellsClosed (arc_value self.now.shared) result }
    {
        let shared = &*self.shared;
        is_closed(&mut shared.scope())
    }
}

impl<G: PoolTypes, L: Permits> Pool<G, L> {
    ghost use Rattle.bb8.specs.Pools.{settings_in};

    /// Returns the settings that the pool was built with. As bb8.
    pub fn config(&self) -> Config
        ensures { settings_of result ≡ settings_in self.now }
    {
        self.shared.config
    }
}

impl<M: ManageConnection, R: Locks, L: Permits> Pool<
    TypesOf<M, NopErrorSink, NopCustomizer, SetClock, R>,
    L,
> {
    /// Returns a builder with each setting at its default. As bb8. Only pools without sink and
    /// customizer, on a `SetClock`, have it.
    pub fn builder() -> Builder<M>
        ensures { result.settings ≡ default_settings }
    {
        Builder::new()
    }
}

impl<G: PoolTypes, L: Permits> Drop for Pool<G, L> {
    ghost use Rattle.bb8_lock.specs.Scope.{OwnLeaves};

    fn drop(self)
        ensures { OwnLeaves (arc_value self.shared) }
    {
        let Pool { shared, handle } = self;
        BareHandle { shared, handle }.leave_owned();
    }
}

impl<G: PoolTypes, L: Permits> Debug for Pool<G, L> {
    /// Prints `Pool(..)`, without its parts. bb8 prints an address.
    fn fmt<W: fmt::Write>(&self, f: &mut Formatter<W>) -> fmt::Result {
        f.write_str("Pool(..)")
    }
}

impl<G: PoolTypes, L: Permits> Drop for PooledConnection<'_, G, L> {
    ghost use Rattle.bb8_lock.specs.Scope.{OwnReturns};

    fn drop(self)
        ensures { OwnReturns self.entry.shared.now self.entry.taken }
    {
        let PooledConnection {
            shared,
            taken,
            lends: _,
        } = self;
        give_back(&mut shared.scope(), taken);
    }
}

impl<G: PoolTypes<Runtime: Wait>, L: Permits> Detach for PooledConnection<'_, G, L> {
    ghost use Rattle.bb8_lock.specs.Scope.{OwnDetaches};
    ghost use Rattle.bb8.specs.GuardLists.{connection_of};

    type Connection = G::Connection;

    fn detach(self) -> G::Connection
        ensures left { OwnDetaches self.entry.shared.now self.entry.taken }
        ensures connection { result ≡ connection_of self.entry }
    {
        let PooledConnection {
            shared,
            taken,
            lends: _,
        } = self;
        detach(&mut shared.scope(), taken)
    }
}

impl<G: PoolTypes, L: Permits> Deref for PooledConnection<'_, G, L> {
    type Target = G::Connection;

    ghost deref_gives = { λ guard connection. connection ≡ guard.taken.connection };

    fn deref(&self) -> &G::Connection {
        &self.taken.connection
    }
}

impl<G: PoolTypes, L: Permits> DerefMut for PooledConnection<'_, G, L> {
    ghost use Rattle.std.specs.Prelude.{[]};
    ghost use Rattle.std.specs.Borrow.{Lends, sem};
    ghost use mir.Syntax.{named};
    ghost use Rattle.bb8.specs.GuardLists.{with_connection};
    ghost use Rattle.bb8.specs.contracts.pool.PooledConnection.{the_row};

    ghost deref_mut_gives = { λ guard connection. connection ≡ guard.taken.connection };

    fn deref_mut(&mut self) -> &mut G::Connection
        ensures* writes_back { sem 𝓛 (Lends
            (the_row (record { mir = named 1; lft = [] }) G.row L.row G.Manager.row G.Sink.row G.Customizer.row G.Clock.row G.Runtime.row
            G.Connection.row G.Error.row G.Connecting.row G.Checking.row G.Acquiring.row _ _ _ _ _ _
            (record { name = L.name; parts = L.parts }))
            G.Connection.row self.entry result (with_connection self.old)) }
        ensures shows { result.now ≡ self.old.taken.connection }
    {
        let taken = &mut self.taken;
        &mut taken.connection
    }
}

impl<G: PoolTypes, L: Permits> Debug for PooledConnection<'_, G, L>
where
    G::Connection: Debug,
{
    /// Prints the connection. As bb8.
    fn fmt<W: fmt::Write>(&self, f: &mut Formatter<W>) -> fmt::Result {
        self.taken.connection.fmt(f)
    }
}
