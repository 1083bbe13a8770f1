//! The trait of everything on which the polls of a get make steps.
ghost use Rattle.std.specs.Prelude.{◌≡◌};
ghost use Rattle.bb8_types.specs.declared.api.moments.Moment.{Moment as MomentOf};
ghost use Rattle.bb8_lock.specs.Steps.{GetStep, Looks, Starts, Tries, Passes, Fails, GivesUp, GivesBack, PutsBack, Adds, Shows, Joins, Leaves, Retires, Detaches, Closes};

use bb8_core::api::{Moment, State};
use bb8_core::internals::{
    AddAnswer, CheckedErrAnswer, ClosedList, DetachAnswer, GetKey, GiveUpAnswer, Grant, Key,
    LeaveAnswer, Looked, PutBackAnswer, ReapAnswer, Reason, Unfit,
};

/// A checked-out connection with its permit. It has no `Drop`: code must take it apart by name.
pub struct Taken<C, P> {
    /// The key of the connection.
    pub key: Key,
    /// The connection, which a get or a guard holds from now on.
    pub connection: C,
    /// Its permit.
    pub permit: P,
}

/// The result of a try.
pub enum Tried<C, P> {
    /// The get ended with this connection, which a guard holds from now on; the grant.
    Served(Taken<C, P>, Grant),
    /// The get holds this connection, which must be checked; the grant.
    Taken(Taken<C, P>, Grant),
    /// The get waits until it is notified; the grant.
    Waiting(Grant),
}

/// The result of a get that begins and tries.
pub enum FirstTry<C, P> {
    /// The get has begun, and this is the result of its first try.
    Tried(GetKey, Tried<C, P>),
    /// As many gets are alive as ever were, and memory for one more was refused.
    Memory,
    /// No number is left.
    Exhausted,
}

/// The result of a passed check: the get ended, and a guard holds its connection from now on.
pub struct Passed<P> {
    /// The key of the connection.
    pub key: Key,
    /// Its permit.
    pub permit: P,
}

/// A connection that a get or a guard held and that its home takes back.
pub struct Returned<C, P> {
    /// The connection, as `has_broken` left it, and its permit.
    pub taken: Taken<C, P>,
    /// The result of `has_broken`.
    pub broken: bool,
}

/// The result of `join`.
pub enum Joining<H> {
    /// There is one more handle.
    Joined(H),
    /// The maximum of 4,294,967,295 handles is alive.
    Exhausted,
    /// The step does not fit, because no handle is alive. Nothing has changed.
    Unfit,
}

/// A home that a call consumes; no step can be made on it afterwards.
pub trait LetGo {
    // Holds of a home that may be consumed.
    ghost goes: { Self → Type 0 };

    /// Consumes the home.
    fn go(self)
        ensures { goes self };
}

/// The steps of gets, guards and handles, on connections of type `C`. The state that a pool keeps
/// behind its lock is such a home, and so is the lock itself.
///
/// One ghost member relates the home, each step with its arguments and result, and the home after
/// it. It has no default: clauses of a get's polls and of critical sections hold for every
/// choice. A connection that is closed, or whose step did not fit, is returned to the caller, who
/// must drop it.
pub trait GetHome<C> {
    /// The permit of a checked-out connection.
    type Permit;

    /// A handle that is alive.
    type Handle;

    // Relates a home before and after it is released.
    ghost releases: { Self → Self → Type 0 };

    // Relates a home, a moment, and a step with its arguments and each possible result, to the home
    // after it. For `look` and `start` the moment is a reading of the clock.
    ghost steps: { Self → MomentOf → GetStep C Self.Permit Self.Handle → Self → Type 0 };

    /// Releases the home until its next step. It is called between a step and the user callback
    /// after it: a home that acquires a lock for its steps releases it here.
    fn release(&mut self)
        ensures { releases self.old self.new };

    /// Returns the effective moment at this reading of the clock, and whether a handle is alive.
    fn look(&mut self, at: Moment) -> Looked
        ensures { steps self.old at (Looks result) self.new };

    /// Returns the effective moment at this reading of the clock, begins a get at it and lets it
    /// try, in one step.
    fn start(&mut self, at: Moment) -> (Moment, Result<FirstTry<C, Self::Permit>, Unfit>)
        ensures { steps self.old at (Starts result.0 result.1) self.new };

    /// Gives a get an idle connection, with which it is served or which it must check; or lets the
    /// get wait.
    fn try_get(&mut self, at: Moment, get: GetKey) -> Result<Tried<C, Self::Permit>, Unfit>
        ensures { steps self.old at (Tries get result) self.new };

    /// Serves a get with the connection that it holds, because its check passed. The home returns
    /// the permit; it is lost if the step does not fit.
    fn checked_ok(
        &mut self,
        at: Moment,
        get: GetKey,
        key: Key,
        permit: Self::Permit,
    ) -> Result<Passed<Self::Permit>, Unfit>
        ensures { steps self.old at (Passes get key permit result) self.new };

    /// Closes the connection that a get holds, because its check failed; the get must try again. If
    /// the step does not fit, `Err` has the connection.
    fn checked_err(
        &mut self,
        at: Moment,
        get: GetKey,
        returned: Returned<C, Self::Permit>,
    ) -> Result<CheckedErrAnswer<C>, C>
        ensures { steps self.old at (Fails get returned result) self.new };

    /// Ends a get that is not served and holds no connection.
    fn give_up(&mut self, at: Moment, get: GetKey, reason: Reason) -> Result<GiveUpAnswer<C>, Unfit>
        ensures { steps self.old at (GivesUp get reason result) self.new };

    /// Ends a get that is not served and holds a connection, which becomes idle or is closed. If
    /// the step does not fit, `Err` has the connection.
    fn give_back(
        &mut self,
        at: Moment,
        get: GetKey,
        reason: Reason,
        returned: Returned<C, Self::Permit>,
    ) -> Result<GiveUpAnswer<C>, C>
        ensures { steps self.old at (GivesBack get reason returned result) self.new };

    /// Takes back a checked-out connection and its permit. If the step does not fit, `Err` has the
    /// connection, and the permit is lost.
    fn put_back(
        &mut self,
        at: Moment,
        returned: Returned<C, Self::Permit>,
    ) -> Result<PutBackAnswer<C>, C>
        ensures { steps self.old at (PutsBack returned result) self.new };

    /// Adds a connection without an approval. If the step does not fit, `Err` has the connection.
    fn add(&mut self, at: Moment, conn: C, broken: bool) -> Result<AddAnswer<C>, C>
        ensures { steps self.old at (Adds conn broken result) self.new };

    /// Returns the size and the statistics of the pool.
    fn state(&mut self, at: Moment) -> State
        ensures { steps self.old at (Shows result) self.new };

    /// Adds a handle, if one is alive and the maximum is not reached.
    fn join(&mut self, at: Moment) -> Joining<Self::Handle>
        ensures { steps self.old at (Joins result) self.new };

    /// Drops a handle. With the last one all idle connections end, and are dropped here, and so do
    /// all unclaimed approvals.
    fn leave(&mut self, at: Moment, handle: Self::Handle) -> Result<LeaveAnswer, Unfit>
        ensures { steps self.old at (Leaves result) self.new };

    /// Retires all connections that there are and all whose connection attempts are under way. Idle
    /// ones are closed and put into the list, in the order in which they are closed; one for which
    /// it has no capacity is dropped here. Checked-out ones are closed when they are returned, and
    /// those of attempts come too late.
    fn retire(&mut self, at: Moment, closed: &mut ClosedList<C>) -> ReapAnswer
        ensures { steps self.old at (Retires closed.old result closed.new) self.new };
    /// Ends the record of a connection that a guard keeps, and takes back its permit, which is lost
    /// if the step does not fit.
    fn detach(&mut self, at: Moment, key: Key, permit: Self::Permit) -> Result<DetachAnswer, Unfit>
        ensures { steps self.old at (Detaches key permit result) self.new };

    /// Drops all handles. All idle connections and all unclaimed approvals end. The connections are
    /// moved into a list; those for which it has no capacity are dropped here.
    fn close(&mut self, at: Moment, closed: &mut ClosedList<C>) -> Result<LeaveAnswer, Unfit>
        ensures { steps self.old at (Closes closed.old closed.new result) self.new };
}
