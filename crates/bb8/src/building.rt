//! The future of a pool that is being built, until it has its first connections.
ghost use Rattle.std.specs.Prelude.{◌≡◌, true};
ghost use Rattle.bb8_types.specs.Settings.{is_lawful};
ghost use Rattle.bb8_lock.specs.Permits.{IsBlankOf};

use crate::Builder;
use crate::driver::rest_until;
use crate::pool::{Cancel, Pool};
use bb8_core::api::{
    Clock, CustomizeConnection, ErrorSink, ManageConnection, Memory, Moment, RunError,
};
use bb8_core::internals::Grant;
use bb8_lock::gets::GetHome;
use bb8_lock::{
    Locks, NewPool, OpensScope, Permits, PoolTypes, Shared, SignalLock, TypesOf, begin_pool,
};
pub use bb8_tasks::{BuildingStage, BuildingStep, Replenish, Round, Tasks};
use futures::Future;
use futures::task::{Context, Poll};
use std::marker::PhantomData;
use std::mem;
use std::sync::ledger::Blank;
use std::sync::{Arc, Wait};

/// The input of a build.
#[derive(Drop)]
pub(crate) struct Plan<G: PoolTypes, L: Permits> {
    pub builder: Builder<G::Manager, G::Sink, G::Customizer>,
    pub manager: G::Manager,
    pub clock: G::Clock,
    pub rt: G::Runtime,
    pub blank: Blank,
    pub parts: PhantomData<L>,
    ghost lawful: { is_lawful builder.settings ≡ true },
    ghost cut: { IsBlankOf blank builder.settings L.name L.parts L.settings },
}

/// Makes a pool. (A trait because of *trait-for-threads*.)
pub(crate) trait MakesPool {
    type Opened;

    type Made;

    /// Returns a pool, and the grant for its first connections, claimed or not.
    fn open(self, claimed: bool) -> Self::Opened;

    /// Returns a pool, and a task for each of its first approvals.
    fn make(self) -> Self::Made;
}

impl<G: PoolTypes<Runtime: Wait + AllocGlobal>, L: Permits> MakesPool for Plan<G, L> {
    ghost use Rattle.std.specs.Prelude.{◌+◌, ◌^◌, ◌<◌, IfOk};
    ghost use Rattle.bb8.specs.Buildings.{PoolIsMade, IsOpened};

    type Opened = Result<(Pool<G, L>, Grant), Memory>;

    type Made = Result<
        (
            Pool<G, L>,
            Tasks<G::Connection, G::Connecting, G::Acquiring>,
        ),
        Memory,
    >;

    fn open(self, claimed: bool) -> Self::Opened
        ensures opened { IfOk result (λ x. IsOpened self claimed x.0 x.1) }
        ensures numbers { IfOk result (λ x. x.1.first + x.1.count < 2 ^ 64) }
    {
        let Plan {
            builder,
            manager,
            clock,
            rt,
            blank,
            parts: _,
        } = self;
        let (config, error_sink, customizer) = builder.into_parts();
        let at = clock.now();
        let alloc = rt.alloc();
        let NewPool {
            total,
            locked,
            handle,
            grant,
        } = begin_pool(alloc, config, at, blank, claimed)?;
        let shared = Shared {
            manager,
            error_sink,
            customizer,
            clock,
            rt,
            config,
            made: at,
            total,
            locked: SignalLock::new(locked),
        };
        match Arc::new(alloc, shared) {
            Ok(shared) => Ok((Pool { shared, handle }, grant)),
            Err(refused) => {
                let shared = refused.value;
                let Shared { locked, .. } = shared;
                let _ = locked.into_inner().leave(at, handle);
                Err(Memory)
            }
        }
    }

    /// If memory for the tasks is refused, the pool is dropped.
    fn make(self) -> Self::Made
        ensures { IfOk result (λ made. PoolIsMade self made.0 made.1) }
    {
        let alloc = self.rt.alloc();
        let (pool, grant) = self.open(true)?;
        match Tasks::for_approvals(alloc, grant.first, grant.count) {
            Ok(tasks) => Ok((pool, tasks)),
            Err(Memory) => Err(Memory),
        }
    }
}

/// The future that `Builder::build` returns: it builds a pool that has its first connections. It
/// does nothing until it is polled.
///
/// The first poll makes the pool at the clock's moment, with approvals for `min_idle` connections.
/// Each poll, also the first, reads the clock and polls each connection attempt that is in
/// progress, once and in the order of the approvals. A failed attempt is repeated if
/// `retry_connection` is set, as long as `connection_timeout` allows; the error of each such try
/// goes to the error sink. The first attempt that fails for good ends the build.
///
/// A pending poll asks to be polled again at once; `BuildingCalls::wait` sleeps between its polls.
/// If the future is dropped before it resolves, its approvals are freed and its pool is
/// dropped. Manager, customizer, sink and clock are called while the pool's lock is free. bb8's is
/// an async function.
pub struct Building<G: PoolTypes, L: Permits> {
    stage: BuildingStage<Plan<G, L>, Pool<G, L>, Tasks<G::Connection, G::Connecting, G::Acquiring>>,
}

impl<
    M: ManageConnection,
    S: ErrorSink<M::Error>,
    Z: CustomizeConnection<M::Connection, M::Error>,
> Builder<M, S, Z> {
    ghost use Rattle.bb8.specs.Buildings.{IsPlanned};

    /// Builds a pool that has its first connections, `min_idle` of them, once the future resolves.
    ///
    /// As bb8, except that the clock and the runtime are passed in, with a blank of `max_size`
    /// permits, and that memory can be refused. It resolves to `User` with the error of the first
    /// attempt that failed for good, and to `Memory` if memory was refused for the pool, for one of
    /// its first approvals or for their tasks; then everything is dropped. The settings must be
    /// lawful; bb8 panics otherwise.
    pub fn build<K: Clock, R: Locks, L: Permits>(
        self,
        manager: M,
        clock: K,
        rt: R,
        blank: Blank,
    ) -> Building<TypesOf<M, S, Z, K, R>, L>
        requires lawful { is_lawful self.settings ≡ true }
        requires parts { (L.name ≡ blank.name) × (L.parts ≡ blank.parts) }
        requires size { blank.parts ≡ self.settings.max_size }
        requires settings { L.settings ≡ self.settings }
        ensures { IsPlanned self manager clock result }
    {
        Building {
            stage: BuildingStage::Planned(Plan {
                builder: self,
                manager,
                clock,
                rt,
                blank,
                parts: PhantomData,
            }),
        }
    }
}

/// Ends a build. (A trait because of *trait-for-threads*.)
trait EndsStage {
    type BuildingStage;

    /// Frees the approvals of its tasks, and drops everything.
    fn end(stage: Self::BuildingStage);
}

impl<G: PoolTypes, L: Permits> EndsStage for Building<G, L> {
    ghost use Rattle.bb8.specs.Buildings.{EndsAt};

    type BuildingStage = BuildingStage<
        Plan<G, L>,
        Pool<G, L>,
        Tasks<G::Connection, G::Connecting, G::Acquiring>,
    >;

    fn end(stage: Self::BuildingStage)
        ensures { EndsAt stage }
    {
        match stage {
            BuildingStage::Planned(plan) => drop(plan),
            BuildingStage::Opening(pool, tasks) => {
                let shared = &*pool.shared;
                tasks.let_go(&mut shared.scope());
            }
            BuildingStage::Done => {}
        }
    }
}

impl<G: PoolTypes<Runtime: Wait>, L: Permits> Cancel for Building<G, L> {
    ghost use Rattle.bb8.specs.Buildings.{CancelsBuilding};

    fn cancel(self)
        ensures { CancelsBuilding self }
    {
        drop(self);
    }
}

impl<G: PoolTypes, L: Permits> Drop for Building<G, L> {
    ghost use Rattle.bb8.specs.Buildings.{CancelsBuilding};

    fn drop(self)
        ensures { CancelsBuilding self }
    {
        let Building { stage } = self;
        Self::end(stage);
    }
}

/// Polls a pool's first tasks. (A trait because of *trait-for-threads*.)
trait OpensFirst {
    type Tasks;

    type BuildingStep;

    /// Polls each task once, and returns the result of the build's poll.
    fn sweep(self, tasks: Self::Tasks) -> Self::BuildingStep;
}

impl<G: PoolTypes, L: Permits> OpensFirst for Pool<G, L> {
    ghost use Rattle.bb8_tasks.specs.Building.{Sweeps};
    ghost use Rattle.bb8.specs.Buildings.{PoolRounds};

    type Tasks = Tasks<G::Connection, G::Connecting, G::Acquiring>;

    type BuildingStep = BuildingStep<
        Plan<G, L>,
        Pool<G, L>,
        Tasks<G::Connection, G::Connecting, G::Acquiring>,
        G::Error,
    >;

    fn sweep(self, tasks: Self::Tasks) -> Self::BuildingStep
        ensures { Sweeps PoolRounds self tasks result.answer result.stage }
    {
        let shared = &*self.shared;
        let round = tasks.round(&mut shared.scope(), &shared.config);
        match round {
            Round::Failed(error) => BuildingStep {
                answer: Poll::Ready(Err(RunError::User(error))),
                stage: BuildingStage::Done,
            },
            Round::Complete => BuildingStep {
                answer: Poll::Ready(Ok(self)),
                stage: BuildingStage::Done,
            },
            Round::Going(tasks) => BuildingStep {
                answer: Poll::Pending,
                stage: BuildingStage::Opening(self, tasks),
            },
        }
    }
}

/// Polls a build. (A trait because of *trait-for-threads*.)
trait Builds {
    type BuildingStage;

    type BuildingStep;

    /// The result of the build.
    type Answer;

    /// Polls a build in this stage once.
    fn advance(stage: Self::BuildingStage) -> Self::BuildingStep;

    /// Polls once.
    fn step(&mut self) -> Poll<Self::Answer>;

    /// Sleeps until an attempt is due, and at most 50 milliseconds; a millisecond if one is
    /// pending.
    fn rest(&self);
}

impl<G: PoolTypes<Runtime: Wait + AllocGlobal>, L: Permits> Builds for Building<G, L> {
    ghost use Rattle.bb8.specs.Buildings.{PollsBuilding, PollsStage, RestsAt};

    type BuildingStage = BuildingStage<
        Plan<G, L>,
        Pool<G, L>,
        Tasks<G::Connection, G::Connecting, G::Acquiring>,
    >;

    type BuildingStep = BuildingStep<
        Plan<G, L>,
        Pool<G, L>,
        Tasks<G::Connection, G::Connecting, G::Acquiring>,
        G::Error,
    >;

    type Answer = Result<Pool<G, L>, RunError<G::Error>>;

    fn advance(stage: Self::BuildingStage) -> Self::BuildingStep
        ensures { PollsStage stage result.answer result.stage }
    {
        match stage {
            BuildingStage::Planned(plan) => match plan.make() {
                Ok((pool, tasks)) => pool.sweep(tasks),
                Err(Memory) => BuildingStep {
                    answer: Poll::Ready(Err(RunError::Memory)),
                    stage: BuildingStage::Done,
                },
            },
            BuildingStage::Opening(pool, tasks) => pool.sweep(tasks),
            BuildingStage::Done => BuildingStep {
                answer: Poll::Pending,
                stage: BuildingStage::Done,
            },
        }
    }

    fn step(&mut self) -> Poll<Self::Answer>
        ensures { PollsBuilding self.old result self.new }
    {
        let BuildingStep { answer, stage } = Self::advance(mem::replace(
            &mut self.stage,
            BuildingStage::Done,
        ));
        Self::end(mem::replace(&mut self.stage, stage));
        answer
    }

    fn rest(&self)
        ensures { RestsAt self.now.stage }
    {
        if let BuildingStage::Opening(pool, tasks) = &self.stage {
            let shared = &*pool.shared;
            let due = tasks.next_due(None);
            rest_until::<G::Connection, G::Error, _>(&mut shared.scope(), due);
        }
    }
}

/// Waits for a build. (A trait because of *trait-for-threads*.)
pub trait BuildingCalls {
    /// The result of the build.
    type Answer;

    /// Returns when a poll next has something to do: after the sleep that follows a failed try; or
    /// at once, as a moment in the past, before the first poll and while an attempt is pending.
    /// `None` means never.
    fn next_due(&self) -> Option<Moment>;

    /// Polls the build until it resolves. Between two polls it reads the pool's clock again, and
    /// the thread sleeps until an attempt is due, and at most 50 milliseconds; a millisecond if one
    /// is pending.
    fn wait(self, rt: &impl Wait) -> Self::Answer;
}

impl<G: PoolTypes<Runtime: Wait + AllocGlobal>, L: Permits> BuildingCalls for Building<G, L> {
    ghost use Rattle.bb8.specs.Buildings.{building_due, GivesBuilding, WaitsBuilding};

    type Answer = Result<Pool<G, L>, RunError<G::Error>>;

    fn next_due(&self) -> Option<Moment>
        ensures { result ≡ building_due self.now }
    {
        match &self.stage {
            BuildingStage::Planned(_) => Some(Moment(0)),
            BuildingStage::Opening(_, tasks) => tasks.next_due(None),
            BuildingStage::Done => None,
        }
    }

    fn wait(self, rt: &impl Wait) -> Self::Answer
        ensures gives { GivesBuilding self result }
        ensures rests { WaitsBuilding self result }
    {
        let mut building = self;
        for _ in rt.forever() {
            match building.step() {
                Poll::Ready(answer) => return answer,
                Poll::Pending => building.rest(),
            }
        }
        unreachable!()
    }
}

impl<G: PoolTypes<Runtime: Wait + AllocGlobal>, L: Permits> Future for Building<G, L> {
    ghost use Rattle.std.specs.Prelude.{⊤};
    ghost use Rattle.futures.specs.Poll.{IfReady, OnPending};
    ghost use Rattle.futures.specs.Task.{Covers, Keeps};
    ghost use Rattle.bb8.specs.Buildings.{GivesBuilding, PollsBuilding};

    type Output = Result<Pool<G, L>, RunError<G::Error>>;

    ghost gives = { λ building out. GivesBuilding building out };

    /// Polls once. It is pending while attempts go on, and after it resolved.
    fn poll(&mut self, cx: &mut Context<'_>) -> Poll<Self::Output>
        ensures table { PollsBuilding self.old result self.new }
        ensures value { IfReady result (λ out. GivesBuilding self.old out) }
        ensures again { OnPending result ⊤ }
        ensures same { OnPending result
            ((x : _) → GivesBuilding self.new x
            → GivesBuilding self.old x) }
        ensures registered { OnPending result (Covers cx.new (λ _. ⊥)) }
        ensures kept { Keeps cx.old cx.new }
    {
        match self.step() {
            Poll::Ready(answer) => Poll::Ready(answer),
            Poll::Pending => cx.yield_now(),
        }
    }
}
