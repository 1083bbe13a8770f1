//! The data that a pool's lock protects.
ghost use Rattle.std.specs.Prelude.{◌≡◌, ◌+◌, ◌^◌, ◌<◌, eqb, true, IfOk};
ghost use Rattle.bb8_types.specs.Settings.{Settings, default_settings, is_lawful, settings_of};
ghost use Rattle.bb8_lock.specs.Permits.{PoolBegins, IsBlankOf};
ghost use Rattle.bb8_core.specs.StepBounds.{out_of, come_back};

use crate::handle::{Ends, Handle};
use bb8_core::api::{Config, Memory, Moment};
use bb8_core::internals::{Grant, PoolInternals};
use std::alloc::Global;
use std::marker::Brand;
use std::sync::ledger::{Blank, Ledger, Share, Total};

/// The permits of one pool, `max_size` of them, and the pool's settings. They tie the data under
/// the lock to the data beside it: the permits of one pool have one value of settings.
pub trait Permits: Ledger {
    // The settings of the permits' pool.
    ghost settings: { Settings };
}

impl Permits for Brand {
    ghost settings = { default_settings };
}

/// The permits of a pool that threads share. Programs name `Brand`.
pub trait PoolPermits: Permits + Send + Sync {}

impl PoolPermits for Brand {}

/// The data under the lock: the state, which has the pool's settings, and the unused permits. Each
/// checked-out connection has one permit with it, so unused permits plus checked-out connections
/// always equal `max_size`.
#[derive(Drop)]
pub struct Locked<C, L: Permits> {
    pub(crate) core: PoolInternals<C>,
    pub(crate) rest: Share<L>,
    ghost parts: { out_of core + rest.parts ≡ core.config.max_size },
    ghost amount: { rest.amount ≡ rest.parts },
    ghost settled: { core.config ≡ L.settings },
}

/// A permit. It cannot be dropped implicitly: a critical section takes it back.
pub struct Permit<L: Ledger> {
    pub share: Share<L>,
    ghost one: { share.parts ≡ 1 },
    ghost counts: { share.amount ≡ 1 },
}

impl<L: Permits> Permit<L> {
    /// Returns the permit to the unused ones if its connection was taken back; drops it if that did
    /// not fit.
    #[inline(always)]
    pub(crate) fn settle<C, A>(self, rest: &mut Share<L>, answer: &Result<A, C>)
        ensures parts { rest.new.parts ≡ rest.old.parts + come_back answer.now }
        ensures amount { rest.new.amount ≡ rest.old.amount + come_back answer.now }
    {
        let Permit { share } = self;
        match answer {
            Ok(_) => rest.merge(share),
            Err(_) => drop(share),
        }
    }
}

/// The parts of a new pool.
pub struct NewPool<C, L: Permits> {
    /// The total number of permits.
    pub total: Total<L>,
    /// The data under its lock.
    pub locked: Locked<C, L>,
    /// Its one handle.
    pub handle: Handle,
    /// The approvals for its first connections.
    pub grant: Grant,
}

/// Makes the permits of a new pool, whose state has no connection checked out. The total is their
/// number.
fn lay_out_permits<C: Drop, L: Permits>(
    core: PoolInternals<C>,
    blank: Blank,
    max_size: u32,
) -> (Total<L>, Locked<C, L>)
    requires parts { IsBlankOf blank core.config L.name L.parts L.settings }
    requires same { core.config.max_size ≡ max_size }
    requires some { 0 < max_size }
    requires none_out { out_of core ≡ 0 }
    ensures total { result.0.amount ≡ max_size }
    ensures state { result.1.core ≡ core }
{
    let (mut book, mut rest) = blank.open::<L>();
    book.add(&mut rest, max_size as u64);
    (book.close(), Locked { core, rest })
}

/// Makes a new pool with one handle: its lock protects the state with the pool's settings, its
/// first approvals, claimed or not, and its permits. Returns `Memory` if memory for an approval is
/// refused.
pub fn begin_pool<C: Drop, L: Permits>(
    alloc: Global,
    config: Config,
    at: Moment,
    blank: Blank,
    claimed: bool,
) -> Result<NewPool<C, L>, Memory>
    requires lawful { is_lawful (settings_of config) ≡ true }
    requires parts { IsBlankOf blank (settings_of config) L.name L.parts L.settings }
    ensures total { IfOk result (λ new. new.total.amount ≡ config.max_size) }
    ensures first { IfOk result (λ new. PoolBegins (settings_of config) claimed at.0 new.grant
        new.locked.core) }
    ensures numbers { IfOk result (λ new. new.grant.first + new.grant.count < 2 ^ 64) }
{
    let mut core = PoolInternals::new(alloc, config);
    let grant = core.fill(at, claimed);
    if grant.withheld > 0 {
        return Err(Memory);
    }
    let (total, locked) = lay_out_permits(core, blank, config.max_size);
    Ok(NewPool {
        total,
        locked,
        handle: Handle { _alive: () },
        grant,
    })
}

impl<C: Drop, L: Permits> Ends for Locked<C, L> {
    ghost over = { λ h. eqb h.core.handles 0 };

    fn is_over(&self) -> bool {
        self.core.limits();
        !self.core.fits_leave()
    }
}
