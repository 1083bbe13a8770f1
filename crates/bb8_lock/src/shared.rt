//! The state that the handles and guards of one pool share.
ghost use Rattle.std.specs.Prelude.{◌≡◌, true};
ghost use Rattle.bb8_types.specs.Settings.{settings_of, is_lawful};

use crate::{Locked, Permits, PoolTypes, SignalLock};
use bb8_core::api::{Config, Moment};
use std::sync::ledger::Total;

/// The state that the handles and guards of one pool share.
#[derive(Drop)]
pub struct Shared<G: PoolTypes, L: Permits> {
    pub manager: G::Manager,
    pub error_sink: G::Sink,
    pub customizer: G::Customizer,
    pub clock: G::Clock,
    pub rt: G::Runtime,
    pub config: Config,
    /// The clock's moment at which the pool was made.
    pub made: Moment,
    /// The total number of permits, for lists that hold several.
    pub total: Total<L>,
    pub locked: SignalLock<Locked<G::Connection, L>>,
    ghost whole: { total.amount ≡ config.max_size },
    ghost settled: { settings_of config ≡ L.settings },
    ghost lawful: { is_lawful (settings_of config) ≡ true },
}
