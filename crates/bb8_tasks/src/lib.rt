//! Polled tasks of a pool: connection attempts with back-off and their replay over a list of polls,
//! lists of such tasks, connections that the pool does not count, the reaper, and driver turns,
//! which claim approvals and poll their tasks.
#![tactic(auto)]

mod backoff;
mod building;
mod claims;
mod dedicated;
mod home;
mod opener;
mod plain;
mod reaper;
mod replenish;
mod rounds;
mod tasks;
mod ticks;
mod turning;
mod upkeep;
mod waits;

pub use backoff::{Backoff, Reply, replay_backoff};
pub use building::{BuildingStage, BuildingStep};
pub use dedicated::{Attempt, Dedicated, Opened};
pub use home::Home;
pub use opener::Opener;
pub use reaper::{Reaper, ReaperAnswer};
pub use replenish::{Replenish, ReplenishAnswer, ReplenishStage, ReplenishStep, Tries};
pub use rounds::{OnFailure, Round};
pub use tasks::Tasks;
pub use ticks::Ticks;
pub use turning::{Turn, Turning};
pub use upkeep::Upkeep;
pub use waits::wait_after;
