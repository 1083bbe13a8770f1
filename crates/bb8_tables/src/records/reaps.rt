//! The reap of idle connections: one walk along the order of births, one along the queue of idle
//! connections.
ghost use Rattle.std.specs.Prelude.{◌≡◌, ◌≤◌, ◌<◌, ◌+◌, ◌-◌, ◌++◌, ◌∷◌, [], ℕ, List, Some, length, slice_get, false};
ghost use Rattle.std.specs.Bool.{MatchBool};
ghost use Rattle.std.specs.Option.{option_map};
ghost use Rattle.std.specs.Duration.{as_nanos};
ghost use Rattle.std.specs.FinMap as map;
ghost use Rattle.bb8_types.specs.Places as places;
ghost use Rattle.bb8_types.specs.Settings.{settings_of};
ghost use Rattle.bb8_types.specs.Bounds.{end_of_numbers};
ghost use Rattle.bb8_tables.specs.Dues.{Ends, EndsIdle, Passes};
ghost use Rattle.bb8_types.specs.declared.standing.Standing.{Standing};
ghost use Rattle.bb8_tables.specs.TableView.{slot_at};
ghost use Rattle.bb8_tables.specs.AccessCount.{AddsReads};
ghost use Rattle.bb8_tables.specs.Reaps as reaps;
ghost use Rattle.bb8_tables.specs.Closed.{offered_all, closed_of};
ghost use Rattle.bb8_tables.specs.declared.table.Slot.{Slot};

use super::{Records, close_idle_at, is_idle};
use crate::closed::ClosedList;
use crate::table::{AccessCounter, Table};
use bb8_types::api::Config;
use bb8_types::standing::Standing;
use std::time::Duration;

/// The result of a reap.
#[derive(Clone, Copy, Debug, PartialEq, Eq)]
pub struct Reaped {
    /// The count of closed connections.
    pub closed: u32,
    /// The count of those that were idle too long.
    pub by_idle: u32,
    /// The count of those that lived too long.
    pub by_life: u32,
}

/// A connection met in the order of births, and the index after it.
enum Age {
    /// It does not live too long, so none after it does.
    Young,
    /// It lives too long and is checked out.
    Out(Option<usize>),
    /// It lives too long and is idle.
    Aged(Option<usize>),
}

/// Returns whether a limit is reached; never if none is set.
#[inline]
fn is_past(limit: Option<Duration>, span: u64) -> bool
    ensures { result ≡ places.is_past (option_map as_nanos limit) span }
{
    match limit {
        None => false,
        // If the limit is more than a second away, its whole seconds decide, in 64 bits.
        Some(limit) => {
            limit.as_secs().saturating_mul(1_000_000_000) <= span
                && limit.as_nanos() <= span as u128
        }
    }
}

/// Returns whether a record is idle, and for too long.
fn idles_out<C>(config: &Config, now: u64, standing: &Standing<C>) -> bool
    ensures { result ≡ places.idles_out (settings_of config.now) now (Some standing.now) }
{
    is_idle(&standing.place) && is_past(config.idle_timeout, now.saturating_sub(standing.entered))
}

/// Returns whether a record is idle and lives too long.
fn lives_out<C>(config: &Config, now: u64, standing: &Standing<C>) -> bool
    ensures { result ≡ places.lives_out (settings_of config.now) now (Some standing.now) }
{
    is_idle(&standing.place) && is_past(config.max_lifetime, now.saturating_sub(standing.birth))
}

/// Classifies the connection at an index in the order of births. Reads one entry.
fn pass_birth<C: Drop>(
    slots: &Table<Standing<C>>,
    place: usize,
    config: &Config,
    now: u64,
    accesses: &mut AccessCounter,
) -> Age
    requires member { (j : ℕ) × (slice_get slots.now.births j ≡ Some place) }
    requires stands { (x : Slot (Standing C)) × (slot_at slots.now place ≡ Some x) }
    ensures value { Passes (settings_of config.now) now slots.now place result }
    ensures examined { AddsReads 1 0 accesses.old accesses.new }
{
    let (slot, next) = slots.pass(place, accesses);
    let standing = &slot.standing;
    if !is_past(config.max_lifetime, now.saturating_sub(standing.birth)) {
        return Age::Young;
    }
    if lives_out(config, now, standing) {
        Age::Aged(next)
    } else {
        Age::Out(next)
    }
}

impl<C: Drop> Records<C> {
    /// Ends the connection that has been idle longest if that is too long. Returns whether it did.
    /// Reads one entry if one is idle.
    fn reap_first(
        &mut self,
        config: &Config,
        now: u64,
        closed: &mut ClosedList<C>,
        accesses: &mut AccessCounter,
    ) -> bool
        ensures ends { MatchBool result
            ((k : ℕ) × (slice_get self.old.idle 0 ≡ Some k)
            × Ends (places.idles_out (settings_of config.now) now) self.old (k ∷ []) self.new 1
            closed.old closed.new)
            (((k : ℕ)
            → places.idles_out (settings_of config.now) now (map.get self.old.places k) ≡ false)
            × (self.new ≡ self.old) × (closed.new ≡ closed.old)) }
        ensures examined { AddsReads 1 0 accesses.old accesses.new }
    {
        let Some(place) = self.slots.first() else {
            return false;
        };
        let due = idles_out(config, now, &self.slots.at(place, accesses).standing);
        if !due {
            return false;
        }
        let _ = close_idle_at(&mut self.slots, place, closed);
        self.conns -= 1;
        true
    }

    /// Ends the connections that are idle too long, the longest idle first, until one is not or
    /// `min_idle` idle ones are left. Returns their count. Reads an entry for each of them, and at
    /// most one more; none if no limit is set.
    #[tactic(auto, using(crate::proofs::ReapWalks::idle_more))]
    fn reap_idle(
        &mut self,
        config: &Config,
        now: u64,
        closed: &mut ClosedList<C>,
        accesses: &mut AccessCounter,
    ) -> u32
        ensures ends { (ks : List ℕ) × EndsIdle (settings_of config.now) now
            self.old ks self.new result closed.old closed.new }
        ensures examined { AddsReads (result + 1) 0 accesses.old accesses.new }
    {
        if config.idle_timeout.is_none() {
            return 0;
        }
        let _next = &self.next;
        let many = self
            .idle_connections()
            .saturating_sub(config.min_idle.unwrap_or(0));
        for ended in 0..many {
            let more = self.reap_first(config, now, closed, accesses);
            if !more {
                return ended;
            }
        }
        many
    }

    /// Ends the idle connections that live too long, the oldest first, until one does not; skips
    /// those that are checked out. Returns their count. Reads an entry for each ended and each
    /// skipped one, and at most one more; none if no limit is set.
    fn reap_aged(
        &mut self,
        config: &Config,
        now: u64,
        closed: &mut ClosedList<C>,
        accesses: &mut AccessCounter,
    ) -> u32
        ensures ends { (ks : List ℕ) × Ends (places.lives_out (settings_of config.now) now)
            self.old ks self.new result closed.old closed.new }
        ensures none_left { (k : ℕ)
            → places.lives_out (settings_of config.now) now (map.get self.new.places k) ≡ false }
        ensures examined { AddsReads (result + (self.old.conns - length self.old.idle) + 1) 0
            accesses.old accesses.new }
    {
        let mut many = 0;
        if config.max_lifetime.is_none() {
            return many;
        }
        let mut at = self.slots.first_birth();
        for _ in 0..self.slots.births() {
            let Some(place) = at else { break };
            match pass_birth(&self.slots, place, config, now, accesses) {
                Age::Young => break,
                Age::Out(next) => at = next,
                Age::Aged(next) => {
                    let _ = close_idle_at(&mut self.slots, place, closed);
                    self.conns -= 1;
                    many += 1;
                    at = next;
                }
            }
        }
        many
    }

    /// Ends each idle connection that lives too long, then those that are idle too long, the
    /// longest idle first, sparing `min_idle`. Offers them to a list. Reads an entry for each
    /// connection that ends or is checked out, and at most two more.
    pub fn reap(
        &mut self,
        config: &Config,
        now: u64,
        closed: &mut ClosedList<C>,
        accesses: &mut AccessCounter,
    ) -> Reaped
        ensures ends { (js : List ℕ) × (ks : List ℕ)
            × reaps.Reaps (settings_of config.now) now self.old js ks self.new result
            × (closed.new ≡ offered_all (closed_of (js ++ ks) self.old.places) closed.old) }
        ensures numbers { self.old.next ≤ end_of_numbers }
        ensures examined { AddsReads (result.closed + (self.old.conns - length self.old.idle) + 2) 0
            accesses.old accesses.new }
    {
        let _next = &self.next;
        let by_life = self.reap_aged(config, now, closed, accesses);
        let by_idle = self.reap_idle(config, now, closed, accesses);
        Reaped {
            closed: by_life + by_idle,
            by_idle,
            by_life,
        }
    }
}
