//! Decisions and changes that several steps share.
ghost use Rattle.std.specs.Prelude.{◌≡◌, ℕ, ◌+◌, ◌-◌, ◌<◌, ◌≤◌, ◌||◌, cond, ltb, slice_get, true, false, None, Some};
ghost use Rattle.std.specs.FinMap as map;
ghost use Rattle.std.specs.Option.{ForSome, option_map};
ghost use Rattle.std.specs.Duration.{as_nanos};
ghost use Rattle.bb8_core.specs.Pool.{IsMaxAge};
ghost use Rattle.bb8_types.specs.Bounds.{end_of_numbers, most_records};
ghost use Rattle.bb8_types.specs.Grants as grants;
ghost use Rattle.bb8_types.specs.Numbered as numbered;
ghost use Rattle.bb8_types.specs.Places as places;
ghost use Rattle.bb8_types.specs.Settings.{settings_of};
ghost use Rattle.bb8_types.specs.declared.standing.Holder.TheVariants.{Guard, Get};
ghost use Rattle.bb8_types.specs.declared.standing.Standing.{Standing};
ghost use Rattle.bb8_tables.specs.Keys.{notified_of};
ghost use Rattle.bb8_tables.specs.AccessCount.{AddsReads};
ghost use Rattle.bb8_tables.specs.Machine as machine;
ghost use Rattle.bb8_core.specs.Decided as decided;

use bb8_tables::AccessCounter;
use bb8_tables::gets::Gets;
use bb8_tables::keys::{GetKey, Key};
use bb8_tables::records::{Records, one};
use bb8_types::api::Config;
use bb8_types::grants::Grant;
use bb8_types::standing::Holder;
use std::time::Duration;

/// Returns how many approvals a grant should make.
#[inline]
fn due(config: &Config, handles: u64, taken: u64, asked: u64) -> u64
    ensures { result ≡ grants.due (settings_of config.now) handles taken asked }
{
    if handles == 0 {
        0
    } else {
        asked.min((config.max_size as u64).saturating_sub(taken))
    }
}

/// Returns how many of the wanted approvals are due, while a handle is alive.
pub(super) fn want_with_handle<C: Drop>(config: &Config, records: &Records<C>) -> u64
    ensures { (handles : ℕ) → 0 < handles
        → result ≡ decided.want (settings_of config.now) handles records.now }
{
    let Some(least) = config.min_idle else {
        return 0;
    };
    let taken = records.used();
    if taken >= config.max_size as u64 {
        return 0;
    }
    let room = config.max_size as u64 - taken;
    (least as u64).saturating_sub(records.ready()).min(room)
}

/// Returns how many of the wanted approvals are due.
pub(super) fn want<C: Drop>(config: &Config, handles: u64, records: &Records<C>) -> u64
    ensures { result ≡ decided.want (settings_of config.now) handles records.now }
{
    if handles == 0 {
        0
    } else {
        want_with_handle(config, records)
    }
}

/// Returns how many approvals are due to a get that waits: one is requested if there are more gets
/// than open approvals.
pub(super) fn due_waiting<C: Drop>(
    config: &Config,
    handles: u64,
    records: &Records<C>,
    alive: u64,
) -> u64
    ensures { result ≡ grants.due (settings_of config.now) handles
        (records.now.conns + records.now.approved) (numbered.one (ltb records.now.approved alive)) }
{
    let asked = one(records.approved() < alive);
    due(config, handles, records.used(), asked)
}

/// Returns how many approvals are due to `waiting` unnotified waiters: those without an open
/// approval request one each.
pub(super) fn due_asked<C: Drop>(
    config: &Config,
    handles: u64,
    records: &Records<C>,
    waiting: u64,
) -> u64
    ensures { result ≡ grants.due (settings_of config.now) handles
        (records.now.conns + records.now.approved) (waiting - records.now.approved) }
{
    let asked = waiting.saturating_sub(records.approved());
    due(config, handles, records.used(), asked)
}

/// Returns the greatest age, in nanoseconds, that does not reach a limit.
pub(super) fn max_age(limit: Option<Duration>) -> u64
    requires { ForSome limit (λ l. 0 < as_nanos l) }
    ensures { IsMaxAge (option_map as_nanos limit) result }
{
    match limit {
        None => u64::MAX,
        Some(limit) => (limit.as_nanos() - 1).min(u64::MAX as u128) as u64,
    }
}

/// Returns the configuration for a reap that ends all idle connections: each lives too long.
pub(super) fn retiring(config: &Config) -> Config
    ensures { settings_of result ≡ record (settings_of config.now) { max_lifetime = Some 0 } }
{
    let mut all = *config;
    all.max_lifetime = Some(Duration::from_nanos(0));
    all
}

/// Returns whether at least one holds.
#[inline]
pub(super) fn either(a: bool, b: bool) -> bool
    ensures { result ≡ (a || b) }
{
    a || b
}

/// Returns whether a connection with this birth lives too long.
pub(super) fn is_expired(config: &Config, now: u64, birth: u64) -> bool
    ensures { result ≡ places.is_expired (settings_of config.now).max_lifetime now birth }
{
    match config.max_lifetime {
        None => false,
        Some(lifetime) => lifetime.as_nanos() <= now.saturating_sub(birth) as u128,
    }
}

/// Notifies the longest waiter that was not notified, if the test passes.
#[inline]
pub(super) fn notify_next_if(
    gets: &mut Gets,
    test: bool,
    accesses: &mut AccessCounter,
) -> Option<GetKey>
    ensures value { notified_of result ≡ cond test (slice_get gets.old.waiting 0) None }
    ensures state { gets.new ≡ machine.after_notice (notified_of result) gets.old }
    ensures examined { AddsReads 1 0 accesses.old accesses.new }
{
    if test { gets.notify(accesses) } else { None }
}

/// Returns whether the first idle connection must be checked before a get is served with it. Reads
/// one entry if its idle time decides.
#[inline(always)]
pub(super) fn checks_first<C: Drop>(
    config: &Config,
    records: &Records<C>,
    now: u64,
    accesses: &mut AccessCounter,
) -> bool
    ensures value { (k : ℕ) → places.first_of (settings_of config.now).queue_strategy
        records.now.idle ≡ Some k → result ≡ places.is_checked (settings_of config.now) now
        (places.entered_in (map.get records.now.places k)) }
    ensures examined { AddsReads 1 0 accesses.old accesses.new }
{
    if !config.test_on_check_out {
        return false;
    }
    if config.test_after.is_zero() {
        return true;
    }
    match records.first_entered(config.queue_strategy, accesses) {
        // None is idle, so nothing goes out.
        None => true,
        Some(entered) => config.test_after.as_nanos() <= now.saturating_sub(entered) as u128,
    }
}

/// Returns whether a connection whose check was cut off counts as broken.
#[inline]
pub(super) fn is_doubtful(config: &Config, broken: bool) -> bool
    ensures { result ≡ places.is_doubtful (settings_of config.now) broken }
{
    broken || !config.test_after.is_zero()
}

/// Returns the holder of a connection that a try takes: the get if it must be checked first,
/// otherwise a guard.
pub(super) fn holder(checked: bool, get: GetKey) -> Holder
    ensures { result ≡ cond checked (Get get.number) Guard }
{
    if checked {
        Holder::Get(get.number)
    } else {
        Holder::Guard
    }
}

/// Ends a checked-out connection, and grants what is wanted then.
#[inline(always)]
pub(super) fn close_and_grant<C: Drop>(
    config: &Config,
    handles: u64,
    records: &mut Records<C>,
    k: Key,
    accesses: &mut AccessCounter,
) -> Grant
    requires out { (s : Standing C) × (map.get records.old.places k.number ≡ Some s)
        × (places.is_out s.place ≡ true) }
    requires size { records.old.conns + records.old.approved ≤ (settings_of config.now).max_size }
    requires few { (settings_of config.now).max_size ≤ most_records }
    ensures granted { machine.IsGrant (machine.after_close false k.number records.old)
        (decided.want (settings_of config.now) handles (machine.after_close false k.number
        records.old)) result }
    ensures state { records.new ≡ machine.after_grant false result
        (machine.after_close false k.number records.old) }
    ensures numbers { records.old.next ≤ end_of_numbers }
    ensures examined { AddsReads 0 1 accesses.old accesses.new }
{
    records.close(k, accesses);
    let wanted = want(config, handles, records);
    records.grant(wanted, false)
}
