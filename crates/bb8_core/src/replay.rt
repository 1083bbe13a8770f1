//! Replays of lists of events, with plain numbers.
ghost use Rattle.std.specs.Prelude.{◌≡◌, ℕ, length, true, IfOk};
ghost use Rattle.bb8_ledger.specs.Acts as acts;
ghost use Rattle.bb8_ledger.specs.Ledger.{Ledger};
ghost use Rattle.bb8_ledger.specs.Table as table;
ghost use Rattle.bb8_ledger.specs.Table.{IsLegal};
ghost use Rattle.bb8_ledger.specs.Limits.{KeepsLimits, KeepsLaws, KeepsPromises};
ghost use Rattle.bb8_ledger.specs.Handed.{IsOrderly};
ghost use Rattle.bb8_tables.specs.Keys.{notified_of};
ghost use Rattle.bb8_core.specs.Run.{act_with, fits_named, answer_of, opening, IsRun, Happens, Applies, AfterEach};
ghost use Rattle.bb8_core.specs.declared.replay.events.Act.TheVariants as events;
ghost use Rattle.bb8_types.specs.Settings.{settings_of, is_lawful};
ghost use Rattle.bb8_core.specs.StateView.{Represents, Steps};
ghost use Rattle.bb8_core.specs.Unfit.{answered};
ghost use Rattle.bb8_core.specs.StepAnswers.{answer_of_checked_ok, answer_of_checked_err, answer_of_give_up, answer_of_detach, answer_of_evict, answer_of_failed, answer_of_leave, answer_of_reap};

mod events;
mod hints;

use self::hints::Hints;
use crate::answers::{
    AddAnswer, BeginAnswer, CheckedErrAnswer, ClaimAnswer, DetachAnswer, EvictAnswer, FailedAnswer,
    GiveUpAnswer, JoinAnswer, LeaveAnswer, OpenedAnswer, PutBackAnswer, ReapAnswer, TryAnswer,
    Unfit,
};
use crate::internals::PoolInternals;
use bb8_tables::keys::{GetKey, Key};
use bb8_types::api::{Config, Memory, Moment};
use bb8_types::grants::Grant;
pub use bb8_types::reasons::Reason;
pub use events::{Act, Answer, Event};
use std::alloc::Global;

/// Returns the number of the notified get.
fn number_of(notified: Option<GetKey>) -> Option<u64>
    ensures { result ≡ notified_of notified }
{
    match notified {
        None => None,
        Some(get) => Some(get.number),
    }
}

/// The last known table indexes of the records and gets of a replay. They save searches, and change
/// no result.
#[derive(Drop)]
pub struct Known {
    records: Hints,
    gets: Hints,
}

impl Known {
    /// Returns an empty map, for a pool whose connections and approvals are numbered from
    /// `first_number` on, and its gets from `first_get` on. It allocates nothing.
    pub fn new(alloc: Global, first_number: u64, first_get: u64) -> Self {
        Known {
            records: Hints::new(alloc, first_number),
            gets: Hints::new(alloc, first_get),
        }
    }

    /// Returns the last known index of the record or get that an event names.
    fn place(&self, act: Act) -> usize {
        match act {
            Act::Try(get) | Act::CheckedOk(get) => self.gets.place(get),
            Act::CheckedErr(get, _) | Act::GiveUp(get, _, _) => self.gets.place(get),
            Act::PutBack(number, _) | Act::Detach(number) => self.records.place(number),
            Act::Evict(number) | Act::Opened(number) | Act::Failed(number) => self
                .records
                .place(number),
            Act::Begin | Act::Fill(_) | Act::Ask | Act::Claim | Act::Add(_) => 0,
            Act::Reap
            | Act::Retire
            | Act::State
            | Act::Join
            | Act::Leave
            | Act::Close
            | Act::Look => 0,
        }
    }

    /// Returns the last known index of the connection that a get holds.
    fn hint(&self, held: Option<u64>) -> usize {
        match held {
            None => 0,
            Some(number) => self.records.place(number),
        }
    }
}

/// Returns whether an event fits the state. This does not depend on the connection that the event
/// hands in.
pub fn fits<C: Drop>(pool: &PoolInternals<C>, event: Event) -> bool
    ensures named { (l : Ledger C) → IsLegal l → Represents l pool.now
        → result ≡ fits_named l event.act }
    ensures fits { (conn : ℕ → C) (l : Ledger C) → IsLegal l → Represents l pool.now
        → result ≡ table.fits l (act_with conn l event.act) }
{
    fits_act(pool, event.act)
}

/// As `fits`; the moment of the event does not matter.
fn fits_act<C: Drop>(pool: &PoolInternals<C>, act: Act) -> bool
    ensures { (l : Ledger C) → IsLegal l → Represents l pool.now → result ≡ fits_named l act }
{
    let place = 0;
    match act {
        Act::Begin | Act::Add(_) => pool.fits_begin(),
        Act::Try(number) => pool.fits_try(GetKey { number, place }),
        Act::CheckedOk(number) | Act::CheckedErr(number, _) => {
            pool.fits_checked_ok(GetKey { number, place })
        }
        Act::GiveUp(number, _, _) => pool.is_alive(GetKey { number, place }),
        Act::PutBack(number, _) | Act::Detach(number) => pool.is_guarded(Key { number, place }),
        Act::Evict(number) => pool.is_idle(Key { number, place }),
        Act::Opened(number) | Act::Failed(number) => pool.is_claimed(Key { number, place }),
        Act::Join => pool.fits_join(),
        Act::Leave => pool.fits_leave(),
        Act::Close => pool.fits_close(),
        Act::Fill(_) | Act::Ask | Act::Claim | Act::Reap | Act::Retire | Act::State | Act::Look =>
            true,
    }
}

fn begin(pool: &mut PoolInternals<u64>, known: &mut Known, at: Moment) -> Answer
    ensures { Steps pool.old at.0 acts.Begin (answer_of result) pool.new }
{
    match pool.begin(at) {
        Ok(BeginAnswer::Begun(get)) => {
            known.gets.note(get.number, get.place);
            Answer::Begun(get.number)
        }
        Ok(BeginAnswer::Memory) => Answer::Memory,
        Ok(BeginAnswer::Exhausted) => Answer::Exhausted,
        Err(Unfit) => Answer::Unfit,
    }
}

fn try_get(pool: &mut PoolInternals<u64>, known: &mut Known, at: Moment, get: GetKey) -> Answer
    ensures { Steps pool.old at.0 (acts.Try get.number) (answer_of result) pool.new }
{
    match pool.try_get(at, get) {
        Ok(TryAnswer::Served(key, _, grant)) => {
            known.records.note(key.number, key.place);
            Answer::Served(key.number, grant)
        }
        Ok(TryAnswer::Taken(key, _, grant)) => {
            known.records.note(key.number, key.place);
            Answer::Taken(key.number, grant)
        }
        Ok(TryAnswer::Waiting(grant)) => Answer::Waiting(grant),
        Err(Unfit) => Answer::Unfit,
    }
}

fn checked_ok(pool: &mut PoolInternals<u64>, known: &Known, at: Moment, get: GetKey) -> Answer
    ensures { Steps pool.old at.0 (acts.CheckedOk get.number) (answer_of result) pool.new }
{
    let hint = known.hint(pool.held(get));
    let next = pool.next_number();
    outcome_of_checked_ok(pool.checked_ok(at, get, hint), next)
}

/// Returns the replay's result of a passed check. `next` is the next number.
fn outcome_of_checked_ok(answer: Result<Key, Unfit>, next: u64) -> Answer
    ensures { answer_of result ≡ answered (answer_of_checked_ok next) answer }
{
    match answer {
        Ok(key) => Answer::Served(key.number, Grant::of_nothing(next)),
        Err(Unfit) => Answer::Unfit,
    }
}

fn checked_err(
    pool: &mut PoolInternals<u64>,
    known: &Known,
    at: Moment,
    get: GetKey,
    broken: bool,
) -> Answer
    ensures { Steps pool.old at.0 (acts.CheckedErr get.number broken) (answer_of result) pool.new }
{
    let held = pool.held(get);
    outcome_of_checked_err(pool.checked_err(at, get, held.unwrap_or(0), broken, known.hint(held)))
}

/// Returns the replay's result of a failed check.
fn outcome_of_checked_err(answer: Result<CheckedErrAnswer<u64>, u64>) -> Answer
    ensures { answer_of result ≡ answered answer_of_checked_err answer }
{
    match answer {
        Ok(CheckedErrAnswer::Closed(key, _, grant, notified)) => {
            Answer::Closed(key.number, grant, number_of(notified))
        }
        Err(_) => Answer::Unfit,
    }
}

/// Returns the replay's result of a get that timed out or was cancelled.
fn outcome_of_give_up<U: Drop>(answer: Result<GiveUpAnswer<u64>, U>) -> Answer
    ensures { answer_of result ≡ answered answer_of_give_up answer }
{
    match answer {
        Ok(GiveUpAnswer::GaveUp(notified)) => Answer::GaveUp(number_of(notified)),
        Ok(GiveUpAnswer::Kept(key, notified)) => Answer::Kept(key.number, number_of(notified)),
        Ok(GiveUpAnswer::Closed(key, _, grant, notified)) => {
            Answer::Closed(key.number, grant, number_of(notified))
        }
        Err(_) => Answer::Unfit,
    }
}

/// Ends a get that is not served. If it holds a connection, which in a replay is its number, that
/// is handed in.
fn give_up(
    pool: &mut PoolInternals<u64>,
    known: &Known,
    at: Moment,
    get: GetKey,
    reason: Reason,
    broken: bool,
) -> Answer
    ensures { Happens pool.old at.0 (events.GiveUp get.number reason broken) result pool.new }
{
    match pool.held(get) {
        None => outcome_of_give_up(pool.give_up(at, get, reason, broken)),
        Some(held) => {
            let hint = known.records.place(held);
            outcome_of_give_up(pool.give_back(at, get, reason, held, broken, hint))
        }
    }
}

fn put_back(pool: &mut PoolInternals<u64>, at: Moment, key: Key, broken: bool) -> Answer
    ensures { Steps pool.old at.0 (acts.PutBack key.number key.number broken)
        (answer_of result) pool.new }
{
    match pool.put_back(at, key, key.number, broken) {
        Ok(PutBackAnswer::Kept(notified)) => Answer::Kept(key.number, number_of(notified)),
        Ok(PutBackAnswer::Closed(_, grant, notified)) => {
            Answer::Closed(key.number, grant, number_of(notified))
        }
        Err(_) => Answer::Unfit,
    }
}

fn detach(pool: &mut PoolInternals<u64>, at: Moment, key: Key) -> Answer
    ensures { Steps pool.old at.0 (acts.Detach key.number) (answer_of result) pool.new }
{
    outcome_of_detach(pool.detach(at, key), key.number)
}

/// Returns the replay's result of a detach of this number.
fn outcome_of_detach(answer: Result<DetachAnswer, Unfit>, number: u64) -> Answer
    ensures { answer_of result ≡ answered (answer_of_detach number) answer }
{
    match answer {
        Ok(DetachAnswer::Detached(grant, notified)) => {
            Answer::Closed(number, grant, number_of(notified))
        }
        Err(Unfit) => Answer::Unfit,
    }
}

fn evict(pool: &mut PoolInternals<u64>, at: Moment, key: Key) -> Answer
    ensures { Steps pool.old at.0 (acts.Evict key.number) (answer_of result) pool.new }
{
    outcome_of_evict(pool.evict(at, key), key.number)
}

/// Returns the replay's result of an eviction of this number.
fn outcome_of_evict(answer: Result<EvictAnswer<u64>, Unfit>, number: u64) -> Answer
    ensures { answer_of result ≡ answered (answer_of_evict number) answer }
{
    match answer {
        Ok(EvictAnswer::Evicted(_, grant, notified)) => {
            Answer::Closed(number, grant, number_of(notified))
        }
        Err(Unfit) => Answer::Unfit,
    }
}

fn claim(pool: &mut PoolInternals<u64>, known: &mut Known, at: Moment) -> Answer
    ensures { Steps pool.old at.0 acts.Claim (answer_of result) pool.new }
{
    match pool.claim(at) {
        ClaimAnswer::Claimed(Some(key)) => {
            known.records.note(key.number, key.place);
            Answer::Claimed(Some(key.number))
        }
        ClaimAnswer::Claimed(None) => Answer::Claimed(None),
        ClaimAnswer::Ended => Answer::Ended,
    }
}

fn opened(pool: &mut PoolInternals<u64>, at: Moment, key: Key) -> Answer
    ensures { Steps pool.old at.0 (acts.Opened key.number key.number) (answer_of result) pool.new }
{
    match pool.opened(at, key, key.number) {
        Ok(OpenedAnswer::Entered(notified)) => Answer::Entered(key.number, number_of(notified)),
        Ok(OpenedAnswer::Late(_)) => Answer::Late(key.number),
        Err(_) => Answer::Unfit,
    }
}

fn failed(pool: &mut PoolInternals<u64>, at: Moment, key: Key) -> Answer
    ensures { Steps pool.old at.0 (acts.Failed key.number) (answer_of result) pool.new }
{
    outcome_of_failed(pool.failed(at, key))
}

/// Returns the replay's result of a failed connection attempt.
fn outcome_of_failed(answer: Result<FailedAnswer, Unfit>) -> Answer
    ensures { answer_of result ≡ answered answer_of_failed answer }
{
    match answer {
        Ok(FailedAnswer::GivenBack) => Answer::GivenBack,
        Err(Unfit) => Answer::Unfit,
    }
}

fn add(pool: &mut PoolInternals<u64>, known: &mut Known, at: Moment, broken: bool) -> Answer
    ensures { Steps pool.old at.0 (acts.Add pool.old.records.next broken)
        (answer_of result) pool.new }
{
    let number = pool.next_number();
    match pool.add(at, number, broken) {
        Ok(AddAnswer::Added(key, notified)) => {
            known.records.note(key.number, key.place);
            Answer::Added(key.number, number_of(notified))
        }
        Ok(AddAnswer::Broken(_)) => Answer::Broken,
        Ok(AddAnswer::NoCapacity(_)) => Answer::NoCapacity,
        Ok(AddAnswer::Withheld(_)) => Answer::Withheld,
        Err(_) => Answer::Unfit,
    }
}

fn reap(pool: &mut PoolInternals<u64>, at: Moment) -> Answer
    ensures { Steps pool.old at.0 acts.Reap (answer_of result) pool.new }
{
    outcome_of_reap(pool.reap(at))
}

fn retire(pool: &mut PoolInternals<u64>, at: Moment) -> Answer
    ensures { Steps pool.old at.0 acts.Retire (answer_of result) pool.new }
{
    outcome_of_reap(pool.retire(at))
}

/// Returns the replay's result of a reap or a retire.
fn outcome_of_reap(answer: ReapAnswer) -> Answer
    ensures { answer_of result ≡ answer_of_reap answer }
{
    match answer {
        ReapAnswer::Reaped {
            closed,
            by_idle,
            by_life,
            grant,
        } => Answer::Reaped {
            closed,
            by_idle,
            by_life,
            grant,
        },
        ReapAnswer::Ended => Answer::Ended,
    }
}

fn join(pool: &mut PoolInternals<u64>, at: Moment) -> Answer
    ensures { Steps pool.old at.0 acts.Join (answer_of result) pool.new }
{
    match pool.join(at) {
        Ok(JoinAnswer::Joined) => Answer::Joined,
        Ok(JoinAnswer::Exhausted) => Answer::Exhausted,
        Err(Unfit) => Answer::Unfit,
    }
}

fn leave(pool: &mut PoolInternals<u64>, at: Moment) -> Answer
    ensures { Steps pool.old at.0 acts.Leave (answer_of result) pool.new }
{
    outcome_of_leave(pool.leave(at))
}

fn close(pool: &mut PoolInternals<u64>, at: Moment) -> Answer
    ensures { Steps pool.old at.0 acts.Close (answer_of result) pool.new }
{
    outcome_of_leave(pool.close(at))
}

/// Returns the replay's result of a leave or a close.
fn outcome_of_leave(answer: Result<LeaveAnswer, Unfit>) -> Answer
    ensures { answer_of result ≡ answered answer_of_leave answer }
{
    match answer {
        Ok(LeaveAnswer::Left(closed)) => Answer::Left(closed),
        Err(Unfit) => Answer::Unfit,
    }
}

fn look(pool: &mut PoolInternals<u64>, at: Moment) -> Answer
    ensures { Steps pool.old at.0 acts.Look (answer_of result) pool.new }
{
    let seen = pool.look(at);
    Answer::Looked(seen.moment, seen.alive)
}

/// Applies an event and returns its result: `Unfit` if it does not fit, and then nothing changes. A
/// connection is the number of its record; that of an `Add` is the next number.
pub fn apply(pool: &mut PoolInternals<u64>, known: &mut Known, event: Event) -> Answer
    ensures { Applies pool.old event result pool.new }
{
    let place = known.place(event.act);
    match event.act {
        Act::Begin => begin(pool, known, event.at),
        Act::Try(number) => try_get(pool, known, event.at, GetKey { number, place }),
        Act::CheckedOk(number) => checked_ok(pool, known, event.at, GetKey { number, place }),
        Act::CheckedErr(number, broken) => {
            checked_err(pool, known, event.at, GetKey { number, place }, broken)
        }
        Act::GiveUp(number, reason, broken) => {
            give_up(
                pool,
                known,
                event.at,
                GetKey { number, place },
                reason,
                broken,
            )
        }
        Act::PutBack(number, broken) => put_back(pool, event.at, Key { number, place }, broken),
        Act::Detach(number) => detach(pool, event.at, Key { number, place }),
        Act::Evict(number) => evict(pool, event.at, Key { number, place }),
        Act::Fill(claimed) => Answer::Granted(pool.fill(event.at, claimed)),
        Act::Ask => Answer::Granted(pool.ask(event.at)),
        Act::Claim => claim(pool, known, event.at),
        Act::Opened(number) => opened(pool, event.at, Key { number, place }),
        Act::Failed(number) => failed(pool, event.at, Key { number, place }),
        Act::Add(broken) => add(pool, known, event.at, broken),
        Act::Reap => reap(pool, event.at),
        Act::Retire => retire(pool, event.at),
        Act::State => Answer::Shown(pool.state(event.at)),
        Act::Join => join(pool, event.at),
        Act::Leave => leave(pool, event.at),
        Act::Close => close(pool, event.at),
        Act::Look => look(pool, event.at),
    }
}

/// Replays events from the empty state on, and returns one result for each event, and the final
/// state. An event that does not fit has the result `Unfit` and changes nothing. Fails with
/// `Memory` only if the list of results cannot grow: memory that is refused inside a step is that
/// step's result.
pub fn replay(
    alloc: Global,
    config: Config,
    events: &[Event],
) -> Result<(Vec<Answer>, PoolInternals<u64>), Memory>
    requires { is_lawful (settings_of config) ≡ true }
    ensures answers { IfOk result (λ r. length r.0.items ≡ length events.now) }
    ensures run { IfOk result (λ r. (last : Ledger ℕ)
        × IsRun (opening config 0 0) events.now r.0.items last × Represents last r.1) }
    ensures limits { IfOk result (λ r. AfterEach KeepsLimits
        (opening config 0 0) events.now r.0.items) }
    ensures laws { IfOk result (λ r. AfterEach KeepsLaws
        (opening config 0 0) events.now r.0.items) }
    ensures promises { IfOk result (λ r. AfterEach KeepsPromises
        (opening config 0 0) events.now r.0.items) }
    ensures order { IfOk result (λ r. AfterEach IsOrderly
        (opening config 0 0) events.now r.0.items) }
{
    replay_from(alloc, config, 0, 0, events)
}

/// As `replay`, with the first numbers of connections and approvals, and of gets.
pub fn replay_from(
    alloc: Global,
    config: Config,
    first_number: u64,
    first_get: u64,
    events: &[Event],
) -> Result<(Vec<Answer>, PoolInternals<u64>), Memory>
    requires { is_lawful (settings_of config) ≡ true }
    ensures answers { IfOk result (λ r. length r.0.items ≡ length events.now) }
    ensures run { IfOk result (λ r. (last : Ledger ℕ)
        × IsRun (opening config first_number first_get) events.now r.0.items last
        × Represents last r.1) }
    ensures limits { IfOk result (λ r. AfterEach KeepsLimits
        (opening config first_number first_get) events.now r.0.items) }
    ensures laws { IfOk result (λ r. AfterEach KeepsLaws
        (opening config first_number first_get) events.now r.0.items) }
    ensures promises { IfOk result (λ r. AfterEach KeepsPromises
        (opening config first_number first_get) events.now r.0.items) }
    ensures order { IfOk result (λ r. AfterEach IsOrderly
        (opening config first_number first_get) events.now r.0.items) }
{
    let mut pool = PoolInternals::starting_at(alloc, config, first_number, first_get);
    let mut known = Known::new(alloc, first_number, first_get);
    let mut answers = Vec::new(alloc);
    for event in events {
        answers.push(apply(&mut pool, &mut known, *event))?;
    }
    Ok((answers, pool))
}
