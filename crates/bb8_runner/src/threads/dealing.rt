//! A list of events, dealt to threads: event i, from 0, goes to the seat i mod n.
ghost use Rattle.std.specs.Prelude.{◌≡◌, ◌<◌, true, IfOk, length};
ghost use Rattle.bb8_runner.specs.Words.{sum_by, settings_of, is_lawful, Replays, steps_of, notes_of};

use bb8_core::api::{Config, Memory};
use bb8_core::internals::PoolInternals;
use bb8_core::replay::Event;
use bb8_journal::journal::{Entry, Notes, Recorded, Seat, SharedJournal};
use std::alloc::Global;
use std::sync::Wait;
use std::sync::atomic::{AtomicBool, Ordering};
use std::sync::ledger::Blank;
use std::thread;
use std::thread::Threads;

/// The outcome of all threads.
#[derive(Drop)]
pub struct Dealt {
    /// The history.
    pub entries: Vec<Entry>,
    /// The final state.
    pub pool: PoolInternals<u64>,
    /// The notes of the seats.
    pub notes: Vec<Notes>,
}

/// Makes the events of one seat, in order. If memory for one is refused, it sets `refused` and
/// stops; it also stops if another thread has set it.
fn make_own<R: Wait, L: Recorded>(
    rt: &R,
    journal: &SharedJournal<L>,
    seat: Seat<L>,
    events: &[Event],
    refused: &AtomicBool,
) -> Seat<L> {
    let mut seat = seat;
    let seats = journal.seats();
    let first = seat.number();
    for event in events.iter().skip(first).step_by(seats) {
        if refused.load(Ordering::SeqCst) {
            break;
        }
        if journal.step(rt, &mut seat, *event).is_err() {
            refused.store(true, Ordering::SeqCst);
        }
    }
    seat
}

/// Makes the events of each seat in a thread of its own, and returns the seats when all threads
/// have ended. Fails with `Memory` if a thread cannot be started, or memory for the lists of
/// threads and seats is refused; then the running threads stop early.
fn in_threads<R: Threads + Wait + Sync, L: Recorded + Send + Sync>(
    rt: &R,
    alloc: Global,
    journal: &SharedJournal<L>,
    list: Vec<Seat<L>>,
    events: &[Event],
    refused: &AtomicBool,
) -> Result<Vec<Seat<L>>, Memory>
    ensures count { IfOk result (λ back. length back.items ≡ length list.items) }
{
    thread::scope(
        thread::scope_env(),
        rt,
        move |scope| -> Result<Vec<Seat<L>>, Memory>
            ensures { IfOk result (λ back. length back.items ≡ length list.items) }
        {
            let mut threads = Vec::new(alloc);
            for seat in list {
                let started = scope.spawn(move || make_own(rt, journal, seat, events, refused));
                let Ok(thread) = started else {
                    refused.store(true, Ordering::SeqCst);
                    return Err(Memory);
                };
                threads.push(thread)?;
            }
            let mut back = Vec::new(alloc);
            for thread in threads {
                back.push(thread.join(rt))?;
            }
            Ok(back)
        },
    )
}

/// Deals the events to as many threads as the blank ledger has parts, over one journal with the
/// configuration. Fails with `Memory` if memory is refused, for an entry too, or a thread cannot be
/// started.
pub fn deal<R: Threads + Wait + Sync, L: Recorded + Send + Sync>(
    rt: &R,
    alloc: Global,
    config: Config,
    blank: Blank,
    seats: usize,
    events: &[Event],
) -> Result<Dealt, Memory>
    requires lawful { is_lawful (settings_of config) ≡ true }
    requires config { settings_of config ≡ L.config }
    requires name { blank.name ≡ L.name }
    requires parts { blank.parts ≡ L.parts }
    requires size { blank.parts ≡ seats }
    requires some { 0 < seats }
    ensures replays { IfOk result (λ dealt.
        Replays L.config dealt.entries.items dealt.pool) }
    ensures counted { IfOk result (λ dealt.
        length dealt.entries.items ≡ sum_by (λ n. steps_of (notes_of n)) dealt.notes.items) }
{
    let (journal, list) = SharedJournal::<L>::new(alloc, config, blank, seats)?;
    let refused = AtomicBool::new(false);
    let back = in_threads(rt, alloc, &journal, list, events, &refused)?;
    if refused.load(Ordering::SeqCst) {
        return Err(Memory);
    }
    let (entries, pool, notes) = journal.close(back);
    Ok(Dealt {
        entries,
        pool,
        notes,
    })
}
