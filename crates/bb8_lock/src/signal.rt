//! A lock with signals: threads sleep on a signal until another thread, after its critical section,
//! notifies it.

ghost use Rattle.std.specs.Prelude.{◌≡◌, ℕ, IfSome, None};
ghost use Rattle.std.specs.Sync.Mutex.{mutex_guard_value};
ghost use Rattle.std.specs.Duration.{as_nanos};
ghost use Rattle.bb8_tables.specs.Keys.{notified_of};
ghost use Rattle.bb8_core.specs.Unfit.{answered};
ghost use Rattle.bb8_core.specs.StepAnswers.{answer_of_give_up};
ghost use Rattle.bb8_lock.specs.declared.signal.Signals.{Signals as SignalsOf};
ghost use Rattle.bb8_lock.specs.declared.signal.Sleeper.{Sleeper as SleeperOf};
ghost use Rattle.bb8_lock.specs.Signals.{signals_for, signals_of, joined};

use bb8_core::internals::{GetKey, GiveUpAnswer};
use std::sync::{Condvar, Mutex, MutexGuard, Wait};
use std::time::Duration;

/// A signal on which threads sleep until it is notified.
#[derive(Drop)]
pub struct Signal {
    notified: Condvar,
}

/// A lock, and the signals that are notified after it was released.
#[derive(Drop)]
pub struct SignalLock<T> {
    pub(crate) lock: Mutex<T>,
    /// Notified when a waiting get was notified, or the pool was closed.
    pub gets: Signal,
    /// Notified when an approval was granted, or no handle is alive any more.
    pub drivers: Signal,
}

/// Whose thread sleeps, and so on which signal.
#[derive(Clone, Copy)]
pub enum Sleeper {
    /// That of a waiting get.
    Get,
    /// That of a driver.
    Driver,
}

/// How a thread sleeps.
pub trait Rests {
    // Holds before the notifications of a sleeper's signal are counted, of their number, and after
    // it.
    ghost counts: { Self → SleeperOf → ℕ → Self → Type 0 };

    // Holds before a sleep on the sleeper's signal, of the number of notifications past which it
    // ends, of its greatest length in nanoseconds, and after it.
    ghost sleeps: { Self → SleeperOf → ℕ → ℕ → Self → Type 0 };

    /// Returns how often the sleeper's signal was notified.
    fn signals(&mut self, sleeper: Sleeper) -> u64
        ensures { counts self.old sleeper result self.new };

    /// Sleeps until the sleeper's signal was notified more than `signals` times, and at most for
    /// `most`.
    fn sleep(&mut self, sleeper: Sleeper, signals: u64, most: Duration)
        ensures { sleeps self.old sleeper signals (as_nanos most) self.new };
}

/// How a lock is acquired and its signals notified. (A trait because of *trait-for-threads*.)
pub trait Locking<T> {
    // Holds of the shared data, and of signals of it that were notified.
    ghost notified: { Self → SignalsOf → Type 0 };

    /// Returns the guard that is held, or acquires the lock, waiting for it if it is not free.
    fn hold<'a>(&'a self, held: &mut Option<MutexGuard<'a, T>>) -> MutexGuard<'a, T>
        ensures start { IfSome held.old
            (λ guard. mutex_guard_value guard ≡ mutex_guard_value result) }
        ensures free { held.new ≡ None };

    /// Notifies these signals.
    fn notify(&self, signals: Signals)
        ensures { notified self.now signals };
}

/// The signals to notify once the lock is released.
#[derive(Clone, Copy)]
pub struct Signals {
    pub(crate) gets: bool,
    pub(crate) drivers: bool,
}

impl Signal {
    /// Returns a signal that was not notified yet.
    pub fn new() -> Self {
        Signal {
            notified: Condvar::new(),
        }
    }

    /// Returns how often the signal was notified, wrapping. A thread that reads it before it checks
    /// its condition loses no notification between the check and its sleep.
    pub fn signals(&self) -> u64 {
        self.notified.notifications()
    }

    /// Wakes all sleepers.
    #[cold]
    pub fn notify(&self) {
        self.notified.notify_all();
    }

    /// Sleeps until the signal was notified more than `signals` times, and at most for `most`. It
    /// may end early.
    pub fn sleep<R: Wait>(&self, rt: &R, signals: u64, most: Duration) {
        self.notified.sleep(rt, signals, most);
    }
}

impl<T> SignalLock<T> {
    /// Returns a free lock, with signals that were not notified yet.
    pub fn new(value: T) -> Self {
        SignalLock {
            lock: Mutex::new(value),
            gets: Signal::new(),
            drivers: Signal::new(),
        }
    }

    /// Returns the protected data.
    pub fn into_inner(self) -> T {
        let SignalLock { lock, .. } = self;
        lock.into_inner()
    }

    /// Returns the signal of this sleeper.
    pub(crate) fn signal(&self, sleeper: Sleeper) -> &Signal {
        match sleeper {
            Sleeper::Get => &self.gets,
            Sleeper::Driver => &self.drivers,
        }
    }
}

impl Signals {
    /// No signal.
    pub(crate) const NONE: Self = Signals {
        gets: false,
        drivers: false,
    };

    /// Returns the gets' signal if a get was notified, which may be served at its next poll, and
    /// the drivers' signal if approvals were granted, which a driver claims at its next turn.
    #[inline(always)]
    pub(crate) fn of(notified: Option<GetKey>, granted: u32) -> Self
        ensures { result ≡ signals_for (notified_of notified) granted }
    {
        Signals {
            gets: notified.is_some(),
            drivers: granted > 0,
        }
    }

    /// Adds these signals.
    #[inline(always)]
    pub(crate) fn note(&mut self, notified: Option<GetKey>, granted: u32)
        ensures { self.new ≡ joined (signals_for (notified_of notified) granted) self.old }
    {
        let more = Signals::of(notified, granted);
        self.gets = more.gets | self.gets;
        self.drivers = more.drivers | self.drivers;
    }

    /// Adds both signals if no handle is alive any more: waiting gets and drivers end then.
    #[inline(always)]
    pub(crate) fn note_over(&mut self, over: bool)
        ensures { self.new ≡ joined (record { gets = over; drivers = over }) self.old }
    {
        self.gets = over | self.gets;
        self.drivers = over | self.drivers;
    }

    /// Adds the signals of a give-up.
    pub(crate) fn note_give_up<C, E>(&mut self, answer: &Result<GiveUpAnswer<C>, E>)
        ensures { self.new ≡ joined (signals_of (answered answer_of_give_up answer.now)) self.old }
    {
        match answer {
            Ok(GiveUpAnswer::GaveUp(outcome)) | Ok(GiveUpAnswer::Kept(_, outcome)) => self.note(
                *outcome, 0,
            ),
            Ok(GiveUpAnswer::Closed(_, _, grant, outcome)) => self.note(*outcome, grant.count),
            Err(_) => {}
        }
    }
}
