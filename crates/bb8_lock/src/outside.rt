//! The user callbacks of a pool, made outside its lock: manager, error sink, customizer and clock.
ghost use Rattle.std.specs.Prelude.{◌≡◌};

use crate::gets::Outside;
use crate::{LockScope, Locked, Permits, PoolTypes, Rests, Shared, Sleeper};
use bb8_core::api::{Clock, CustomizeConnection, ErrorSink, ManageConnection, Moment};
use bb8_tasks::Opener;
use futures::task::Poll;
use std::sync::Wait;
use std::time::Duration;

/// Each relation is the user's own. No callback changes the value that it is made on, nor whether
/// the lock is held.
impl<G: PoolTypes, L: Permits> Outside<G::Connection, G::Error>
    for LockScope<'_, Shared<G, L>, Locked<G::Connection, L>> {
    type Checking = G::Checking;

    ghost reports = { λ x moment x'. G.Clock.reports x.shared.now.clock moment × (x' ≡ x) };

    ghost checks = { λ x c v c' x'. G.Manager.checks x.shared.now.manager c v c' × (x' ≡ x) };

    ghost check_answers = { λ x c v moment a c' v' x'. G.Manager.check_answers x.shared.now.manager c v moment a c' v' × (x' ≡ x) };

    ghost ends_check = { λ x _ x'. x' ≡ x };

    ghost breaks = { λ x c broken c' x'. G.Manager.breaks x.shared.now.manager c broken c' × (x' ≡ x) };

    ghost sinks = { λ x e x'. G.Sink.sinks x.shared.now.error_sink e × (x' ≡ x) };

    ghost lets_go = { λ x _ x'. x' ≡ x };

    fn now(&mut self) -> Moment {
        self.shared.clock.now()
    }

    fn is_valid(&mut self, connection: &mut G::Connection) -> G::Checking {
        self.shared.manager.is_valid(connection)
    }

    fn poll_valid(
        &mut self,
        connection: &mut G::Connection,
        checking: &mut G::Checking,
        moment: Moment,
    ) -> Poll<Result<(), G::Error>> {
        self.shared.manager.poll_valid(connection, checking, moment)
    }

    fn end_check(&mut self, checking: G::Checking) {
        drop(checking)
    }

    fn has_broken(&mut self, connection: &mut G::Connection) -> bool {
        self.shared.manager.has_broken(connection)
    }

    fn sink(&mut self, error: G::Error) {
        self.shared.error_sink.sink(error)
    }

    fn let_go(&mut self, connection: G::Connection) {
        drop(connection)
    }
}

/// Sleeps on the signals of the pool's lock.
impl<G: PoolTypes<Runtime: Wait>, L: Permits> Rests
    for LockScope<'_, Shared<G, L>, Locked<G::Connection, L>> {
    ghost counts = { λ x _ _ x'. x' ≡ x };

    ghost sleeps = { λ x _ _ _ x'. x' ≡ x };

    fn signals(&mut self, sleeper: Sleeper) -> u64 {
        self.shared.locked.signal(sleeper).signals()
    }

    fn sleep(&mut self, sleeper: Sleeper, signals: u64, most: Duration) {
        self.shared
            .locked
            .signal(sleeper)
            .sleep(&self.shared.rt, signals, most)
    }
}

impl<G: PoolTypes, L: Permits> Opener<G::Connection, G::Error>
    for LockScope<'_, Shared<G, L>, Locked<G::Connection, L>> {
    type Connecting = G::Connecting;

    type Acquiring = G::Acquiring;

    ghost reports = { λ x moment x'. G.Clock.reports x.shared.now.clock moment × (x' ≡ x) };

    ghost sinks = { λ x e x'. G.Sink.sinks x.shared.now.error_sink e × (x' ≡ x) };

    ghost connects = { λ x v x'. G.Manager.connects x.shared.now.manager v × (x' ≡ x) };

    ghost connect_answers = { λ x v m answer v' x'. G.Manager.connect_answers x.shared.now.manager v m answer v' × (x' ≡ x) };

    ghost ends_connect = { λ x _ x'. x' ≡ x };

    ghost acquires = { λ x c a c' x'. G.Customizer.acquires x.shared.now.customizer c a c' × (x' ≡ x) };

    ghost acquire_answers = { λ x c a m answer c' a' x'. G.Customizer.acquire_answers x.shared.now.customizer c a m answer c' a' × (x' ≡ x) };

    ghost ends_acquire = { λ x _ x'. x' ≡ x };

    ghost lets_go = { λ x _ x'. x' ≡ x };

    fn now(&mut self) -> Moment {
        Outside::<G::Connection, G::Error>::now(self)
    }

    fn sink(&mut self, error: G::Error) {
        Outside::<G::Connection, G::Error>::sink(self, error)
    }

    fn connect(&mut self) -> G::Connecting {
        self.shared.manager.connect()
    }

    fn poll_connect(
        &mut self,
        connecting: &mut G::Connecting,
        moment: Moment,
    ) -> Poll<Result<G::Connection, G::Error>> {
        self.shared.manager.poll_connect(connecting, moment)
    }

    fn end_connect(&mut self, connecting: G::Connecting) {
        drop(connecting)
    }

    fn on_acquire(&mut self, connection: &mut G::Connection) -> G::Acquiring {
        self.shared.customizer.on_acquire(connection)
    }

    fn poll_acquire(
        &mut self,
        connection: &mut G::Connection,
        acquiring: &mut G::Acquiring,
        moment: Moment,
    ) -> Poll<Result<(), G::Error>> {
        self.shared
            .customizer
            .poll_acquire(connection, acquiring, moment)
    }

    fn end_acquire(&mut self, acquiring: G::Acquiring) {
        drop(acquiring)
    }

    fn let_go(&mut self, connection: G::Connection) {
        drop(connection)
    }
}
