//! A list of guards of one pool.
ghost use Rattle.std.specs.Prelude.{◌≡◌, ◌+◌, ◌<◌, ◌≤◌, ◌↔◌, true, [], ◌∷◌, ◌++◌, take, drop, slice_index_or, vec_len, OnOk, IfErr, IfSome, IfNone, IsSome};

use crate::pool::{IntoParts, Pool, PooledConnection};
use bb8_core::internals::Key;
use bb8_lock::gets::Taken;
use bb8_lock::{Gathered, Permits, PoolTypes, Shared};
use std::alloc::Global;
use std::marker::PhantomData;

/// The pool to which a connection of a list is returned, and its key.
#[derive(Drop)]
struct Ticket<'a, G: PoolTypes, L: Permits> {
    shared: &'a Shared<G, L>,
    key: Key,
}

/// A list of guards of one pool. It has at most `max_size` guards, as their permits prove. Its drop
/// drops each guard, for which it may wait for the lock.
pub struct Guards<'a, G: PoolTypes, L: Permits> {
    shared: &'a Shared<G, L>,
    tickets: Vec<Ticket<'a, G, L>>,
    connections: Vec<G::Connection>,
    parts: Gathered<L>,
    ghost one_each: { vec_len tickets ≡ vec_len connections },
    ghost permits_of: { parts ≡ vec_len connections },
    ghost within: { vec_len connections ≤ shared.now.config.max_size },
}

/// The calls of a list of guards.
pub trait GuardsCalls: Sized {
    /// A handle of the pool, by reference.
    type Pool;

    /// A guard of the pool.
    type Guard;

    /// A guard's connection.
    type Connection;

    /// Returns an empty list of guards of this pool. It allocates nothing.
    fn new(alloc: Global, pool: Self::Pool) -> Self;

    /// Returns the number of guards.
    fn len(&self) -> usize;

    /// Whether there is no guard.
    fn is_empty(&self) -> bool;

    /// Appends a guard. If memory for it is refused, returns the guard and leaves the list as it
    /// was.
    fn push(&mut self, guard: Self::Guard) -> Result<(), Self::Guard>;

    /// Removes and returns the guard at an index; those behind it move up. None if there is no such
    /// index.
    fn remove(&mut self, index: usize) -> Option<Self::Guard>;

    /// Returns the connection of the guard at an index. None if there is no such index.
    fn get_mut(&mut self, index: usize) -> Option<&mut Self::Connection>;
}

impl<'a, G: PoolTypes, L: Permits> GuardsCalls for Guards<'a, G, L> {
    ghost use Rattle.std.specs.Borrow.{LendsIf, sem};
    ghost use mir.Syntax.{named};
    ghost use Rattle.bb8.specs.GuardLists.{connection_of, connections_in, most_in, number_in, ticket_of, tickets_in, with_connection_at, AreOfOne, IsListOf};
    ghost use Rattle.bb8.specs.contracts.guards.Guards.{the_row};

    type Pool = &'a Pool<G, L>;

    type Guard = PooledConnection<'a, G, L>;

    type Connection = G::Connection;

    fn new(alloc: Global, pool: &'a Pool<G, L>) -> Self
        ensures empty { connections_in result ≡ [] }
        ensures pool { IsListOf result pool.now }
    {
        let shared = &*pool.shared;
        Guards {
            shared,
            tickets: Vec::new(alloc),
            connections: Vec::new(alloc),
            parts: Gathered::none(),
        }
    }

    fn len(&self) -> usize
        ensures number { result ≡ number_in self.now }
        ensures within { result ≤ most_in self.now }
    {
        self.connections.len()
    }

    fn is_empty(&self) -> bool
        ensures { result ≡ true ↔ number_in self.now ≡ 0 }
    {
        self.connections.is_empty()
    }

    fn push(&mut self, guard: PooledConnection<'a, G, L>) -> Result<(), PooledConnection<'a, G, L>>
        ensures added { OnOk result
            (connections_in self.new ≡ connections_in self.old ++ connection_of guard.entry ∷ []) }
        ensures ticket { OnOk result
            (tickets_in self.new ≡ tickets_in self.old ++ ticket_of guard.entry ∷ []) }
        ensures refused { IfErr result (λ back. back ≡ guard.entry) }
        ensures same { IfErr result (λ _. connections_in self.new ≡ connections_in self.old) }
        ensures kept { IfErr result (λ _. tickets_in self.new ≡ tickets_in self.old) }
        ensures pool { AreOfOne self.new self.old }
    {
        let (shared, taken) = guard.into_parts();
        let Taken {
            key,
            connection,
            permit,
        } = taken;
        if self.tickets.push(Ticket { shared, key }).is_err() {
            return Err(PooledConnection {
                shared,
                taken: Taken {
                    key,
                    connection,
                    permit,
                },
                lends: PhantomData,
            });
        }
        match self.connections.push(connection) {
            Ok(()) => {
                self.parts.put(permit, &self.shared.total);
                Ok(())
            }
            Err(refused) => {
                let connection = refused.value;
                self.tickets.pop();
                let taken = Taken {
                    key,
                    connection,
                    permit,
                };
                Err(PooledConnection {
                    shared,
                    taken,
                    lends: PhantomData,
                })
            }
        }
    }

    fn remove(&mut self, index: usize) -> Option<PooledConnection<'a, G, L>>
        ensures guard { IfSome result (λ guard. connection_of guard
            ≡ slice_index_or (connections_in self.old) index (connection_of guard)) }
        ensures closed { IfSome result (λ _. connections_in self.new
            ≡ take index (connections_in self.old) ++ drop (index + 1) (connections_in self.old)) }
        ensures ticket { IfSome result (λ guard. ticket_of guard
            ≡ slice_index_or (tickets_in self.old) index (ticket_of guard)) }
        ensures moved { IfSome result (λ _. tickets_in self.new
            ≡ take index (tickets_in self.old) ++ drop (index + 1) (tickets_in self.old)) }
        ensures some { IsSome result ↔ (index < number_in self.old) }
        ensures none { IfNone result (self.new ≡ self.old) }
        ensures pool { AreOfOne self.new self.old }
    {
        if index >= self.connections.len() {
            return None;
        }
        let Ticket { shared, key } = self.tickets.remove(index);
        let connection = self.connections.remove(index);
        let permit = self.parts.take_one();
        let taken = Taken {
            key,
            connection,
            permit,
        };
        Some(PooledConnection {
            shared,
            taken,
            lends: PhantomData,
        })
    }

    fn get_mut(&mut self, index: usize) -> Option<&mut G::Connection>
        ensures* writes_back { sem 𝓛 (LendsIf
            (the_row (record { mir = named 1; lft = [] }) G.row L.row G.Manager.row G.Sink.row G.Customizer.row G.Clock.row G.Runtime.row
            G.Connection.row G.Error.row G.Connecting.row G.Checking.row G.Acquiring.row _ _ _ _ _ _
            (record { name = L.name; parts = L.parts }))
            G.Connection.row self.entry result (with_connection_at self.old index) self.old) }
        ensures some { IsSome result ↔ (index < number_in self.old) }
        ensures connection { IfSome result (λ connection. connection.now
            ≡ slice_index_or (connections_in self.old) index connection.now) }
    {
        self.connections.get_mut(index)
    }
}

impl<G: PoolTypes, L: Permits> Drop for Guards<'_, G, L> {
    ghost use Rattle.bb8.specs.GuardLists.{ReturnsEach};

    fn drop(self)
        ensures { ReturnsEach self.entry }
    {
        let Guards {
            shared: _,
            mut tickets,
            mut connections,
            mut parts,
        } = self;
        while let Some(connection) = connections.pop() {
            if let Some(Ticket { shared, key }) = tickets.pop() {
                let permit = parts.take_one();
                let taken = Taken {
                    key,
                    connection,
                    permit,
                };
                drop(PooledConnection {
                    shared,
                    taken,
                    lends: PhantomData,
                });
            }
        }
    }
}
