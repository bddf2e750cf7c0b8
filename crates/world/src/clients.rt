//! The clients: open connections, sessions, watches, and requests that wait.

ghost use Rattle.std.specs.Prelude.{◌≡◌, ◌∷◌, OnOk, IfSome, IfNone, IfOk};
ghost use Rattle.std.specs.FinMap as finmap;
ghost use Rattle.world.specs.Clients.{idle_connection, is_open, is_heard, with_connection, without_client, with_address_id, passwords_of, no_clients};

use crate::connections::Connections;
use crate::world::Settings;
use data_tree::HashKey;
use forwarding::Pending;
use sessions::{Passwords, Sessions};
use std::alloc::Global;
use std::marker::Model;
use values::{NoMemory, Text};
use watch_manager::Watches;

/// The open connections, the session of each, what they watch, and their requests that aren't answered yet.
pub struct Clients {
    pub connections: Connections,
    pub sessions: Sessions,
    pub watches: Watches,
    pub pending: Pending,
}

impl Model for Clients {
    ghost use Rattle.world.specs.World.{Clients as TheClients, clients_code};

    ghost Value = { TheClients };

    ghost coded = { clients_code };

    ghost view = { λ c. record {
      connections = c.connections;
      sessions = c.sessions;
      watches = c.watches;
      pending = c.pending;
    } };
}

impl Drop for Clients {
    fn drop(self) {
        let Clients {
            connections,
            sessions,
            watches,
            pending,
        } = self;
        drop(connections);
        drop(sessions);
        drop(watches);
        drop(pending);
    }
}

// The rule of passwords.
fn passwords_of(settings: &Settings) -> Result<Passwords, NoMemory>
    ensures { let secret = settings.now.secret in
        IfOk result (λ passwords. passwords ≡ passwords_of settings.now.dialect secret) }
{
    if settings.dialect.reads().moved_sessions && settings.secret.as_slice().is_empty() {
        return Ok(Passwords::Java);
    }
    Ok(Passwords::Keyed(settings.secret.clone()?))
}

impl Clients {
    /// No connection, and no session yet. Watched paths are found by a hash with this key.
    pub fn new(alloc: Global, key: HashKey, settings: &Settings) -> Result<Clients, NoMemory>
        ensures { IfOk result (λ clients. clients ≡ no_clients settings.now) }
    {
        let sessions = Sessions::new(
            alloc,
            settings.server_id,
            settings.timeouts,
            passwords_of(settings)?,
            settings.first_counter,
            settings.super_digest.clone()?,
        );
        Ok(Clients {
            connections: Connections::new(alloc),
            sessions,
            watches: Watches::keyed(alloc, key),
            pending: Pending::new(alloc),
        })
    }

    pub fn is_open(&self, number: u64) -> bool
        ensures { result ≡ is_open number self.now }
    {
        self.connections.is_open(number)
    }

    /// Whether the connection is open and its client hasn't asked for the end of its session: only then its bytes are
    /// taken.
    pub fn is_heard(&self, number: u64) -> bool
        ensures { result ≡ is_heard number self.now }
    {
        self.connections.is_heard(number)
    }

    /// Opens a connection without waiting bytes and without a session, of a client with this address.
    pub fn open(
        &mut self,
        alloc: Global,
        number: u64,
        address: Option<Text>,
    ) -> Result<(), NoMemory>
        ensures { OnOk result (self.new ≡ with_connection number (idle_connection address) self.old) }
    {
        self.connections.open(alloc, number, address)
    }

    /// Makes the address of the connection's client an id of the connection, if it has one and a session.
    pub fn show_address(&mut self, alloc: Global, number: u64) -> Result<(), NoMemory>
        ensures { OnOk result (self.new ≡ with_address_id number self.old) }
    {
        match self.connections.address(number) {
            None => return Ok(()),
            Some(address) => self.sessions.show_address(alloc, number, address.as_str()),
        }
    }

    /// Closes a connection: its ids, watches and requests go with it, its session stays. Allocates nothing.
    pub fn close(&mut self, number: u64)
        ensures { self.new ≡ without_client number self.old }
    {
        self.connections.close(number);
        self.sessions.close(number);
        self.watches.drop_conn(number);
        self.pending.drop_connection(number);
    }

    /// Closes the connection with the least number and returns that number; None if no connection is open.
    pub fn close_first(&mut self) -> Option<u64>
        ensures first { IfSome result (λ n. finmap.keys self.old.connections
            ≡ n ∷ finmap.keys self.new.connections) }
        ensures closed { IfSome result (λ n. self.new ≡ without_client n self.old) }
        ensures none { IfNone result ((self.old.connections ≡ finmap.empty) × (self.new ≡ self.old)) }
    {
        match self.connections.close_first() {
            None => return None,
            Some(number) => {
                self.sessions.close(number);
                self.watches.drop_conn(number);
                self.pending.drop_connection(number);
                Some(number)
            }
        }
    }
}
