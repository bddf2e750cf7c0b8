//! The open connections of clients, each with its unread bytes.

ghost use Rattle.std.specs.Prelude.{◌≡◌, ◌∷◌, is_some, OnOk, IfSome, IfNone};
ghost use Rattle.std.specs.Option.{option_copied};
ghost use Rattle.std.specs.FinMap as finmap;
ghost use Rattle.world.specs.Clients.{heard_in, idle_connection, address_in, rest_at, with_rest, with_leaver};

use std::alloc::Global;
use std::collections::BTreeMap;
use std::marker::Model;
use std::mem;
use values::{ByteQueue, NoMemory, Text};

/// An open connection.
#[derive(Drop)]
pub struct Connection {
    // The bytes of a frame that isn't complete yet.
    rest: ByteQueue,
    // Its client has asked for the end of its session.
    is_leaving: bool,
    // The address of its client, where that is known and counts.
    address: Option<Text>,
}

impl Model for Connection {
    ghost use Rattle.world.specs.World.{OpenConnection as TheConnection, open_connection_code};

    ghost Value = { TheConnection };

    ghost coded = { open_connection_code };

    ghost view = { λ c. record { rest = c.rest; is_leaving = c.is_leaving; address = c.address } };
}

/// The open connections by number.
#[derive(Drop)]
pub struct Connections {
    map: BTreeMap<u64, Connection>,
}

impl Model for Connections {
    ghost use Rattle.std.specs.Coded.{coded_ℕ};
    ghost use Rattle.std.specs.FinMap as finmap;
    ghost use Rattle.world.specs.World.{OpenConnections as TheConnections, open_connection_code};

    ghost Value = { TheConnections };

    ghost coded = { finmap.code coded_ℕ open_connection_code };

    ghost view = { λ c. finmap.from_entries c.map.entries };
}

impl Connections {
    /// No connection. Allocates nothing.
    pub fn new(alloc: Global) -> Connections
        ensures { result ≡ finmap.empty }
    {
        Connections {
            map: BTreeMap::new(alloc),
        }
    }

    /// Opens a connection without waiting bytes, of a client with this address. Fails only if an allocation is refused.
    pub fn open(
        &mut self,
        alloc: Global,
        number: u64,
        address: Option<Text>,
    ) -> Result<(), NoMemory>
        ensures { OnOk result (self.new ≡ finmap.insert self.old number (idle_connection address)) }
    {
        let connection = Connection {
            rest: ByteQueue::new(alloc),
            is_leaving: false,
            address,
        };
        self.map.insert(number, connection)?;
        Ok(())
    }

    pub fn is_open(&self, number: u64) -> bool
        ensures { result ≡ finmap.contains_key self.now number }
    {
        self.map.contains_key(&number)
    }

    /// Whether the connection is open and not leaving.
    pub fn is_heard(&self, number: u64) -> bool
        ensures { result ≡ is_some (heard_in (finmap.get self.now number)) }
    {
        match self.map.get(&number) {
            None => return false,
            Some(connection) => !connection.is_leaving,
        }
    }

    /// The address of the client of an open connection, if it has one.
    pub fn address(&self, number: u64) -> Option<&Text>
        ensures { option_copied result ≡ address_in (finmap.get self.now number) }
    {
        match self.map.get(&number) {
            None => return None,
            Some(connection) => connection.address.as_ref(),
        }
    }

    /// An open connection is leaving from now on.
    pub fn leave(&mut self, number: u64)
        ensures { self.new ≡ with_leaver self.old number (finmap.get self.old number) }
    {
        match self.map.get_mut(&number) {
            None => return,
            Some(connection) => {
                connection.is_leaving = true;
            }
        }
    }

    /// Replaces the waiting bytes of a connection and returns the old ones; None if it isn't open or is leaving.
    pub fn replace_rest(&mut self, number: u64, rest: ByteQueue) -> Option<ByteQueue>
        ensures old { result ≡ rest_at (heard_in (finmap.get self.old number)) }
        ensures new { self.new ≡ with_rest self.old number (heard_in (finmap.get self.old number)) rest }
    {
        match self.map.get_mut(&number) {
            None => return None,
            Some(connection) => {
                if connection.is_leaving {
                    return None;
                }
                Some(mem::replace(&mut connection.rest, rest))
            }
        }
    }

    /// Closes a connection and drops its waiting bytes.
    pub fn close(&mut self, number: u64)
        ensures { self.new ≡ finmap.remove self.old number }
    {
        self.map.remove(&number);
    }

    /// Closes the connection with the least number and returns that number; None if no connection is open.
    pub fn close_first(&mut self) -> Option<u64>
        ensures first { IfSome result (λ n. finmap.keys self.old ≡ n ∷ finmap.keys self.new) }
        ensures closed { IfSome result (λ n. self.new ≡ finmap.remove self.old n) }
        ensures none { IfNone result ((self.old ≡ finmap.empty) × (self.new ≡ finmap.empty)) }
    {
        match self.map.pop_first() {
            None => return None,
            Some((number, _)) => Some(number),
        }
    }
}
