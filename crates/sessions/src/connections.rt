//! The connections that have a session.

ghost use Rattle.std.specs.Prelude.{◌≡◌, take, OnOk, OnErr};
ghost use Rattle.std.specs.Option.{option_copied};
ghost use Rattle.std.specs.FinMap as finmap;
ghost use Rattle.sessions.specs.Sessions.{new_connection, with_id};
ghost use Rattle.sessions.specs.Inner.{with_shown_id, with_first_ids};

use jute::Id;
use std::alloc::Global;
use std::collections::BTreeMap;
use std::marker::Model;
use values::NoMemory;

/// A connection's session, the timeout that it was told, and the ids that it has added.
#[derive(Drop)]
pub struct Connection {
    session: i64,
    time_out: i32,
    ids: Vec<Id>,
}

impl Model for Connection {
    ghost use Rattle.sessions.specs.State.{ConnectedClient as TheConnection, connected_client_code};

    ghost Value = { TheConnection };

    ghost coded = { connected_client_code };

    ghost view = { λ c. record { session = c.session; time_out = c.time_out; ids = c.ids.items } };
}

impl Connection {
    pub fn session(&self) -> i64
        ensures { result ≡ self.now.session }
    {
        self.session
    }

    pub fn time_out(&self) -> i32
        ensures { result ≡ self.now.time_out }
    {
        self.time_out
    }

    pub fn ids(&self) -> &[Id]
        ensures { result.now ≡ self.now.ids }
    {
        self.ids.as_slice()
    }

    fn show(&mut self, id: Id) -> Result<(), NoMemory>
        ensures ok { OnOk result (self.new ≡ with_id self.old id) }
        ensures err { OnErr result (self.new ≡ self.old) }
    {
        self.ids.push(id)?;
        Ok(())
    }

    fn keep_first(&mut self, count: usize)
        ensures { self.new ≡ record self.old { ids = take count self.old.ids } }
    {
        self.ids.truncate(count);
    }
}

/// The connections that have a session, by number.
#[derive(Drop)]
pub struct Connections {
    map: BTreeMap<u64, Connection>,
}

impl Model for Connections {
    ghost use Rattle.std.specs.FinMap as finmap;
    ghost use Rattle.sessions.specs.State.{ConnectedClients as TheConnections, connected_clients_code};

    ghost Value = { TheConnections };

    ghost coded = { connected_clients_code };

    ghost view = { λ c. finmap.from_entries c.map.entries };
}

impl Connections {
    /// No connection. Allocates nothing.
    pub fn new(alloc: Global) -> Connections
        ensures { result ≡ finmap.empty }
    {
        Connections {
            map: BTreeMap::new(alloc),
        }
    }

    /// Gives the connection the session, with the timeout that it is told, and without ids. A refused allocation changes
    /// nothing.
    pub fn add(
        &mut self,
        alloc: Global,
        number: u64,
        session: i64,
        time_out: i32,
    ) -> Result<(), NoMemory>
        ensures ok { OnOk result
            (self.new ≡ finmap.insert self.old number (new_connection session time_out)) }
        ensures err { OnErr result (self.new ≡ self.old) }
    {
        let connection = Connection {
            session,
            time_out,
            ids: Vec::new(alloc),
        };
        self.map.insert(number, connection)?;
        Ok(())
    }

    /// The number of connections that have a session.
    pub fn count(&self) -> usize
        ensures { result ≡ finmap.len self.now }
    {
        self.map.len()
    }

    /// The connection, if it has a session.
    pub fn get(&self, number: u64) -> Option<&Connection>
        ensures { option_copied result ≡ finmap.get self.now number }
    {
        self.map.get(&number)
    }

    /// Adds an id to a connection that has a session. A refused allocation changes nothing.
    pub fn show(&mut self, number: u64, id: Id) -> Result<(), NoMemory>
        ensures ok { let connection = finmap.get self.old number in
            OnOk result (self.new ≡ with_shown_id self.old number id connection) }
        ensures err { OnErr result (self.new ≡ self.old) }
    {
        match self.map.get_mut(&number) {
            None => return Ok(()),
            Some(connection) => connection.show(id),
        }
    }

    /// Takes all ids but the first of them from a connection that has a session.
    pub fn keep_first(&mut self, number: u64, count: usize)
        ensures { let connection = finmap.get self.old number in
            self.new ≡ with_first_ids self.old number count connection }
    {
        match self.map.get_mut(&number) {
            None => return,
            Some(connection) => connection.keep_first(count),
        }
    }

    /// Removes the connection and returns it; None if it has no session.
    pub fn take(&mut self, number: u64) -> Option<Connection>
        ensures was { result ≡ finmap.get self.old number }
        ensures removed { self.new ≡ finmap.remove self.old number }
    {
        self.map.remove(&number)
    }

    /// Drops the connection and its ids.
    pub fn close(&mut self, number: u64)
        ensures { self.new ≡ finmap.remove self.old number }
    {
        self.take(number);
    }
}
