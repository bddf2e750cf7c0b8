//! The map, modelled as a finite map.

ghost use Rattle.std.specs.Prelude.{◌≡◌, ℤ, OnOk, OnErr};
ghost use Rattle.std.specs.List.{list_any};
ghost use Rattle.std.specs.Ordering.{eq_by_cmp, int_cmp};
ghost use Rattle.std.specs.Map.Iter.{ShowsInOrder, deref};
ghost use Rattle.std.specs.FinMap as finmap;

use std::alloc::Global;
use std::collections::BTreeMap;
use std::collections::btree_map::Keys;
use std::marker::Model;
use values::NoMemory;

/// For each of some sessions a connection.
#[derive(Drop)]
pub struct SessionMap {
    map: BTreeMap<i64, u64>,
}

impl Model for SessionMap {
    ghost use Rattle.std.specs.FinMap as finmap;
    ghost use Rattle.session_map.specs.SessionMap.{ConnectionBySession, connection_by_session_code};

    ghost Value = { ConnectionBySession };

    ghost coded = { connection_by_session_code };

    ghost view = { λ s. finmap.from_entries s.map.entries };
}

impl SessionMap {
    /// No session. Allocates nothing.
    pub fn new(alloc: Global) -> SessionMap
        ensures { result ≡ finmap.empty }
    {
        SessionMap {
            map: BTreeMap::new(alloc),
        }
    }

    /// The session's connection; None if the session isn't in the map.
    pub fn get(&self, session: i64) -> Option<u64>
        ensures { result ≡ finmap.get self.now session }
    {
        self.map.get(&session).copied()
    }

    /// Gives the session a connection, in place of the one that it has. A refused allocation changes nothing.
    pub fn set(&mut self, session: i64, connection: u64) -> Result<(), NoMemory>
        ensures ok { OnOk result (self.new ≡ finmap.insert self.old session connection) }
        ensures err { OnErr result (self.new ≡ self.old) }
    {
        self.map.insert(session, connection)?;
        Ok(())
    }

    /// Removes the session and returns its connection; None if the session isn't in the map.
    pub fn remove(&mut self, session: i64) -> Option<u64>
        ensures was { result ≡ finmap.get self.old session }
        ensures removed { self.new ≡ finmap.remove self.old session }
    {
        self.map.remove(&session)
    }

    /// The sessions, each once, in ascending order of their ids.
    pub fn sessions(&self) -> Keys<'_, i64, u64>
        ensures members { (session : ℤ) →
            list_any (eq_by_cmp int_cmp session) result ≡ finmap.contains_key self.now session }
        ensures runs { ShowsInOrder (deref {X = ℤ}) }
    {
        self.map.keys()
    }
}
