//! The watches that aren't used up.

ghost use Rattle.std.specs.Prelude.{◌≡◌, OnOk, OnErr, IfOk};
ghost use Rattle.watch_manager.specs.Lasting.{no_lasting_watch, with_watch_in, without_watch_in, persistent_watchers, lasting_watchers};
ghost use Rattle.watch_manager.specs.Watching.{without_lasting_of};

use crate::mode::WatchMode;
use crate::recursive::RecursiveTable;
use crate::table::WatchTable;
use pairs::{HashKey, NumberSet};
use std::alloc::Global;
use std::marker::Model;
use values::NoMemory;

/// The watches of either mode. A change looks at its path and at those above it, and at no other.
#[derive(Drop)]
pub struct LastingTable {
    persistent: WatchTable,
    recursive: RecursiveTable,
}

impl Model for LastingTable {
    ghost use Rattle.watch_manager.specs.Lasting.{LastingWatches, lasting_watches_code};

    ghost Value = { LastingWatches };

    ghost coded = { lasting_watches_code };

    ghost view = { λ t. record { persistent = t.persistent; recursive = t.recursive } };
}

impl LastingTable {
    /// No watch, and this key of the hash. Allocates nothing.
    pub fn keyed(alloc: Global, key: HashKey) -> LastingTable
        ensures { result ≡ no_lasting_watch }
    {
        LastingTable {
            persistent: WatchTable::keyed(alloc, key),
            recursive: RecursiveTable::keyed(alloc, key),
        }
    }

    /// The persistent watches.
    pub fn persistent(&self) -> &WatchTable
        ensures { result.now ≡ self.now.persistent }
    {
        &self.persistent
    }

    /// The recursive watches.
    pub fn recursive(&self) -> &WatchTable
        ensures { result.now ≡ self.now.recursive }
    {
        self.recursive.table()
    }

    /// The connections with a persistent watch on the path.
    pub(crate) fn persistent_watchers(
        &self,
        alloc: Global,
        path: &str,
    ) -> Result<NumberSet, NoMemory>
        ensures { IfOk result (λ conns. conns ≡ persistent_watchers path.now self.now) }
    {
        let mut conns = NumberSet::new(alloc);
        self.persistent.add_watchers(&mut conns, path)?;
        Ok(conns)
    }

    /// The connections with a watch on the path, or with a recursive watch above it.
    pub fn watchers(&self, alloc: Global, path: &str) -> Result<NumberSet, NoMemory>
        ensures { IfOk result (λ conns. conns ≡ lasting_watchers path.now self.now) }
    {
        let mut conns = self.persistent_watchers(alloc, path)?;
        self.recursive.add_watchers_above(&mut conns, path)?;
        Ok(conns)
    }

    /// Sets a watch; it may be set already, and one of the other mode stays. A refused allocation changes nothing.
    pub fn set(
        &mut self,
        alloc: Global,
        connection: u64,
        path: &str,
        mode: WatchMode,
    ) -> Result<(), NoMemory>
        ensures ok { OnOk result (self.new ≡ with_watch_in mode (path.now, connection) self.old) }
        ensures err { OnErr result (self.new ≡ self.old) }
    {
        match mode {
            WatchMode::Persistent => self.persistent.set(alloc, connection, path),
            WatchMode::Recursive => self.recursive.set(alloc, connection, path),
        }
    }

    /// Removes a watch. Allocates nothing.
    pub fn remove(&mut self, connection: u64, path: &str, mode: WatchMode)
        ensures { self.new ≡ without_watch_in mode (path.now, connection) self.old }
    {
        match mode {
            WatchMode::Persistent => self.persistent.remove(connection, path),
            WatchMode::Recursive => self.recursive.remove(connection, path),
        }
    }

    /// Removes the watches of a connection. Allocates nothing.
    pub fn drop_conn(&mut self, connection: u64)
        ensures { self.new ≡ without_lasting_of connection self.old }
    {
        self.persistent.drop_conn(connection);
        self.recursive.drop_conn(connection);
    }
}
