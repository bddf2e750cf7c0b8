//! The recursive watches.

ghost use Rattle.std.specs.Prelude.{◌≡◌, OnOk, OnErr};
ghost use Rattle.std.specs.FinSet as set;
ghost use Rattle.watch_manager.specs.Pairs.{watchers_of, without_connection};
ghost use Rattle.watch_manager.specs.Lasting.{watchers_above};
ghost use Rattle.watch_manager.specs.Inner.Lasting.{with_watchers_on, named_fronts};

use crate::table::WatchTable;
use pairs::{HashKey, NumberSet};
use std::alloc::Global;
use std::collections::BTreeSet;
use std::marker::Model;
use values::NoMemory;

/// The recursive watches, with the lengths of their paths. A path of another length has no watch, so a change looks up
/// few of the paths above it.
#[derive(Drop)]
pub struct RecursiveTable {
    table: WatchTable,
    // In bytes. A length may stay after its last watch, but no longer than the table has a watch.
    lengths: BTreeSet<usize>,
}

impl Model for RecursiveTable {
    ghost use Rattle.watch_manager.specs.Pairs.{WatchPairs};
    ghost use Rattle.watch_manager.specs.Inner.Lasting.{HaveLengthsIn};
    ghost use Rattle.std.specs.FinSet as set;
    ghost use Rattle.std.specs.Coded.{coded_ℕ, coded_list, coded×};

    ghost Value = { WatchPairs };

    ghost coded = { set.code (coded× (coded_list coded_ℕ) coded_ℕ) };

    ghost view = { λ t. t.table };

    ghost invariant = { λ t. HaveLengthsIn t.lengths t.table };
}

impl RecursiveTable {
    /// No watch, and this key of the hash. Allocates nothing.
    pub fn keyed(alloc: Global, key: HashKey) -> RecursiveTable
        ensures { result ≡ set.empty }
    {
        RecursiveTable {
            table: WatchTable::keyed(alloc, key),
            lengths: BTreeSet::new(alloc),
        }
    }

    /// The watches.
    pub fn table(&self) -> &WatchTable
        ensures { result.now ≡ self.now }
    {
        &self.table
    }

    // Adds the connections that watch the path.
    fn add_watchers(&self, conns: &mut NumberSet, path: &str) -> Result<(), NoMemory>
        ensures { OnOk result (conns.new ≡ set.union conns.old (watchers_of path.now self.now)) }
    {
        if !self.lengths.contains(&path.len()) {
            return Ok(());
        }
        self.table.add_watchers(conns, path)
    }

    // Adds the connections that watch a path above this one, except "/".
    fn add_watchers_between(&self, conns: &mut NumberSet, path: &str) -> Result<(), NoMemory>
        ensures { OnOk result
            (conns.new ≡ with_watchers_on (named_fronts path.now) self.now conns.old) }
    {
        let mut rest = path;
        while let Some((above, _)) = rest.rsplit_once('/') {
            // The empty text is above nothing.
            if above.is_empty() {
                return Ok(());
            }
            self.add_watchers(conns, above)?;
            rest = above;
        }
        Ok(())
    }

    /// Adds the connections that watch the path or one above it.
    pub(crate) fn add_watchers_above(
        &self,
        conns: &mut NumberSet,
        path: &str,
    ) -> Result<(), NoMemory>
        ensures { OnOk result (conns.new ≡ set.union conns.old (watchers_above path.now self.now)) }
    {
        if self.lengths.is_empty() {
            return Ok(());
        }
        self.add_watchers(conns, path)?;
        self.add_watchers(conns, "/")?;
        self.add_watchers_between(conns, path)
    }

    /// Sets a watch; it may be set already. A refused allocation changes nothing.
    pub fn set(&mut self, alloc: Global, connection: u64, path: &str) -> Result<(), NoMemory>
        ensures ok { OnOk result (self.new ≡ set.insert self.old (path.now, connection)) }
        ensures err { OnErr result (self.new ≡ self.old) }
    {
        self.lengths.insert(path.len())?;
        self.table.set(alloc, connection, path)?;
        Ok(())
    }

    // Frees the lengths when no watch is left.
    fn free_lengths(&mut self)
        ensures { self.new ≡ self.old }
    {
        if self.table.is_empty() {
            self.lengths.clear();
        }
    }

    /// Removes a watch. Allocates nothing.
    pub fn remove(&mut self, connection: u64, path: &str)
        ensures { self.new ≡ set.remove self.old (path.now, connection) }
    {
        self.table.remove(connection, path);
        self.free_lengths();
    }

    /// Removes the watches of a connection. Allocates nothing.
    pub fn drop_conn(&mut self, connection: u64)
        ensures { self.new ≡ without_connection connection self.old }
    {
        self.table.drop_conn(connection);
        self.free_lengths();
    }
}
