//! One table of watches.

ghost use Rattle.std.specs.Prelude.{◌≡◌, ◌↔◌, ℕ, OnOk, OnErr, IfOk, IsTrue};
ghost use Rattle.std.specs.FinSet as set;
ghost use Rattle.std.specs.Map.Iter.{ShowsInOrder, deref_pair};
ghost use Rattle.ephemerals.specs.Orders.{Names, path_cmp};
ghost use Rattle.pairs.specs.Pairs.{listed_pairs};
ghost use Rattle.watch_manager.specs.Pairs.{watchers_of, without_watches_on, pairs_of_connection, without_connection};
ghost use Rattle.watch_manager.specs.Inner.Grouped.{keys_in, keys_beyond, connections_in, connections_beyond};

use pairs::{HashKey, NumberSet, Pairs, TextTable};
use std::alloc::Global;
use std::collections::btree_map::Iter;
use std::marker::Model;
use values::NoMemory;

/// Pairs of a path and a connection: a trigger finds its watches by path, and a closed connection loses its watches by
/// connection.
#[derive(Drop)]
pub struct WatchTable {
    pairs: Pairs,
}

impl Model for WatchTable {
    ghost use Rattle.watch_manager.specs.Pairs.{WatchPairs};
    ghost use Rattle.std.specs.FinSet as set;
    ghost use Rattle.std.specs.Coded.{coded_ℕ, coded_list, coded×};

    ghost Value = { WatchPairs };

    ghost coded = { set.code (coded× (coded_list coded_ℕ) coded_ℕ) };

    ghost view = { λ t. t.pairs };
}

impl WatchTable {
    /// No watch, and this key of the hash. Allocates nothing.
    pub fn keyed(alloc: Global, key: HashKey) -> WatchTable
        ensures { result ≡ set.empty }
    {
        WatchTable {
            pairs: Pairs::keyed(alloc, key),
        }
    }

    /// Whether no path is watched.
    pub fn is_empty(&self) -> bool
        ensures { IsTrue result ↔ (self.now ≡ set.empty) }
    {
        self.pairs.is_empty()
    }

    /// The number of watches.
    pub fn count(&self) -> usize
        ensures { result ≡ set.len self.now }
    {
        self.pairs.len()
    }

    /// The number of watches of a connection.
    pub fn count_of(&self, connection: u64) -> usize
        ensures { result ≡ set.len (pairs_of_connection connection self.now) }
    {
        self.pairs.len_of(connection)
    }

    /// The number of watched paths.
    pub fn paths(&self) -> usize
        ensures { result ≡ set.len (keys_in path_cmp self.now) }
    {
        self.pairs.texts()
    }

    /// The number of connections that watch something.
    pub fn connections(&self) -> usize
        ensures { result ≡ set.len (connections_in self.now) }
    {
        self.pairs.numbers()
    }

    /// The number of paths that are watched here and not in the other tables. Takes time linear in the number of paths
    /// that are watched here.
    pub(crate) fn paths_beyond(
        &self,
        first: &WatchTable,
        second: &WatchTable,
        third: &WatchTable,
    ) -> usize
        ensures { result ≡ set.len (keys_beyond path_cmp self.now first.now second.now third.now) }
    {
        self.pairs
            .texts_beyond(&first.pairs, &second.pairs, &third.pairs)
    }

    /// The number of connections that watch something here and nothing in the other tables. Takes time linear in the
    /// number of connections that watch something here.
    pub(crate) fn connections_beyond(
        &self,
        first: &WatchTable,
        second: &WatchTable,
        third: &WatchTable,
    ) -> usize
        ensures { result ≡ set.len (connections_beyond self.now first.now second.now third.now) }
    {
        self.pairs
            .numbers_beyond(&first.pairs, &second.pairs, &third.pairs)
    }

    /// Whether a connection watches the path.
    pub(crate) fn is_watched(&self, path: &str) -> bool
        ensures { result ≡ set.contains (keys_in path_cmp self.now) path.now }
    {
        self.pairs.has_text(path)
    }

    /// The connections that watch the path. Fails only if an allocation is refused.
    pub(crate) fn watchers(&self, alloc: Global, path: &str) -> Result<NumberSet, NoMemory>
        ensures { IfOk result (λ conns. conns ≡ watchers_of path.now self.now) }
    {
        self.pairs.numbers_of(alloc, path)
    }

    /// Whether the connection watches the path.
    pub fn contains(&self, connection: u64, path: &str) -> bool
        ensures { result ≡ set.contains self.now (path.now, connection) }
    {
        self.pairs.contains(path, connection)
    }

    /// Adds the connections that watch the path.
    pub(crate) fn add_watchers(&self, conns: &mut NumberSet, path: &str) -> Result<(), NoMemory>
        ensures { OnOk result (conns.new ≡ set.union conns.old (watchers_of path.now self.now)) }
    {
        self.pairs.add_numbers_of(conns, path)
    }

    /// The connections that watch something, each with its paths.
    pub fn iter(&self) -> Iter<'_, u64, TextTable>
        ensures pairs { set.from_list (listed_pairs result) ≡ self.now }
        ensures runs { ShowsInOrder (deref_pair {K = ℕ} {X = Names}) }
    {
        self.pairs.iter()
    }

    /// Sets a watch; it may be set already. A refused allocation changes nothing.
    pub fn set(&mut self, alloc: Global, connection: u64, path: &str) -> Result<(), NoMemory>
        ensures ok { OnOk result (self.new ≡ set.insert self.old (path.now, connection)) }
        ensures err { OnErr result (self.new ≡ self.old) }
    {
        self.pairs.insert(alloc, path, connection)?;
        Ok(())
    }

    /// Removes a watch. Allocates nothing.
    pub fn remove(&mut self, connection: u64, path: &str)
        ensures { self.new ≡ set.remove self.old (path.now, connection) }
    {
        self.pairs.remove(path, connection)
    }

    /// Removes the watches on a path. Allocates nothing.
    pub fn use_up(&mut self, path: &str)
        ensures { self.new ≡ without_watches_on path.now self.old }
    {
        self.pairs.drop_text(path)
    }

    /// Removes the watches of a connection. Allocates nothing.
    pub fn drop_conn(&mut self, connection: u64)
        ensures { self.new ≡ without_connection connection self.old }
    {
        self.pairs.take_number(connection);
    }
}
