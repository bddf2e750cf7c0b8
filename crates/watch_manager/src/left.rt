//! The unused watches of a table while triggers fire.

ghost use Rattle.std.specs.Prelude.{◌≡◌, OnOk, IfOk};
ghost use Rattle.watch_manager.specs.Pairs.{watchers_of, without_watches_on};

use crate::table::WatchTable;
use ephemerals::TextSet;
use pairs::NumberSet;
use std::alloc::Global;
use std::marker::Model;
use values::NoMemory;

/// The watches of a table that earlier triggers haven't used up. The table itself isn't changed, so a refused
/// allocation loses no watch.
#[derive(Drop)]
pub struct UnusedWatches<'a> {
    table: &'a WatchTable,
    // The paths whose watches are used up.
    used: TextSet,
}

impl<'a> Model for UnusedWatches<'a> {
    ghost use Rattle.watch_manager.specs.Pairs.{WatchPairs};
    ghost use Rattle.watch_manager.specs.Inner.Telling.{watches_elsewhere};
    ghost use Rattle.std.specs.FinSet as set;
    ghost use Rattle.std.specs.Coded.{coded_ℕ, coded_list, coded×};

    ghost Value = { WatchPairs };

    ghost coded = { set.code (coded× (coded_list coded_ℕ) coded_ℕ) };

    ghost view = { λ l. watches_elsewhere l.used l.table.now };
}

impl<'a> UnusedWatches<'a> {
    /// The whole table.
    pub fn new(alloc: Global, table: &'a WatchTable) -> UnusedWatches<'a>
        ensures { result ≡ table.now }
    {
        UnusedWatches {
            table,
            used: TextSet::new(alloc),
        }
    }

    /// The connections that still watch the path.
    pub fn watchers(&self, alloc: Global, path: &str) -> Result<NumberSet, NoMemory>
        ensures { IfOk result (λ conns. conns ≡ watchers_of path.now self.now) }
    {
        if self.used.contains(path) {
            return Ok(NumberSet::new(alloc));
        }
        self.table.watchers(alloc, path)
    }

    /// Uses up the watches on a path.
    pub fn use_up(&mut self, alloc: Global, path: &str) -> Result<(), NoMemory>
        ensures { OnOk result (self.new ≡ without_watches_on path.now self.old) }
    {
        if !self.table.is_watched(path) {
            return Ok(());
        }
        self.used.insert(alloc, path)?;
        Ok(())
    }
}
