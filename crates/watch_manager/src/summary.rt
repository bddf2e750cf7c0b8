//! The watches of all tables as a list.

ghost use Rattle.std.specs.Prelude.{◌≡◌, IfOk, OnOk, map};
ghost use Rattle.std.specs.FinSet as set;
ghost use Rattle.watch_manager.specs.Summary.{watched_in};
ghost use Rattle.watch_manager.specs.Inner.Listing.{connection_rows, AddsInOrder};

use crate::table::WatchTable;
use crate::watched::{Table, Watched};
use pairs::TextTable;
use std::alloc::Global;
use std::collections::BTreeSet;
use values::{NoMemory, Str};

// Adds the watches of a connection on these paths.
fn add_paths<'a>(
    rows: &mut BTreeSet<Watched<'a>>,
    connection: u64,
    paths: &'a TextTable,
    table: Table,
) -> Result<(), NoMemory>
    ensures { OnOk result
        (AddsInOrder rows.old.keys (connection_rows table connection (set.items paths.now)) rows.new.keys) }
{
    let all = paths.as_slice();
    for path in all {
        let path = Str::new(path.as_str());
        rows.insert(Watched {
            path,
            connection,
            table,
        })?;
    }
    Ok(())
}

/// Adds the watches of a table. Fails only if an allocation is refused.
pub(crate) fn add_table<'a>(
    rows: &mut BTreeSet<Watched<'a>>,
    watches: &'a WatchTable,
    table: Table,
) -> Result<(), NoMemory>
    ensures { OnOk result
        (AddsInOrder rows.old.keys (map (watched_in table) (set.items watches.now)) rows.new.keys) }
{
    for (connection, paths) in watches.iter() {
        add_paths(rows, *connection, paths, table)?;
    }
    Ok(())
}

/// The watches as a list, in their order. Fails only if an allocation is refused.
pub fn in_order<'a>(
    alloc: Global,
    rows: BTreeSet<Watched<'a>>,
) -> Result<Vec<Watched<'a>>, NoMemory>
    ensures { IfOk result (λ listed. listed.items ≡ rows.entry.keys) }
{
    let mut listed = Vec::with_capacity(alloc, rows.len())?;
    for row in rows {
        listed.push(row)?;
    }
    Ok(listed)
}
