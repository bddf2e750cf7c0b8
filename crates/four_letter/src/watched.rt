//! The watches by path, and by session.

ghost use Rattle.std.specs.Prelude.{IfOk, OnOk};
ghost use Rattle.four_letter.specs.Inner.Gathered.{sessions_by_path, paths_by_session, AddsSession, AddsPath, GathersSessions, GathersPaths};

use crate::figures::WatchRow;
use std::alloc::Global;
use std::collections::{BTreeMap, BTreeSet};
use values::NoMemory;

// Adds the session of a watch to those that watch its path.
fn add_session<'a>(
    alloc: Global,
    by_path: &mut BTreeMap<&'a str, BTreeSet<i64>>,
    row: &'a WatchRow<'_>,
) -> Result<(), NoMemory>
    ensures { OnOk result
        (AddsSession row.now (sessions_by_path by_path.old.entries) (sessions_by_path by_path.new.entries)) }
{
    let path = row.path.as_str();
    match by_path.get_mut(path) {
        Some(sessions) => {
            sessions.insert(row.session)?;
            Ok(())
        }
        None => {
            let mut sessions = BTreeSet::new(alloc);
            sessions.insert(row.session)?;
            by_path.insert(path, sessions)?;
            Ok(())
        }
    }
}

/// The watched paths, each with the sessions that watch it. Fails only if an allocation is refused.
pub fn by_path<'a>(
    alloc: Global,
    rows: &'a [WatchRow<'_>],
) -> Result<BTreeMap<&'a str, BTreeSet<i64>>, NoMemory>
    ensures { IfOk result (λ all. GathersSessions rows.now (sessions_by_path all.entries)) }
{
    let mut by_path = BTreeMap::new(alloc);
    for row in rows {
        add_session(alloc, &mut by_path, row)?;
    }
    Ok(by_path)
}

// Adds the path of a watch to those that its session watches.
fn add_path<'a>(
    alloc: Global,
    by_session: &mut BTreeMap<i64, BTreeSet<&'a str>>,
    row: &'a WatchRow<'_>,
) -> Result<(), NoMemory>
    ensures { OnOk result
        (AddsPath row.now (paths_by_session by_session.old.entries) (paths_by_session by_session.new.entries)) }
{
    let path = row.path.as_str();
    match by_session.get_mut(&row.session) {
        Some(paths) => {
            paths.insert(path)?;
            Ok(())
        }
        None => {
            let mut paths = BTreeSet::new(alloc);
            paths.insert(path)?;
            by_session.insert(row.session, paths)?;
            Ok(())
        }
    }
}

/// The sessions that watch, each with the paths that it watches. Fails only if an allocation is refused.
pub fn by_session<'a>(
    alloc: Global,
    rows: &'a [WatchRow<'_>],
) -> Result<BTreeMap<i64, BTreeSet<&'a str>>, NoMemory>
    ensures { IfOk result (λ all. GathersPaths rows.now (paths_by_session all.entries)) }
{
    let mut by_session = BTreeMap::new(alloc);
    for row in rows {
        add_path(alloc, &mut by_session, row)?;
    }
    Ok(by_session)
}
