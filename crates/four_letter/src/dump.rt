//! The sessions of a tree and their ephemeral nodes, as text.

ghost use Rattle.std.specs.Prelude.{◌≡◌, ◌++◌, OnOk, length};
ghost use Rattle.std.specs.List.{flat_map};
ghost use Rattle.std.specs.FinMap as finmap;
ghost use Rattle.ephemerals.specs.Orders.{sorted_names};
ghost use Rattle.four_letter.specs.Dumped.{owning_sessions};
ghost use Rattle.four_letter.specs.Texts.{path_line, timeout_line, owner_block, dump_text};
ghost use Rattle.four_letter.specs.Inner.Owners.{owner_if_any};

use crate::put::{put, put_heading, put_id, put_path, put_timeout};
use data_tree::Timeouts;
use ephemerals::{Ephemerals, TextSet};
use std::alloc::Global;
use values::NoMemory;

fn put_timeouts(out: &mut Vec<u8>, timeouts: &Timeouts) -> Result<(), NoMemory>
    ensures { OnOk result
        (out.new.items ≡ out.old.items ++ flat_map timeout_line (finmap.entries timeouts.now)) }
{
    for (session, timeout) in timeouts.iter() {
        put_timeout(out, *session, *timeout)?;
    }
    Ok(())
}

fn put_paths(out: &mut Vec<u8>, paths: &TextSet) -> Result<(), NoMemory>
    ensures { OnOk result
        (out.new.items ≡ out.old.items ++ flat_map path_line (sorted_names paths.now)) }
{
    for path in paths.iter() {
        put_path(out, path.as_str())?;
    }
    Ok(())
}

// The number of sessions with ephemeral nodes.
fn owner_count(timeouts: &Timeouts, ephemerals: &Ephemerals) -> usize
    ensures { result ≡ length (owning_sessions timeouts.now ephemerals.now) }
{
    let sessions = timeouts.iter();
    let mut count = sessions.len();
    for (session, _) in sessions {
        if !ephemerals.owns_any(*session) {
            count -= 1;
        }
    }
    count
}

// Appends a session with its ephemeral nodes, if it has any.
fn put_owner(
    out: &mut Vec<u8>,
    alloc: Global,
    session: i64,
    ephemerals: &Ephemerals,
) -> Result<(), NoMemory>
    ensures { OnOk result (out.new.items ≡ out.old.items ++ owner_if_any ephemerals.now session) }
{
    if !ephemerals.owns_any(session) {
        return Ok(());
    }
    let paths = ephemerals.of(alloc, session)?;
    put_id(out, session, ":\n")?;
    put_paths(out, &paths)
}

fn put_owners(
    out: &mut Vec<u8>,
    alloc: Global,
    timeouts: &Timeouts,
    ephemerals: &Ephemerals,
) -> Result<(), NoMemory>
    ensures { OnOk result (out.new.items ≡ out.old.items
        ++ flat_map (owner_block ephemerals.now) (owning_sessions timeouts.now ephemerals.now)) }
{
    for (session, _) in timeouts.iter() {
        put_owner(out, alloc, *session, ephemerals)?;
    }
    Ok(())
}

/// Appends the sessions with their timeouts, and those with ephemeral nodes.
pub fn put_dump(
    out: &mut Vec<u8>,
    alloc: Global,
    timeouts: &Timeouts,
    ephemerals: &Ephemerals,
) -> Result<(), NoMemory>
    ensures { OnOk result (out.new.items ≡ out.old.items ++ dump_text timeouts.now ephemerals.now) }
{
    put(out, "SessionTracker dump:\n")?;
    put_heading(out, "Global Sessions", timeouts.iter().len())?;
    put_timeouts(out, timeouts)?;
    put(out, "ephemeral nodes dump:\n")?;
    put_heading(
        out,
        "Sessions with Ephemerals ",
        owner_count(timeouts, ephemerals),
    )?;
    put_owners(out, alloc, timeouts, ephemerals)
}
