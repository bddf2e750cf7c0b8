//! The watches that clients ask for.

ghost use Rattle.std.specs.Prelude.{◌≡◌, IfOk};
ghost use Rattle.read_processor.specs.Watch.{asked_watch, watch_of, mode_of_number, lasting_watch, watch_to_add, look_of_added, kind_of_number, watch_sought};

use crate::body::Body;
use crate::kinds::{WatchTable, read_row};
use crate::reads::is_readable_path;
use crate::request::Request;
use crate::shown::Look;
use client_records::codes::{OK, PERSISTENT, RECURSIVE};
use client_records::{AddWatch, ErrorResponse, PathAndKind};
use jute::codes::NO_NODE;
use settings::Dialect;
use std::alloc::Global;
use values::{NoMemory, Str};
use watch_manager::{WatchKind, WatchMode};

/// A watch that a client asks for: its table, and the path as the client wrote it.
#[derive(Drop)]
pub enum Watch<'a> {
    /// On a node, or on a node that isn't there yet.
    Data(Str<'a>),
    /// On the names of a node's children.
    Child(Str<'a>),
    /// One that isn't used up.
    Lasting(Str<'a>, WatchMode),
    /// One that isn't used up, in place of that of the other mode.
    LastingAlone(Str<'a>, WatchMode),
}

/// A watch that a client looks for, or wants to be removed.
#[derive(Drop)]
pub struct SoughtWatch<'a> {
    pub path: Str<'a>,
    pub kind: WatchKind,
}

// The watch of a table at the path, if the request asks for one.
fn asked_watch<'a>(table: WatchTable, request: &Request<'a>) -> Option<Watch<'a>>
    ensures { result ≡ asked_watch table request.now }
{
    if !request.watch {
        return None;
    }
    match &request.path {
        None => return None,
        Some(path) => {
            let path = Str::new(path.as_str());
            match table {
                WatchTable::Data => Some(Watch::Data(path)),
                WatchTable::Child => Some(Watch::Child(path)),
            }
        }
    }
}

/// The watch that a read leaves, if it asks for one and its answer has this error: a read leaves one on a node that it
/// has shown, and an exists also where it found no node. Allocates nothing.
pub fn watch_of<'a>(request: &Request<'a>, error: i32) -> Option<Watch<'a>>
    ensures { result ≡ watch_of request.now error }
{
    let row = read_row(request.kind);
    let Some(table) = row.watch else {
        return None;
    };
    if error == OK || (row.watches_missing && error == NO_NODE) {
        return asked_watch(table, request);
    }
    None
}

// The mode that has this number.
fn mode_of(number: i32) -> Option<WatchMode>
    ensures { result ≡ mode_of_number number }
{
    match number {
        PERSISTENT => Some(WatchMode::Persistent),
        RECURSIVE => Some(WatchMode::Recursive),
        _ => None,
    }
}

// The watch of an addWatch in this dialect.
fn lasting_watch<'a>(rules: Dialect, path: Str<'a>, mode: WatchMode) -> Watch<'a>
    ensures { result ≡ lasting_watch rules path.entry mode }
{
    if rules.reads().later_requests {
        Watch::Lasting(path, mode)
    } else {
        Watch::LastingAlone(path, mode)
    }
}

/// The watch that an addWatch asks for in this dialect; None if its path may not be watched, or if no mode has its
/// number. The node may be missing. Allocates nothing.
pub fn watch_to_add<'a>(asked: &AddWatch<'a>, rules: Dialect) -> Option<Watch<'a>>
    ensures { result ≡ watch_to_add rules asked.now }
{
    let Some(path) = &asked.path else {
        return None;
    };
    let path = path.as_str();
    if !rules.reads().later_requests && !is_readable_path(path.as_bytes()) {
        return None;
    }
    let mode = mode_of(asked.mode)?;
    Some(lasting_watch(rules, Str::new(path), mode))
}

/// The reply to an addWatch that was done: later clients are told the error again in its body. Fails only if an
/// allocation is refused.
pub fn look_of_added(alloc: Global, rules: Dialect) -> Result<Look, NoMemory>
    ensures { IfOk result (λ look. look ≡ look_of_added rules) }
{
    if !rules.reads().later_requests {
        return Look::without_body(alloc, OK);
    }
    let body = Body::of(alloc, &ErrorResponse { err: OK })?;
    Ok(Look { error: OK, body })
}

// The kind that has this number.
fn kind_of(number: i32) -> Option<WatchKind>
    ensures { result ≡ kind_of_number number }
{
    match number {
        1 => Some(WatchKind::Child),
        2 => Some(WatchKind::Data),
        3 => Some(WatchKind::Any),
        4 => Some(WatchKind::Persistent),
        5 => Some(WatchKind::Recursive),
        _ => return None,
    }
}

/// The watch that a checkWatches or a removeWatches names; None if its path is null, or if no kind has its number.
/// Allocates nothing.
pub fn watch_sought<'a>(asked: &PathAndKind<'a>) -> Option<SoughtWatch<'a>>
    ensures { result ≡ watch_sought asked.now }
{
    let Some(path) = &asked.path else {
        return None;
    };
    let path = Str::new(path.as_str());
    let kind = kind_of(asked.kind)?;
    Some(SoughtWatch { path, kind })
}
