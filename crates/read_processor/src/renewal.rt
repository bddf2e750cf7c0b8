//! The watches of a client that reconnects: the events that it missed, and the watches to set again.

ghost use Rattle.std.specs.Prelude.{◌≡◌, ◌++◌, ◌∷◌, [], OnOk, IfOk};
ghost use Rattle.std.specs.List.{filter_map, list_all};
ghost use Rattle.std.specs.Option.{option_copied};
ghost use Rattle.read_processor.specs.Look.{is_request_path};
ghost use Rattle.read_processor.specs.Renewal.{missed_kind, watch_at, event_at, kept_watch_at, are_request_paths, renewal_of, renew_watches, lasting_watches, renew_all_watches};

use crate::reads::is_readable_path;
use crate::watch::Watch;
use client_records::{Name, SetWatches, SetWatches2};
use data_tree::{Node, Tree};
use settings::Dialect;
use std::alloc::Global;
use values::{Listed, NoMemory, Str, Text};
use watch_manager::{Event, EventKind, WatchMode};

/// The answer to a SetWatches or a SetWatches2.
#[derive(Drop)]
pub struct Renewal<'a> {
    /// The events that the client missed, in the order of its lists.
    pub events: Listed<Event>,
    /// The watches to set again, in the order of its lists.
    pub watches: Listed<Watch<'a>>,
}

/// The lists of a SetWatches.
#[derive(Clone, Copy)]
pub enum WatchList {
    /// Paths whose nodes the client has read.
    Data,
    /// Paths where it found no node.
    Exist,
    /// Paths whose children it has listed.
    Child,
}

// The event that the client has missed since the zxid at a path of the list, judged by the node there. The zxid is
// borrowed, since a number passed by value comes back as its bits.
fn kind_missed(list: WatchList, since: &i64, node: Option<&Node>) -> Option<EventKind>
    ensures { result ≡ missed_kind list since.now (option_copied node.entry) }
{
    match (list, node) {
        (WatchList::Data, Some(node)) if node.stat.mzxid > *since => {
            Some(EventKind::NodeDataChanged)
        }
        (WatchList::Child, Some(node)) if node.stat.pzxid > *since => {
            Some(EventKind::NodeChildrenChanged)
        }
        (WatchList::Data | WatchList::Child, None) => Some(EventKind::NodeDeleted),
        (WatchList::Exist, Some(_)) => Some(EventKind::NodeCreated),
        _ => None,
    }
}

fn watch_at<'a>(list: WatchList, path: &Name<'a>) -> Watch<'a>
    ensures { result ≡ watch_at list path.now }
{
    let path = Str::new(path.as_str());
    match list {
        WatchList::Data | WatchList::Exist => Watch::Data(path),
        WatchList::Child => Watch::Child(path),
    }
}

// The events and watches found so far.
#[derive(Drop)]
struct Found<'a> {
    events: Vec<Event>,
    watches: Vec<Watch<'a>>,
}

impl<'a> Found<'a> {
    // Adds the event that was missed at a path, or else its watch.
    fn add(
        &mut self,
        alloc: Global,
        tree: &Tree,
        since: &i64,
        list: WatchList,
        path: &Name<'a>,
    ) -> Result<(), NoMemory>
        ensures events { OnOk result (self.new.events.items ≡
            self.old.events.items
            ++ filter_map (event_at tree.now since.now list) (path.now ∷ [])) }
        ensures watches { OnOk result (self.new.watches.items ≡
            self.old.watches.items
            ++ filter_map (kept_watch_at tree.now since.now list) (path.now ∷ [])) }
    {
        match kind_missed(list, since, tree.node(path.as_str())) {
            None => self.watches.push(watch_at(list, path))?,
            Some(kind) => {
                let path = Text::new(alloc, path.as_str())?;
                self.events.push(Event { kind, path })?;
            }
        }
        Ok(())
    }

    // Adds the events and watches of one list.
    fn add_all(
        &mut self,
        alloc: Global,
        tree: &Tree,
        since: &i64,
        list: WatchList,
        paths: &[Name<'a>],
    ) -> Result<(), NoMemory>
        ensures events { OnOk result (self.new.events.items ≡
            self.old.events.items ++ filter_map (event_at tree.now since.now list) paths.now) }
        ensures watches { OnOk result (self.new.watches.items ≡
            self.old.watches.items ++ filter_map (kept_watch_at tree.now since.now list) paths.now) }
    {
        for path in paths {
            self.add(alloc, tree, since, list, path)?;
        }
        Ok(())
    }
}

// Adds the lasting watches of one list.
fn add_lasting<'a>(
    watches: &mut Vec<Watch<'a>>,
    mode: WatchMode,
    paths: &[Name<'a>],
) -> Result<(), NoMemory>
    ensures { OnOk result (watches.new.items ≡ watches.old.items ++ lasting_watches mode paths.now) }
{
    for path in paths {
        watches.push(Watch::Lasting(Str::new(path.as_str()), mode))?;
    }
    Ok(())
}

// The events and watches of a SetWatches, whatever its paths are.
fn find_missed<'a>(
    alloc: Global,
    tree: &Tree,
    asked: &SetWatches<'a>,
) -> Result<Found<'a>, NoMemory>
    ensures events { IfOk result (λ found. found.events.items ≡ (renewal_of tree.now asked.now).events) }
    ensures watches { IfOk result (λ found. found.watches.items ≡ (renewal_of tree.now asked.now).watches) }
{
    let since = &asked.relative_zxid;
    let mut found = Found {
        events: Vec::new(alloc),
        watches: Vec::new(alloc),
    };
    let (data, exist) = (
        asked.data_watches.as_slice(),
        asked.exist_watches.as_slice(),
    );
    found.add_all(alloc, tree, since, WatchList::Data, data)?;
    found.add_all(alloc, tree, since, WatchList::Exist, exist)?;
    let child = asked.child_watches.as_slice();
    found.add_all(alloc, tree, since, WatchList::Child, child)?;
    Ok(found)
}

// Whether all the paths may be read.
fn all_asked(paths: &[Name<'_>]) -> bool
    ensures { result ≡ list_all is_request_path paths.now }
{
    paths
        .iter()
        .all(|path| is_readable_path(path.as_str().as_bytes()))
}

// Whether the paths of all lists may be read.
fn are_asked(asked: &SetWatches<'_>) -> bool
    ensures { result ≡ are_request_paths asked.now }
{
    all_asked(asked.data_watches.as_slice())
        && all_asked(asked.exist_watches.as_slice())
        && all_asked(asked.child_watches.as_slice())
}

/// The events that a reconnected client missed, and the watches to set for it; `None` if a path of its lists may not be
/// watched in this dialect, for example one that doesn't begin with a slash. Fails with `NoMemory` if an allocation is
/// refused.
pub fn renew<'a>(
    alloc: Global,
    tree: &Tree,
    asked: &SetWatches<'a>,
    rules: Dialect,
) -> Result<Option<Renewal<'a>>, NoMemory>
    ensures { IfOk result (λ renewal. renewal ≡ renew_watches rules tree.now asked.now) }
{
    if !rules.reads().later_requests && !are_asked(asked) {
        return Ok(None);
    }
    let found = find_missed(alloc, tree, asked)?;
    Ok(Some(Renewal {
        events: Listed::from_vec(found.events),
        watches: Listed::from_vec(found.watches),
    }))
}

/// The events that a reconnected client of a later release missed, and the watches to set for it, on whatever paths.
/// Fails with `NoMemory` if an allocation is refused.
pub fn renew_all<'a>(
    alloc: Global,
    tree: &Tree,
    asked: &SetWatches2<'a>,
) -> Result<Renewal<'a>, NoMemory>
    ensures { IfOk result (λ renewal. renewal ≡ renew_all_watches tree.now asked.now) }
{
    let found = find_missed(alloc, tree, &asked.older)?;
    let mut watches = found.watches;
    let persistent = asked.persistent_watches.as_slice();
    add_lasting(&mut watches, WatchMode::Persistent, persistent)?;
    let recursive = asked.recursive_watches.as_slice();
    add_lasting(&mut watches, WatchMode::Recursive, recursive)?;
    Ok(Renewal {
        events: Listed::from_vec(found.events),
        watches: Listed::from_vec(watches),
    })
}
