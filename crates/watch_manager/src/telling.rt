//! The events of a trigger, and the connections that get them.

ghost use Rattle.std.specs.Prelude.{◌≡◌, ◌++◌, OnOk};
ghost use Rattle.watch_manager.specs.Watches.{events_for, connections_not_told, events_of_trigger, watches_after};
ghost use Rattle.std.specs.FinSet as set;
ghost use Rattle.watch_manager.specs.Pairs.{sorted_connections, watchers_of, without_watches_on};
ghost use Rattle.watch_manager.specs.Lasting.{persistent_watchers, lasting_watchers};
ghost use Rattle.watch_manager.specs.Inner.Telling.{watch_tables, deleted_events};
ghost use Rattle.watch_manager.specs.declared.event.EventKind.TheVariants.{NodeChildrenChanged};

use crate::event::{Event, EventKind};
use crate::lasting::LastingTable;
use crate::left::UnusedWatches;
use data_tree::Trigger;
use pairs::NumberSet;
use std::alloc::Global;
use values::{NoMemory, Text};

// Adds an event for each of the connections.
fn tell_each(
    events: &mut Vec<(u64, Event)>,
    alloc: Global,
    kind: EventKind,
    path: &str,
    conns: &NumberSet,
) -> Result<(), NoMemory>
    ensures { OnOk result
        (events.new.items ≡ events.old.items ++ events_for kind path.now (sorted_connections conns.now)) }
{
    for connection in conns.iter() {
        let path = Text::new(alloc, path)?;
        events.push((*connection, Event { kind, path }))?;
    }
    Ok(())
}

// Whether the connection is in either set.
fn is_told(watchers: &NumberSet, lasting: &NumberSet, connection: u64) -> bool
    ensures { result ≡ set.contains (set.union watchers.now lasting.now) connection }
{
    watchers.contains(connection) || lasting.contains(connection)
}

// Adds an event for each of the connections except those that have one already: these watchers, and these with a
// lasting watch.
fn tell_others(
    events: &mut Vec<(u64, Event)>,
    alloc: Global,
    kind: EventKind,
    path: &str,
    watchers: &NumberSet,
    lasting: &NumberSet,
    conns: &NumberSet,
) -> Result<(), NoMemory>
    ensures { OnOk result (events.new.items ≡ events.old.items
        ++ events_for kind path.now (connections_not_told (set.union watchers.now lasting.now) conns.now)) }
{
    for connection in conns.iter() {
        if !is_told(watchers, lasting, *connection) {
            let path = Text::new(alloc, path)?;
            events.push((*connection, Event { kind, path }))?;
        }
    }
    Ok(())
}

// Adds one event for each of the watchers and of those with a lasting watch.
fn tell_part(
    events: &mut Vec<(u64, Event)>,
    alloc: Global,
    kind: EventKind,
    path: &str,
    watchers: &NumberSet,
    lasting: &NumberSet,
) -> Result<(), NoMemory>
    ensures { OnOk result (events.new.items ≡
        events.old.items ++ events_for kind path.now (sorted_connections (set.union watchers.now lasting.now))) }
{
    if lasting.is_empty() {
        return tell_each(events, alloc, kind, path, watchers);
    }
    let mut all = NumberSet::new(alloc);
    all.add_all(watchers)?;
    all.add_all(lasting)?;
    tell_each(events, alloc, kind, path, &all)
}

// Tells that the node was created or changed, and uses up its data watches.
fn tell_node(
    events: &mut Vec<(u64, Event)>,
    alloc: Global,
    kind: EventKind,
    path: &str,
    data_watches: &mut UnusedWatches<'_>,
    lasting: &LastingTable,
) -> Result<(), NoMemory>
    ensures events { OnOk result (events.new.items ≡ events.old.items ++ events_for kind path.now
        (sorted_connections (set.union (watchers_of path.now data_watches.old)
        (lasting_watchers path.now lasting.now)))) }
    ensures left { OnOk result (data_watches.new ≡ without_watches_on path.now data_watches.old) }
{
    let lasting = lasting.watchers(alloc, path)?;
    let watchers = data_watches.watchers(alloc, path)?;
    tell_part(events, alloc, kind, path, &watchers, &lasting)?;
    data_watches.use_up(alloc, path)
}

// Tells that the children of the node changed, and uses up its child watches.
fn tell_children(
    events: &mut Vec<(u64, Event)>,
    alloc: Global,
    path: &str,
    child: &mut UnusedWatches<'_>,
    lasting: &LastingTable,
) -> Result<(), NoMemory>
    ensures events { OnOk result (events.new.items ≡ events.old.items ++ events_for NodeChildrenChanged path.now
        (sorted_connections (set.union (watchers_of path.now child.old) (persistent_watchers path.now lasting.now)))) }
    ensures left { OnOk result (child.new ≡ without_watches_on path.now child.old) }
{
    let kind = EventKind::NodeChildrenChanged;
    let lasting = lasting.persistent_watchers(alloc, path)?;
    let watchers = child.watchers(alloc, path)?;
    tell_part(events, alloc, kind, path, &watchers, &lasting)?;
    child.use_up(alloc, path)
}

// Tells that the node was deleted, and uses up its watches.
fn tell_deleted(
    events: &mut Vec<(u64, Event)>,
    alloc: Global,
    path: &str,
    data_watches: &mut UnusedWatches<'_>,
    child: &mut UnusedWatches<'_>,
    lasting: &LastingTable,
) -> Result<(), NoMemory>
    ensures events { OnOk result (events.new.items ≡ events.old.items
        ++ deleted_events path.now (watch_tables data_watches.old child.old lasting.now)) }
    ensures data_watches { OnOk result (data_watches.new ≡ without_watches_on path.now data_watches.old) }
    ensures child { OnOk result (child.new ≡ without_watches_on path.now child.old) }
{
    let kind = EventKind::NodeDeleted;
    let lasting = lasting.watchers(alloc, path)?;
    let watchers = data_watches.watchers(alloc, path)?;
    let others = child.watchers(alloc, path)?;
    tell_part(events, alloc, kind, path, &watchers, &lasting)?;
    tell_others(events, alloc, kind, path, &watchers, &lasting, &others)?;
    data_watches.use_up(alloc, path)?;
    child.use_up(alloc, path)
}

/// Adds the events of a trigger, from the watches left in each table, and uses up these watches.
pub fn tell(
    events: &mut Vec<(u64, Event)>,
    alloc: Global,
    trigger: &Trigger,
    data_watches: &mut UnusedWatches<'_>,
    child: &mut UnusedWatches<'_>,
    lasting: &LastingTable,
) -> Result<(), NoMemory>
    ensures events { OnOk result (events.new.items ≡
        events.old.items ++ events_of_trigger (watch_tables data_watches.old child.old lasting.now) trigger.now) }
    ensures left { OnOk result (watch_tables data_watches.new child.new lasting.now ≡
        watches_after (watch_tables data_watches.old child.old lasting.now) trigger.now) }
{
    match trigger {
        Trigger::Created(path) => {
            let kind = EventKind::NodeCreated;
            tell_node(events, alloc, kind, path.as_str(), data_watches, lasting)
        }
        Trigger::DataChanged(path) => {
            let kind = EventKind::NodeDataChanged;
            tell_node(events, alloc, kind, path.as_str(), data_watches, lasting)
        }
        Trigger::ChildrenChanged(path) => {
            tell_children(events, alloc, path.as_str(), child, lasting)
        }
        Trigger::Deleted(path) => {
            tell_deleted(events, alloc, path.as_str(), data_watches, child, lasting)
        }
    }
}
