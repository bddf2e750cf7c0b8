//! The watches of all connections.

ghost use Rattle.std.specs.Prelude.{◌≡◌, ◌↔◌, OnOk, OnErr, IfOk, IsTrue};
ghost use Rattle.std.specs.FinSet as set;
ghost use Rattle.watch_manager.specs.Watching.{no_watch, with_lasting_watch, without_watches_of};
ghost use Rattle.watch_manager.specs.Kinds.{has_watch, without_watch};
ghost use Rattle.watch_manager.specs.Watches.{fire, watches_after};
ghost use Rattle.watch_manager.specs.Counts.{watch_count, watch_count_of, counts_of};
ghost use Rattle.watch_manager.specs.Summary.{summary};

use crate::counts::WatchCounts;
use crate::event::Event;
use crate::kind::WatchKind;
use crate::lasting::LastingTable;
use crate::left::UnusedWatches;
use crate::mode::WatchMode;
use crate::summary::{add_table, in_order};
use crate::table::WatchTable;
use crate::telling::tell;
use crate::watched::{Table, Watched};
use data_tree::Trigger;
use pairs::HashKey;
use std::alloc::Global;
use std::collections::BTreeSet;
use std::marker::Model;
use values::NoMemory;

/// The watches of all connections. A data or child watch is set at most once, and is removed when it fires or when its
/// connection closes. A lasting watch is removed when its connection closes. Any watch can be removed by its kind.
pub struct Watches {
    // The data watches.
    data_watches: WatchTable,
    child: WatchTable,
    lasting: LastingTable,
}

impl Model for Watches {
    ghost use Rattle.watch_manager.specs.Watching.{WatchTables, watch_tables_code};

    ghost Value = { WatchTables };

    ghost coded = { watch_tables_code };

    ghost view = { λ w. record { data_watches = w.data_watches; child = w.child; lasting = w.lasting } };
}

impl Drop for Watches {
    fn drop(self) {
        let Watches {
            data_watches,
            child,
            lasting,
        } = self;
        drop(data_watches);
        drop(child);
        drop(lasting);
    }
}

impl Watches {
    /// No watch, and the default key of the hash. Allocates nothing.
    pub fn new(alloc: Global) -> Watches
        ensures { result ≡ no_watch }
    {
        Watches::keyed(alloc, HashKey::default())
    }

    /// No watch, and this key of the hash by which paths are found. Allocates nothing.
    pub fn keyed(alloc: Global, key: HashKey) -> Watches
        ensures { result ≡ no_watch }
    {
        Watches {
            data_watches: WatchTable::keyed(alloc, key),
            child: WatchTable::keyed(alloc, key),
            lasting: LastingTable::keyed(alloc, key),
        }
    }

    /// Whether there is no watch.
    pub fn is_empty(&self) -> bool
        ensures { IsTrue result ↔ (self.now ≡ no_watch) }
    {
        self.data_watches.is_empty()
            && self.child.is_empty()
            && self.lasting.persistent().is_empty()
            && self.lasting.recursive().is_empty()
    }

    /// Sets a data watch; it may be set already. Any text may be watched, even if it isn't a path. A refused allocation
    /// changes nothing.
    pub fn set_data(&mut self, alloc: Global, connection: u64, path: &str) -> Result<(), NoMemory>
        ensures ok { OnOk result
            (self.new ≡ record self.old { data_watches = set.insert self.old.data_watches (path.now, connection) }) }
        ensures err { OnErr result (self.new ≡ self.old) }
    {
        self.data_watches.set(alloc, connection, path)
    }

    /// Sets a child watch; it may be set already. Any text may be watched, even if it isn't a path. A refused
    /// allocation changes nothing.
    pub fn set_child(&mut self, alloc: Global, connection: u64, path: &str) -> Result<(), NoMemory>
        ensures ok { OnOk result
            (self.new ≡ record self.old { child = set.insert self.old.child (path.now, connection) }) }
        ensures err { OnErr result (self.new ≡ self.old) }
    {
        self.child.set(alloc, connection, path)
    }

    /// Sets a lasting watch; it may be set already, and one of the other mode stays. Any text may be watched, even if it
    /// isn't a path. A refused allocation changes nothing.
    pub fn set_lasting(
        &mut self,
        alloc: Global,
        connection: u64,
        path: &str,
        mode: WatchMode,
    ) -> Result<(), NoMemory>
        ensures ok { OnOk result
            (self.new ≡ with_lasting_watch connection path.now mode self.old) }
        ensures err { OnErr result (self.new ≡ self.old) }
    {
        self.lasting.set(alloc, connection, path, mode)
    }

    /// Whether the connection has a watch of this kind on the path.
    pub fn has_watch(&self, connection: u64, path: &str, kind: WatchKind) -> bool
        ensures { result ≡ has_watch kind connection path.now self.now }
    {
        let child = self.child.contains(connection, path);
        let data = self.data_watches.contains(connection, path);
        let persistent = self.lasting.persistent().contains(connection, path);
        let recursive = self.lasting.recursive().contains(connection, path);
        match kind {
            WatchKind::Child => child,
            WatchKind::Data => data,
            WatchKind::Persistent => persistent,
            WatchKind::Recursive => recursive,
            WatchKind::Any => child || data || persistent || recursive,
        }
    }

    /// Removes the connection's watch of this kind on the path, if it has one; all others stay. Allocates nothing.
    pub fn remove_watch(&mut self, connection: u64, path: &str, kind: WatchKind)
        ensures { self.new ≡ without_watch kind connection path.now self.old }
    {
        let (persistent, recursive) = (WatchMode::Persistent, WatchMode::Recursive);
        match kind {
            WatchKind::Child => self.child.remove(connection, path),
            WatchKind::Data => self.data_watches.remove(connection, path),
            WatchKind::Persistent => self.lasting.remove(connection, path, persistent),
            WatchKind::Recursive => self.lasting.remove(connection, path, recursive),
            WatchKind::Any => {
                self.child.remove(connection, path);
                self.data_watches.remove(connection, path);
                self.lasting.remove(connection, path, persistent);
                self.lasting.remove(connection, path, recursive);
            }
        }
    }

    /// Drops all watches of a connection. Allocates nothing.
    pub fn drop_conn(&mut self, connection: u64)
        ensures { self.new ≡ without_watches_of connection self.old }
    {
        self.data_watches.drop_conn(connection);
        self.child.drop_conn(connection);
        self.lasting.drop_conn(connection);
    }

    /// The number of watches.
    pub fn count(&self) -> u128
        ensures { result ≡ watch_count self.now }
    {
        let lasting = &self.lasting;
        self.data_watches.count() as u128
            + self.child.count() as u128
            + lasting.persistent().count() as u128
            + lasting.recursive().count() as u128
    }

    /// The number of watches of a connection.
    pub fn count_of(&self, connection: u64) -> u128
        ensures { result ≡ watch_count_of connection self.now }
    {
        let lasting = &self.lasting;
        self.data_watches.count_of(connection) as u128
            + self.child.count_of(connection) as u128
            + lasting.persistent().count_of(connection) as u128
            + lasting.recursive().count_of(connection) as u128
    }

    /// The number of watches, of watched paths, and of connections that watch something. Takes time linear in the number
    /// of paths and connections of the child and lasting watches, whatever the number of data watches: each is looked
    /// up in the other tables. Allocates nothing.
    pub fn counts(&self) -> WatchCounts
        ensures { result ≡ counts_of self.now }
    {
        let (data_watches, child) = (&self.data_watches, &self.child);
        let (persistent, recursive) = (self.lasting.persistent(), self.lasting.recursive());
        WatchCounts {
            connections: data_watches.connections() as u128
                + child.connections_beyond(data_watches, data_watches, data_watches) as u128
                + persistent.connections_beyond(data_watches, child, child) as u128
                + recursive.connections_beyond(data_watches, child, persistent) as u128,
            paths: data_watches.paths() as u128
                + child.paths_beyond(data_watches, data_watches, data_watches) as u128
                + persistent.paths_beyond(data_watches, child, child) as u128
                + recursive.paths_beyond(data_watches, child, persistent) as u128,
            watches: self.count(),
        }
    }

    /// All watches in ascending order of path, then of connection, with a data watch before a child watch, and that
    /// before a lasting watch. The paths are borrowed and not copied. Fails only if an allocation is refused.
    pub fn summary(&self, alloc: Global) -> Result<Vec<Watched<'_>>, NoMemory>
        ensures { IfOk result (λ rows. rows.items ≡ summary self.now) }
    {
        let mut rows = BTreeSet::new(alloc);
        add_table(&mut rows, &self.data_watches, Table::Own)?;
        add_table(&mut rows, &self.child, Table::Child)?;
        add_table(&mut rows, self.lasting.persistent(), Table::Lasting)?;
        add_table(&mut rows, self.lasting.recursive(), Table::Lasting)?;
        in_order(alloc, rows)
    }

    // The events of the triggers, in order.
    fn tell_all(&self, alloc: Global, triggers: &[Trigger]) -> Result<Vec<(u64, Event)>, NoMemory>
        ensures { IfOk result
            (λ events. events.items ≡ (fire self.now triggers.now).events) }
    {
        let mut data_watches = UnusedWatches::new(alloc, &self.data_watches);
        let mut child = UnusedWatches::new(alloc, &self.child);
        let mut events = Vec::new(alloc);
        for trigger in triggers {
            tell(
                &mut events,
                alloc,
                trigger,
                &mut data_watches,
                &mut child,
                &self.lasting,
            )?;
        }
        Ok(events)
    }

    // Uses up the data and child watches on which a trigger fires.
    fn use_up(&mut self, trigger: &Trigger)
        ensures { self.new ≡ watches_after self.old trigger.now }
    {
        match trigger {
            Trigger::Created(path) => self.data_watches.use_up(path.as_str()),
            Trigger::DataChanged(path) => self.data_watches.use_up(path.as_str()),
            Trigger::ChildrenChanged(path) => self.child.use_up(path.as_str()),
            Trigger::Deleted(path) => {
                self.data_watches.use_up(path.as_str());
                self.child.use_up(path.as_str());
            }
        }
    }

    // Uses up the data and child watches on which the triggers fire.
    fn use_up_all(&mut self, triggers: &[Trigger])
        ensures { self.new ≡ (fire self.old triggers.now).left }
    {
        for trigger in triggers {
            self.use_up(trigger);
        }
    }

    /// Fires the triggers in order: returns each event with its connection, and uses up the watches. All events are
    /// made before the first watch is removed, so a refused allocation changes nothing.
    pub fn fire(
        &mut self,
        alloc: Global,
        triggers: &[Trigger],
    ) -> Result<Vec<(u64, Event)>, NoMemory>
        ensures events { IfOk result
            (λ events. events.items ≡ (fire self.old triggers.now).events) }
        ensures left { OnOk result (self.new ≡ (fire self.old triggers.now).left) }
        ensures err { OnErr result (self.new ≡ self.old) }
    {
        if self.is_empty() {
            return Ok(Vec::new(alloc));
        }
        let events = self.tell_all(alloc, triggers)?;
        // Without an event no watch is used up.
        if events.is_empty() {
            return Ok(events);
        }
        self.use_up_all(triggers);
        Ok(events)
    }
}
