//! The events that clients are told.

ghost use Rattle.std.specs.Prelude.{◌≡◌};
ghost use Rattle.watch_manager.specs.Events.{event_number};

use values::Text;

/// The kind of a change at a watched path.
#[derive(Clone, Copy)]
pub enum EventKind {
    /// The node was created.
    NodeCreated,
    /// The node was deleted.
    NodeDeleted,
    /// The node's data was replaced.
    NodeDataChanged,
    /// The node gained or lost a child.
    NodeChildrenChanged,
}

impl EventKind {
    /// The type in a WatcherEvent, from 1 to 4.
    pub fn number(self) -> i32
        ensures { result ≡ event_number self }
    {
        match self {
            EventKind::NodeCreated => 1,
            EventKind::NodeDeleted => 2,
            EventKind::NodeDataChanged => 3,
            EventKind::NodeChildrenChanged => 4,
        }
    }
}

/// The kind of a change, and its path.
#[derive(Drop)]
pub struct Event {
    pub kind: EventKind,
    pub path: Text,
}
