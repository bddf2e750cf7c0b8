//! The notification of an event.

ghost use Rattle.client_records.specs.Responses.{watcher_event};

use crate::fields::{put_text, text_len};
use jute::{ReadRecord, Reader, WriteRecord};
use std::alloc::Global;
use values::{NoMemory, ReadError, Str};

/// The WatcherEvent of zookeeper.jute.
#[derive(Drop, PartialEq)]
pub struct WatcherEvent<'a> {
    /// The kind of the event: the node was created (1), deleted (2), its data changed (3), or its children changed (4).
    pub kind: i32,
    /// The state of the client, `SYNC_CONNECTED`.
    pub state: i32,
    /// The path of the watch; `None` is null.
    pub path: Option<Str<'a>>,
}

impl<'a> ReadRecord<'a> for WatcherEvent<'a> {
    ghost read_of = { watcher_event.read };

    #[tactic(auto, unfolding(crate::specs::Responses::watcher_event))]
    fn read(_alloc: Global, reader: &mut Reader<'a>) -> Result<WatcherEvent<'a>, ReadError> {
        let mut ahead = reader.ahead();
        let kind = ahead.read_int()?;
        let state = ahead.read_int()?;
        let path = ahead.read_string()?.map(Str::new);
        *reader = ahead;
        Ok(WatcherEvent { kind, state, path })
    }
}

impl<'a> WriteRecord for WatcherEvent<'a> {
    ghost format = { watcher_event };

    #[tactic(auto, unfolding(crate::specs::Responses::watcher_event, jute::specs::Format::number_bytes))]
    fn written_len(&self) -> usize {
        8 + text_len(&self.path)
    }

    #[tactic(auto, unfolding(crate::specs::Responses::watcher_event))]
    fn write(&self, out: &mut Vec<u8>) -> Result<(), NoMemory> {
        self.kind.write(out)?;
        self.state.write(out)?;
        put_text(out, &self.path)
    }
}
