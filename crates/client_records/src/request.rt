//! The requests of a client, after the header of the frame.

ghost use Rattle.client_records.specs.Requests.{path_and_watch, path_alone, set_watches, set_watches2, path_and_kind, add_watch, auth_packet, sasl_request};

use crate::fields::{Name, buffer_len, put_buffer, put_list, put_text, read_list, text_len};
use jute::{ReadRecord, Reader, WriteRecord, items_len, put_bool};
use std::alloc::Global;
use values::{Bytes, Listed, NoMemory, ReadError, Str};

/// The ExistsRequest, GetDataRequest, GetChildrenRequest and GetChildren2Request of zookeeper.jute, which have the same
/// fields.
#[derive(Drop, PartialEq)]
pub struct PathAndWatch<'a> {
    /// The path of the node; `None` is null.
    pub path: Option<Str<'a>>,
    /// Whether to leave a watch at the path.
    pub watch: bool,
}

impl<'a> ReadRecord<'a> for PathAndWatch<'a> {
    ghost read_of = { path_and_watch.read };

    #[tactic(auto, unfolding(crate::specs::Requests::path_and_watch))]
    fn read(_alloc: Global, reader: &mut Reader<'a>) -> Result<PathAndWatch<'a>, ReadError> {
        let mut ahead = reader.ahead();
        let path = ahead.read_string()?.map(Str::new);
        let watch = ahead.read_bool()?;
        *reader = ahead;
        Ok(PathAndWatch { path, watch })
    }
}

impl<'a> WriteRecord for PathAndWatch<'a> {
    ghost format = { path_and_watch };

    #[tactic(auto, unfolding(crate::specs::Requests::path_and_watch))]
    fn written_len(&self) -> usize {
        text_len(&self.path) + 1
    }

    #[tactic(auto, unfolding(crate::specs::Requests::path_and_watch))]
    fn write(&self, out: &mut Vec<u8>) -> Result<(), NoMemory> {
        put_text(out, &self.path)?;
        put_bool(out, self.watch)
    }
}

/// The GetACLRequest of zookeeper.jute: the request of a read that leaves no watch.
#[derive(Drop, PartialEq)]
pub struct PathAlone<'a> {
    /// The path of the node; `None` is null.
    pub path: Option<Str<'a>>,
}

impl<'a> ReadRecord<'a> for PathAlone<'a> {
    ghost read_of = { path_alone.read };

    #[tactic(auto, unfolding(crate::specs::Requests::path_alone))]
    fn read(_alloc: Global, reader: &mut Reader<'a>) -> Result<PathAlone<'a>, ReadError> {
        let path = reader.read_string()?.map(Str::new);
        Ok(PathAlone { path })
    }
}

impl<'a> WriteRecord for PathAlone<'a> {
    ghost format = { path_alone };

    #[tactic(auto, unfolding(crate::specs::Requests::path_alone))]
    fn written_len(&self) -> usize {
        text_len(&self.path)
    }

    #[tactic(auto, unfolding(crate::specs::Requests::path_alone))]
    fn write(&self, out: &mut Vec<u8>) -> Result<(), NoMemory> {
        put_text(out, &self.path)
    }
}

/// The SetWatches of zookeeper.jute: the watches of a client on an older connection. Null lists and null paths are read
/// as empty.
#[derive(Drop, PartialEq)]
pub struct SetWatches<'a> {
    /// The last zxid that the client has seen.
    pub relative_zxid: i64,
    /// Paths whose nodes the client has read.
    pub data_watches: Listed<Name<'a>>,
    /// Paths where it found no node.
    pub exist_watches: Listed<Name<'a>>,
    /// Paths whose children it has listed.
    pub child_watches: Listed<Name<'a>>,
}

impl<'a> ReadRecord<'a> for SetWatches<'a> {
    ghost read_of = { set_watches.read };

    #[tactic(auto, unfolding(crate::specs::Requests::set_watches))]
    fn read(alloc: Global, reader: &mut Reader<'a>) -> Result<SetWatches<'a>, ReadError> {
        let mut ahead = reader.ahead();
        let relative_zxid = ahead.read_long()?;
        let data_watches = read_list(alloc, &mut ahead)?;
        let exist_watches = read_list(alloc, &mut ahead)?;
        let child_watches = read_list(alloc, &mut ahead)?;
        *reader = ahead;
        Ok(SetWatches {
            relative_zxid,
            data_watches,
            exist_watches,
            child_watches,
        })
    }
}

impl<'a> WriteRecord for SetWatches<'a> {
    ghost format = { set_watches };

    #[tactic(auto, unfolding(crate::specs::Requests::set_watches, jute::specs::Format::number_bytes))]
    fn written_len(&self) -> usize {
        20 + items_len(self.data_watches.as_slice())
            + items_len(self.exist_watches.as_slice())
            + items_len(self.child_watches.as_slice())
    }

    #[tactic(auto, unfolding(crate::specs::Requests::set_watches), using(values::proofs::Gaining::puts_behind, values::proofs::Gaining::gains_behind, values::proofs::Gaining::gains_first))]
    fn write(&self, out: &mut Vec<u8>) -> Result<(), NoMemory> {
        self.relative_zxid.write(out)?;
        put_list(out, self.data_watches.as_slice())?;
        put_list(out, self.exist_watches.as_slice())?;
        put_list(out, self.child_watches.as_slice())
    }
}

/// The SetWatches2 of zookeeper.jute since ZooKeeper 3.6: a SetWatches, and the watches that aren't used up.
#[derive(Drop, PartialEq)]
pub struct SetWatches2<'a> {
    /// The last zxid that the client has seen, and its watches that are used up.
    pub older: SetWatches<'a>,
    /// Paths of its persistent watches.
    pub persistent_watches: Listed<Name<'a>>,
    /// Paths of its recursive watches.
    pub recursive_watches: Listed<Name<'a>>,
}

impl<'a> ReadRecord<'a> for SetWatches2<'a> {
    ghost read_of = { set_watches2.read };

    #[tactic(auto, unfolding(crate::specs::Requests::set_watches2))]
    fn read(alloc: Global, reader: &mut Reader<'a>) -> Result<SetWatches2<'a>, ReadError> {
        let mut ahead = reader.ahead();
        let older = SetWatches::read(alloc, &mut ahead)?;
        let persistent_watches = read_list(alloc, &mut ahead)?;
        let recursive_watches = read_list(alloc, &mut ahead)?;
        *reader = ahead;
        Ok(SetWatches2 {
            older,
            persistent_watches,
            recursive_watches,
        })
    }
}

impl<'a> WriteRecord for SetWatches2<'a> {
    ghost format = { set_watches2 };

    #[tactic(auto, unfolding(crate::specs::Requests::set_watches2, jute::specs::Format::number_bytes))]
    fn written_len(&self) -> usize {
        8 + self.older.written_len()
            + items_len(self.persistent_watches.as_slice())
            + items_len(self.recursive_watches.as_slice())
    }

    #[tactic(auto, unfolding(crate::specs::Requests::set_watches2), using(values::proofs::Gaining::puts_behind, values::proofs::Gaining::gains_behind, values::proofs::Gaining::gains_first))]
    fn write(&self, out: &mut Vec<u8>) -> Result<(), NoMemory> {
        self.older.write(out)?;
        put_list(out, self.persistent_watches.as_slice())?;
        put_list(out, self.recursive_watches.as_slice())
    }
}

/// The CheckWatchesRequest and the RemoveWatchesRequest of zookeeper.jute since ZooKeeper 3.5, which have the same
/// fields.
#[derive(Drop, PartialEq)]
pub struct PathAndKind<'a> {
    /// The path of the watch; `None` is null.
    pub path: Option<Str<'a>>,
    /// The kind of the watch: 1 of children, 2 of data, 3 any, 4 persistent, 5 recursive.
    pub kind: i32,
}

impl<'a> ReadRecord<'a> for PathAndKind<'a> {
    ghost read_of = { path_and_kind.read };

    #[tactic(auto, unfolding(crate::specs::Requests::path_and_kind))]
    fn read(_alloc: Global, reader: &mut Reader<'a>) -> Result<PathAndKind<'a>, ReadError> {
        let mut ahead = reader.ahead();
        let path = ahead.read_string()?.map(Str::new);
        let kind = ahead.read_int()?;
        *reader = ahead;
        Ok(PathAndKind { path, kind })
    }
}

impl<'a> WriteRecord for PathAndKind<'a> {
    ghost format = { path_and_kind };

    #[tactic(auto, unfolding(crate::specs::Requests::path_and_kind, jute::specs::Format::number_bytes))]
    fn written_len(&self) -> usize {
        text_len(&self.path) + 4
    }

    #[tactic(auto, unfolding(crate::specs::Requests::path_and_kind))]
    fn write(&self, out: &mut Vec<u8>) -> Result<(), NoMemory> {
        put_text(out, &self.path)?;
        self.kind.write(out)
    }
}

/// The AddWatchRequest of zookeeper.jute since ZooKeeper 3.6: a watch that isn't used up.
#[derive(Drop, PartialEq)]
pub struct AddWatch<'a> {
    /// The path to watch; `None` is null.
    pub path: Option<Str<'a>>,
    /// Which changes to tell, [`PERSISTENT`](crate::codes::PERSISTENT) or [`RECURSIVE`](crate::codes::RECURSIVE).
    pub mode: i32,
}

impl<'a> ReadRecord<'a> for AddWatch<'a> {
    ghost read_of = { add_watch.read };

    #[tactic(auto, unfolding(crate::specs::Requests::add_watch))]
    fn read(_alloc: Global, reader: &mut Reader<'a>) -> Result<AddWatch<'a>, ReadError> {
        let mut ahead = reader.ahead();
        let path = ahead.read_string()?.map(Str::new);
        let mode = ahead.read_int()?;
        *reader = ahead;
        Ok(AddWatch { path, mode })
    }
}

impl<'a> WriteRecord for AddWatch<'a> {
    ghost format = { add_watch };

    #[tactic(auto, unfolding(crate::specs::Requests::add_watch, jute::specs::Format::number_bytes))]
    fn written_len(&self) -> usize {
        text_len(&self.path) + 4
    }

    #[tactic(auto, unfolding(crate::specs::Requests::add_watch))]
    fn write(&self, out: &mut Vec<u8>) -> Result<(), NoMemory> {
        put_text(out, &self.path)?;
        self.mode.write(out)
    }
}

/// The AuthPacket of zookeeper.jute: an id that the client adds to its connection.
#[derive(Drop, PartialEq)]
pub struct AuthPacket<'a> {
    /// A number that isn't used, 0.
    pub kind: i32,
    /// The scheme, such as `digest`; `None` is null.
    pub scheme: Option<Str<'a>>,
    /// The data of the scheme, in `digest` a user and a password; `None` is null.
    pub auth: Option<Bytes<'a>>,
}

impl<'a> ReadRecord<'a> for AuthPacket<'a> {
    ghost read_of = { auth_packet.read };

    #[tactic(auto, unfolding(crate::specs::Requests::auth_packet))]
    fn read(_alloc: Global, reader: &mut Reader<'a>) -> Result<AuthPacket<'a>, ReadError> {
        let mut ahead = reader.ahead();
        let kind = ahead.read_int()?;
        let scheme = ahead.read_string()?.map(Str::new);
        let auth = ahead.read_buffer()?.map(Bytes::new);
        *reader = ahead;
        Ok(AuthPacket { kind, scheme, auth })
    }
}

impl<'a> WriteRecord for AuthPacket<'a> {
    ghost format = { auth_packet };

    #[tactic(auto, unfolding(crate::specs::Requests::auth_packet, jute::specs::Format::number_bytes))]
    fn written_len(&self) -> usize {
        4 + text_len(&self.scheme) + buffer_len(&self.auth)
    }

    #[tactic(auto, unfolding(crate::specs::Requests::auth_packet))]
    fn write(&self, out: &mut Vec<u8>) -> Result<(), NoMemory> {
        self.kind.write(out)?;
        put_text(out, &self.scheme)?;
        put_buffer(out, &self.auth)
    }
}

/// The GetSASLRequest of zookeeper.jute.
#[derive(Drop, PartialEq)]
pub struct SaslRequest<'a> {
    /// The token of the mechanism; `None` is null.
    pub token: Option<Bytes<'a>>,
}

impl<'a> ReadRecord<'a> for SaslRequest<'a> {
    ghost read_of = { sasl_request.read };

    #[tactic(auto, unfolding(crate::specs::Requests::sasl_request))]
    fn read(_alloc: Global, reader: &mut Reader<'a>) -> Result<SaslRequest<'a>, ReadError> {
        let token = reader.read_buffer()?.map(Bytes::new);
        Ok(SaslRequest { token })
    }
}

impl<'a> WriteRecord for SaslRequest<'a> {
    ghost format = { sasl_request };

    #[tactic(auto, unfolding(crate::specs::Requests::sasl_request))]
    fn written_len(&self) -> usize {
        buffer_len(&self.token)
    }

    #[tactic(auto, unfolding(crate::specs::Requests::sasl_request))]
    fn write(&self, out: &mut Vec<u8>) -> Result<(), NoMemory> {
        put_buffer(out, &self.token)
    }
}
