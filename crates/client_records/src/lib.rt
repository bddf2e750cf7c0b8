//! The records of a client's frames (zookeeper.jute of ZooKeeper 3.4, and what the requests of later clients need of
//! later releases), which follow the headers of `jute`.
//!
//! Requests are read, and borrow their texts and data from the frame; responses and events are written from the tree.
//! `specs/Requests.antt` and `specs/Responses.antt` define each record's format by jute's combinators, and
//! `law::records` says of each that reading and writing follow it. Children's names are a set, and `put_names` writes
//! them without a list in between.
//!
//! ```text
//! let request = PathAndWatch::read(alloc, &mut reader)?;    // exists, getData, getChildren, getChildren2
//! GetDataResponse { bytes, stat }.write(&mut out)?;
//! put_names(&mut out, &names)?;                              // the body of getChildren
//! ```
#![tactic(auto)]

mod boxed;
pub mod codes;
mod connect;
mod event;
mod fields;
mod kind;
pub mod law;
mod multi;
mod request;
mod response;

pub use boxed::Boxed;
pub use connect::{ConnectRequest, ConnectResponse};
pub use event::WatcherEvent;
pub use fields::{Name, put_list, put_names, read_list};
pub use kind::{ReadKind, RequestKind};
pub use multi::{MultiHeader, ReadPart, read_parts};
pub use request::{
    AddWatch, AuthPacket, PathAlone, PathAndKind, PathAndWatch, SaslRequest, SetWatches,
    SetWatches2,
};
pub use response::{
    Acls, ClientInfo, Create2Response, ErrorResponse, ExistsResponse, GetAclResponse,
    GetAllChildrenNumberResponse, GetChildren2Response, GetChildrenResponse, GetDataResponse,
    PathResponse, SaslResponse, WhoAmIResponse,
};
