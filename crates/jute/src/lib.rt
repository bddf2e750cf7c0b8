//! The fields and records of Jute (zookeeper.jute of ZooKeeper 3.4), read from borrowed bytes and appended to a vector.
//!
//! A `Reader` is a place in bytes; a read moves it past what was read, and a refused read leaves it. A record is read
//! by `ReadRecord` and written by `WriteRecord`, which gives its length before it is written. One value defines the
//! bytes of a record: its format (`specs/Format.antt`, `specs/Records.antt`), built by combinators from the formats of
//! its fields. The law `law::formats` says once for each record that reading and writing follow its format, and which
//! field a refusal names.
//!
//! ```text
//! let mut reader = Reader::new(bytes);
//! let header = RequestHeader::read(alloc, &mut reader)?;     // the fault names the first field that isn't spelled
//! let path = reader.read_string()?;                           // borrowed from the bytes
//! ReplyHeader { xid: header.xid, zxid, err: codes::NO_NODE }.write(&mut out)?;
//! ```
#![tactic(auto)]

pub mod codes;
mod frame;
pub mod law;
mod message;
mod owned;
mod reader;
mod record;
mod stat;
mod text;
mod writer;

pub use frame::{put_frame, read_frame};
pub use message::{ReplyHeader, RequestHeader};
pub use owned::{Acl, Id, blob_len, put_blob, read_acls, read_blob};
pub use reader::{BUFFER_LIMIT, COUNT_LIMIT, Reader};
pub use record::{ReadRecord, read_name, read_name_in, read_vector};
pub use stat::{Stat, StatPersisted};
pub use text::{is_generalized_utf8, is_text};
pub use writer::{
    WriteRecord, items_len, put_bool, put_bytes, put_int, put_items, put_long, put_string,
    put_vector, vector_len,
};
