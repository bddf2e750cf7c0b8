//! The requests in the frames of a client.
//!
//! The first frame of a connection asks for a session: `read_connecting` reads it, and `answer_to_connect` makes the
//! frame of the answer. Each later frame is a call: a header, and the body of a request of the header's type.
//! `read_call` reads it, and tells what the leader has to do (a write, or a sync) from what this server answers from
//! what it has. A body that can't be read is told from a header of unknown type, since the two are answered
//! differently; which types are known depends on the dialect. specs/Connect and specs/Call define what is read.
//!
//! ```text
//! let connecting = read_connecting(alloc, frame)?;
//! let connected = sessions.connect(alloc, number, lives, &session_request_of(&connecting.request))?; // if the id lives
//! answer_to_connect(alloc, &connected.response, connecting.has_byte)?     // the answer's frame
//! let call = read_call(alloc, dialect, frame)?;                          // Call { xid: 1, body: CallBody::Local(..) }
//! ```
#![tactic(auto)]

mod call;
mod connecting;
mod law;

pub use call::{Call, CallBody, LocalCall, call_in, read_call};
pub use connecting::{Connecting, answer_to_connect, read_connecting, session_request_of};
pub use law::{forwarded_by_type, worked_calls};
