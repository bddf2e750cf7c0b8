//! A server's work for its clients: their bytes in, frames out, and requests for the leader.
//!
//! `world` has what the server knows, the outputs so far (a [`world::Stage`]), and the steps that send. What clients do
//! to it is defined by such steps.
//!
//! A frame of a client is a step (specs/Serve), answered at the present state, and touches the session of its
//! connection: the leader is told later whose clients were heard. The first frame of a connection asks for a session. A
//! new session is the leader's to create: it is asked, and the connect waits, and so do the frames after it, which are
//! held whole. A session that lives in the replica's tree is taken up at once; in the dialect of later ensembles, where
//! sessions move between servers, the leader is asked for each, and the connect waits likewise. The other frames read and leave watches,
//! add an id, set watches again, write, or ask for the end of the session; after that nothing more is taken of the
//! connection. The caller says whether clients are served; while they aren't, no client gets a session. A connection
//! that has asked for no session yet may begin with a four-letter word in place of a frame: it is answered, whether
//! clients are served or not, and closed. A client's bytes make a step of each frame that they complete.
//!
//! A write, the end of a session and a sync are forwarded to the leader, and wait; a later request of the connection is
//! held until they are answered, so that replies come in the order of the requests. `forwarding` knows what waits, and
//! the crate above answers it from the leader's stream, with what this crate sends and serves.
//!
//! A read may wait for its answer, as an [`AskedRead`], while other reads follow (specs/Runs). [`settle_reads`] looks
//! all of them up in one call of a closure, which may use several threads, and then leaves their watches and sends
//! their replies in order. The law [`runs_of_reads`] says that this is what answering each at once does.
//!
//! `client_frames` reads what a frame asks; `read_processor` makes the reply to a read and its frame; `sessions` knows
//! the session of each connection, `watch_manager` the watches, and `four_letter` the answers to words. This crate says
//! when each is called, and what is sent. The leader is followed above this crate.
//!
//! `client` cuts the bytes into frames, with `request` for what a frame asks, `joining`, `calls`, `reading` and
//! `session` for what is done about it, `settling` for reads that wait, and `word` for four-letter words. specs/Inner
//! has the contracts of their private functions; no public contract needs it.
//!
//! ```text
//! let mut stage = Stage::new(alloc, world);
//! open_client(alloc, 7, &address, &mut stage.world)?;                  // connection 7 is open
//! // clients are served, and reads wait in `asked`
//! take_client_bytes(alloc, &looker, true, true, 7, &mut stage, &mut asked, bytes)?;
//! settle_reads(alloc, &looker, &mut asked, &mut stage)?;               // appends Output::ToClient(7, reply)
//! ```
#![tactic(auto)]

mod asked;
mod calls;
mod client;
mod joining;
mod later_reads;
mod law;
mod reading;
mod request;
mod session;
mod settling;
mod word;

pub use asked::AskedRead;
pub use calls::answer_local;
pub use client::{CLIENT_FRAME_LIMIT, end_client, open_client, serve_call, take_client_bytes};
pub use joining::{answer_connect, refuse_connect};
pub use law::runs_of_reads;
pub use session::expire_session;
pub use settling::settle_reads;
