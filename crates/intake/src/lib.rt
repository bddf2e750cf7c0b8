//! Ports, by which threads share an engine.
//!
//! A thread that serves a connection has a [`Port`]: it sends [`Message`]s into an inbox and receives outputs from an
//! outbox, two rings of a fixed capacity, and never waits for another thread. One thread, the hub's, has a [`Desk`]:
//! the engine, and the other ends of all rings. A turn of the desk puts the outputs that it kept for want of room, and
//! then goes from port to port: it takes the messages that it saw, feeds them to the engine, and puts the outputs. Port
//! 0 is the leader's, which comes first, and port n is connection n.
//!
//! `TakesTurn` in specs/Desk defines a turn by the desk before and after it and the messages that it took (`fresh`). A
//! desk keeps no list of these messages, so its memory doesn't grow with them; a closed port leaves only its number,
//! which is never used again. The law [`desks_agree`] states the result of all turns: if a desk agrees with a list of
//! messages, then after a turn it agrees with that list and the turn's messages (specs/Agreement). A [`Hub`] is a desk
//! with that list; [`hubs_run`] says that the two agree whatever it did. [`ends_stay`] says that a port's end stays good
//! for [`Desk::left`] until the port is closed.
//!
//! A turn within a [`Budget`] takes all of the leader's messages, and those of clients until the budget is spent. The
//! ports that it doesn't come to are left for the next turn (`later`), and `ForgetsNone` says that none is lost on the
//! way.
//!
//! A client that doesn't read blocks only itself: outputs for which its outbox has no room are kept, in order, and
//! while more than 1 MiB is under way to it no message of its port is taken, until its inbox is full and its thread
//! stops reading. What is put is under way until the thread has written it, which it tells by [`Port::written`]. No
//! client's messages are taken while more than 64 KiB is under way to the leader, and none of a client that has
//! something to read while half of what may be under way to all ([`Limits`]) is.
//!
//! No contract says which ports may have sent something, how much is under way, or that a thread is woken: these are
//! hints between threads (`port_hints`), and tests check them. But each open port always has a slot of its own for its
//! marks, and a closed one has none (`IsSoundDesk` in specs/Desk).
//!
//! ```text
//! let mut desk = Desk::primed(alloc, config)?;
//! let port = desk.add_port(64)?;                  // goes to a thread: port.send(message), port.receive()
//! if desk.turn_within(&rt, &gate, &mut budget)? == 0 && !desk.is_behind() {
//!     desk.wait(&rt, Duration::from_secs(1));     // until a port sends something
//! }
//! desk.told(), desk.ended(), desk.closing()       // whose threads to wake, to join, and to hurry
//! ```
#![tactic(auto)]

mod desk;
mod events;
mod hub;
mod law;
mod link;
mod links;
mod message;
mod port;

pub use desk::{Desk, Limits};
pub use hub::Hub;
pub use law::{desks_agree, ends_stay, hubs_run};
pub use message::{AddPortError, Full, Message};
pub use port::{Port, PortEnd};
pub use port_hints::{Budget, Unlimited, Waker};
