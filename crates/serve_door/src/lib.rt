//! Where clients come in: who may, and what they begin with.
//!
//! An [`Acceptor`] takes connections on a thread of its own, and closes those for which there is no place: in all, or of
//! one address ([`Places`]). It keeps each until the first four bytes have come. A word about the server that lists no
//! clients, as monitoring systems ask, it answers at once from the [`Tally`](server_tally::Tally); whatever else begins
//! is handed to the hub, with these bytes ([`First`]). So a connection that asks such a word, ends at once, as the checks
//! of load balancers do, or says nothing gets no thread and no port, and the engine doesn't learn of it. One that says
//! nothing for too long is closed.
//!
//! It is proved how places are counted (`places.rt`), what the text of an address is (`address.rt`), and that the first
//! bytes are given on as they came (`first.rt`), and in `server_words` what words are answered; the rest is proved safe,
//! and tested over sockets.
//!
//! ```text
//! let limits = DoorLimits { places, silent };
//! let Accepting { acceptor, from_acceptor, door } = open_door(net, alloc, listener, limits, tally)?;
//! // On a thread: accept_all(rt, acceptor, &waker). Here: from_acceptor.pop(), and at its end tally.leave(rt) and
//! // door.leave(rt, address).
//! ```
#![tactic(auto)]

mod acceptor;
mod address;
mod door;
mod first;
mod guest;
mod lobby;
mod places;

pub use acceptor::{Accepting, Acceptor, DoorLimits, accept_all, open_door};
pub use door::{Door, Places};
pub use first::First;
pub use guest::Accepted;
