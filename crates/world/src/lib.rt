//! What a server knows while it follows a leader, and what it sends.
//!
//! A [`World`] is everything that an observer knows but the state of its leader's stream: its [`Settings`], the
//! replica, and the [`Clients`] with their sessions and watches (specs/World). A connection's ids, watches and requests
//! go with it in one step (specs/Clients), and its session stays the leader's.
//!
//! What happens to a world is defined by steps (specs/Steps), each of which gives outputs and the world after it. A
//! [`Stage`] is a world with the outputs so far, and a function that makes a step takes one: specs/Results states what
//! it leaves, refused allocations included. A function that fails because an allocation is refused has appended a
//! prefix of its step's outputs. specs/Sending has the steps that send and close.
//!
//! ```text
//! let clients = Clients::new(alloc, key, &settings)?;                  // no connection, and no session yet
//! let mut stage = Stage::new(alloc, World { settings, replica, clients });
//! stage.world.clients.open(alloc, 7, None)?;                           // connection 7 is open
//! stage.close_client(7)?;                                              // appends Output::CloseClient(7)
//! ```
#![tactic(auto)]

mod clients;
mod connections;
mod notice;
mod output;
mod sending;
mod stage;
mod timeouts;
mod world;

pub use clients::Clients;
pub use connections::{Connection, Connections};
pub use notice::{notify_all, notify_each};
pub use output::Output;
pub use sending::send_to_leader;
pub use stage::Stage;
pub use timeouts::KnownTimeouts;
pub use world::{Settings, World};
