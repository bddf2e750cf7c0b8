//! Sessions of clients: the connection that has each session here, and the ids that a connection has added.
//!
//! Which sessions there are, the leader says, and the data tree has them. A client that asks for a new session is given
//! an id at once, and the leader is asked to create the session: the high byte of the id is the server id, and the 7
//! bytes below are a counter that begins after the first counter of the settings. The connection has the session when
//! the leader has created it, see [`Sessions::admit`]. The password is computed from the session id, by the rule of
//! [`Passwords`], so no password is stored. A session outlives its connection: a client that reconnects with id and
//! password has it again, and an older connection of the session is closed. Where sessions move between servers, the
//! leader says whether one that a client claims lives, see [`Sessions::claimed`].
//!
//! ```text
//! let mut sessions = Sessions::new(alloc, server_id, timeouts, passwords, first_counter, super_digest);
//! let named = sessions.connect(alloc, 1, false, &new_session)?;       // an id for a new session, or a refusal
//! sessions.admit(alloc, 1, named.response.session_id, time_out)?;     // the leader has created it
//! sessions.auth(alloc, 1, Some("digest"), Some(b"user:password"))?;
//! sessions.ids(1)                                                     // the digest id of the user
//! sessions.close(1);                                                  // the session stays in the tree
//! sessions.connect(alloc, 2, true, &reconnect)?;                      // gives it to connection 2, or refuses
//! sessions.told_timeout(id)                                           // what connection 2 was told, as Some
//! sessions.expire(id)                                                 // the session has ended; Some(2)
//! ```
//!
//! Whether a client may connect at all is judged by the caller before `connect`: clients have to be served, and the
//! client mustn't have seen a zxid above this replica's.
#![tactic(auto)]

mod connections;
mod credentials;
mod law;
mod passwords;
mod request;
mod table;

pub use law::{
    ended_sessions_are_refused, java_passwords_are_zookeepers, others_stay,
    sessions_and_connections_agree,
};
pub use passwords::Passwords;
pub use request::{Connected, PASSWORD_LEN, SessionRequest, SessionResponse};
pub use table::{AUTH_LIMIT, IDS_BYTES_LIMIT, IDS_LIMIT, Sessions};
