//! A server: it follows a leader over a socket, and serves clients over sockets.
#![tactic(auto)]

mod bounds;
mod command;
mod connections;
mod hub;
mod leading;
mod listening;
mod log_keeping;
mod logging;
mod serving;
mod silence;
mod telling;

pub use command::serve;
pub use connection_loop::{LeaderGone, leader_loop, session_loop};
pub use serve_failures::Failure;
pub use serve_options::{Address, Command, Options, Servers, command_of};
pub use serve_record::{Record, put_message};
pub use serving::serve_on;
