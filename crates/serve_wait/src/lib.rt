//! The command `wait`: it asks a server again and again until that serves clients, for what is to be started after it.
//!
//! ```text
//! observer wait 127.0.0.1:2181 --seconds 30             // status 0 as soon as `isro` is answered `rw`, or 8
//! ```
//!
//! `specs/Command.antt` defines the command line, `specs/Ending.antt` the exit status and the line on standard error,
//! and `specs/Answer.antt` which answer counts and how long a try may take. The sockets and the clock are any that have
//! the handles; the loop over them is proved to end.
#![tactic(auto)]

mod asking;
mod command;
mod deadline;
mod ending;
mod waiting;

pub use command::{WaitCommand, wait_command_of};
pub use ending::{Obstacle, WaitEnding};
pub use waiting::wait;
