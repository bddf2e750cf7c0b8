//! A replay: a script is read, its events are fed to an observer, and the outputs are printed.
//!
//! `command_of` parses a command line. `replay_on` reads the script to its end, replays it, and writes what went wrong
//! to standard error; it returns the exit status. It works over any reader and writers, so what it prints is proved for
//! the bytes that it reads: `specs/Replay.antt` defines the outputs, `specs/Lines.antt` the line of each, and
//! `specs/Ending.antt` the status and the message. The limits of a command line are in none of them: they say how many
//! threads share the work, and how much of it at a time.
//!
//! ```
//! let mut reader = b"primed\nclient 1 ffffffff".as_slice();
//! let status = replay_on(rt, alloc, default_limits(), &mut reader, &mut printed, &mut errors);
//! // status 0; printed has the lines `C 1 close` and `end zxid=0x0 paths=3`, and errors nothing
//! ```
#![tactic(auto)]

mod command;
mod ending;
mod print;
mod replaying;
mod writing;

pub use command::{Command, Source, command_of};
pub use ending::Ending;
pub use print::{put_count, put_end, put_output};
pub use replaying::{engine_of, event_of, replay_on};
pub use writing::write_whole;
