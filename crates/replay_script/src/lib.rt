//! The script of a replay: a text whose lines are settings of an observer and events for it.
//!
//! `parse` reads a whole text. A line is cut off at its line feed and read (`line`, with `ints` and `hex` for its
//! words). A draft collects the lines (`draft`), refuses a setting that occurs twice or after an event, and becomes the
//! script at the end, with defaults for what no line has set.
//!
//! ```
//! let script = parse(alloc, b"server 3\nleader up\n")?;   // server_id 3, all else by default, and one event
//! let number = match parse(alloc, b"server 3\nserver 4") {
//!     Err(ScriptError::BadLine(number)) => number,           // 2: every line counts, from 1
//!     ..
//! };
//! ```
//!
//! `specs/Script.antt` defines the script of a text, `specs/Line.antt` the meaning of a line; `specs/Rows.antt` has
//! lines and texts that were worked out by hand.
#![tactic(auto)]

mod draft;
mod event;
mod examples;
mod hex;
mod ints;
mod line;
mod parser;
mod script;

pub use event::ScriptEvent;
pub use examples::{bad_lines, lines, scripts};
pub use hex::put_hex;
pub use parser::{ScriptError, parse};
pub use script::Script;
