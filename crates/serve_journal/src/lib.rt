//! What a server tells of itself: one line of its log for each event.
//!
//! A journal is told what the server does, and looks at each turn of the desk; it changes nothing. How its lines look,
//! and which levels are written, is the logger's: `serve_log` has one for standard error.
#![tactic(auto)]

mod check;
mod greeting;
mod journal;
mod settings_line;

pub use check::print_check;
pub use journal::Journal;
