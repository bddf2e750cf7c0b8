//! What the hub may spend on clients in a turn, and how many watches each may leave.
//!
//! A [`TurnBudget`] tells the desk when a turn has done enough for clients, and which of their messages are costly; after a
//! turn in which these took long there is a [`Pause`] for them. It is proved how a pause lasts, and which watches are too
//! many; the rest is proved safe, and tested over sockets.
//!
//! ```text
//! let mut budget = TurnBudget::new(rt, clock, pause);
//! desk.turn_within(rt, &OpenGate, &mut budget)?;
//! pause = pause.after(&budget);
//! ```
#![tactic(auto)]

mod budget;
mod stopwatch;
mod watching;

pub use budget::{Pause, TurnBudget};
pub use stopwatch::Stopwatch;
pub use watching::are_too_many;
