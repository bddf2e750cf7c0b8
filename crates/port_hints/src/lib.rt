//! Hints about ports: which ports may have something for the hub, how much is under way to them, in which order turns
//! come to them, what a turn may spend, and which threads are to be told.
//!
//! No contract says that a hint is right: which threads have sent something, or how much they have written, no proof
//! can know, and tests check it. What is proved is that a list of ports loses none of them, which port has each slot,
//! and how many bytes were put to clients.
#![tactic(auto)]

mod budget;
mod marks;
mod notes;
mod round;
mod waker;

pub use budget::{Budget, Unlimited};
pub use marks::{Mark, Marks};
pub use notes::{Notes, reserve};
pub use round::Round;
pub use waker::Waker;
