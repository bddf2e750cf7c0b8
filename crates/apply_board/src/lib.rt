//! Works in numbered places, for workers on threads: each claims the next number by one atomic addition, and gives the
//! result back by one atomic store. No call takes a lock or waits for another.
//!
//! A worker has a seat. Its ghost view (`specs/Views.antt`) has the numbers that it claimed and gave, and whether it
//! found every number claimed; no code holds the view. `specs/Board.antt` has the invariant of the words, the slots and
//! all seats' views of a board between any two steps; for example no number is claimed twice. `specs/Closing.antt` says
//! what a board returns in the end.
//!
//! ```text
//! let (board, mut opener) = Board::open(alloc, works)?;
//! let mut seat = board.seat(&mut opener)?;            // one more, for another thread
//! while let Some((claim, work)) = board.claim(&mut seat) {
//!     board.give(&mut seat, claim, done(work));
//! }
//! let groups = board.close(seats);                    // all seats, the opener's first
//! ```
#![tactic(auto)]

mod board;
mod group;
mod life;
mod plays;
mod seat;
mod view;

pub use board::Claim;
pub use group::{Group, Yields};
pub use seat::{Board, Seat};
pub use view::View;
