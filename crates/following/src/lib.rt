//! What a server that follows leaders decides by time: which server it tries next, and after what pause; what the end
//! of a leader means; when a silent leader is given up. It decides by the leader's bytes when a checkpoint is due.
//!
//! Each decision is a value that is told what happens, with the time in milliseconds of a clock that never goes back.
//! Nothing here reads a clock, waits, or has a connection; a caller does.
//!
//! ```text
//! let Some(mut finding) = Finding::new(3, server_id) else { .. };
//! let candidate = finding.next();                       // server 0, at once
//! finding.report(candidate.server, Outcome::NotLeading);
//! let candidate = finding.next();                       // server 1, at once; after a round of three, a pause
//! ```
#![tactic(auto)]

mod checkpoints;
mod ends;
mod finding;
pub mod law;
mod patience;

pub use checkpoints::Checkpoints;
pub use ends::Verdict;
pub use finding::{Candidate, Finding, Outcome, SERVER_LIMIT};
pub use patience::{Judgement, Patience, Stage, silence_limit};
