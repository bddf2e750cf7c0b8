//! Workers at a board: each claims works, does them and gives the results back, until all are claimed.
//!
//! `work` is the loop of one worker. `run` has a list of works done by several workers, each on a thread of its own,
//! and returns the results in the order of the works. A `Gate` is passed after each claim and before its work. `run_on`
//! asks a `Starts` first which threads it may start.
//!
//! `specs/Schedule.antt` defines, step by step, what workers do with the groups of a batch. The law
//! `law::every_schedule` says that the result is that of the batch, whatever `Step`s are taken.
//!
//! `Groups` applies a batch by such steps: `open` takes the groups' cells out of the tree, `step` takes a step or skips
//! it, and `home` applies the rest and puts everything back. `apply_inline` makes these calls one after the other;
//! whatever steps it is given, state and outcomes are those of applying the transactions one after the other.
//!
//! `apply_batch` applies a batch on threads: each group's cells are taken out of the tree, each group is a work on its
//! cells (`Work`, `Finished`), and in the end the cells are put back, the timeouts of new sessions are set, and the
//! outcomes are put in the batch's order. State and outcomes are those of applying the transactions one after the
//! other, since groups have no cell in common (the law `groups_come_home`). A single worker moves no cells: it applies
//! the transactions to the tree, and passes the gate for each group at the group's first transaction.
//!
//! `apply_list` applies a list of any length: it cuts batches from it, which borrow their transactions, and applies
//! each as `apply_batch` does, while one more thread cuts the next. What is less work than a threshold is applied to
//! the tree itself, as `apply_list_inline` does with the whole list.
//!
//! ```text
//! let batch = cut(alloc, txns, &limits)?;
//! let outcomes = apply_batch(rt, alloc, &mut tree, batch, limits.workers(), &OpenGate)?;
//! ```
#![tactic(auto)]

mod batch;
mod crew;
mod gate;
mod group_job;
mod group_work;
mod groups;
mod hand;
mod holder;
mod home;
mod home_law;
mod inline;
mod job;
pub mod law;
mod list;
mod starts;
mod step;
mod taking;
mod work_size;

pub use batch::{apply_batch, apply_batch_on};
pub use crew::{run, run_on};
pub use gate::{Gate, OpenGate};
pub use group_work::{Finished, Work};
pub use groups::Groups;
pub use holder::Holder;
pub use home_law::groups_come_home;
pub use inline::apply_inline;
pub use job::{Job, work};
pub use list::{apply_list, apply_list_inline};
pub use starts::{AllStart, Starts};
pub use step::Step;
