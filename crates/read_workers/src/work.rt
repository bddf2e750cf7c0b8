//! Some reads as a work at a board.

ghost use Rattle.read_workers.specs.Working.{AreLooksOf};

use apply_board::Yields;
use apply_workers::Job;
use data_tree::Tree;
use read_processor::{Ask, Look, look_each};
use std::alloc::Global;

/// Reads to be made.
#[derive(Drop)]
pub struct LookWork<'a> {
    pub(crate) alloc: Global,
    pub(crate) tree: &'a Tree,
    pub(crate) asks: &'a [Ask<'a>],
}

/// The result of these reads: an answer to each, in order.
#[derive(Drop)]
pub enum Looked {
    Answered(Vec<Look>),
    /// An allocation was refused.
    Refused,
}

impl Yields<Looked> for LookWork<'_> {
    ghost gives = { AreLooksOf };
}

impl Job<Looked> for LookWork<'_> {
    fn apply(self) -> Looked {
        match look_each(self.alloc, self.tree, self.asks) {
            Ok(answers) => Looked::Answered(answers),
            Err(_) => Looked::Refused,
        }
    }
}
