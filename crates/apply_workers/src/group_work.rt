//! The work of one group of a batch, and its result.
ghost use Rattle.std.specs.Prelude.{◌<◌, All, length};

use data_tree::{Cells, Outcome};
use std::alloc::Global;
use txn_codec::Txn;
use values::Listed;

/// A group's cells, and the places of its transactions in the batch.
#[derive(Drop)]
pub struct Work<'a> {
    pub(crate) alloc: Global,
    pub(crate) cells: Cells,
    pub(crate) txns: &'a [Txn],
    pub(crate) members: &'a [usize],
    ghost within: { All (λ place. place < length txns.now) members.now },
}

/// The result of a group's work.
#[derive(Drop)]
pub enum Finished {
    /// All its transactions were applied: the cells after them, and the outcomes.
    Done {
        cells: Cells,
        outcomes: Listed<Outcome>,
    },
    /// An allocation was refused after `done` transactions: the cells are unspecified.
    Stopped {
        cells: Cells,
        done: usize,
    },
}
