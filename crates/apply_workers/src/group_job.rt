//! A group's transactions, applied to its cells.
ghost use Rattle.std.specs.Prelude.{◌<◌, All, length};
ghost use Rattle.apply_workers.specs.Places.{at_places};
ghost use Rattle.apply_workers.specs.Works.{FinishesTxns, IsOfWork};

use crate::group_work::{Finished, Work};
use crate::job::Job;
use apply_board::Yields;
use data_tree::Cells;
use std::alloc::Global;
use txn_codec::Txn;
use values::Listed;

// Applies the transactions at these places to the cells, in this order.
fn apply_in_cells(alloc: Global, mut cells: Cells, txns: &[Txn], members: &[usize]) -> Finished
    requires { All (λ place. place < length txns.now) members.now }
    ensures { FinishesTxns cells (at_places txns.now members.now) result }
{
    let Ok(mut outcomes) = Vec::with_capacity(alloc, members.len()) else {
        return Finished::Stopped { cells, done: 0 };
    };
    for place in members {
        let Ok(outcome) = cells.apply(alloc, &txns[*place]) else {
            let done = outcomes.len();
            return Finished::Stopped { cells, done };
        };
        outcomes.push_reserved(outcome);
    }
    Finished::Done {
        cells,
        outcomes: Listed::from_vec(outcomes),
    }
}

impl Yields<Finished> for Work<'_> {
    ghost gives = { IsOfWork };
}

impl Job<Finished> for Work<'_> {
    fn apply(self) -> Finished {
        apply_in_cells(self.alloc, self.cells, self.txns, self.members)
    }
}
