//! A batch that is applied by steps, on one thread.
ghost use Rattle.std.specs.Prelude.{◌≡◌, IfOk, OnOk};
ghost use Rattle.data_tree.specs.Meaning.{state_after, outcomes_of_txns};

use crate::groups::Groups;
use crate::law::every_schedule;
use crate::step::Step;
use batcher::Batch;
use data_tree::{Outcome, Tree};
use std::alloc::Global;
use values::NoMemory;

/// Applies a batch by these steps of its workers, skips the steps that can't be taken, then applies the rest, and
/// returns the outcomes in the order of the transactions. Whatever the steps are, tree and outcomes are those of
/// applying the transactions one after the other. A refused allocation leaves the tree unspecified, and the caller
/// drops it.
pub fn apply_inline(
    alloc: Global,
    tree: &mut Tree,
    batch: Batch,
    steps: &[Step],
) -> Result<Vec<Outcome>, NoMemory>
    ensures tree { OnOk result (tree.new ≡ state_after tree.old batch) }
    ensures outcomes { IfOk result (λ v. v.items ≡ outcomes_of_txns tree.old batch) }
{
    every_schedule();
    let mut groups = Groups::open(alloc, tree, batch)?;
    for step in steps {
        groups.step(alloc, *step)?;
    }
    groups.home(alloc, tree)
}
