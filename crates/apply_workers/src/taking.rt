//! The cells of a batch's groups, taken from the tree.
ghost use Rattle.std.specs.Prelude.{◌≡◌, IfOk, OnOk, length, map};
ghost use Rattle.batcher.specs.Cut.{groups_of};
ghost use Rattle.apply_workers.specs.Homing.{split_by_group};
ghost use Rattle.apply_workers.specs.Taking.{cells_of_each, without_group_cells};
ghost use Rattle.apply_workers.specs.Works.{cells_of, txns_of};

use crate::group_work::Work;
use batcher::{Group, LentBatch};
use data_tree::{Cells, Tree};
use std::alloc::Global;
use values::NoMemory;

/// Takes each group's cells, in order. A refused allocation leaves the tree unspecified, and the caller drops it.
pub(crate) fn take_each(
    alloc: Global,
    tree: &mut Tree,
    groups: &[Group],
) -> Result<Vec<Cells>, NoMemory>
    ensures cells { IfOk result (λ v. v.items ≡ cells_of_each groups.now tree.old) }
    ensures rest { OnOk result (tree.new ≡ without_group_cells groups.now tree.old) }
{
    let mut taken = Vec::with_capacity(alloc, groups.len())?;
    for group in groups {
        taken.push(tree.take_cells(alloc, group.paths())?)?;
    }
    Ok(taken)
}

/// The groups' works, each on its cells.
pub fn works<'a>(
    alloc: Global,
    batch: &LentBatch<'a>,
    cells: Vec<Cells>,
) -> Result<Vec<Work<'a>>, NoMemory>
    requires { length cells.items ≡ length (groups_of batch.now) }
    ensures cells { IfOk result (λ v. map cells_of v.items ≡ cells.items) }
    ensures txns { IfOk result (λ v. map txns_of v.items
        ≡ split_by_group batch.now (groups_of batch.now)) }
{
    let groups = batch.groups();
    let mut works = Vec::new(alloc);
    for cells in cells {
        let group = &groups[works.len()];
        works.push(Work {
            alloc,
            cells,
            txns: batch.txns(),
            members: group.members(),
        })?;
    }
    Ok(works)
}
