//! Putting the groups' cells back.
ghost use Rattle.std.specs.Prelude.{◌≡◌, ◌<◌, IfOk, OnOk, All, List, false, length};
ghost use Rattle.data_tree.specs.declared.outcome.Outcome.{Outcome};
ghost use Rattle.batcher.specs.Cut.{is_barrier_alone};
ghost use Rattle.apply_workers.specs.Homing.{with_all_cells, with_timeouts_set, IsSplitByGroup};
ghost use Rattle.apply_workers.specs.Inner.{put_at, finished_groups};

use crate::group_work::{Finished, Work};
use apply_board::Group;
use batcher::LentBatch;
use data_tree::{Cells, Outcome, Tree, Triggers, TxnResults};
use std::alloc::Global;
use txn_codec::{SessionChange, Txn};
use values::{Listed, NoMemory};

/// The cells and the outcomes of the groups, in the order of the groups.
#[derive(Drop)]
pub struct Done {
    pub cells: Vec<Cells>,
    pub outcomes: Vec<Listed<Outcome>>,
}

/// The cells and the outcomes of all groups. Fails with `NoMemory` if one was stopped.
pub(crate) fn all_done(
    alloc: Global,
    groups: Vec<Group<Work<'_>, Finished>>,
) -> Result<Done, NoMemory>
    ensures homes { IfOk result (λ done.
        groups.entry.items ≡ finished_groups done.cells.items done.outcomes.items) }
    ensures count { IfOk result (λ done.
        length done.cells.items ≡ length done.outcomes.items) }
{
    let mut cells = Vec::new(alloc);
    let mut outcomes = Vec::new(alloc);
    for group in groups {
        match group {
            Group::Home(
                Finished::Done {
                    cells: left,
                    outcomes: answered,
                },
            ) => {
                cells.push(left)?;
                outcomes.push(answered)?;
            }
            _ => return Err(NoMemory),
        }
    }
    Ok(Done { cells, outcomes })
}

fn put_each(alloc: Global, tree: &mut Tree, each: Vec<Cells>) -> Result<(), NoMemory>
    ensures { OnOk result (tree.new ≡ with_all_cells each.items tree.old) }
{
    for cells in each {
        tree.put_cells(alloc, cells)?;
    }
    Ok(())
}

// Sets the timeouts of the sessions that begin, in their order.
fn set_timeouts(tree: &mut Tree, txns: &[Txn]) -> Result<(), NoMemory>
    ensures { OnOk result (tree.new ≡ with_timeouts_set txns.now tree.old) }
{
    for txn in txns {
        if let SessionChange::Begins(timeout) = txn.body.session_change() {
            tree.put_session(txn.header.client_id, timeout)?;
        }
    }
    Ok(())
}

// An empty outcome for each transaction, to be replaced.
fn empty_outcomes(alloc: Global, count: usize) -> Result<Vec<Outcome>, NoMemory>
    ensures { IfOk result (λ v. length v.items ≡ count) }
{
    let mut blanks = Vec::with_capacity(alloc, count)?;
    for _ in 0..count {
        blanks.push(Outcome {
            results: TxnResults {
                err: 0,
                parts: Listed::from_vec(Vec::new(alloc)),
            },
            triggers: Triggers::from_vec(Vec::new(alloc)),
        })?;
    }
    Ok(blanks)
}

// Puts a group's outcomes at its places.
fn put_at(all: &mut Vec<Outcome>, places: &[usize], share: Listed<Outcome>)
    requires { All (λ place. place < length all.old.items) places.now }
    ensures { all.new.items ≡ put_at all.old.items places.now share }
{
    let mut outcomes = share.into_vec().into_iter();
    for place in places {
        let Some(outcome) = outcomes.next() else {
            return;
        };
        all[*place] = outcome;
    }
}

// The list of which each group has its share.
fn in_order(
    alloc: Global,
    batch: &LentBatch<'_>,
    shares: Vec<Listed<Outcome>>,
) -> Result<Vec<Outcome>, NoMemory>
    requires groups { is_barrier_alone batch.now ≡ false }
    ensures { IfOk result (λ v. (whole : List Outcome)
        → IsSplitByGroup batch.now whole shares.items → v.items ≡ whole) }
{
    let mut all = empty_outcomes(alloc, batch.txns().len())?;
    let mut rest = shares.into_iter();
    for group in batch.groups() {
        let Some(share) = rest.next() else {
            return Ok(all);
        };
        put_at(&mut all, group.members(), share);
    }
    Ok(all)
}

/// Puts the groups' cells back, sets the timeouts of the sessions that the batch creates, and returns the outcomes in
/// the batch's order. A refused allocation leaves the tree unspecified, and the caller drops it.
pub fn home(
    alloc: Global,
    tree: &mut Tree,
    batch: &LentBatch<'_>,
    done: Done,
) -> Result<Vec<Outcome>, NoMemory>
    requires groups { is_barrier_alone batch.now ≡ false }
    ensures tree { OnOk result (tree.new ≡ with_timeouts_set batch.now (with_all_cells done.cells.items tree.old)) }
    ensures outcomes { IfOk result (λ v. (whole : List Outcome)
        → IsSplitByGroup batch.now whole done.outcomes.items → v.items ≡ whole) }
{
    let Done { cells, outcomes } = done;
    put_each(alloc, tree, cells)?;
    set_timeouts(tree, batch.txns())?;
    in_order(alloc, batch, outcomes)
}
