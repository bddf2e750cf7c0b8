//! The groups of a batch, advanced one step at a time.
ghost use Rattle.std.specs.Prelude.{◌≡◌, ◌<◌, IfOk, OnOk, map, length, false};
ghost use Rattle.std.specs.List.{list_any};
ghost use Rattle.batcher.specs.Cut.{groups_of, is_barrier_alone};
ghost use Rattle.apply_workers.specs.Hands.{group_states_from, AreWithinGroups, unclaimed_group};
ghost use Rattle.apply_workers.specs.Schedule.{GroupState, is_held_by, has_work, is_finished_by, done_by, given_by, claimed_by, with_rest_done, can_be_taken, initial_progress, left_by, batch_result};
ghost use Rattle.apply_workers.specs.Schedule.{try_step as stepped};
ghost use Rattle.apply_workers.specs.Underway.{unstarted_batch};
ghost use Rattle.apply_workers.specs.declared.step.Step.TheVariants.{Claim};

use crate::hand::GroupInProgress;
use crate::home::{Done, home};
use crate::law::groups_are_taken;
use crate::list::apply_list_inline;
use crate::step::Step;
use crate::taking::take_each;
use batcher::Batch;
use data_tree::{Cells, Outcome, Tree};
use std::alloc::Global;
use std::marker::Model;
use values::{Listed, NoMemory};

/// A batch whose groups are advanced one step at a time, in any order. Its model is the transactions, the number of the
/// group that is claimed next, and for each group its holder, its cells, the transactions left, and the outcomes.
#[derive(Drop)]
pub struct Groups {
    batch: Batch,
    next: usize,
    hands: Vec<GroupInProgress>,
}

impl Model for Groups {
    ghost use Rattle.txn_codec.specs.contracts.txn.Txn as of_txn;
    ghost use Rattle.data_tree.specs.State.{state_code};
    ghost use Rattle.node_map.specs.contracts.node.Node as of_node;
    ghost use Rattle.data_tree.specs.contracts.outcome.Outcome as of_outcome;
    ghost use Rattle.batcher.specs.Cut.{groups_of};
    ghost use Rattle.apply_workers.specs.contracts.holder.Holder as of_holder;
    ghost use Rattle.apply_workers.specs.Hands.{group_states_from, AreWithinGroups};
    ghost use Rattle.apply_workers.specs.Underway.{BatchProgress, batch_progress_code};

    ghost Value = { BatchProgress };

    ghost coded = { batch_progress_code of_holder.the_row.coded (state_code of_node.the_row.coded)
        of_txn.the_row.coded of_outcome.the_row.coded };

    ghost view = { λ g. record {
      batch = g.batch;
      progress = record {
        next = g.next;
        groups = group_states_from g.batch 0 (groups_of g.batch) g.hands.items;
      };
    } };

    ghost invariant = { λ g. AreWithinGroups (groups_of g.batch) g.hands.items };
}

// Groups with these cells that no worker has claimed.
fn waiting(alloc: Global, each: Vec<Cells>) -> Result<Vec<GroupInProgress>, NoMemory>
    ensures { IfOk result (λ v. v.items ≡ map unclaimed_group each.items) }
{
    let mut hands = Vec::with_capacity(alloc, each.len())?;
    for cells in each {
        hands.push_reserved(GroupInProgress::new(alloc, cells));
    }
    Ok(hands)
}

fn has_group(hands: &[GroupInProgress], worker: usize) -> bool
    ensures { result ≡ list_any (λ h. is_held_by worker h.holder) hands.now }
{
    for hand in hands {
        if hand.is_held_by(worker) {
            return true;
        }
    }
    false
}

// Applies the next transaction of the worker's group, and returns whether there was one. A worker has one group at
// most.
fn do_next(
    hands: &mut [GroupInProgress],
    alloc: Global,
    batch: &Batch,
    worker: usize,
) -> Result<bool, NoMemory>
    requires { AreWithinGroups (groups_of batch.now) hands.old }
    ensures held { AreWithinGroups (groups_of batch.now) hands.new }
    ensures taken { IfOk result (λ taken. taken
        ≡ list_any (has_work worker) (group_states_from batch.now 0 (groups_of batch.now) hands.old)) }
    ensures groups { OnOk result (group_states_from batch.now 0 (groups_of batch.now) hands.new
        ≡ map (done_by worker) (group_states_from batch.now 0 (groups_of batch.now) hands.old)) }
{
    let groups = batch.groups();
    let txns = batch.txns();
    let mut taken = false;
    for place in 0..hands.len() {
        let done = hands[place].do_next(alloc, worker, txns, &groups[place])?;
        taken = taken || done;
    }
    Ok(taken)
}

// Gives the worker's group back if all its transactions are applied, and returns whether it did.
fn give(hands: &mut [GroupInProgress], batch: &Batch, worker: usize) -> bool
    requires { AreWithinGroups (groups_of batch.now) hands.old }
    ensures held { AreWithinGroups (groups_of batch.now) hands.new }
    ensures taken { result
        ≡ list_any (is_finished_by worker) (group_states_from batch.now 0 (groups_of batch.now) hands.old) }
    ensures groups { group_states_from batch.now 0 (groups_of batch.now) hands.new
        ≡ map (given_by worker) (group_states_from batch.now 0 (groups_of batch.now) hands.old) }
{
    let groups = batch.groups();
    let txns = batch.txns();
    let mut taken = false;
    for place in 0..hands.len() {
        let given = hands[place].give(worker, txns, &groups[place]);
        taken = taken || given;
    }
    taken
}

// Applies the transactions that are left in each group.
fn finish_each(alloc: Global, batch: &Batch, hands: Vec<GroupInProgress>) -> Result<Done, NoMemory>
    requires { AreWithinGroups (groups_of batch.now) hands.items }
    ensures cells { IfOk result (λ done. done.cells.items ≡ map (λ g. g.cells)
        (map with_rest_done (group_states_from batch.now 0 (groups_of batch.now) hands.items))) }
    ensures outcomes { IfOk result (λ done. done.outcomes.items ≡ map (λ g. g.outcomes)
        (map with_rest_done (group_states_from batch.now 0 (groups_of batch.now) hands.items))) }
{
    let groups = batch.groups();
    let txns = batch.txns();
    let mut cells = Vec::new(alloc);
    let mut outcomes = Vec::new(alloc);
    for hand in hands {
        let (left, answered) = hand.finish(alloc, txns, &groups[cells.len()])?;
        cells.push(left)?;
        outcomes.push(Listed::from_vec(answered))?;
    }
    Ok(Done { cells, outcomes })
}

impl Groups {
    /// Takes the cells of each group's paths from the tree, and no others; no group is claimed. A refused allocation
    /// leaves the tree unspecified, and the caller drops it.
    pub fn open(alloc: Global, tree: &mut Tree, batch: Batch) -> Result<Groups, NoMemory>
        ensures groups { IfOk result (λ groups. groups ≡ unstarted_batch tree.old batch) }
        ensures tree { OnOk result (tree.new ≡ left_by tree.old batch) }
    {
        batcher::law::groups();
        groups_are_taken();
        let cells = take_each(alloc, tree, batch.groups())?;
        let hands = waiting(alloc, cells)?;
        Ok(Groups {
            batch,
            next: 0,
            hands,
        })
    }

    // Claims the next group for the worker, if the worker has none and one is left, and returns whether it did.
    fn claim(&mut self, worker: usize) -> bool
        ensures taken { result ≡ can_be_taken self.old.progress (Claim worker) }
        ensures groups { self.new ≡ record self.old { progress = stepped self.old.progress (Claim worker) } }
    {
        if self.next >= self.hands.len() {
            return false;
        }
        if has_group(self.hands.as_slice(), worker) {
            return false;
        }
        self.hands[self.next].claim(worker);
        self.next += 1;
        true
    }

    /// Takes the step, and returns whether it could be taken: a claim by a worker that has no group, if one is left; a
    /// transaction of the worker's group, if one is left; giving the group back, if none is left. A step that can't be
    /// taken changes nothing. A refused allocation leaves the groups and the tree unspecified, and the caller drops
    /// them.
    pub fn step(&mut self, alloc: Global, step: Step) -> Result<bool, NoMemory>
        ensures taken { IfOk result (λ taken. taken ≡ can_be_taken self.old.progress step) }
        ensures groups { OnOk result
            (self.new ≡ record self.old { progress = stepped self.old.progress step }) }
    {
        match step {
            Step::Claim(worker) => Ok(self.claim(worker)),
            Step::Do(worker) => do_next(self.hands.as_mut_slice(), alloc, &self.batch, worker),
            Step::Give(worker) => Ok(give(self.hands.as_mut_slice(), &self.batch, worker)),
        }
    }

    /// Applies the transactions that are left, group by group, puts the cells back into the tree that they were taken
    /// from, and sets the timeouts of the sessions that the batch creates. Returns the outcomes. Timeouts and outcomes
    /// are in the batch's order. A batch without groups, such as a single barrier, is applied to the tree itself. A
    /// refused allocation leaves the tree unspecified, and the caller drops it.
    pub fn home(self, alloc: Global, tree: &mut Tree) -> Result<Vec<Outcome>, NoMemory>
        ensures tree { OnOk result
            (tree.new ≡ (batch_result tree.old self.batch self.progress.groups).state) }
        ensures outcomes { IfOk result
            (λ v. v.items ≡ (batch_result tree.old self.batch self.progress.groups).outcomes) }
    {
        let Groups { batch, hands, .. } = self;
        if batch.is_barrier() {
            return apply_list_inline(alloc, tree, batch.txns());
        }
        batcher::law::groups();
        let done = finish_each(alloc, &batch, hands)?;
        home(alloc, tree, &batch.lend(), done)
    }
}
