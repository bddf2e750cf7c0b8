//! A group that is advanced by steps.
ghost use Rattle.std.specs.Prelude.{◌≡◌, ◌<◌, ◌≤◌, ◌++◌, ℕ, IfOk, OnOk, All, length, drop};
ghost use Rattle.data_tree.specs.Cells.{after_in_cells, outcomes_in_cells};
ghost use Rattle.apply_workers.specs.Places.{at_places};
ghost use Rattle.apply_workers.specs.Schedule.{is_held_by, has_work, is_finished_by, done_by, given_by};
ghost use Rattle.apply_workers.specs.Hands.{group_state_of, unclaimed_group};
ghost use Rattle.apply_workers.specs.declared.holder.Holder.TheVariants.{Held};

use crate::holder::Holder;
use batcher::Group;
use data_tree::{Cells, Outcome};
use std::alloc::Global;
use std::marker::Model;
use txn_codec::Txn;
use values::NoMemory;

/// A group's holder, its cells, and the outcomes of the transactions applied so far.
#[derive(Drop)]
pub struct GroupInProgress {
    holder: Holder,
    cells: Cells,
    outcomes: Vec<Outcome>,
}

impl Model for GroupInProgress {
    ghost use Rattle.data_tree.specs.State.{state_code};
    ghost use Rattle.node_map.specs.contracts.node.Node as of_node;
    ghost use Rattle.data_tree.specs.contracts.outcome.Outcome as of_outcome;
    ghost use Rattle.apply_workers.specs.contracts.holder.Holder as of_holder;
    ghost use Rattle.apply_workers.specs.Hands.{GroupProgress, group_progress_code};

    ghost Value = { GroupProgress };

    ghost coded = { group_progress_code of_holder.the_row.coded (state_code of_node.the_row.coded)
        of_outcome.the_row.coded };

    ghost view = { λ h. record { holder = h.holder; cells = h.cells; outcomes = h.outcomes.items } };
}

impl GroupInProgress {
    /// No worker has claimed the group, and no transaction was applied.
    pub fn new(alloc: Global, cells: Cells) -> GroupInProgress
        ensures { result ≡ unclaimed_group cells }
    {
        GroupInProgress {
            holder: Holder::Waiting,
            cells,
            outcomes: Vec::new(alloc),
        }
    }

    /// The worker claims the group.
    pub fn claim(&mut self, worker: usize)
        ensures { self.new ≡ record self.old { holder = Held worker } }
    {
        self.holder = Holder::Held(worker);
    }

    /// Whether the worker holds the group.
    pub(crate) fn is_held_by(&self, worker: usize) -> bool
        ensures { result ≡ is_held_by worker self.now.holder }
    {
        match self.holder {
            Holder::Held(holder) => holder == worker,
            _ => false,
        }
    }

    /// Applies the next transaction, if the worker holds the group and one is left, and returns whether it did.
    pub(crate) fn do_next(
        &mut self,
        alloc: Global,
        worker: usize,
        txns: &[Txn],
        group: &Group,
    ) -> Result<bool, NoMemory>
        requires { All (λ place. place < length txns.now) group.now.members }
        ensures taken { IfOk result (λ taken. (k : ℕ)
            → taken ≡ has_work worker (group_state_of txns.now k group.now self.old)) }
        ensures group { OnOk result ((k : ℕ) → group_state_of txns.now k group.now self.new
            ≡ done_by worker (group_state_of txns.now k group.now self.old)) }
        ensures count { length self.old.outcomes ≤ length group.now.members
            → length self.new.outcomes ≤ length group.now.members }
    {
        let members = group.members();
        let done = self.outcomes.len();
        if !self.is_held_by(worker) || done >= members.len() {
            return Ok(false);
        }
        let outcome = self.cells.apply(alloc, &txns[members[done]])?;
        self.outcomes.push(outcome)?;
        Ok(true)
    }

    /// Gives the group back, if the worker holds it and no transaction is left, and returns whether it did.
    pub fn give(&mut self, worker: usize, txns: &[Txn], group: &Group) -> bool
        requires { All (λ place. place < length txns.now) group.now.members }
        ensures taken { (k : ℕ)
            → result ≡ is_finished_by worker (group_state_of txns.now k group.now self.old) }
        ensures group { (k : ℕ) → group_state_of txns.now k group.now self.new
            ≡ given_by worker (group_state_of txns.now k group.now self.old) }
        ensures count { self.new.outcomes ≡ self.old.outcomes }
    {
        if !self.is_held_by(worker) {
            return false;
        }
        if self.outcomes.len() < group.members().len() {
            return false;
        }
        self.holder = Holder::Home;
        true
    }

    /// Applies the transactions that are left: returns the cells after them, and the outcomes of all.
    pub fn finish(
        self,
        alloc: Global,
        txns: &[Txn],
        group: &Group,
    ) -> Result<(Cells, Vec<Outcome>), NoMemory>
        requires within { All (λ place. place < length txns.now) group.now.members }
        requires done { length self.outcomes ≤ length group.now.members }
        ensures cells { IfOk result (λ r. r.0 ≡ after_in_cells self.cells
            (at_places txns.now (drop (length self.outcomes) group.now.members))) }
        ensures outcomes { IfOk result (λ r. r.1.items ≡ self.outcomes ++ outcomes_in_cells self.cells
            (at_places txns.now (drop (length self.outcomes) group.now.members))) }
    {
        let GroupInProgress {
            mut cells,
            mut outcomes,
            ..
        } = self;
        let left = &group.members()[outcomes.len()..];
        for place in left {
            outcomes.push(cells.apply(alloc, &txns[*place])?)?;
        }
        Ok((cells, outcomes))
    }
}
