//! Transactions of one event of the leader: they are gathered in the log, and applied as one list.
//!
//! What is gathered is settled before anything that could tell the difference: before another kind of item is taken, a
//! packet is sent, a client's request or a fault is answered, and at the end of the event.

ghost use Rattle.std.specs.Prelude.{◌≡◌, ◌≤◌, true, length, drop, OnOk};
ghost use Rattle.quorum_packet.specs.Lending.{owned_item};
ghost use Rattle.quorum_packet.specs.Feed.{CanBeWritten};
ghost use Rattle.snapshot_codec.specs.Made.{Loading};
ghost use Rattle.replica.specs.Gathering.{brings_txns, AppliesTxns};
ghost use Rattle.leader_answers.specs.Answering.{due_in_log};
ghost use Rattle.observer_core.specs.Gathering.{tell_outcome, tell_outcomes, apply_in_turn};
ghost use Rattle.observer_core.specs.Inner.{tell_and_answer, settle_and_answer, TakesNextItem};
ghost use Rattle.world.specs.Results.{MakesStep, MeetsStep};

use crate::event::Event;
use crate::leader::receive_item;
use data_tree::{Outcome, Tree};
use leader_answers::{Due, answer_applied_txn, due_in_log};
use quorum_packet::LentItem;
use replica::brings_txns;
use snapshot_codec::Loader;
use std::alloc::Global;
use txn_codec::Txn;
use values::{NoMemory, ReadError};
use world::{Clients, Output, Stage, World, notify_each};

// Tells the watchers of what a transaction changed.
#[tactic(auto, using(crate::proofs::Batches::outcome_told))]
fn tell_outcome(
    alloc: Global,
    clients: &mut Clients,
    outcome: &Outcome,
    outputs: &mut Vec<Output>,
) -> Result<(), NoMemory>
    ensures { MeetsStep result outputs.old.items (tell_outcome clients.old outcome.now) outputs.new.items clients.new }
{
    let events = clients.watches.fire(alloc, outcome.triggers.as_slice())?;
    notify_each(alloc, events.as_slice(), outputs)
}

// Tells the watchers of each outcome, in order.
fn tell_each(
    alloc: Global,
    clients: &mut Clients,
    outcomes: &[Outcome],
    outputs: &mut Vec<Output>,
) -> Result<(), NoMemory>
    ensures { MeetsStep result outputs.old.items (tell_outcomes clients.old outcomes.now) outputs.new.items clients.new }
{
    for outcome in outcomes {
        tell_outcome(alloc, clients, outcome, outputs)?;
    }
    Ok(())
}

/// Applies the log's transactions after the first `done`, and tells the watchers of each, in order.
///
/// Fails only if an allocation is refused; then a prefix of the outputs has been appended.
pub(crate) fn settle_txns<D: Fn(&mut Tree, &[Txn]) -> Result<Vec<Outcome>, NoMemory>>(
    alloc: Global,
    doer: &D,
    done: usize,
    stage: &mut Stage,
) -> Result<(), NoMemory>
    requires within { done ≤ length stage.old.after.replica.learner.log }
    requires applies { AppliesTxns (D.pre doer.now) (D.post doer.now) }
    ensures { MakesStep result stage.old
        (λ w. apply_in_turn w (drop done w.replica.learner.log))
        stage.new }
{
    let outcomes = stage.world.replica.apply_gathered(alloc, done, doer)?;
    tell_each(
        alloc,
        &mut stage.world.clients,
        outcomes.as_slice(),
        &mut stage.outputs,
    )
}

fn log_len(world: &World) -> usize
    ensures { result ≡ length world.now.replica.learner.log }
{
    world.replica.learner().since_base().len()
}

// Tells the watchers of each outcome, in order, and then answers the client of the last transaction, which has this
// place in the log and brings `due`.
#[tactic(auto, using(world::proofs::Steps::then_meets, world::proofs::Steps::first_stops))]
fn tell_and_answer(
    alloc: Global,
    stage: &mut Stage,
    place: usize,
    due: Due,
    outcomes: &[Outcome],
) -> Result<(), NoMemory>
    requires { due ≡ due_in_log stage.old.after place }
    ensures { MakesStep result stage.old
        (λ w. tell_and_answer w place outcomes.now)
        stage.new }
{
    tell_each(
        alloc,
        &mut stage.world.clients,
        outcomes,
        &mut stage.outputs,
    )?;
    match outcomes.last() {
        None => Ok(()),
        Some(outcome) => answer_applied_txn(alloc, stage, place, due, &outcome.results),
    }
}

// Settles what is gathered, if the last transaction, which has this place in the log, answers a client: it brings `due`.
fn settle_and_answer<D: Fn(&mut Tree, &[Txn]) -> Result<Vec<Outcome>, NoMemory>>(
    alloc: Global,
    doer: &D,
    done: usize,
    stage: &mut Stage,
    place: usize,
    due: Due,
) -> Result<(), NoMemory>
    requires within { done ≤ length stage.old.after.replica.learner.log }
    requires due { due ≡ due_in_log stage.old.after place }
    requires applies { AppliesTxns (D.pre doer.now) (D.post doer.now) }
    ensures { MakesStep result stage.old
        (λ w. settle_and_answer w place (drop done w.replica.learner.log))
        stage.new }
{
    let applied = stage.world.replica.apply_gathered(alloc, done, doer)?;
    tell_and_answer(alloc, stage, place, due, applied.as_slice())
}

// Takes an item that brings transactions. A transaction that answers a client ends the batch: it is settled with those
// before it, so that its client is answered at once. Any other waits. The refusal of an item is told after all that was
// gathered before it.
fn gather_item<D: Fn(&mut Tree, &[Txn]) -> Result<Vec<Outcome>, NoMemory>>(
    alloc: Global,
    doer: &D,
    done: &mut usize,
    stage: &mut Stage,
    item: LentItem<'_>,
) -> Result<(), ReadError>
    requires brings { brings_txns (owned_item item) ≡ true }
    requires within { done.old ≤ length stage.old.after.replica.learner.log }
    requires applies { AppliesTxns (D.pre doer.now) (D.post doer.now) }
    ensures within { OnOk result (done.new ≤ length stage.new.after.replica.learner.log) }
    ensures takes { (loading : Loading) → TakesNextItem result stage.old.outputs done.old
        (record { loading = loading; world = stage.old.after }) (owned_item item.entry)
        stage.new.outputs done.new (record { loading = loading; world = stage.new.after }) }
{
    let waits_from = *done;
    let place = stage.world.replica.learner().since_base().len();
    match stage.world.replica.gather(alloc, item) {
        Ok(()) => {
            let due = due_in_log(&stage.world, place);
            if due.answers() {
                settle_and_answer(alloc, doer, waits_from, stage, place, due)?;
                *done = log_len(&stage.world);
            }
            Ok(())
        }
        Err(ReadError::NoMemory) => Err(ReadError::NoMemory),
        Err(ReadError::Fault(fault)) => {
            settle_txns(alloc, doer, waits_from, stage)?;
            Err(ReadError::Fault(fault))
        }
    }
}

/// Takes the next item of an event of the leader, after those whose transactions are in the log after the first `done`.
///
/// An item that is refused for a fault changes nothing, and nothing is left to settle then. Fails with
/// [`ReadError::NoMemory`] if an allocation is refused; then a prefix of the outputs has been appended.
pub fn take_item<D: Fn(&mut Tree, &[Txn]) -> Result<Vec<Outcome>, NoMemory>>(
    alloc: Global,
    doer: &D,
    done: &mut usize,
    loader: &mut Loader,
    stage: &mut Stage,
    item: LentItem<'_>,
) -> Result<(), ReadError>
    requires writable { CanBeWritten (owned_item item) }
    requires within { done.old ≤ length stage.old.after.replica.learner.log }
    requires applies { AppliesTxns (D.pre doer.now) (D.post doer.now) }
    ensures within { OnOk result (done.new ≤ length stage.new.after.replica.learner.log) }
    ensures takes { TakesNextItem result stage.old.outputs done.old
        (record { loading = loader.old; world = stage.old.after }) (owned_item item.entry)
        stage.new.outputs done.new (record { loading = loader.new; world = stage.new.after }) }
{
    if brings_txns(&item) {
        return gather_item(alloc, doer, done, stage, item);
    }
    settle_txns(alloc, doer, *done, stage)?;
    receive_item(alloc, loader, stage, item)?;
    *done = log_len(&stage.world);
    Ok(())
}

// The fewest bytes of a read in a client's stream: its length, its xid, its type, and a path of one byte with its
// length.
const SHORTEST_READ: usize = 17;

/// Whether the clients' bytes in these events are as many as so many reads have at least. This is an estimate, on which
/// no answer depends: frames that began in earlier events aren't counted, and longer ones count as several.
pub(crate) fn may_hold_reads(events: &[Event<'_>], reads: usize) -> bool {
    let mut missing = reads.saturating_mul(SHORTEST_READ);
    for event in events {
        if let Event::ClientBytes(_, bytes) = event {
            missing = missing.saturating_sub(bytes.as_slice().len());
        }
    }
    missing == 0
}
