//! The machine plays events.
//!
//! A read that a client asks for may wait while others follow. The reads that wait are answered before anything that
//! could tell the difference: before a client's frame that is no read, before any other event, and at the end.

ghost use Rattle.std.specs.Prelude.{◌≢◌, ℕ, List};
ghost use Rattle.replica.specs.Gathering.{AppliesTxns};
ghost use Rattle.read_processor.specs.Asking.{LooksAtAsks};
ghost use Rattle.observer_core.specs.Play.{play_event, play};
ghost use Rattle.observer_core.specs.Inner.{LeavesReads};
ghost use Rattle.world.specs.Results.{MakesStep};

use crate::event::Event;
use crate::leader::{end_leader, meet_leader, take_leader_bytes};
use crate::machine::Machine;
use client_service::{
    AskedRead, end_client, expire_session, open_client, settle_reads, take_client_bytes,
};
use data_tree::{Outcome, Tree};
use read_processor::{Ask, Look};
use std::alloc::Global;
use txn_codec::Txn;
use values::NoMemory;

// Plays an event other than a client's bytes.
fn happen_alone<D: Fn(&mut Tree, &[Txn]) -> Result<Vec<Outcome>, NoMemory>>(
    alloc: Global,
    doer: &D,
    gather_from: usize,
    machine: &mut Machine,
    event: &Event<'_>,
) -> Result<(), NoMemory>
    requires applies { AppliesTxns (D.pre doer.now) (D.post doer.now) }
    requires other { (number : ℕ) (bytes : List ℕ) → event.now ≢ Event.ClientBytes number bytes }
    ensures { MakesStep result machine.old (λ m. play_event m event.now) machine.new }
{
    match event {
        Event::LeaderUp => meet_leader(alloc, machine),
        Event::LeaderBytes(bytes) => take_leader_bytes(
            alloc,
            doer,
            gather_from,
            machine,
            bytes.as_slice(),
        ),
        Event::LeaderEnd => end_leader(alloc, machine),
        Event::ClientUp(number, address) => {
            open_client(alloc, *number, address, &mut machine.stage.world)
        }
        Event::ClientBytes(_, _) => unreachable!(),
        Event::ClientEnd(number) => {
            end_client(*number, &mut machine.stage.world);
            Ok(())
        }
        Event::Expire(session) => expire_session(session, &mut machine.stage),
        Event::Checkpoint => {
            machine.stage.world.replica.checkpoint(alloc);
            Ok(())
        }
    }
}

// Plays an event. Before any but a client's bytes the reads that wait are answered.
fn happen<
    D: Fn(&mut Tree, &[Txn]) -> Result<Vec<Outcome>, NoMemory>,
    L: Fn(&Tree, &[Ask<'_>]) -> Result<Vec<Look>, NoMemory>,
>(
    alloc: Global,
    doer: &D,
    looker: &L,
    gather_from: usize,
    gathers: bool,
    machine: &mut Machine,
    asked: &mut Vec<AskedRead>,
    event: &Event<'_>,
) -> Result<(), NoMemory>
    requires applies { AppliesTxns (D.pre doer.now) (D.post doer.now) }
    requires looks { LooksAtAsks (L.pre looker.now) (L.post looker.now) }
    ensures { LeavesReads result machine.old asked.old.items (λ m. play_event m event.now) machine.new asked.new.items }
{
    sessions::others_stay();
    match event {
        Event::ClientBytes(number, bytes) => {
            let serving = machine.stage.world.replica.is_serving();
            take_client_bytes(
                alloc,
                looker,
                serving,
                gathers,
                *number,
                &mut machine.stage,
                asked,
                bytes.as_slice(),
            )
        }
        _ => {
            settle_reads(alloc, looker, asked, &mut machine.stage)?;
            happen_alone(alloc, doer, gather_from, machine, event)
        }
    }
}

/// Plays the events in order and appends the outputs of each. In an event of the leader with `gather_from` bytes or
/// more transactions wait for each other, and the closure `doer` applies a list of them to the tree; in a shorter one
/// each is applied at once. If `gathers` is set, reads wait for each other, and `looker` answers a run of them;
/// otherwise each is answered at once.
///
/// Fails only if an allocation is refused; then a prefix of the outputs has been appended.
pub fn run<
    D: Fn(&mut Tree, &[Txn]) -> Result<Vec<Outcome>, NoMemory>,
    L: Fn(&Tree, &[Ask<'_>]) -> Result<Vec<Look>, NoMemory>,
>(
    alloc: Global,
    doer: &D,
    looker: &L,
    gather_from: usize,
    gathers: bool,
    machine: &mut Machine,
    events: &[Event<'_>],
) -> Result<(), NoMemory>
    requires applies { AppliesTxns (D.pre doer.now) (D.post doer.now) }
    requires looks { LooksAtAsks (L.pre looker.now) (L.post looker.now) }
    ensures { MakesStep result machine.old (λ m. play m events.now) machine.new }
{
    let mut asked = Vec::new(alloc);
    for event in events {
        happen(
            alloc,
            doer,
            looker,
            gather_from,
            gathers,
            machine,
            &mut asked,
            event,
        )?;
    }
    settle_reads(alloc, looker, &mut asked, &mut machine.stage)
}
