//! What a leader does: it connects, sends, and leaves.

ghost use Rattle.std.specs.Prelude.{◌≡◌, map, ◌∷◌, [], IfOk, OnOk};
ghost use Rattle.std.specs.List.{All};
ghost use Rattle.values.specs.Gains.{Puts};
ghost use Rattle.quorum_packet.specs.Feed.{CanBeWritten};
ghost use Rattle.quorum_packet.specs.Items.{items_shown_at};
ghost use Rattle.quorum_packet.specs.Lending.{owned_item};
ghost use Rattle.quorum_packet.specs.Packet.{packet_format};
ghost use Rattle.replica.specs.Gathering.{AppliesTxns};
ghost use Rattle.replica.specs.Taking.{IsAnswerable};
ghost use Rattle.world.specs.Clients.{close_all_clients};
ghost use Rattle.world.specs.Steps.{prepend_outputs};
ghost use Rattle.world.specs.declared.output.Output.TheVariants.{CloseLeader};
ghost use Rattle.watch_manager.specs.Watches.{fire};
ghost use Rattle.world.specs.Sending.{with_watches, to_leader};
ghost use Rattle.observer_core.specs.Leader.{part_reader, take_items, item_step, answer_news, meet_leader, disconnect_all, take_leader_bytes, end_leader};
ghost use Rattle.observer_core.specs.Inner.{tell_all, send_outcome, ReceivesItem, DeliversItems, FollowsStream};
ghost use Rattle.world.specs.Results.{MakesStep, MeetsStep};

use crate::gathering::{settle_txns, take_item};
use crate::machine::{Leader, Machine};
use data_tree::{Outcome, Tree, Trigger};
use leader_answers::{
    answer_applied_txn, answer_ping, answer_revalidated, answer_sync, due_in_log,
};
use quorum_packet::{LentItem, LentItems, PacketFeed, QuorumPacket};
use replica::{ItemOutcome, LeaderNews};
use snapshot_codec::Loader;
use std::alloc::Global;
use std::mem;
use txn_codec::Txn;
use values::{Fault, NoMemory, ReadError};
use watch_manager::Event;
use world::{Clients, Output, Stage, World, notify_each, send_to_leader};

// Sends packets to the leader, in order and one output each.
fn send_each(
    alloc: Global,
    packets: &[QuorumPacket],
    outputs: &mut Vec<Output>,
) -> Result<(), NoMemory>
    requires { All packet_format.Writable packets.now }
    ensures { Puts result outputs.old.items (map to_leader packets.now) outputs.new.items }
{
    for packet in packets {
        send_to_leader(alloc, packet, outputs)?;
    }
    Ok(())
}

// The events of what changed. The watches that fired are used up.
fn fire(
    alloc: Global,
    world: &mut World,
    triggers: &[Trigger],
) -> Result<Vec<(u64, Event)>, NoMemory>
    ensures events { IfOk result (λ events. events.items ≡ (fire world.old.clients.watches triggers.now).events) }
    ensures left { OnOk result
        (world.new ≡ with_watches world.old (fire world.old.clients.watches triggers.now).left) }
{
    world.clients.watches.fire(alloc, triggers)
}

// Sends packets to the leader, and then an event to each watcher.
#[tactic(auto, using(crate::proofs::Delivering::told_meets))]
fn tell(
    alloc: Global,
    stage: &mut Stage,
    packets: &[QuorumPacket],
    triggers: &[Trigger],
) -> Result<(), NoMemory>
    requires { All packet_format.Writable packets.now }
    ensures { MakesStep result stage.old
        (λ w. tell_all w packets.now triggers.now)
        stage.new }
{
    let events = fire(alloc, &mut stage.world, triggers)?;
    send_each(alloc, packets, &mut stage.outputs)?;
    notify_each(alloc, events.as_slice(), &mut stage.outputs)
}

// Answers a PING, or the clients that the news of the leader concerns.
fn answer_news(alloc: Global, stage: &mut Stage, news: Option<LeaderNews>) -> Result<(), NoMemory>
    requires { IsAnswerable news }
    ensures { MakesStep result stage.old
        (answer_news news)
        stage.new }
{
    match news {
        None => Ok(()),
        Some(LeaderNews::Ping(ping)) => answer_ping(alloc, stage, ping),
        Some(LeaderNews::Applied { place, results }) => {
            let due = due_in_log(&stage.world, place);
            answer_applied_txn(alloc, stage, place, due, &results)
        }
        Some(LeaderNews::SyncSettled) => answer_sync(alloc, stage),
        Some(LeaderNews::Revalidated { session, is_valid }) => {
            answer_revalidated(alloc, stage, session, is_valid)
        }
    }
}

// Tells what an item brought, and then answers those that it concerns.
#[tactic(auto, using(world::proofs::Steps::then_meets, world::proofs::Steps::first_stops))]
fn send_outcome(alloc: Global, stage: &mut Stage, brought: ItemOutcome) -> Result<(), NoMemory>
    requires writable { All packet_format.Writable brought.replies }
    requires answerable { IsAnswerable brought.news }
    ensures { MakesStep result stage.old
        (λ w. send_outcome w brought)
        stage.new }
{
    tell(
        alloc,
        stage,
        brought.replies.as_slice(),
        brought.triggers.as_slice(),
    )?;
    answer_news(alloc, stage, brought.news)
}

#[tactic(auto, using(crate::proofs::Delivering::all_of))]
pub(crate) fn receive_item(
    alloc: Global,
    loader: &mut Loader,
    stage: &mut Stage,
    item: LentItem<'_>,
) -> Result<(), ReadError>
    requires { CanBeWritten (owned_item item) }
    ensures { ReceivesItem result stage.old.outputs
        (item_step (record { loading = loader.old; world = stage.old.after }) (owned_item item.entry))
        (record { loading = loader.old; world = stage.old.after })
        stage.new.outputs
        (record { loading = loader.new; world = stage.new.after }) }
{
    match stage.world.replica.take(alloc, loader, item) {
        Ok(brought) => Ok(send_outcome(alloc, stage, brought)?),
        Err(error) => Err(error),
    }
}

// Takes the complete packets and parts, each as soon as it is read. Returns the fault that ends the stream, if there is
// one.
fn drain(
    alloc: Global,
    items: &mut LentItems<'_>,
    loader: &mut Loader,
    stage: &mut Stage,
) -> Result<Option<Fault>, NoMemory>
    ensures source { items.new.source ≡ items.old.source }
    ensures delivers { DeliversItems result stage.old.outputs
        (take_items item_step (record { loading = loader.old; world = stage.old.after }) (items_shown_at items.old.place))
        stage.new.outputs items.new.place (record { loading = loader.new; world = stage.new.after }) }
{
    loop {
        match items.next(alloc) {
            Ok(None) => return Ok(None),
            Ok(Some(item)) => match receive_item(alloc, loader, stage, item) {
                Ok(()) => {}
                Err(ReadError::NoMemory) => return Err(NoMemory),
                Err(ReadError::Fault(fault)) => return Ok(Some(fault)),
            },
            Err(ReadError::NoMemory) => return Err(NoMemory),
            Err(ReadError::Fault(fault)) => return Ok(Some(fault)),
        }
    }
}

// Does what `drain` does. Transactions are applied as one list, as far as nothing else comes between them.
fn drain_gathered<D: Fn(&mut Tree, &[Txn]) -> Result<Vec<Outcome>, NoMemory>>(
    alloc: Global,
    doer: &D,
    items: &mut LentItems<'_>,
    loader: &mut Loader,
    stage: &mut Stage,
) -> Result<Option<Fault>, NoMemory>
    requires { AppliesTxns (D.pre doer.now) (D.post doer.now) }
    ensures source { items.new.source ≡ items.old.source }
    ensures delivers { DeliversItems result stage.old.outputs
        (take_items item_step (record { loading = loader.old; world = stage.old.after }) (items_shown_at items.old.place))
        stage.new.outputs items.new.place (record { loading = loader.new; world = stage.new.after }) }
{
    let mut done = stage.world.replica.learner().since_base().len();
    'item: loop {
        match items.next(alloc) {
            Ok(None) => {
                settle_txns(alloc, doer, done, stage)?;
                return Ok(None);
            }
            Ok(Some(item)) => {
                match take_item(alloc, doer, &mut done, loader, stage, item) {
                    Ok(()) => {}
                    Err(ReadError::NoMemory) => return Err(NoMemory),
                    Err(ReadError::Fault(fault)) => return Ok(Some(fault)),
                }
            }
            Err(ReadError::NoMemory) => return Err(NoMemory),
            Err(ReadError::Fault(fault)) => {
                settle_txns(alloc, doer, done, stage)?;
                return Ok(Some(fault));
            }
        }
    }
}

// Closes all connections in ascending order of their numbers.
fn close_all(clients: &mut Clients, outputs: &mut Vec<Output>) -> Result<(), NoMemory>
    ensures { MeetsStep result outputs.old.items (close_all_clients clients.old) outputs.new.items clients.new }
{
    while let Some(number) = clients.close_first() {
        outputs.push(Output::CloseClient(number))?;
    }
    Ok(())
}

// Ends the replica's stream, and drops all clients and their requests.
fn disconnect(alloc: Global, stage: &mut Stage) -> Result<(), NoMemory>
    ensures { MakesStep result stage.old disconnect_all stage.new }
{
    let world = &mut stage.world;
    world.replica.end();
    close_all(&mut world.clients, &mut stage.outputs)?;
    world.clients.pending.clear(alloc);
    Ok(())
}

// Closes the leader for a fault, and then all clients.
fn close_on_fault(alloc: Global, fault: Fault, stage: &mut Stage) -> Result<(), NoMemory>
    ensures { MakesStep result stage.old
        (λ w. prepend_outputs (CloseLeader fault ∷ []) (disconnect_all w))
        stage.new }
{
    stage.outputs.push(Output::CloseLeader(fault))?;
    disconnect(alloc, stage)
}

/// A leader has connected, and the observer introduces itself. While it has a leader, another one is ignored.
pub(crate) fn meet_leader(alloc: Global, machine: &mut Machine) -> Result<(), NoMemory>
    ensures { MakesStep result machine.old (λ m. meet_leader part_reader m.leader m.world) machine.new }
{
    if machine.leader.is_some() {
        return Ok(());
    }
    let server_id = machine.stage.world.settings.server_id;
    let dialect = machine.stage.world.replica.learner().dialect();
    let replies = machine.stage.world.replica.start(alloc, server_id)?;
    let key = machine.stage.world.replica.tree().hash_key();
    machine.leader = Some(Leader {
        feed: PacketFeed::in_dialect(dialect, alloc),
        loader: Loader::with_key(dialect, alloc, key),
    });
    send_each(alloc, replies.as_slice(), &mut machine.stage.outputs)
}

// Does what `drain` does. Whether transactions are applied as one list is the caller's choice.
fn drain_either<D: Fn(&mut Tree, &[Txn]) -> Result<Vec<Outcome>, NoMemory>>(
    alloc: Global,
    doer: &D,
    gathers: bool,
    items: &mut LentItems<'_>,
    loader: &mut Loader,
    stage: &mut Stage,
) -> Result<Option<Fault>, NoMemory>
    requires { AppliesTxns (D.pre doer.now) (D.post doer.now) }
    ensures source { items.new.source ≡ items.old.source }
    ensures delivers { DeliversItems result stage.old.outputs
        (take_items item_step (record { loading = loader.old; world = stage.old.after }) (items_shown_at items.old.place))
        stage.new.outputs items.new.place (record { loading = loader.new; world = stage.new.after }) }
{
    if gathers {
        drain_gathered(alloc, doer, items, loader, stage)
    } else {
        drain(alloc, items, loader, stage)
    }
}

// Takes a piece of the leader's stream. Returns the fault that ends the stream, if there is one.
fn follow<D: Fn(&mut Tree, &[Txn]) -> Result<Vec<Outcome>, NoMemory>>(
    alloc: Global,
    doer: &D,
    gather_from: usize,
    leader: &mut Leader,
    stage: &mut Stage,
    bytes: &[u8],
) -> Result<Option<Fault>, NoMemory>
    requires { AppliesTxns (D.pre doer.now) (D.post doer.now) }
    ensures { FollowsStream result stage.old.outputs
        (part_reader.taken leader.old stage.old.after bytes.now)
        stage.new.outputs leader.new stage.new.after }
{
    let feed = mem::replace(&mut leader.feed, PacketFeed::new(alloc));
    let (source, progress) = feed.open(bytes)?;
    let mut items = LentItems::new(source.as_slice(), progress);
    let gathers = bytes.len() >= gather_from;
    let loader = &mut leader.loader;
    if let Some(fault) = drain_either(alloc, doer, gathers, &mut items, loader, stage)? {
        return Ok(Some(fault));
    }
    let (used, progress) = items.close();
    leader.feed = PacketFeed::resume(source, used, progress)?;
    Ok(None)
}

/// Takes a piece of the leader's stream. A fault closes the leader and all clients. Without a leader the bytes are
/// ignored. In a piece of `gather_from` bytes or more, transactions are gathered for `doer`; in a shorter one each is
/// applied as soon as it is read.
pub(crate) fn take_leader_bytes<D: Fn(&mut Tree, &[Txn]) -> Result<Vec<Outcome>, NoMemory>>(
    alloc: Global,
    doer: &D,
    gather_from: usize,
    machine: &mut Machine,
    bytes: &[u8],
) -> Result<(), NoMemory>
    requires { AppliesTxns (D.pre doer.now) (D.post doer.now) }
    ensures { MakesStep result machine.old
        (λ m. take_leader_bytes part_reader m.leader m.world bytes.now)
        machine.new }
{
    let Some(leader) = &mut machine.leader else {
        return Ok(());
    };
    match follow(alloc, doer, gather_from, leader, &mut machine.stage, bytes)? {
        None => Ok(()),
        Some(fault) => {
            machine.leader = None;
            close_on_fault(alloc, fault, &mut machine.stage)
        }
    }
}

/// The leader is gone, and all clients are closed. A stream that ends inside a packet or an image is a fault.
pub(crate) fn end_leader(alloc: Global, machine: &mut Machine) -> Result<(), NoMemory>
    ensures { MakesStep result machine.old (λ m. end_leader part_reader m.leader m.world) machine.new }
{
    let Some(leader) = machine.leader.take() else {
        return Ok(());
    };
    let ended = leader.feed.end();
    drop(leader);
    match ended {
        Ok(()) => disconnect(alloc, &mut machine.stage),
        Err(fault) => close_on_fault(alloc, fault, &mut machine.stage),
    }
}
