//! Transactions that are gathered, and then applied as one list.

ghost use Rattle.std.specs.Prelude.{◌≡◌, OnOk, IfOk};
ghost use Rattle.data_tree.specs.Meaning.{state_after, outcomes_of_txns};

use crate::events::at;
use data_tree::{HashKey, Outcome, Tree};
use jute::Stat;
use quorum_packet::{LentItem, Packet, PacketKind};
use replica::{Replica, brings_txns};
use settings::Dialect;
use std::alloc::Global;
use std::test::Fail;
use txn_codec::Txn;
use values::{Bytes, Fault, NoMemory, ReadError};

// Session 7 creates /a with the data "hi", at 1,000 milliseconds.
const CREATE: &[u8] =
    b"\0\0\0\0\0\0\0\x07\0\0\0\x01\0\0\0\x01\0\0\0\x01\0\0\0\0\0\0\x03\xe8\0\0\0\x01\0\0\0\x02/a\0\0\0\x02hi\0\0\0\x01\0\0\0\x1f\0\0\0\x05world\0\0\0\x06anyone\0\0\0\0\x01";

// It sets the data of /a to null at version 1, at 2,000 milliseconds.
const SET_DATA: &[u8] =
    b"\0\0\0\0\0\0\0\x07\0\0\0\x02\0\0\0\x01\0\0\0\x02\0\0\0\0\0\0\x07\xd0\0\0\0\x05\0\0\0\x02/a\xff\xff\xff\xff\0\0\0\x01";

// The view of a replica that has gathered transactions and applied them.
#[derive(Drop)]
struct GatheredView {
    // The number of nodes before they were applied.
    nodes_before: usize,
    // The error of each transaction, and the number of its triggers.
    outcomes: Vec<(i32, usize)>,
    stat: Option<Stat>,
    // The fault of one more transaction, and the length of the log after it.
    refused: Option<Fault>,
    logged: usize,
}

// Gathers the INFORM of the transaction. Returns its fault, if it is refused for one.
fn gather(
    alloc: Global,
    replica: &mut Replica,
    counter: u32,
    txn: &[u8],
) -> Result<Option<Fault>, NoMemory> {
    let inform = LentItem::Packet(Packet::new(
        PacketKind::Inform.code(),
        at(counter),
        Some(Bytes::new(txn)),
        None,
    ));
    if !brings_txns(&inform) {
        return Ok(Some(Fault::UnexpectedPacket));
    }
    match replica.gather(alloc, inform) {
        Ok(()) => Ok(None),
        Err(ReadError::Fault(fault)) => Ok(Some(fault)),
        Err(ReadError::NoMemory) => Err(NoMemory),
    }
}

// Applies two transactions. Any other number of them is refused.
fn apply_two(alloc: Global, tree: &mut Tree, txns: &[Txn]) -> Result<Vec<Outcome>, NoMemory>
    ensures tree { OnOk result (tree.new ≡ state_after tree.old txns.now) }
    ensures outcomes { IfOk result (λ v. v.items ≡ outcomes_of_txns tree.old txns.now) }
{
    let [first, second] = txns else {
        return Err(NoMemory);
    };
    let mut outcomes = Vec::new(alloc);
    outcomes.push(tree.apply(alloc, first)?)?;
    outcomes.push(tree.apply(alloc, second)?)?;
    Ok(outcomes)
}

// Applies all that the log has.
fn apply_all(alloc: Global, replica: &mut Replica) -> Result<Vec<Outcome>, NoMemory> {
    let doer = |tree: &mut Tree, txns: &[Txn]| -> Result<Vec<Outcome>, NoMemory>
        ensures tree { OnOk result (tree.new ≡ state_after tree.old txns.now) }
        ensures outcomes { IfOk result (λ v. v.items ≡ outcomes_of_txns tree.old txns.now) }
    { apply_two(alloc, tree, txns) };
    replica.apply_gathered(alloc, 0, &doer)
}

fn view(alloc: Global, replica: &mut Replica) -> Result<GatheredView, NoMemory> {
    gather(alloc, replica, 1, CREATE)?;
    gather(alloc, replica, 2, SET_DATA)?;
    let nodes_before = replica.tree().paths();
    let mut outcomes = Vec::new(alloc);
    for outcome in apply_all(alloc, replica)? {
        outcomes.push((outcome.results.err, outcome.triggers.len()))?;
    }
    let refused = gather(alloc, replica, 2, SET_DATA)?;
    Ok(GatheredView {
        nodes_before,
        outcomes,
        stat: replica.tree().stat("/a"),
        refused,
        logged: replica.learner().since_base().len(),
    })
}

// The view of a primed replica.
fn gathered(alloc: Global) -> Result<GatheredView, NoMemory> {
    let mut replica = Replica::primed(alloc, HashKey::default(), Dialect::Zk34, 4, 10_000)?;
    view(alloc, &mut replica)
}

#[test]
fn gathered_transactions_are_applied_as_one_list(rt: HostRuntime) -> Result<(), Fail> {
    let seen = gathered(rt.alloc())?;
    // The fresh tree has 3 nodes. A create triggers two changes, a setData one.
    assert!(rt; seen.nodes_before == 3);
    assert!(rt; seen.outcomes.as_slice() == [(0i32, 2usize), (0, 1)].as_slice());
    let Some(stat) = seen.stat else {
        return Err(Fail::from("no node"));
    };
    assert!(rt; stat.czxid == at(1) && stat.mzxid == at(2) && stat.mtime == 2_000);
    assert!(rt; stat.version == 1 && stat.data_length == 0);
    assert!(rt; seen.refused == Some(Fault::OutOfOrder) && seen.logged == 2);
    Ok(())
}
