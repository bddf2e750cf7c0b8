//! The packets that bring a learner up to date, and those that come afterwards.

use crate::steps::{
    Seen, at, come, counters, does, follow, greeted, packet, sends, version, with_txn,
};
use learner_sync::Learner;
use quorum_packet::PacketKind;
use settings::{Dialect, ServerId};
use std::alloc::Global;
use std::test::Fail;
use values::Fault;

// A learner that serves, with a base at 3, and 4 and 5 since.
fn with_base(alloc: Global) -> Result<Learner, Fail> {
    let mut learner = Learner::primed(alloc, Dialect::Zk34);
    follow(
        alloc,
        &mut learner,
        with_txn(alloc, PacketKind::Inform, at(3))?,
    )?;
    learner.checkpoint();
    follow(
        alloc,
        &mut learner,
        with_txn(alloc, PacketKind::Inform, at(4))?,
    )?;
    follow(
        alloc,
        &mut learner,
        with_txn(alloc, PacketKind::Inform, at(5))?,
    )?;
    Ok(learner)
}

// The same, after the handshake with another leader of its epoch.
fn greeted_again(alloc: Global) -> Result<Learner, Fail> {
    let mut learner = with_base(alloc)?;
    learner.end();
    come(alloc, &mut learner, ServerId::default())?;
    let info = packet(PacketKind::LeaderInfo, at(0), version(alloc)?);
    follow(alloc, &mut learner, info)?;
    Ok(learner)
}

// A learner with the proposals 1 and 2.
fn proposed(alloc: Global) -> Result<Learner, Fail> {
    let mut learner = greeted(alloc)?;
    follow(alloc, &mut learner, packet(PacketKind::Diff, 0, None))?;
    follow(
        alloc,
        &mut learner,
        with_txn(alloc, PacketKind::Proposal, at(1))?,
    )?;
    follow(
        alloc,
        &mut learner,
        with_txn(alloc, PacketKind::Proposal, at(2))?,
    )?;
    Ok(learner)
}

#[test]
fn commits(rt: HostRuntime) -> Result<(), Fail> {
    let alloc = rt.alloc();
    let mut learner = proposed(alloc)?;
    let second = packet(PacketKind::Commit, at(2), None);
    assert!(rt;
        does(
            alloc,
            &mut learner,
            second,
            Seen::Refused(Fault::CommitMismatch)
        )?
    );
    let first = packet(PacketKind::Commit, at(1), None);
    assert!(rt; does(alloc, &mut learner, first, Seen::Apply)?);
    assert!(rt; learner.last_zxid() == at(1));
    let ready = packet(PacketKind::UpToDate, at(0), None);
    assert!(rt; does(alloc, &mut learner, ready, Seen::Sent(3))?);
    assert!(rt; counters(&learner) == 1);
    assert!(rt; learner.log().is_some());
    Ok(())
}

#[test]
fn twice(rt: HostRuntime) -> Result<(), Fail> {
    let alloc = rt.alloc();
    let mut learner = Learner::primed(alloc, Dialect::Zk34);
    let once = with_txn(alloc, PacketKind::Inform, at(1))?;
    assert!(rt; does(alloc, &mut learner, once, Seen::Apply)?);
    let twice = with_txn(alloc, PacketKind::Inform, at(1))?;
    assert!(rt; does(alloc, &mut learner, twice, Seen::Refused(Fault::OutOfOrder))?);
    assert!(rt; counters(&learner) == 1);
    Ok(())
}

#[test]
fn truncates_one(rt: HostRuntime) -> Result<(), Fail> {
    let alloc = rt.alloc();
    let mut learner = greeted_again(alloc)?;
    let below = packet(PacketKind::Trunc, at(2), None);
    assert!(rt;
        does(
            alloc,
            &mut learner,
            below,
            Seen::Refused(Fault::CannotTruncate)
        )?
    );
    assert!(rt; counters(&learner) == 45);
    let kept = packet(PacketKind::Trunc, at(4), None);
    assert!(rt; does(alloc, &mut learner, kept, Seen::Truncate(at(4)))?);
    assert!(rt; counters(&learner) == 4);
    assert!(rt; learner.last_zxid() == at(4));
    Ok(())
}

#[test]
fn truncates_to_base(rt: HostRuntime) -> Result<(), Fail> {
    let alloc = rt.alloc();
    let mut learner = greeted_again(alloc)?;
    let all = packet(PacketKind::Trunc, at(3), None);
    assert!(rt; does(alloc, &mut learner, all, Seen::Truncate(at(3)))?);
    assert!(rt; learner.last_zxid() == at(3));
    assert!(rt; learner.since_base().is_empty());
    assert!(rt; learner.log().is_none());
    Ok(())
}

#[test]
fn serves(rt: HostRuntime) -> Result<(), Fail> {
    let alloc = rt.alloc();
    let mut learner = with_base(alloc)?;
    let ping = packet(PacketKind::Ping, at(2), None);
    assert!(rt; does(alloc, &mut learner, ping, Seen::AnswerPing(at(2)))?);
    let synced = packet(PacketKind::Sync, 0, None);
    assert!(rt; does(alloc, &mut learner, synced, Seen::SettleSync)?);
    let passed = packet(PacketKind::Snap, -1, None);
    assert!(rt; does(alloc, &mut learner, passed, Seen::Nothing)?);
    let none = packet(PacketKind::Inform, at(6), None);
    assert!(rt; does(alloc, &mut learner, none, Seen::Refused(Fault::Short))?);
    assert!(rt; counters(&learner) == 45);
    Ok(())
}
