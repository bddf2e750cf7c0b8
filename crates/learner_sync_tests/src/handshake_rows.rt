//! The handshake of a learner and its leader.

use crate::steps::{Seen, at, come, does, follow, greeted, packet, sends, version};
use jute::{ReadRecord, Reader, WriteRecord};
use learner_sync::{Learner, LearnerInfo, Phase};
use quorum_packet::PacketKind;
use settings::{Dialect, Epochs, ServerId};
use std::alloc::Global;
use std::test::Fail;
use values::{Blob, Fault};

// A learner of server 3 in epoch 1 that waits for the leader's epoch.
fn waiting(alloc: Global) -> Result<Learner, Fail> {
    let Some(epochs) = Epochs::new(1, 1) else {
        return Err("no epochs".into());
    };
    let mut learner = Learner::new(alloc, Dialect::Zk34, epochs);
    come(alloc, &mut learner, ServerId::default())?;
    Ok(learner)
}

#[test]
fn introduction(rt: HostRuntime) -> Result<(), Fail> {
    let mut learner = Learner::new(rt.alloc(), Dialect::Zk34, Epochs::default());
    let Some(server_id) = ServerId::new(3) else {
        return Err("no server id".into());
    };
    let acts = come(rt.alloc(), &mut learner, server_id)?;
    let info: &[u8] = b"\0\0\0\0\0\0\0\x03\0\x01\0\0";
    assert!(rt; sends(&acts, 1, 16, 0, Some(info)));
    assert!(rt; learner.phase() == Phase::Hello);
    // While there is a leader, another one is ignored.
    assert!(rt; come(rt.alloc(), &mut learner, server_id)?.is_empty());
    learner.end();
    assert!(rt; learner.phase() == Phase::Down);
    Ok(())
}

#[test]
fn same_epoch(rt: HostRuntime) -> Result<(), Fail> {
    let mut learner = waiting(rt.alloc())?;
    let info = packet(PacketKind::LeaderInfo, at(0), version(rt.alloc())?);
    let acts = follow(rt.alloc(), &mut learner, info)?;
    let minus_one: &[u8] = b"\xff\xff\xff\xff";
    assert!(rt; sends(&acts, 1, 18, 0, Some(minus_one)));
    assert!(rt; learner.epochs() == (1, 1));
    Ok(())
}

#[test]
fn greater_epoch(rt: HostRuntime) -> Result<(), Fail> {
    let mut learner = waiting(rt.alloc())?;
    let info = packet(PacketKind::LeaderInfo, 0x2_0000_0000, version(rt.alloc())?);
    let acts = follow(rt.alloc(), &mut learner, info)?;
    let one: &[u8] = b"\0\0\0\x01";
    assert!(rt; sends(&acts, 2, 18, 0, Some(one)));
    assert!(rt; learner.epochs() == (2, 1));
    Ok(())
}

#[test]
fn refused_greetings(rt: HostRuntime) -> Result<(), Fail> {
    let alloc = rt.alloc();
    let mut learner = waiting(alloc)?;
    let lower = packet(PacketKind::LeaderInfo, 0, None);
    assert!(rt;
        does(
            alloc,
            &mut learner,
            lower,
            Seen::Refused(Fault::EpochTooSmall)
        )?
    );
    let bytes = Some(Blob::new(alloc, b"\0\x01\0")?);
    let short = packet(PacketKind::LeaderInfo, 0x2_0000_0000, bytes);
    assert!(rt; does(alloc, &mut learner, short, Seen::Refused(Fault::Short))?);
    let early = packet(PacketKind::Diff, 0, None);
    assert!(rt;
        does(
            alloc,
            &mut learner,
            early,
            Seen::Refused(Fault::UnexpectedPacket)
        )?
    );
    assert!(rt; learner.epochs() == (1, 1));
    Ok(())
}

#[test]
fn diff(rt: HostRuntime) -> Result<(), Fail> {
    let alloc = rt.alloc();
    let mut learner = greeted(alloc)?;
    let late = packet(PacketKind::NewLeader, at(0), None);
    assert!(rt;
        does(
            alloc,
            &mut learner,
            late,
            Seen::Refused(Fault::UnexpectedPacket)
        )?
    );
    let diff = packet(PacketKind::Diff, 0, None);
    assert!(rt; does(alloc, &mut learner, diff, Seen::Nothing)?);
    let acts = follow(
        alloc,
        &mut learner,
        packet(PacketKind::NewLeader, at(0), None),
    )?;
    assert!(rt; sends(&acts, 2, 3, at(0), None));
    assert!(rt; learner.epochs() == (1, 1));
    let acts = follow(
        alloc,
        &mut learner,
        packet(PacketKind::UpToDate, at(0), None),
    )?;
    assert!(rt; sends(&acts, 3, 3, at(0), None));
    assert!(rt; learner.phase() == Phase::Serving);
    Ok(())
}

#[test]
#[tactic(auto, unfolding(learner_sync::specs::Records::learner_info))]
fn info(rt: HostRuntime) -> Result<(), Fail> {
    let info = LearnerInfo {
        server_id: 3,
        protocol_version: 0x1_0000,
    };
    let mut bytes = Vec::new(rt.alloc());
    info.write(&mut bytes)?;
    let written: &[u8] = b"\0\0\0\0\0\0\0\x03\0\x01\0\0";
    assert_eq!(rt; bytes.as_slice(), written);
    let mut reader = Reader::new(bytes.as_slice());
    let read = LearnerInfo::read(rt.alloc(), &mut reader)?;
    assert!(rt; read == info);
    Ok(())
}
