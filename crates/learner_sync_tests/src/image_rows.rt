//! Images, and the packets after them.

use crate::steps::{Seen, at, counters, does, follow, greeted, packet, with_txn};
use learner_sync::Learner;
use quorum_packet::{Item, PacketKind};
use snapshot_codec::{ImagePart, ImageSession};
use std::alloc::Global;
use std::test::Fail;
use values::Fault;

fn session() -> Item {
    Item::Part(ImagePart::Session(ImageSession {
        id: 9,
        timeout: 5_000,
    }))
}

fn end() -> Item {
    Item::Part(ImagePart::End)
}

// A learner that has loaded an image at 5.
fn on_image(alloc: Global) -> Result<Learner, Fail> {
    let mut learner = greeted(alloc)?;
    follow(alloc, &mut learner, packet(PacketKind::Snap, at(5), None))?;
    follow(alloc, &mut learner, end())?;
    Ok(learner)
}

#[test]
fn image(rt: HostRuntime) -> Result<(), Fail> {
    let alloc = rt.alloc();
    let mut learner = greeted(alloc)?;
    let below = packet(PacketKind::Snap, -1, None);
    assert!(rt; does(alloc, &mut learner, below, Seen::Refused(Fault::OutOfOrder))?);
    let snap = packet(PacketKind::Snap, at(5), None);
    assert!(rt; does(alloc, &mut learner, snap, Seen::Nothing)?);
    assert!(rt; does(alloc, &mut learner, session(), Seen::LoadPart)?);
    assert!(rt; learner.last_zxid() == 0);
    assert!(rt; does(alloc, &mut learner, end(), Seen::LoadImage)?);
    assert!(rt; learner.last_zxid() == at(5));
    assert!(rt; learner.log().is_none());
    Ok(())
}

#[test]
fn behind_an_image(rt: HostRuntime) -> Result<(), Fail> {
    let alloc = rt.alloc();
    let mut learner = on_image(alloc)?;
    let early = with_txn(alloc, PacketKind::Inform, at(4))?;
    assert!(rt; does(alloc, &mut learner, early, Seen::Apply)?);
    assert!(rt; learner.last_zxid() == at(5));
    let twice = with_txn(alloc, PacketKind::Inform, at(4))?;
    assert!(rt; does(alloc, &mut learner, twice, Seen::Refused(Fault::OutOfOrder))?);
    let above = with_txn(alloc, PacketKind::Inform, at(6))?;
    assert!(rt; does(alloc, &mut learner, above, Seen::Apply)?);
    assert!(rt; counters(&learner) == 46);
    Ok(())
}

#[test]
fn another_image(rt: HostRuntime) -> Result<(), Fail> {
    let alloc = rt.alloc();
    let mut learner = on_image(alloc)?;
    assert!(rt; does(alloc, &mut learner, session(), Seen::LoadPart)?);
    assert!(rt; does(alloc, &mut learner, end(), Seen::DropImage)?);
    assert!(rt; learner.last_zxid() == at(5));
    Ok(())
}

#[test]
fn up_to_date(rt: HostRuntime) -> Result<(), Fail> {
    let alloc = rt.alloc();
    let mut learner = on_image(alloc)?;
    let ready = packet(PacketKind::UpToDate, at(0), None);
    assert!(rt; does(alloc, &mut learner, ready, Seen::Sent(3))?);
    assert!(rt; learner.epochs() == (1, 1));
    let early = with_txn(alloc, PacketKind::Inform, at(4))?;
    assert!(rt; does(alloc, &mut learner, early, Seen::Refused(Fault::OutOfOrder))?);
    Ok(())
}
