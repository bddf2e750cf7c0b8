//! Images, part by part.

use crate::events::{Event, Start, after, at};
use quorum_packet::PacketKind;
use std::test::Fail;
use values::Fault;

// The handshake of a leader, and a part of an image.
const BEGUN: [Event; 4] = [
    Event::Comes,
    Event::Greets,
    Event::Packet(PacketKind::Snap, 5),
    Event::Part(9),
];

#[test]
fn an_image_that_has_begun_has_no_effect(rt: HostRuntime) -> Result<(), Fail> {
    let begun = after(rt.alloc(), Start::New, &BEGUN)?;
    // The fresh tree's nodes are "/", "/zookeeper" and "/zookeeper/quota".
    assert!(rt; begun.sessions.is_empty() && begun.nodes == 3);
    Ok(())
}

// The image ends, too.
const ENDED: [Event; 5] = [
    Event::Comes,
    Event::Greets,
    Event::Packet(PacketKind::Snap, 5),
    Event::Part(9),
    Event::End,
];

#[test]
fn an_image_takes_effect_at_its_end(rt: HostRuntime) -> Result<(), Fail> {
    let ended = after(rt.alloc(), Start::New, &ENDED)?;
    // The fresh tree is replaced, and the image has no node.
    assert!(rt; ended.sessions.as_slice() == [9i64].as_slice() && ended.nodes == 0);
    Ok(())
}

// Another image comes after it.
const ANOTHER: [Event; 7] = [
    Event::Comes,
    Event::Greets,
    Event::Packet(PacketKind::Snap, 5),
    Event::Part(9),
    Event::End,
    Event::Part(10),
    Event::End,
];

#[test]
fn a_second_image_is_not_asked_for(rt: HostRuntime) -> Result<(), Fail> {
    let another = after(rt.alloc(), Start::New, &ANOTHER)?;
    assert!(rt; another.sessions.as_slice() == [9i64].as_slice());
    Ok(())
}

#[test]
fn without_a_leader_an_image_is_passed_over(rt: HostRuntime) -> Result<(), Fail> {
    let alone = after(rt.alloc(), Start::New, &[Event::Part(9), Event::End])?;
    assert!(rt; alone.sessions.is_empty() && alone.refused.is_none());
    Ok(())
}

// A container at /c, in the image of each of two leaders.
const CONTAINERS: [Event; 13] = [
    Event::Comes,
    Event::Greets,
    Event::Packet(PacketKind::Snap, 5),
    Event::Node("/", 0),
    Event::Node("/c", i64::MIN),
    Event::End,
    Event::Goes,
    Event::Comes,
    Event::Greets,
    Event::Packet(PacketKind::Snap, 6),
    Event::Node("/", 0),
    Event::Node("/c", i64::MIN),
    Event::End,
];

#[test]
fn no_session_owns_a_container(rt: HostRuntime) -> Result<(), Fail> {
    let first = after(rt.alloc(), Start::LaterNew, &CONTAINERS[..6])?;
    assert!(rt; first.owner == Some(0) && first.ephemerals == 0 && first.last_zxid == at(5));
    let second = after(rt.alloc(), Start::LaterNew, &CONTAINERS)?;
    assert!(rt; second.owner == Some(0) && second.ephemerals == 0 && second.last_zxid == at(6));
    Ok(())
}

#[test]
fn in_the_earlier_dialect_each_owner_is_a_session(rt: HostRuntime) -> Result<(), Fail> {
    let seen = after(rt.alloc(), Start::New, &CONTAINERS)?;
    assert!(rt; seen.owner == Some(i64::MIN) && seen.ephemerals == 1);
    Ok(())
}

// The session occurs in the image already.
const DOUBLED: [Event; 5] = [
    Event::Comes,
    Event::Greets,
    Event::Packet(PacketKind::Snap, 5),
    Event::Part(9),
    Event::Part(9),
];

#[test]
fn a_part_that_does_not_fit_is_refused(rt: HostRuntime) -> Result<(), Fail> {
    let doubled = after(rt.alloc(), Start::New, &DOUBLED)?;
    assert!(rt; doubled.refused == Some(Fault::BadImage) && doubled.last_zxid == 0);
    Ok(())
}

/// The key by which nodes are found stays: at first, after an image, and after another leader's.
#[test]
fn the_hash_key_stays(rt: HostRuntime) -> Result<(), Fail> {
    let all: [&[Event]; 3] = [&[], &ENDED, &CONTAINERS];
    for events in all {
        assert!(rt; after(rt.alloc(), Start::New, events)?.has_key);
    }
    Ok(())
}
