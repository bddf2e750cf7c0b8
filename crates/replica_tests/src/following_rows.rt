//! Packets, one after another.

use crate::events::{Event, Start, after, at};
use quorum_packet::PacketKind;
use std::test::Fail;

#[test]
fn a_leader_comes_and_goes(rt: HostRuntime) -> Result<(), Fail> {
    let twice = [Event::Comes, Event::Comes, Event::Goes, Event::Comes];
    let seen = after(rt.alloc(), Start::New, &twice)?;
    assert!(rt; seen.sent.as_slice() == [1usize, 0, 0, 1].as_slice() && !seen.is_serving);
    Ok(())
}

// The handshake of a leader, a DIFF and a session.
const FOLLOWED: [Event; 4] = [
    Event::Comes,
    Event::Greets,
    Event::Packet(PacketKind::Diff, 0),
    Event::Session(7, 1),
];

// The leader says that the replica is up to date, too.
const SERVED: [Event; 5] = [
    Event::Comes,
    Event::Greets,
    Event::Packet(PacketKind::Diff, 0),
    Event::Session(7, 1),
    Event::Packet(PacketKind::UpToDate, 0),
];

#[test]
fn transactions_are_applied(rt: HostRuntime) -> Result<(), Fail> {
    let followed = after(rt.alloc(), Start::New, &FOLLOWED)?;
    assert!(rt; followed.sessions.as_slice() == [7i64].as_slice() && !followed.is_serving);
    Ok(())
}

#[test]
fn the_error_of_a_transaction_is_told(rt: HostRuntime) -> Result<(), Fail> {
    let twice = [Event::Session(7, 1), Event::Missing(2)];
    let seen = after(rt.alloc(), Start::Primed, &twice)?;
    assert!(rt; seen.sent.as_slice() == [1usize, 1].as_slice());
    assert!(rt; seen.errors.as_slice() == [0i32, -101].as_slice() && seen.logged == 2);
    Ok(())
}

#[test]
fn clients_are_served_when_all_is_there(rt: HostRuntime) -> Result<(), Fail> {
    let served = after(rt.alloc(), Start::New, &SERVED)?;
    assert!(rt; served.sent.as_slice() == [1usize, 1, 0, 1, 1].as_slice());
    assert!(rt; served.is_serving && served.last_zxid == at(1));
    Ok(())
}

#[test]
fn what_the_leader_asks_is_handed_on(rt: HostRuntime) -> Result<(), Fail> {
    let asked = [
        Event::Packet(PacketKind::Ping, 0),
        Event::Packet(PacketKind::Sync, 0),
        Event::Packet(PacketKind::Revalidate, 0),
    ];
    let seen = after(rt.alloc(), Start::Primed, &asked)?;
    assert!(rt; seen.sent.as_slice() == [1usize, 1, 0].as_slice());
    Ok(())
}

// A session of the base, besides the one from the start, and two more.
const THREE: [Event; 4] = [
    Event::Session(7, 1),
    Event::Checkpoint,
    Event::Session(8, 2),
    Event::Session(9, 3),
];

// The leader leaves after them, and the next one asks for a truncation.
const TRUNCATED: [Event; 8] = [
    Event::Session(7, 1),
    Event::Checkpoint,
    Event::Session(8, 2),
    Event::Session(9, 3),
    Event::Goes,
    Event::Comes,
    Event::Greets,
    Event::Packet(PacketKind::Trunc, 2),
];

#[test]
fn a_checkpoint_is_the_base_of_the_log(rt: HostRuntime) -> Result<(), Fail> {
    let three = after(rt.alloc(), Start::Primed, &THREE)?;
    assert!(rt; three.sessions.as_slice() == [4i64, 7, 8, 9].as_slice() && three.logged == 2);
    Ok(())
}

#[test]
fn a_truncation_goes_back(rt: HostRuntime) -> Result<(), Fail> {
    let truncated = after(rt.alloc(), Start::Primed, &TRUNCATED)?;
    assert!(rt; truncated.sessions.as_slice() == [4i64, 7, 8].as_slice() && truncated.logged == 1);
    Ok(())
}
