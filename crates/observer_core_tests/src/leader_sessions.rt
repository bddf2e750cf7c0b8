//! Sessions of clients: the leader creates them, is told whose clients were heard, and ends them.

use crate::helpers::{asked, ends, feed, primed, told};
use crate::rows::get;
use observer_core::{Engine, Event, Output};
use std::alloc::Global;
use std::test::*;
use values::Bytes;

// The connect of a client that asks for a new session, with a timeout of 10 seconds.
const CONNECT: &[u8] = b"\0\0\0\x2c\0\0\0\0\0\0\0\0\0\0\0\0\0\0\x27\x10\0\0\0\0\0\0\0\0\
    \0\0\0\x10\0\0\0\0\0\0\0\0\0\0\0\0\0\0\0\0";

// The packet that asks the leader for it.
const CONNECT_REQUEST: &[u8] =
    b"\0\0\0\x01\xff\xff\xff\xff\xff\xff\xff\xff\0\0\0\x14\x03\0\0\0\0\0\0\x02\
    \0\0\0\0\xff\xff\xff\xf6\0\0\x27\x10\xff\xff\xff\xff";

// The INFORM of its createSession.
const SESSION_CREATED: &[u8] =
    b"\0\0\0\x08\0\0\0\x01\0\0\0\x01\0\0\0\x24\x03\0\0\0\0\0\0\x02\0\0\0\0\
    \0\0\0\x01\0\0\0\x01\0\0\0\0\0\0\x03\xe8\xff\xff\xff\xf6\0\0\x27\x10\xff\xff\xff\xff";

// The response to the connect. The password is SHA-1 of an empty secret and the session's id.
const CONNECTED: &[u8] = b"\0\0\0\x24\0\0\0\0\0\0\x27\x10\x03\0\0\0\0\0\0\x02\0\0\0\x10\
    \x5c\x75\xdd\xec\x09\x5b\xce\x05\xf0\x58\x04\xd5\x8d\xec\xb4\xec";

// A client's ping, and the replies to it before and after the first transaction.
const CLIENT_PING: &[u8] = b"\0\0\0\x08\xff\xff\xff\xfe\0\0\0\x0b";

const CLIENT_PONG: &[u8] = b"\0\0\0\x10\xff\xff\xff\xfe\0\0\0\0\0\0\0\0\0\0\0\0";

const LATER_PONG: &[u8] = b"\0\0\0\x10\xff\xff\xff\xfe\0\0\0\x01\0\0\0\x01\0\0\0\0";

// The leader's PING, and the answers with the first session and with none.
const LEADER_PING: &[u8] = b"\0\0\0\x05\0\0\0\x01\0\0\0\x02\xff\xff\xff\xff\xff\xff\xff\xff";

const FIRST_SESSION_TOLD: &[u8] =
    b"\0\0\0\x05\0\0\0\x01\0\0\0\x02\0\0\0\x0c\x03\0\0\0\0\0\0\x01\0\0\x9c\x40\xff\xff\xff\xff";

const NO_SESSION_TOLD: &[u8] = b"\0\0\0\x05\0\0\0\x01\0\0\0\x02\0\0\0\0\xff\xff\xff\xff";

// A client's closeSession, with xid 5.
const CLOSE: &[u8] = b"\0\0\0\x08\0\0\0\x05\xff\xff\xff\xf5";

// The packet that forwards it for the first session.
const CLOSE_REQUEST: &[u8] =
    b"\0\0\0\x01\xff\xff\xff\xff\xff\xff\xff\xff\0\0\0\x10\x03\0\0\0\0\0\0\x01\
    \0\0\0\x05\xff\xff\xff\xf5\0\0\0\0";

// The INFORM of its transaction, and the reply.
const SESSION_CLOSED: &[u8] =
    b"\0\0\0\x08\0\0\0\x01\0\0\0\x01\0\0\0\x20\x03\0\0\0\0\0\0\x01\0\0\0\x05\
    \0\0\0\x01\0\0\0\x01\0\0\0\0\0\0\x03\xe8\xff\xff\xff\xf5\xff\xff\xff\xff";

const CLOSED: &[u8] = b"\0\0\0\x10\0\0\0\x05\0\0\0\x01\0\0\0\x01\0\0\0\0";

/// What an output has to be.
#[derive(Clone, Copy)]
enum Wanted<'a> {
    Packet(&'a [u8]),
    Frame(u64, &'a [u8]),
    Close(u64),
}

fn is_wanted(output: &Output, wanted: Wanted<'_>) -> bool {
    match (output, wanted) {
        (Output::ToLeader(packet), Wanted::Packet(bytes)) => packet.as_slice() == bytes,
        (Output::ToClient(number, frame), Wanted::Frame(client, bytes)) => {
            *number == client && frame.as_slice() == bytes
        }
        (Output::CloseClient(number), Wanted::Close(client)) => *number == client,
        _ => false,
    }
}

fn are_wanted(outputs: &[Output], wanted: &[Wanted<'_>]) -> bool {
    for (output, one) in outputs.iter().zip(wanted) {
        if !is_wanted(output, *one) {
            return false;
        }
    }
    outputs.len() == wanted.len()
}

// Whether the engine has these outputs, and ends with this zxid.
fn gives(
    alloc: Global,
    mut engine: Engine,
    events: &[Event<'_>],
    wanted: &[Wanted<'_>],
    zxid: i64,
) -> bool {
    let mut outputs = Vec::new(alloc);
    feed(alloc, &mut engine, events, &mut outputs)
        && are_wanted(outputs.as_slice(), wanted)
        && ends(&engine, zxid, 3)
}

// The connect waits for the leader, and a ping after it waits for the connect.
fn admits(alloc: Global, engine: Engine) -> bool {
    let events = [
        Event::ClientUp(2, None),
        Event::ClientBytes(2, Bytes::new(CONNECT)),
        Event::ClientBytes(2, Bytes::new(CLIENT_PING)),
        told(SESSION_CREATED),
    ];
    let wanted = [
        Wanted::Packet(CONNECT_REQUEST),
        Wanted::Frame(2, CONNECTED),
        Wanted::Frame(2, LATER_PONG),
    ];
    gives(alloc, engine, &events, &wanted, 0x1_0000_0001)
}

// The session of a client that was heard is in the answer to one PING, and not to the next. What comes after a
// closeSession is dropped, and its transaction closes the connection; then the session isn't told any more.
fn tells_and_ends(alloc: Global, engine: Engine) -> bool {
    let events = [
        asked(CLIENT_PING),
        told(LEADER_PING),
        told(LEADER_PING),
        asked(CLOSE),
        asked(get()),
        told(SESSION_CLOSED),
        told(LEADER_PING),
    ];
    let wanted = [
        Wanted::Frame(1, CLIENT_PONG),
        Wanted::Packet(FIRST_SESSION_TOLD),
        Wanted::Packet(NO_SESSION_TOLD),
        Wanted::Packet(CLOSE_REQUEST),
        Wanted::Frame(1, CLOSED),
        Wanted::Close(1),
        Wanted::Packet(NO_SESSION_TOLD),
    ];
    gives(alloc, engine, &events, &wanted, 0x1_0000_0001)
}

// Whether the least timeout is this after the events.
fn least_is(alloc: Global, engine: &mut Engine, events: &[Event<'_>], least: Option<i32>) -> bool {
    let mut outputs = Vec::new(alloc);
    feed(alloc, engine, events, &mut outputs) && engine.least_timeout() == least
}

// The first session has the greatest timeout, which is the least until a second one comes, and again when that has
// gone. At the end of the leader all have gone.
fn tells_least_timeout(alloc: Global, mut engine: Engine) -> bool {
    let comes = [
        Event::ClientUp(2, None),
        Event::ClientBytes(2, Bytes::new(CONNECT)),
        told(SESSION_CREATED),
    ];
    least_is(alloc, &mut engine, &[], Some(40_000))
        && least_is(alloc, &mut engine, &comes, Some(10_000))
        && least_is(alloc, &mut engine, &[Event::ClientEnd(2)], Some(40_000))
        && least_is(alloc, &mut engine, &[Event::LeaderEnd], None)
}

#[test]
fn the_least_timeout_is_of_connected_sessions(rt: HostRuntime) -> Result<(), Fail> {
    let alloc = rt.alloc();
    assert!(rt; tells_least_timeout(alloc, primed(alloc)?));
    Ok(())
}

#[test]
fn a_connect_waits_for_its_session(rt: HostRuntime) -> Result<(), Fail> {
    let alloc = rt.alloc();
    assert!(rt; admits(alloc, primed(alloc)?));
    Ok(())
}

#[test]
fn the_leader_hears_of_sessions_and_ends_them(rt: HostRuntime) -> Result<(), Fail> {
    let alloc = rt.alloc();
    assert!(rt; tells_and_ends(alloc, primed(alloc)?));
    Ok(())
}
