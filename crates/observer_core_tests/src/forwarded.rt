//! Writes and syncs of a client: they go to the leader, and are answered from its stream.

use crate::helpers::{are_replies, asked, ends, feed, feed_with_workers, primed, told};
use crate::rows::{get, reply_of_create, set};
use observer_core::{Engine, Event, Output};
use std::alloc::Global;
use std::test::*;
use std::thread::Threads;

// A client's create of /a with the data "hi", with xid 4 and no list.
const CREATE: &[u8] =
    b"\0\0\0\x1c\0\0\0\x04\0\0\0\x01\0\0\0\x02/a\0\0\0\x02hi\xff\xff\xff\xff\0\0\0\0";

// The packet that forwards it.
const CREATE_REQUEST: &[u8] =
    b"\0\0\0\x01\xff\xff\xff\xff\xff\xff\xff\xff\0\0\0\x24\x03\0\0\0\0\0\0\x01\
    \0\0\0\x04\0\0\0\x01\0\0\0\x02/a\0\0\0\x02hi\xff\xff\xff\xff\0\0\0\0\0\0\0\0";

// The INFORM of its transaction.
const CREATE_DONE: &[u8] = b"\0\0\0\x08\0\0\0\x01\0\0\0\x01\0\0\0\x4c\x03\0\0\0\0\0\0\x01\0\0\0\x04\
    \0\0\0\x01\0\0\0\x01\0\0\0\0\0\0\x03\xe8\0\0\0\x01\0\0\0\x02/a\0\0\0\x02hi\
    \0\0\0\x01\0\0\0\x1f\0\0\0\x05world\0\0\0\x06anyone\0\0\0\0\x01\xff\xff\xff\xff";

// The reply to it.
const CREATED: &[u8] = b"\0\0\0\x16\0\0\0\x04\0\0\0\x01\0\0\0\x01\0\0\0\0\0\0\0\x02/a";

// The INFORM by which it fails, since the node is there: -110.
const CREATE_FAILED: &[u8] =
    b"\0\0\0\x08\0\0\0\x01\0\0\0\x01\0\0\0\x24\x03\0\0\0\0\0\0\x01\0\0\0\x04\
    \0\0\0\x01\0\0\0\x01\0\0\0\0\0\0\x03\xe8\xff\xff\xff\xff\xff\xff\xff\x92\xff\xff\xff\xff";

// The reply then.
const NOT_CREATED: &[u8] = b"\0\0\0\x10\0\0\0\x04\0\0\0\x01\0\0\0\x01\xff\xff\xff\x92";

// The reply to the getData of /a where there is no such node.
const NO_NODE: &[u8] = b"\0\0\0\x10\0\0\0\x01\0\0\0\x01\0\0\0\x01\xff\xff\xff\x9b";

// A client's sync of /, with xid 7.
const SYNC: &[u8] = b"\0\0\0\x0d\0\0\0\x07\0\0\0\x09\0\0\0\x01/";

// The packet that forwards it.
const SYNC_REQUEST: &[u8] =
    b"\0\0\0\x01\xff\xff\xff\xff\xff\xff\xff\xff\0\0\0\x15\x03\0\0\0\0\0\0\x01\
    \0\0\0\x07\0\0\0\x09\0\0\0\x01/\0\0\0\0";

// The leader's SYNC.
const SYNC_DONE: &[u8] = b"\0\0\0\x07\0\0\0\0\0\0\0\0\xff\xff\xff\xff\xff\xff\xff\xff";

// The reply to the sync.
const SYNCED: &[u8] = b"\0\0\0\x15\0\0\0\x07\0\0\0\0\0\0\0\0\0\0\0\0\0\0\0\x01/";

// Whether the output is a packet to the leader of these bytes.
fn is_packet(output: &Output, bytes: &[u8]) -> bool {
    match output {
        Output::ToLeader(packet) => packet.as_slice() == bytes,
        _ => false,
    }
}

// Whether the outputs are a packet to the leader, and then these replies.
fn are_forwarded(outputs: &[Output], packet: &[u8], replies: &[&[u8]]) -> bool {
    match outputs.split_first() {
        Some((first, rest)) => is_packet(first, packet) && are_replies(rest, replies),
        None => false,
    }
}

// Whether the engine forwards and replies so, and ends with this zxid and this many nodes.
fn forwards(
    alloc: Global,
    mut engine: Engine,
    events: &[Event<'_>],
    packet: &[u8],
    replies: &[&[u8]],
    end: (i64, usize),
) -> bool {
    let mut outputs = Vec::new(alloc);
    feed(alloc, &mut engine, events, &mut outputs)
        && are_forwarded(outputs.as_slice(), packet, replies)
        && ends(&engine, end.0, end.1)
}

fn answers_a_create(alloc: Global, engine: Engine) -> bool {
    let events = [asked(CREATE), asked(get()), told(CREATE_DONE)];
    let replies = [CREATED, reply_of_create()];
    forwards(
        alloc,
        engine,
        &events,
        CREATE_REQUEST,
        &replies,
        (0x1_0000_0001, 4),
    )
}

fn answers_a_failed_create(alloc: Global, engine: Engine) -> bool {
    let events = [asked(CREATE), asked(get()), told(CREATE_FAILED)];
    let replies = [NOT_CREATED, NO_NODE];
    forwards(
        alloc,
        engine,
        &events,
        CREATE_REQUEST,
        &replies,
        (0x1_0000_0001, 3),
    )
}

fn answers_a_sync(alloc: Global, engine: Engine) -> bool {
    let events = [asked(SYNC), told(SYNC_DONE), told(SYNC_DONE)];
    forwards(alloc, engine, &events, SYNC_REQUEST, &[SYNCED], (0, 3))
}

// The leader's INFORMs of the create and of a setData after it.
fn done_and_set(alloc: Global) -> Result<Vec<u8>, &'static str> {
    let mut bytes = Vec::new(alloc);
    for part in [CREATE_DONE, set()] {
        bytes.extend_from_slice(part).ok().ok_or("memory")?;
    }
    Ok(bytes)
}

// A client's create and getData, and what the leader tells then.
fn asked_then_told(bytes: &[u8]) -> [Event<'_>; 3] {
    [asked(CREATE), asked(get()), told(bytes)]
}

// Two transactions come in one event. The read after the create shows the node before the setData.
fn ends_a_batch<R: Threads + Sync>(
    rt: &R,
    alloc: Global,
    mut engine: Engine,
) -> Result<bool, &'static str> {
    let both = done_and_set(alloc)?;
    let events = asked_then_told(both.as_slice());
    let replies = [CREATED, reply_of_create()];
    let mut outputs = Vec::new(alloc);
    Ok(
        feed_with_workers(rt, alloc, &mut engine, &events, &mut outputs)
            && are_forwarded(outputs.as_slice(), CREATE_REQUEST, &replies)
            && ends(&engine, 0x1_0000_0002, 4),
    )
}

// The next leader's transaction answers nothing of what was asked before.
fn forgets(alloc: Global, mut engine: Engine) -> bool {
    let events = [asked(CREATE), Event::LeaderEnd, told(CREATE_DONE)];
    let mut outputs = Vec::new(alloc);
    feed(alloc, &mut engine, &events, &mut outputs)
        && outputs.len() == 2
        && outputs.as_slice().last() == Some(&Output::CloseClient(1))
        && ends(&engine, 0, 3)
}

#[test]
fn a_write_is_answered_by_its_transaction(rt: HostRuntime) -> Result<(), Fail> {
    let alloc = rt.alloc();
    assert!(rt; answers_a_create(alloc, primed(alloc)?));
    assert!(rt; answers_a_failed_create(alloc, primed(alloc)?));
    assert!(rt; forgets(alloc, primed(alloc)?));
    Ok(())
}

#[test]
fn a_sync_is_answered_by_the_leader(rt: HostRuntime) -> Result<(), Fail> {
    let alloc = rt.alloc();
    assert!(rt; answers_a_sync(alloc, primed(alloc)?));
    Ok(())
}

#[test]
fn a_batch_ends_at_a_transaction_that_answers(rt: HostRuntime) -> Result<(), Fail> {
    let alloc = rt.alloc();
    assert!(rt; ends_a_batch(&rt, alloc, primed(alloc)?)?);
    Ok(())
}
