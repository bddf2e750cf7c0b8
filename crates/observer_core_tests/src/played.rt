//! Events, and the outputs that they cause.

use crate::helpers::{
    are_replies, asked, blob, ends, feed, feed_with_workers, has, idle, primed, told,
};
use crate::laws::{
    call_laws_of_clients, call_laws_of_events, call_laws_of_leaders, call_worked_rows,
};
use crate::rows::{create, get, introduction, reply_of_create, reply_of_set, set};
use observer_core::{CLIENT_FRAME_LIMIT, Engine, Event, Output};
use std::alloc::Global;
use std::test::*;
use std::thread::Threads;
use values::{Bytes, Fault};

// Whether the engine gives these replies, and ends with this zxid and this many nodes.
fn replies(
    alloc: Global,
    mut engine: Engine,
    events: &[Event<'_>],
    wanted: &[&[u8]],
    end: (i64, usize),
) -> bool {
    let mut outputs = Vec::new(alloc);
    feed(alloc, &mut engine, events, &mut outputs)
        && are_replies(outputs.as_slice(), wanted)
        && ends(&engine, end.0, end.1)
}

// Whether the engine closes a connection, and ends with this zxid and this many nodes.
fn closes(
    alloc: Global,
    mut engine: Engine,
    events: &[Event<'_>],
    wanted: &[Output],
    end: (i64, usize),
) -> bool {
    let mut outputs = Vec::new(alloc);
    feed(alloc, &mut engine, events, &mut outputs)
        && outputs.as_slice() == wanted
        && ends(&engine, end.0, end.1)
}

// A create and a getData, in one list of events.
fn plays_row(alloc: Global, engine: Engine) -> bool {
    let events = [told(create()), asked(get())];
    replies(
        alloc,
        engine,
        &events,
        &[reply_of_create()],
        (0x1_0000_0001, 4),
    )
}

// The same, with workers that may do a part.
fn plays_row_with_workers<R: Threads + Sync>(rt: &R, alloc: Global, mut engine: Engine) -> bool {
    let events = [told(create()), asked(get())];
    let mut outputs = Vec::new(alloc);
    feed_with_workers(rt, alloc, &mut engine, &events, &mut outputs)
        && are_replies(outputs.as_slice(), &[reply_of_create()])
        && ends(&engine, 0x1_0000_0001, 4)
}

// The bytes in two pieces.
fn cut(bytes: &[u8], at: usize) -> (&[u8], &[u8]) {
    match (bytes.get(..at), bytes.get(at..)) {
        (Some(first), Some(last)) => (first, last),
        _ => (bytes, &[]),
    }
}

// The same, in pieces.
fn plays_pieces(alloc: Global, engine: Engine) -> bool {
    let (asked_first, asked_last) = cut(get(), 10);
    let (told_first, told_last) = cut(create(), 50);
    let events = [
        asked(asked_first),
        told(told_first),
        told(told_last),
        asked(asked_last),
    ];
    replies(
        alloc,
        engine,
        &events,
        &[reply_of_create()],
        (0x1_0000_0001, 4),
    )
}

fn feed_first(alloc: Global, engine: &mut Engine, outputs: &mut Vec<Output>) -> bool {
    feed(alloc, engine, &[told(create()), asked(get())], outputs)
}

fn feed_second(alloc: Global, engine: &mut Engine, outputs: &mut Vec<Output>) -> bool {
    feed(alloc, engine, &[told(set()), asked(get())], outputs)
}

// A second list of events continues where the first one ended, and its outputs are appended.
fn plays_two_lists(alloc: Global, mut engine: Engine) -> bool {
    let mut outputs = Vec::new(alloc);
    feed_first(alloc, &mut engine, &mut outputs)
        && feed_second(alloc, &mut engine, &mut outputs)
        && are_replies(outputs.as_slice(), &[reply_of_create(), reply_of_set()])
        && ends(&engine, 0x1_0000_0002, 4)
        && has(&engine, "/a")
}

// The second create has a zxid that was applied already: everything is closed, and nothing else changes.
fn plays_refusal(alloc: Global, engine: Engine) -> bool {
    let events = [told(create()), told(create()), told(set()), asked(get())];
    let wanted = [
        Output::CloseLeader(Fault::OutOfOrder),
        Output::CloseClient(1),
    ];
    closes(alloc, engine, &events, &wanted, (0x1_0000_0001, 4))
}

// The observer waits for a frame of the greatest length.
fn waits(alloc: Global, engine: Engine) -> bool {
    replies(alloc, engine, &[asked(b"\0\x0f\xff\xff")], &[], (0, 3))
}

// A frame that is longer by one byte.
fn closes_client(alloc: Global, engine: Engine) -> bool {
    let events = [asked(b"\0\x10\0\0")];
    closes(alloc, engine, &events, &[Output::CloseClient(1)], (0, 3))
}

// A connection opens, and sends "ruok" in two pieces.
fn answers_word(alloc: Global, engine: Engine, wanted: &[Output]) -> bool {
    let events = [
        Event::ClientUp(2, None),
        Event::ClientBytes(2, Bytes::new(b"ru")),
        Event::ClientBytes(2, Bytes::new(b"ok")),
    ];
    closes(alloc, engine, &events, wanted, (0, 3))
}

// Connection 1 has a session, so the same letters are the length of a frame that is too long.
fn answers_no_word(alloc: Global, engine: Engine) -> bool {
    closes(
        alloc,
        engine,
        &[asked(b"ruok")],
        &[Output::CloseClient(1)],
        (0, 3),
    )
}

// A connection opens and closes, and the session of connection 1 expires, which closes that connection.
fn expires(alloc: Global, engine: Engine) -> bool {
    let events = [
        Event::ClientUp(2, None),
        Event::ClientEnd(2),
        Event::Expire(0x0300_0000_0000_0001),
    ];
    closes(alloc, engine, &events, &[Output::CloseClient(1)], (0, 3))
}

// Bytes of a leader or a client without a connection are ignored.
fn passes_over(alloc: Global, engine: Engine) -> bool {
    let events = [told(create()), asked(get()), Event::Checkpoint];
    replies(alloc, engine, &events, &[], (0, 3))
}

// Whether the output is the packet by which the observer introduces itself.
fn is_introduction(output: &Output) -> bool {
    match output {
        Output::ToLeader(packet) => packet.as_slice() == introduction(),
        _ => false,
    }
}

// A leader connects and leaves, and another one connects.
fn meets_two(alloc: Global, mut engine: Engine) -> bool {
    let events = [
        Event::LeaderUp,
        Event::LeaderUp,
        Event::LeaderEnd,
        Event::LeaderUp,
    ];
    let mut outputs = Vec::new(alloc);
    feed(alloc, &mut engine, &events, &mut outputs)
        && outputs.len() == 2
        && outputs.as_slice().iter().all(is_introduction)
}

#[test]
fn two_leaders(rt: HostRuntime) -> Result<(), Fail> {
    call_laws_of_leaders();
    assert!(rt; meets_two(rt.alloc(), idle(rt.alloc())?));
    Ok(())
}

#[test]
fn create_then_get(rt: HostRuntime) -> Result<(), Fail> {
    call_worked_rows();
    assert!(rt; plays_row(rt.alloc(), primed(rt.alloc())?));
    assert!(rt; plays_row_with_workers(&rt, rt.alloc(), primed(rt.alloc())?));
    Ok(())
}

#[test]
fn pieces(rt: HostRuntime) -> Result<(), Fail> {
    call_laws_of_events();
    assert!(rt; plays_pieces(rt.alloc(), primed(rt.alloc())?));
    Ok(())
}

#[test]
fn two_lists(rt: HostRuntime) -> Result<(), Fail> {
    assert!(rt; plays_two_lists(rt.alloc(), primed(rt.alloc())?));
    Ok(())
}

#[test]
fn refused_packet(rt: HostRuntime) -> Result<(), Fail> {
    assert!(rt; plays_refusal(rt.alloc(), primed(rt.alloc())?));
    Ok(())
}

#[test]
fn greatest_frame(rt: HostRuntime) -> Result<(), Fail> {
    assert_eq!(rt; CLIENT_FRAME_LIMIT, 1_048_575);
    assert!(rt; waits(rt.alloc(), primed(rt.alloc())?));
    assert!(rt; closes_client(rt.alloc(), primed(rt.alloc())?));
    Ok(())
}

#[test]
fn words(rt: HostRuntime) -> Result<(), Fail> {
    let wanted = [
        Output::ToClient(2, blob(rt.alloc(), b"imok")?),
        Output::CloseClient(2),
    ];
    assert!(rt; answers_word(rt.alloc(), primed(rt.alloc())?, &wanted));
    assert!(rt; answers_no_word(rt.alloc(), primed(rt.alloc())?));
    Ok(())
}

#[test]
fn clients(rt: HostRuntime) -> Result<(), Fail> {
    call_laws_of_clients();
    assert!(rt; expires(rt.alloc(), primed(rt.alloc())?));
    Ok(())
}

#[test]
fn no_leader(rt: HostRuntime) -> Result<(), Fail> {
    assert!(rt; replies(rt.alloc(), idle(rt.alloc())?, &[], &[], (0, 3)));
    assert!(rt; passes_over(rt.alloc(), idle(rt.alloc())?));
    Ok(())
}
