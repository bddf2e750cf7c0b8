//! Clients whose streams fail, end or are slow.

use crate::others::Others;
use crate::played::config;
use crate::rows::{connect, get};
use crate::seen::{Seen, see};
use crate::streams::{Source, Target, Turns, WELL, Way, Wire};
use apply_workers::OpenGate;
use connection_loop::{ReadsAhead, SessionLimits, session_loop};
use intake::Hub;
use std::alloc::Global;
use std::cell::RefCell;
use std::sync::{Arc, Wait};
use std::test::Fail;
use std::time::Clock;

// A client that connects and reads three times, whose stream ends when all is answered.
fn client(alloc: Global) -> Result<Vec<u8>, Fail> {
    let mut bytes = Vec::new(alloc);
    for frame in [connect(), get(), get(), get()] {
        bytes.extend_from_slice(frame)?;
    }
    Ok(bytes)
}

// Its answers have 41 bytes, and three times 94.
fn answered_len() -> usize {
    41 + 3 * 94
}

// Serves a session at port 2 of the hub, and says what came of it.
fn serve<R: Wait + Clock>(
    rt: &R,
    alloc: Global,
    turns: &Turns,
    hub: &mut Hub,
    way: Way,
    bytes: &[u8],
) -> Result<Seen, Fail> {
    let leader = hub.add_port(64)?;
    let other = hub.add_port(64)?;
    let port = hub.add_port(way.capacity)?;
    let mut others = Others::new(alloc, Some(leader), other);
    let wire = RefCell::new(Wire::new(alloc));
    let ahead = Arc::new(alloc, ReadsAhead::new(0))?;
    let target = Target { way, wire: &wire };
    let source = Source {
        turns,
        alloc,
        way,
        wire: &wire,
        hub,
        others: &mut others,
        port: 2,
        bytes,
        at: 0,
        reads: 0,
        rests: 0,
    };
    let limits = SessionLimits::none();
    let end = session_loop(rt, alloc, source, target, port, None, limits, ahead);
    if !turns.make(hub) {
        return Err(Fail::from("memory"));
    }
    others.step(alloc, hub);
    hub.close(end);
    see(alloc, true, 2, hub, &others, wire.into_inner())
}

// Runs a session with these bytes this way.
fn run<R: Wait + Clock>(
    rt: &R,
    alloc: Global,
    turns: &Turns,
    way: Way,
    bytes: &[u8],
) -> Result<Seen, Fail> {
    let mut hub = Hub::primed(alloc, config(alloc)?)?;
    serve(rt, alloc, turns, &mut hub, way, bytes)
}

// The way on which the read, or the write, of this number fails.
fn failing(fails_a_read: bool, number: usize) -> Way {
    if fails_a_read {
        return Way {
            read_fails: number,
            most: 9,
            answered: answered_len(),
            ..WELL
        };
    }
    Way {
        write_fails: number,
        most: 20,
        answered: answered_len(),
        ..WELL
    }
}

// The number of the first read, or write, that does more than end the session when it fails; the one after the last one
// where there is none, with which nothing fails.
fn first_wrong<R: Wait + Clock>(
    rt: &R,
    alloc: Global,
    turns: &Turns,
    fails_a_read: bool,
) -> Result<(usize, bool), Fail> {
    let bytes = client(alloc)?;
    for number in 1..30 {
        let seen = run(
            rt,
            alloc,
            turns,
            failing(fails_a_read, number),
            bytes.as_slice(),
        )?;
        if !seen.is_right(bytes.as_slice()) {
            return Ok((number, false));
        }
        if seen.is_whole(bytes.as_slice()) {
            return Ok((number, true));
        }
    }
    Ok((0, false))
}

#[test]
fn each_read_and_write_fails_in_turn(rt: HostRuntime) -> Result<(), Fail> {
    let turns = Turns::new(Box::new(
        rt.alloc(),
        move |hub: &mut Hub| hub.turn(&rt, &OpenGate).is_ok(),
    )?);
    // 106 bytes at 9 a read are 12 reads, and one of the end, after which all is sent and written. Answers of 41, of 94
    // and of twice 94 bytes together are 3, 5 and 10 writes at 20 a write, and then none fails.
    for (fails_a_read, count) in [(true, 13), (false, 19)] {
        let (number, is_whole) = first_wrong(&rt, rt.alloc(), &turns, fails_a_read)?;
        assert!(rt; is_whole, "at {number}");
        assert_eq!(rt; number, count);
    }
    Ok(())
}

// A client that connects and reads so often.
fn asking(alloc: Global, count: usize) -> Result<Vec<u8>, Fail> {
    let mut bytes = Vec::new(alloc);
    bytes.extend_from_slice(connect())?;
    for _ in 0..count {
        bytes.extend_from_slice(get())?;
    }
    Ok(bytes)
}

#[test]
fn nothing_is_read_or_sent_while_answers_are_left_to_write(rt: HostRuntime) -> Result<(), Fail> {
    let turns = Turns::new(Box::new(
        rt.alloc(),
        move |hub: &mut Hub| hub.turn(&rt, &OpenGate).is_ok(),
    )?);
    let bytes = asking(rt.alloc(), 60)?;
    for stuck_after in [0, 1, 3, 6] {
        let way = Way {
            most: 1000,
            answered: 41 + 60 * 94,
            stuck_after,
            stuck: 40,
            ..WELL
        };
        let seen = run(&rt, rt.alloc(), &turns, way, bytes.as_slice())?;
        assert!(rt; seen.is_whole(bytes.as_slice()));
        assert_eq!(rt; seen.done_while_stuck, 0);
    }
    Ok(())
}

#[test]
fn what_finds_the_port_full_is_sent_at_last(rt: HostRuntime) -> Result<(), Fail> {
    let turns = Turns::new(Box::new(
        rt.alloc(),
        move |hub: &mut Hub| hub.turn(&rt, &OpenGate).is_ok(),
    )?);
    // The connection fails while its connect has no room, and while it has and the `End` has none; and the stream ends.
    for (capacity, read_fails, rest_fails) in [(1, 0, 3), (2, 2, 0), (1, 0, 0), (2, 0, 0)] {
        let way = Way {
            capacity,
            read_fails,
            rest_fails,
            idle: 10,
            ..WELL
        };
        let seen = run(&rt, rt.alloc(), &turns, way, connect())?;
        assert!(rt; seen.is_right(connect()) && seen.has_sent(connect()));
    }
    Ok(())
}
