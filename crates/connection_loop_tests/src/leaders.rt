//! Leaders whose streams fail, end or are slow.

use crate::others::Others;
use crate::played::config;
use crate::rows::{asked_len, create, create_session, led, refused};
use crate::seen::{Seen, see};
use crate::streams::{Source, Target, Turns, WELL, Way, Wire};
use apply_workers::OpenGate;
use connection_loop::{LeaderGone, leader_loop};
use intake::Hub;
use std::alloc::Global;
use std::cell::RefCell;
use std::sync::Wait;
use std::test::Fail;
use std::time::Clock;
use values::Fault;

// A leader until clients are served, with a node; then its connection brings this.
fn leader(alloc: Global, last: &[u8]) -> Result<Vec<u8>, Fail> {
    let mut bytes = Vec::new(alloc);
    bytes.extend_from_slice(led())?;
    bytes.extend_from_slice(create())?;
    bytes.extend_from_slice(last)?;
    Ok(bytes)
}

// What a run shows, and how the loop says that the leader has gone.
#[derive(Drop)]
struct Followed {
    seen: Seen,
    fault: Option<Fault>,
    wants_memory: bool,
}

// Follows a leader at port 0 of the hub, and says what came of it.
fn follow<R: Wait + Clock>(
    rt: &R,
    alloc: Global,
    turns: &Turns,
    hub: &mut Hub,
    way: Way,
    bytes: &[u8],
) -> Result<Followed, Fail> {
    let port = hub.add_port(way.capacity)?;
    let other = hub.add_port(64)?;
    let mut others = Others::new(alloc, None, other);
    let wire = RefCell::new(Wire::new(alloc));
    let target = Target { way, wire: &wire };
    let source = Source {
        turns,
        alloc,
        way,
        wire: &wire,
        hub,
        others: &mut others,
        port: 0,
        bytes,
        at: 0,
        reads: 0,
        rests: 0,
    };
    let gone = leader_loop(rt, alloc, source, target, port);
    if !turns.make(hub) {
        return Err(Fail::from("memory"));
    }
    others.step(alloc, hub);
    let LeaderGone {
        port,
        fault,
        wants_memory,
    } = gone;
    hub.close(port.finish());
    Ok(Followed {
        seen: see(alloc, false, 0, hub, &others, wire.into_inner())?,
        fault,
        wants_memory,
    })
}

// Follows a leader with these bytes this way.
fn run<R: Wait + Clock>(
    rt: &R,
    alloc: Global,
    turns: &Turns,
    way: Way,
    bytes: &[u8],
) -> Result<Followed, Fail> {
    let mut hub = Hub::new(alloc, config(alloc)?)?;
    follow(rt, alloc, turns, &mut hub, way, bytes)
}

// A leader that makes the client's session once it is asked to.
fn well() -> Way {
    Way {
        most: 30,
        pause: led().len().saturating_add(create().len()),
        answered: asked_len(),
        ..WELL
    }
}

// The way on which the read, or the write, of this number fails.
fn failing(fails_a_read: bool, number: usize) -> Way {
    if fails_a_read {
        return Way {
            read_fails: number,
            ..well()
        };
    }
    Way {
        write_fails: number,
        ..well()
    }
}

// The number of the first read, or write, that does more than end the connection when it fails, or of the first after
// which all is done.
fn first_wrong<R: Wait + Clock>(
    rt: &R,
    alloc: Global,
    turns: &Turns,
    fails_a_read: bool,
) -> Result<(usize, bool), Fail> {
    let bytes = leader(alloc, &create_session(1))?;
    for number in 1..40 {
        let followed = run(
            rt,
            alloc,
            turns,
            failing(fails_a_read, number),
            bytes.as_slice(),
        )?;
        let is_gone = followed.fault.is_none() && !followed.wants_memory;
        if !followed.seen.is_right(bytes.as_slice()) || !is_gone {
            return Ok((number, false));
        }
        if followed.seen.is_whole(bytes.as_slice()) {
            return Ok((number, true));
        }
    }
    Ok((0, false))
}

#[test]
fn each_read_and_write_fails_in_turn(rt: HostRuntime) -> Result<(), Fail> {
    let turns = Turns::new(Box::new(
        rt.alloc(),
        move |hub: &mut Hub| hub.turn(&rt, &OpenGate).is_ok(),
    )?);
    // 180 bytes at 30 a read, 56 after the pause, and the end, after which all is sent and written; packets of 32, 24,
    // 20, 20 and 40 bytes at 30 a write, two of them together, and then none fails.
    for (fails_a_read, count) in [(true, 9), (false, 8)] {
        let (number, is_whole) = first_wrong(&rt, rt.alloc(), &turns, fails_a_read)?;
        assert!(rt; is_whole, "at {number}");
        assert_eq!(rt; number, count);
    }
    Ok(())
}

#[test]
fn nothing_is_read_while_a_leader_takes_nothing(rt: HostRuntime) -> Result<(), Fail> {
    let turns = Turns::new(Box::new(
        rt.alloc(),
        move |hub: &mut Hub| hub.turn(&rt, &OpenGate).is_ok(),
    )?);
    let bytes = leader(rt.alloc(), &create_session(1))?;
    for stuck_after in 0..5 {
        let way = Way {
            stuck_after,
            stuck: 40,
            ..well()
        };
        let followed = run(&rt, rt.alloc(), &turns, way, bytes.as_slice())?;
        assert!(rt; followed.seen.is_whole(bytes.as_slice()));
        assert_eq!(rt; followed.seen.done_while_stuck, 0);
    }
    Ok(())
}

#[test]
fn a_fault_is_told_however_its_leader_ends(rt: HostRuntime) -> Result<(), Fail> {
    let turns = Turns::new(Box::new(
        rt.alloc(),
        move |hub: &mut Hub| hub.turn(&rt, &OpenGate).is_ok(),
    )?);
    let bytes = leader(rt.alloc(), refused())?;
    // At once, and where nobody has taken what was refused when the connection ends; and in the middle of a packet.
    for (idle, front, fault) in [
        (0, 0, Some(Fault::BadLength)),
        (10, 0, Some(Fault::BadLength)),
        (0, 3, None),
        (10, 3, None),
    ] {
        let way = Way { idle, ..WELL };
        let bytes = bytes.as_slice();
        let bytes = bytes
            .get(..bytes.len().saturating_sub(front))
            .unwrap_or(&[]);
        let followed = run(&rt, rt.alloc(), &turns, way, bytes)?;
        assert!(rt; followed.seen.is_right(bytes) && followed.fault == fault);
    }
    Ok(())
}
