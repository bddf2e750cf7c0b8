//! Groups of an event's transactions are applied at the same time.

use crate::helpers::{are_replies, asked, blob, config, told};
use apply_workers::{Gate, OpenGate};
use batcher::Limits;
use observer_core::{Config, Engine, Event, Output};
use std::alloc::Global;
use std::sync::atomic::{AtomicU64, Ordering};
use std::test::*;
use std::thread::Threads;

const MOST_TURNS: u64 = 1_000_000_000;

/// Holds the first until another one was passed, or notes that none was.
#[derive(Drop)]
pub struct HoldsFirst {
    passed: AtomicU64,
    missed: AtomicU64,
}

impl HoldsFirst {
    pub fn new() -> HoldsFirst {
        HoldsFirst {
            passed: AtomicU64::new(0),
            missed: AtomicU64::new(0),
        }
    }

    /// Whether the first was held and none other passed.
    pub fn has_held_in_vain(&self) -> bool {
        self.missed.load(Ordering::SeqCst) != 0
    }
}

impl Gate for HoldsFirst {
    fn pass(&self, _worker: usize, number: usize) {
        if number != 0 {
            self.passed.fetch_add(1, Ordering::SeqCst);
            return;
        }
        for _ in 0..MOST_TURNS {
            if self.passed.load(Ordering::SeqCst) != 0 {
                return;
            }
        }
        self.missed.store(1, Ordering::SeqCst);
    }
}

// Appends an INFORM of a create of the path with the data "hi".
fn put_create(bytes: &mut Vec<u8>, path: &str, counter: u8) -> Result<(), &'static str> {
    // The rest of the transaction has 74 bytes. All lengths are below 256.
    let length = u8::try_from(path.len()).ok().ok_or("path")?;
    let parts: [&[u8]; 10] = [
        b"\0\0\0\x08\0\0\0\x01\0\0\0",
        &[counter],
        b"\0\0\0",
        &[length.wrapping_add(74)],
        b"\0\0\0\0\0\0\0\x07\0\0\0\x01\0\0\0\x01\0\0\0",
        &[counter],
        b"\0\0\0\0\0\0\x03\xe8\0\0\0\x01\0\0\0",
        &[length],
        path.as_bytes(),
        b"\0\0\0\x02hi\0\0\0\x01\0\0\0\x1f\0\0\0\x05world\0\0\0\x06anyone\0\xff\xff\xff\xff\xff\xff\xff\xff",
    ];
    for part in parts {
        bytes.extend_from_slice(part).ok().ok_or("memory")?;
    }
    Ok(())
}

/// INFORMs of creates, with zxids from this counter on.
pub fn creates(alloc: Global, paths: &[&str], first: u8) -> Result<Vec<u8>, &'static str> {
    let mut bytes = Vec::new(alloc);
    let mut counter = first;
    for path in paths {
        put_create(&mut bytes, path, counter)?;
        counter = counter.wrapping_add(1);
    }
    Ok(bytes)
}

// The getChildren of /a and of /b, which leave watches.
const ASKED: &[u8] = b"\0\0\0\x0f\0\0\0\x02\0\0\0\x08\0\0\0\x02/a\x01\
    \0\0\0\x0f\0\0\0\x03\0\0\0\x08\0\0\0\x02/b\x01";

// The replies to them, and the events when both have a child more, in the order of the transactions.
const WANTED: [&[u8]; 4] = [
    b"\0\0\0\x14\0\0\0\x02\0\0\0\x01\0\0\0\x02\0\0\0\0\0\0\0\0",
    b"\0\0\0\x14\0\0\0\x03\0\0\0\x01\0\0\0\x02\0\0\0\0\0\0\0\0",
    b"\0\0\0\x1e\xff\xff\xff\xff\xff\xff\xff\xff\xff\xff\xff\xff\0\0\0\0\0\0\0\x04\0\0\0\x03\0\0\0\x02/a",
    b"\0\0\0\x1e\xff\xff\xff\xff\xff\xff\xff\xff\xff\xff\xff\xff\0\0\0\0\0\0\0\x04\0\0\0\x03\0\0\0\x02/b",
];

/// Nodes that are made first, requests that come then, and nodes that are made by one event after these.
#[derive(Clone, Copy)]
pub struct Steps<'a> {
    pub parents: &'a [&'a str],
    pub requests: &'a [u8],
    pub children: &'a [&'a str],
}

// Feeds one event, and returns whether no allocation was refused.
fn feed_one<R: Threads + Sync, G: Gate + Sync>(
    rt: &R,
    alloc: Global,
    engine: &mut Engine,
    event: Event<'_>,
    gate: &G,
    outputs: &mut Vec<Output>,
) -> bool {
    engine.feed(rt, alloc, &[event], gate, outputs).is_ok()
}

/// Feeds these, the nodes from zxid counter 1 on. The gate is for the last event alone.
pub fn feed_steps<R: Threads + Sync, G: Gate + Sync>(
    rt: &R,
    alloc: Global,
    engine: &mut Engine,
    steps: &Steps<'_>,
    gate: &G,
    outputs: &mut Vec<Output>,
) -> Result<bool, &'static str> {
    let next = u8::try_from(steps.parents.len()).ok().ok_or("parents")?;
    let parents = creates(alloc, steps.parents, 1)?;
    let children = creates(alloc, steps.children, next.wrapping_add(1))?;
    Ok(
        feed_one(
            rt,
            alloc,
            engine,
            told(parents.as_slice()),
            &OpenGate,
            outputs,
        ) && feed_one(rt, alloc, engine, asked(steps.requests), &OpenGate, outputs)
            && feed_one(rt, alloc, engine, told(children.as_slice()), gate, outputs),
    )
}

/// The child version, the number of children and the zxid of the last change of the children.
pub fn counts(engine: &Engine, path: &str) -> Option<(i32, i32, i64)> {
    let stat = engine.tree().stat(path)?;
    Some((stat.cversion, stat.num_children, stat.pzxid))
}

// Whether two workers have both groups in hand at once, and the outputs and the nodes are right.
fn holds_no_other<R: Threads + Sync>(
    rt: &R,
    alloc: Global,
    mut engine: Engine,
) -> Result<bool, &'static str> {
    let gate = HoldsFirst::new();
    let steps = Steps {
        parents: &["/a", "/b"],
        requests: ASKED,
        children: &["/a/x", "/a/y", "/b/z"],
    };
    let mut outputs = Vec::new(alloc);
    Ok(
        feed_steps(rt, alloc, &mut engine, &steps, &gate, &mut outputs)?
            && !gate.has_held_in_vain()
            && are_replies(outputs.as_slice(), &WANTED)
            && counts(&engine, "/a") == Some((2, 2, 0x1_0000_0004))
            && counts(&engine, "/b") == Some((1, 1, 0x1_0000_0005)),
    )
}

/// An engine that follows a leader, for this many workers.
pub fn with_workers(alloc: Global, workers: usize) -> Result<Engine, &'static str> {
    let limits = Limits::new(workers, 256, 64).ok().ok_or("limits")?;
    let secret = blob(alloc, &[])?;
    let config = Config::new(3, 0, 0, 4000, 40_000, secret, limits);
    let config = config.ok().ok_or("settings")?;
    Engine::primed(alloc, config).ok().ok_or("memory")
}

#[test]
fn a_held_group_holds_no_other(rt: HostRuntime) -> Result<(), Fail> {
    let alloc = rt.alloc();
    let engine = with_workers(alloc, 2)?;
    assert!(rt; holds_no_other(&rt, alloc, engine)?);
    Ok(())
}
