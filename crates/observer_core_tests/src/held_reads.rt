//! Reads of several events, with nothing else between them, are answered at the same time.

use crate::held::{HoldsFirst, creates, with_workers};
use crate::helpers::{are_replies, asked, told};
use apply_workers::OpenGate;
use observer_core::Engine;
use std::alloc::Global;
use std::test::*;
use std::thread::Threads;

// The getData of /a and that of /b.
const FIRST_ASKED: &[u8] = b"\0\0\0\x0f\0\0\0\x02\0\0\0\x04\0\0\0\x02/a\0";

const THEN_ASKED: &[u8] = b"\0\0\0\x0f\0\0\0\x03\0\0\0\x04\0\0\0\x02/b\0";

// The replies: the data "hi", and a Stat whose zxids are those of the node's create.
const WANTED: [&[u8]; 2] = [
    b"\0\0\0\x5a\0\0\0\x02\0\0\0\x01\0\0\0\x02\0\0\0\0\0\0\0\x02hi\
    \0\0\0\x01\0\0\0\x01\0\0\0\x01\0\0\0\x01\0\0\0\0\0\0\x03\xe8\0\0\0\0\0\0\x03\xe8\
    \0\0\0\0\0\0\0\0\0\0\0\0\0\0\0\0\0\0\0\0\0\0\0\x02\0\0\0\0\0\0\0\x01\0\0\0\x01",
    b"\0\0\0\x5a\0\0\0\x03\0\0\0\x01\0\0\0\x02\0\0\0\0\0\0\0\x02hi\
    \0\0\0\x01\0\0\0\x02\0\0\0\x01\0\0\0\x02\0\0\0\0\0\0\x03\xe8\0\0\0\0\0\0\x03\xe8\
    \0\0\0\0\0\0\0\0\0\0\0\0\0\0\0\0\0\0\0\0\0\0\0\x02\0\0\0\0\0\0\0\x01\0\0\0\x02",
];

// How often each is asked, in turns, so that the reads are more than a reader takes at a time.
const TIMES: usize = 40;

// Whether two readers have reads in hand at once, and the replies are right and in their order.
fn holds_no_other<R: Threads + Sync>(
    rt: &R,
    alloc: Global,
    mut engine: Engine,
) -> Result<bool, &'static str> {
    let gate = HoldsFirst::new();
    let nodes = creates(alloc, &["/a", "/b"], 1)?;
    let made = [told(nodes.as_slice())];
    let mut reads = Vec::new(alloc);
    let mut wanted = Vec::new(alloc);
    for _ in 0..TIMES {
        let grown = reads.push(asked(FIRST_ASKED)).is_ok()
            && reads.push(asked(THEN_ASKED)).is_ok()
            && wanted.extend_from_slice(&WANTED).is_ok();
        if !grown {
            return Err("memory");
        }
    }
    let mut outputs = Vec::new(alloc);
    Ok(
        engine
            .feed(rt, alloc, &made, &OpenGate, &mut outputs)
            .is_ok()
            && engine
                .feed(rt, alloc, reads.as_slice(), &gate, &mut outputs)
                .is_ok()
            && !gate.has_held_in_vain()
            && are_replies(outputs.as_slice(), wanted.as_slice()),
    )
}

#[test]
fn a_held_read_holds_no_other(rt: HostRuntime) -> Result<(), Fail> {
    let alloc = rt.alloc();
    let engine = with_workers(alloc, 2)?;
    assert!(rt; holds_no_other(&rt, alloc, engine)?);
    Ok(())
}
