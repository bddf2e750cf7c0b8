//! The watches of a connection.

use crate::helpers::{asked, feed, primed, told};
use crate::rows::create;
use observer_core::{Engine, Event};
use std::alloc::Global;
use std::test::*;

// The getChildren of the root and the exists of /x, which leave a watch each.
const GET_CHILDREN: &[u8] = b"\0\0\0\x0e\0\0\0\x01\0\0\0\x08\0\0\0\x01/\x01";

const EXISTS: &[u8] = b"\0\0\0\x0f\0\0\0\x02\0\0\0\x03\0\0\0\x02/x\x01";

// Whether connection 1 has so many watches after the events.
fn has_watches(alloc: Global, engine: &mut Engine, events: &[Event<'_>], count: u128) -> bool {
    let mut outputs = Vec::new(alloc);
    feed(alloc, engine, events, &mut outputs) && engine.watches_of(1) == count
}

// The create of /a uses up the watch on the children of the root, and the connection's end drops the other one.
fn counts_watches(alloc: Global, mut engine: Engine) -> bool {
    let asks = [asked(GET_CHILDREN), asked(EXISTS)];
    has_watches(alloc, &mut engine, &[], 0)
        && has_watches(alloc, &mut engine, &asks, 2)
        && has_watches(alloc, &mut engine, &[told(create())], 1)
        && has_watches(alloc, &mut engine, &[Event::ClientEnd(1)], 0)
}

#[test]
fn watches_are_counted(rt: HostRuntime) -> Result<(), Fail> {
    let alloc = rt.alloc();
    assert!(rt; counts_watches(alloc, primed(alloc)?));
    Ok(())
}
