//! Helpers of the tests.
use apply_workers::OpenGate;
use observer_core::{Config, Engine, Event, Output, default_limits};
use std::alloc::Global;
use std::thread::Threads;
use values::{Blob, Bytes};

/// The settings of server 3.
pub fn config(alloc: Global) -> Result<Config, &'static str> {
    Config::new(3, 0, 0, 4000, 40_000, blob(alloc, &[])?, default_limits())
        .ok()
        .ok_or("settings")
}

/// An engine that follows a leader, with connection 1 open.
pub fn primed(alloc: Global) -> Result<Engine, &'static str> {
    Engine::primed(alloc, config(alloc)?).ok().ok_or("memory")
}

/// An engine without a leader.
pub fn idle(alloc: Global) -> Result<Engine, &'static str> {
    Engine::new(alloc, config(alloc)?).ok().ok_or("memory")
}

pub fn blob(alloc: Global, bytes: &[u8]) -> Result<Blob, &'static str> {
    Blob::new(alloc, bytes).ok().ok_or("memory")
}

/// Bytes from the leader.
pub fn told(bytes: &[u8]) -> Event<'_> {
    Event::LeaderBytes(Bytes::new(bytes))
}

/// Bytes from the client of connection 1.
pub fn asked(bytes: &[u8]) -> Event<'_> {
    Event::ClientBytes(1, Bytes::new(bytes))
}

/// Whether the output is this reply to the client of connection 1.
pub fn is_reply(output: &Output, bytes: &[u8]) -> bool {
    match output {
        Output::ToClient(1, frame) => frame.as_slice() == bytes,
        _ => false,
    }
}

/// Whether the outputs are these replies to the client of connection 1.
pub fn are_replies(outputs: &[Output], wanted: &[&[u8]]) -> bool {
    for (output, bytes) in outputs.iter().zip(wanted) {
        if !is_reply(output, bytes) {
            return false;
        }
    }
    outputs.len() == wanted.len()
}

/// Feeds the events, and appends the outputs. Returns whether no allocation was refused.
pub fn feed(
    alloc: Global,
    engine: &mut Engine,
    events: &[Event<'_>],
    outputs: &mut Vec<Output>,
) -> bool {
    engine.feed_inline(alloc, events, outputs).is_ok()
}

/// The same, with workers that may do a part.
pub fn feed_with_workers<R: Threads + Sync>(
    rt: &R,
    alloc: Global,
    engine: &mut Engine,
    events: &[Event<'_>],
    outputs: &mut Vec<Output>,
) -> bool {
    engine.feed(rt, alloc, events, &OpenGate, outputs).is_ok()
}

/// Whether the engine has this last zxid and this many nodes.
pub fn ends(engine: &Engine, zxid: i64, paths: usize) -> bool {
    engine.learner().last_zxid() == zxid && engine.tree().paths() == paths
}

/// Whether there is a node at this path.
pub fn has(engine: &Engine, path: &str) -> bool {
    engine.tree().node(path).is_some()
}
