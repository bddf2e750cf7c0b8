//! Helpers of the tests.
use apply_workers::OpenGate;
use intake::{Desk, Full, Hub, Message, Port};
use observer_core::{Config, Output, default_limits};
use std::alloc::Global;
use std::thread::Threads;
use values::Blob;

/// The settings of server 3.
pub fn config(alloc: Global) -> Result<Config, &'static str> {
    let secret = blob(alloc, &[])?;
    Config::new(3, 0, 0, 4000, 40_000, secret, default_limits())
        .ok()
        .ok_or("settings")
}

/// A desk whose engine is primed.
pub fn primed(alloc: Global) -> Result<Desk, &'static str> {
    Desk::primed(alloc, config(alloc)?).ok().ok_or("memory")
}

/// A hub whose engine is primed.
pub fn primed_hub(alloc: Global) -> Result<Hub, &'static str> {
    Hub::primed(alloc, config(alloc)?).ok().ok_or("memory")
}

pub fn blob(alloc: Global, bytes: &[u8]) -> Result<Blob, &'static str> {
    Blob::new(alloc, bytes).ok().ok_or("memory")
}

/// The next port.
pub fn port(desk: &mut Desk, capacity: usize) -> Result<Port, &'static str> {
    desk.add_port(capacity).ok().ok_or("port")
}

/// The exists of the root with this xid.
pub fn asks(xid: u8) -> [u8; 18] {
    [0, 0, 0, 14, 0, 0, 0, xid, 0, 0, 0, 3, 0, 0, 0, 1, 47, 0]
}

/// The sync of the root with this xid.
pub fn syncs(xid: u8) -> [u8; 17] {
    [0, 0, 0, 13, 0, 0, 0, xid, 0, 0, 0, 9, 0, 0, 0, 1, 47]
}

/// The frames of the xids 1 and 2.
pub fn asks_twice(alloc: Global) -> Result<Blob, &'static str> {
    let mut frames = Vec::new(alloc);
    for xid in 1..3u8 {
        frames.extend_from_slice(&asks(xid)).ok().ok_or("memory")?;
    }
    blob(alloc, frames.as_slice())
}

/// Sends bytes, and returns whether there was room.
pub fn sends(alloc: Global, port: &mut Port, bytes: &[u8]) -> bool {
    match blob(alloc, bytes) {
        Ok(bytes) => port.send(Message::Bytes(bytes)).is_ok(),
        Err(_) => false,
    }
}

/// The number of messages that a turn takes.
pub fn turn<R: Threads + Sync>(rt: &R, desk: &mut Desk) -> Option<usize> {
    desk.turn(rt, &OpenGate).ok()
}

/// The number of messages that a turn of a hub takes.
pub fn hub_turn<R: Threads + Sync>(rt: &R, hub: &mut Hub) -> Option<usize> {
    hub.turn(rt, &OpenGate).ok()
}

/// The number of messages that a hub has taken.
pub fn taken(hub: &Hub) -> usize {
    hub.taken().len()
}

/// The next port of a hub.
pub fn hub_port(hub: &mut Hub, capacity: usize) -> Result<Port, &'static str> {
    hub.add_port(capacity).ok().ok_or("port")
}

/// The xid of a reply.
pub fn xid_of(output: Output) -> Option<u8> {
    match output {
        Output::ToClient(_, bytes) => {
            let xid = bytes.as_slice().get(7)?;
            Some(*xid)
        }
        _ => None,
    }
}

/// The xid of the next reply, if there is one.
pub fn receives(port: &mut Port) -> Option<u8> {
    match port.receive() {
        Some(output) => xid_of(output),
        None => None,
    }
}

/// Whether a message was returned, and is this one.
pub fn is_handed_back(sent: Result<(), Full>, bytes: &[u8]) -> bool {
    match sent {
        Err(Full(Message::Bytes(back))) => back.as_slice() == bytes,
        _ => false,
    }
}
