//! What *Play* says of the messages that a hub took.

use intake::Message;
use observer_core::{Config, Engine, Event, Output, default_limits};
use std::alloc::Global;
use std::test::Fail;
use values::{Blob, Bytes};

/// The settings of server 1.
pub fn config(alloc: Global) -> Result<Config, Fail> {
    let secret = Blob::new(alloc, &[])?;
    Ok(Config::new(1, 0, 0, 4000, 40_000, secret, default_limits())?)
}

fn event_of(number: usize, message: &Message) -> Event<'_> {
    match message {
        Message::Up(_) if number == 0 => Event::LeaderUp,
        Message::Up(address) => Event::client_up(number as u64, address),
        Message::Bytes(bytes) if number == 0 => Event::LeaderBytes(Bytes::new(bytes.as_slice())),
        Message::Bytes(bytes) => Event::ClientBytes(number as u64, Bytes::new(bytes.as_slice())),
        Message::End if number == 0 => Event::LeaderEnd,
        Message::End => Event::ClientEnd(number as u64),
        Message::Checkpoint => Event::Checkpoint,
        Message::Expire(session) => Event::Expire(*session),
    }
}

fn events_of(alloc: Global, taken: &[(usize, Message)]) -> Result<Vec<Event<'_>>, Fail> {
    let mut events = Vec::new(alloc);
    for message in taken {
        events.push(event_of(message.0, &message.1))?;
    }
    Ok(events)
}

// Feeds the events to an engine, which is dropped at the only end of this function.
fn fed(alloc: Global, mut engine: Engine, events: &[Event<'_>], outputs: &mut Vec<Output>) -> bool {
    engine.feed_inline(alloc, events, outputs).is_ok()
}

/// The outputs of an engine that was fed the messages of the ports.
pub fn outputs_of(
    alloc: Global,
    is_primed: bool,
    taken: &[(usize, Message)],
) -> Result<Vec<Output>, Fail> {
    let mut outputs = Vec::new(alloc);
    let events = events_of(alloc, taken)?;
    let config = config(alloc)?;
    let engine = if is_primed {
        Engine::primed(alloc, config)?
    } else {
        Engine::new(alloc, config)?
    };
    if fed(alloc, engine, events.as_slice(), &mut outputs) {
        return Ok(outputs);
    }
    Err(Fail::from("memory"))
}

fn port_of(output: &Output) -> usize {
    match output {
        Output::ToLeader(_) | Output::CloseLeader(_) => 0,
        Output::ToClient(number, _) | Output::CloseClient(number) => *number as usize,
    }
}

// The place of the next output for a port.
fn next_of(outputs: &[Output], from: usize, port: usize) -> Option<usize> {
    for at in from..outputs.len() {
        if port_of(&outputs[at]) == port {
            return Some(at);
        }
    }
    None
}

/// Whether what was heard at a port is its share of the outputs.
pub fn is_share(heard: &[Output], outputs: &[Output], port: usize) -> bool {
    let mut at = 0;
    for output in outputs {
        if port_of(output) == port {
            let Some(found) = next_of(heard, at, port) else {
                return false;
            };
            if heard.get(found) != Some(output) {
                return false;
            }
            at = found.saturating_add(1);
        }
    }
    next_of(heard, at, port).is_none()
}

/// The bytes of the outputs for a port.
pub fn bytes_for(alloc: Global, outputs: &[Output], port: usize) -> Result<Vec<u8>, Fail> {
    let mut bytes = Vec::new(alloc);
    for output in outputs {
        match output {
            Output::ToLeader(content) if port == 0 => bytes.extend_from_slice(content.as_slice())?,
            Output::ToClient(number, content) if *number as usize == port => {
                bytes.extend_from_slice(content.as_slice())?
            }
            _ => {}
        }
    }
    Ok(bytes)
}

/// The bytes that a port sent, if it sent `Up` first and `End` last, and each of them once.
pub fn sent_between(
    alloc: Global,
    taken: &[(usize, Message)],
    port: usize,
) -> Result<Option<Vec<u8>>, Fail> {
    let mut bytes = Vec::new(alloc);
    let mut ups = 0usize;
    let mut ends = 0usize;
    for message in taken {
        match &message.1 {
            _ if message.0 != port => {}
            Message::Up(_) => ups = ups.saturating_add(1),
            Message::End => ends = ends.saturating_add(1),
            Message::Bytes(content) if ups == 1 && ends == 0 => {
                bytes.extend_from_slice(content.as_slice())?
            }
            _ => return Ok(None),
        }
    }
    if ups == 1 && ends == 1 {
        return Ok(Some(bytes));
    }
    Ok(None)
}
