//! The events of messages.

ghost use Rattle.std.specs.Prelude.{◌≡◌, IfOk};
ghost use Rattle.intake.specs.Messages.{event_of_message, events_of, port_of};

use crate::message::Message;
use observer_core::{Event, Output};
use std::alloc::Global;
use values::{Bytes, NoMemory};

/// The event of a port's message.
pub fn event_of(number: usize, message: &Message) -> Event<'_>
    ensures { result ≡ event_of_message number message.now }
{
    match message {
        Message::Checkpoint => Event::Checkpoint,
        Message::Expire(session) => Event::Expire(*session),
        Message::Up(address) => {
            if number == 0 {
                return Event::LeaderUp;
            }
            Event::client_up(number as u64, address)
        }
        Message::Bytes(bytes) => {
            if number == 0 {
                return Event::LeaderBytes(Bytes::new(bytes.as_slice()));
            }
            Event::ClientBytes(number as u64, Bytes::new(bytes.as_slice()))
        }
        Message::End => {
            if number == 0 {
                return Event::LeaderEnd;
            }
            Event::ClientEnd(number as u64)
        }
    }
}

/// The events of the messages, in order. Fails only if an allocation is refused.
pub fn events_of(alloc: Global, messages: &[(usize, Message)]) -> Result<Vec<Event<'_>>, NoMemory>
    ensures { IfOk result (λ v. v.items ≡ events_of messages.now) }
{
    let mut events = Vec::with_capacity(alloc, messages.len())?;
    for message in messages {
        events.push(event_of(message.0, &message.1))?;
    }
    Ok(events)
}

/// The port that an output is for.
pub fn port_of(output: &Output) -> usize
    ensures { result ≡ port_of output.now }
{
    match output {
        Output::ToLeader(_) | Output::CloseLeader(_) => 0,
        Output::ToClient(number, _) | Output::CloseClient(number) => *number as usize,
    }
}

/// The number of bytes that an output brings to its port's connection.
pub fn content_len(output: &Output) -> usize {
    match output {
        Output::ToLeader(bytes) | Output::ToClient(_, bytes) => bytes.as_slice().len(),
        Output::CloseLeader(_) | Output::CloseClient(_) => 0,
    }
}

/// The number of bytes of the messages.
pub fn bytes_of(messages: &[(usize, Message)]) -> usize {
    let mut count = 0usize;
    for message in messages {
        if let Message::Bytes(bytes) = &message.1 {
            count = count.saturating_add(bytes.as_slice().len());
        }
    }
    count
}
