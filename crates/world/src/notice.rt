//! The events that clients are sent for their watches.

ghost use Rattle.values.specs.Gains.{Puts};
ghost use Rattle.world.specs.Clients.{notice_to, notices_of, notices_to};

use crate::output::Output;
use client_records::codes::NOTIFICATION_XID;
use read_processor::Look;
use std::alloc::Global;
use values::NoMemory;
use watch_manager::Event;

// An event's frame has -1 in place of a zxid.
const EVENT_ZXID: i64 = -1;

fn notify(
    alloc: Global,
    number: u64,
    event: &Event,
    outputs: &mut Vec<Output>,
) -> Result<(), NoMemory>
    ensures { Puts result outputs.old.items (notice_to number event.now) outputs.new.items }
{
    let seen = Look::of_event(alloc, event)?;
    if let Some(frame) = seen.into_frame(NOTIFICATION_XID, EVENT_ZXID) {
        outputs.push(Output::ToClient(number, frame))?;
    }
    Ok(())
}

/// Sends each connection its event.
pub fn notify_each(
    alloc: Global,
    events: &[(u64, Event)],
    outputs: &mut Vec<Output>,
) -> Result<(), NoMemory>
    ensures { Puts result outputs.old.items (notices_of events.now) outputs.new.items }
{
    for (number, event) in events {
        notify(alloc, *number, event, outputs)?;
    }
    Ok(())
}

/// Sends one connection all the events, in order.
pub fn notify_all(
    alloc: Global,
    number: u64,
    events: &[Event],
    outputs: &mut Vec<Output>,
) -> Result<(), NoMemory>
    ensures { Puts result outputs.old.items (notices_to number events.now) outputs.new.items }
{
    for event in events {
        notify(alloc, number, event, outputs)?;
    }
    Ok(())
}
