//! What the measured part takes.

use crate::load::Load;
use crate::supply::Supply;
use crate::usage::{forget_greatest, processor, status};
use anyhow::Result;
use std::alloc::Global;
use std::rt::{Clock, Files};
use std::time::{Duration, Instant};

/// What the measured part took.
#[derive(Clone, Copy)]
pub struct Figures {
    /// The time by the clock.
    pub took: Duration,
    /// Nanoseconds of the processor; `None` if the system doesn't tell.
    pub processor: Option<u64>,
    /// By how much the resident set was greater at most than at the start, in KiB; `None` if the system doesn't tell.
    pub memory: Option<u64>,
}

// What is more than before.
fn more(after: Option<u64>, before: Option<u64>) -> Option<u64> {
    Some(after?.saturating_sub(before?))
}

/// Feeds the steps of the measured part one after the other, on the calling thread, and measures what that takes.
pub fn measured<R: Clock + Files>(
    rt: &R,
    alloc: Global,
    load: &mut Load,
    supply: &Supply,
) -> Result<Figures> {
    let forgotten = forget_greatest(rt);
    let held = forgotten.and(status(rt, alloc, "VmRSS:"));
    let ran = processor(rt, alloc);
    let since = Instant::now(rt)?;
    load.play(alloc, supply, supply.steps.as_slice())?;
    let took = since.elapsed(rt)?;
    Ok(Figures {
        took,
        processor: more(processor(rt, alloc), ran),
        memory: more(status(rt, alloc, "VmHWM:"), held),
    })
}
