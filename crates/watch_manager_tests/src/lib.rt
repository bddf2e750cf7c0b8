//! Tests of the watches, over public calls alone. They are a crate of their own, since a crate with tests is proved
//! twice. The calls are in functions without contracts, so that a test's own proof is short.
#![tactic(auto)]

#[cfg(test)]
mod counted;
#[cfg(test)]
mod fired;
#[cfg(test)]
mod kinds;

use data_tree::Trigger;
use std::alloc::Global;
use values::{NoMemory, Text};
use watch_manager::{WatchCounts, Watches};

/// The trigger of a sign: "+" a create, "-" a delete, "=" new data, and any other a change of the children.
pub fn trigger_of(alloc: Global, sign: char, path: &str) -> Result<Trigger, NoMemory> {
    let path = Text::new(alloc, path)?;
    Ok(match sign {
        '+' => Trigger::Created(path),
        '-' => Trigger::Deleted(path),
        '=' => Trigger::DataChanged(path),
        _ => Trigger::ChildrenChanged(path),
    })
}

/// The number of connections that watch something, of watched paths, and of watches.
pub fn counts_of(watches: &Watches) -> (u128, u128, u128) {
    let WatchCounts {
        connections,
        paths,
        watches,
    } = watches.counts();
    (connections, paths, watches)
}
