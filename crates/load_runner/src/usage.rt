//! What this process has used, as Linux tells it.

use std::alloc::Global;
use std::rt::Files;
use std::{fs, io};

// Nanoseconds that the first thread has run, and more.
const RUNNING: &str = "/proc/self/schedstat";

// The process's figures, a line each.
const STATUS: &str = "/proc/self/status";

// A file to which a 5 is written, so that the greatest resident set is sought anew.
const FORGOTTEN: &str = "/proc/self/clear_refs";

// The text of a file, if it can be read.
fn text_of<R: Files>(rt: &R, alloc: Global, name: &str) -> Option<String> {
    match fs::open(rt, name) {
        Ok(file) => io::read_to_string(alloc, file).ok(),
        Err(_) => None,
    }
}

/// The nanoseconds that the first thread has had of a processor, up to the last tick; `None` if the system doesn't tell
/// them.
pub fn processor<R: Files>(rt: &R, alloc: Global) -> Option<u64> {
    let text = text_of(rt, alloc, RUNNING)?;
    text.as_str().split_whitespace().next()?.parse::<u64>().ok()
}

/// The greatest resident set is sought anew from here on, if the system does that.
pub fn forget_greatest<R: Files>(rt: &R) -> Option<()> {
    fs::write(rt, FORGOTTEN, "5").ok()
}

/// The number of a line of the status that begins so, in KiB; `None` if the system doesn't tell.
pub fn status<R: Files>(rt: &R, alloc: Global, name: &str) -> Option<u64> {
    let text = text_of(rt, alloc, STATUS)?;
    for line in text.as_str().lines() {
        if let Some(rest) = line.strip_prefix(name) {
            return rest.split_whitespace().next()?.parse::<u64>().ok();
        }
    }
    None
}
