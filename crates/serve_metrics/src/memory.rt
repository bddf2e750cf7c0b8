//! The memory of this process.

use std::alloc::Global;
use std::fs::File;
use std::io;
use std::io::{Seek, SeekFrom};

/// The file in which Linux tells of the process that reads it.
pub const STATUS: &str = "/proc/self/status";

// How the line with the resident memory begins.
const RESIDENT: &str = "VmRSS:";

// The bytes that a line of the file names, if it is that of the resident memory. Its unit is kB.
fn bytes_in(line: &str) -> Option<u64> {
    let rest = line.strip_prefix(RESIDENT)?;
    let number = rest.trim().strip_suffix("kB")?.trim();
    let kilobytes = number.parse::<u64>().ok()?;
    kilobytes.checked_mul(1024)
}

/// The resident memory of this process in bytes, as `STATUS` tells it now.
pub(crate) fn resident_memory(alloc: Global, status: &mut File) -> Option<u64> {
    status.seek(SeekFrom::Start(0)).ok()?;
    let text = io::read_to_string(alloc, status).ok()?;
    text.as_str().lines().find_map(|line| bytes_in(line))
}
