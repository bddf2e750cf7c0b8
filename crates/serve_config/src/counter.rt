//! The counter that session ids begin after.

use serve_options::Options;
use settings::FirstCounter;
use std::io;
use std::time::{Clock, Duration, SystemTime};

/// The counter that session ids begin after: the one that is given, or that of the clock, so that the ids of two runs
/// differ.
pub fn first_counter<R: Clock>(rt: &R, options: &Options<'_>) -> io::Result<FirstCounter> {
    if let Some(counter) = options.first_counter {
        return Ok(counter);
    }
    let since_1970 = SystemTime::now(rt)?
        .duration_since(SystemTime::UNIX_EPOCH)
        .unwrap_or(Duration::ZERO);
    let milliseconds = u64::try_from(since_1970.as_millis()).unwrap_or(0);
    Ok(FirstCounter::from_clock(milliseconds))
}
