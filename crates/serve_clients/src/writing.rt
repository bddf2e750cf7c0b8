//! Waiting on a stream, and writing a text to it.

use connection_loop::Rest;
use std::io;
use std::io::{ErrorKind, Write};
use std::sync::Wait;
use std::time::{Clock, Instant};

/// The longest wait for room, in milliseconds.
const LONGEST_WAIT: u64 = 10_000;

// Whether the call is only to be made again.
fn is_passing(error: &io::Error) -> bool {
    matches!(
        error.kind(),
        ErrorKind::WouldBlock | ErrorKind::TimedOut | ErrorKind::Interrupted
    )
}

// The milliseconds that have passed since then. While the clock can't be read, none have.
fn passed<T: Clock>(rt: &T, since: Option<Instant>) -> u64 {
    match (since, Instant::now(rt)) {
        (Some(since), Ok(now)) => {
            u64::try_from(now.duration_since(since).as_millis()).unwrap_or(u64::MAX)
        }
        _ => 0,
    }
}

// Waits until the stream may take bytes. Returns whether it may, before so many milliseconds have passed since then.
fn rest<T: Clock, R: Rest>(rt: &T, reader: &mut R, since: Option<Instant>, limit: u64) -> bool {
    let gone = passed(rt, since);
    let left = if limit == 0 {
        LONGEST_WAIT
    } else {
        limit.saturating_sub(gone)
    };
    if left == 0 {
        return false;
    }
    match reader.rest(left.min(LONGEST_WAIT)) {
        Ok(()) => true,
        Err(error) => is_passing(&error),
    }
}

/// Writes a text, waiting for room up to so many milliseconds (0: any number) each time.
pub(crate) fn write_text<T: Wait + Clock, R: Rest, W: Write>(
    rt: &T,
    reader: &mut R,
    writer: &mut W,
    text: &[u8],
    limit: u64,
) {
    let mut at: usize = 0;
    let mut since = Instant::now(rt).ok();
    for _ in rt.forever() {
        let Some(bytes) = text.get(at..) else {
            break;
        };
        if bytes.is_empty() {
            break;
        }
        match writer.write(bytes) {
            Ok(0) => break,
            Ok(count) => {
                at = at.saturating_add(count);
                since = Instant::now(rt).ok();
            }
            Err(error) if is_passing(&error) => {
                if !rest(rt, reader, since, limit) {
                    break;
                }
            }
            Err(_) => break,
        }
    }
}
