//! The ends of a client's frames, and which of them are sent on together.

ghost use Rattle.std.specs.Prelude.{◌≡◌, ◌≤◌};
ghost use Rattle.connection_loop.specs.Frames.{whole_frames_length, goes_with, goes_last, gate_after, frames_going};

use crate::kind::{FrameKind, Gate, after_int, kind_of_frame};
use crate::window::MOST_AT_ONCE;
use jute::{Reader, read_frame};
use observer_core::CLIENT_FRAME_LIMIT;
use settings::Dialect;
use values::Fault;

/// The length in bytes of the longest prefix that is at most `most` whole frames. If a length out of bounds follows
/// them, the result is the length of all bytes: the connection ends there, whatever follows.
pub fn whole_frames(bytes: &[u8], most: usize) -> usize
    ensures { result ≡ whole_frames_length most bytes.now }
{
    let mut ahead = Reader::new(bytes);
    for _ in 0..most {
        match read_frame(&mut ahead, CLIENT_FRAME_LIMIT) {
            Ok(_) => {}
            Err(fault) => match fault {
                Fault::Short => break,
                _ => return bytes.len(),
            },
        }
    }
    bytes.len().saturating_sub(ahead.rest().len())
}

/// Whether a frame of this kind may be sent on.
pub(crate) fn goes_with(kind: FrameKind, gate: Gate) -> bool
    ensures { result ≡ goes_with kind gate }
{
    match kind {
        FrameKind::Light | FrameKind::Forwarded => true,
        FrameKind::Local => match gate {
            Gate::Narrow => false,
            Gate::Ahead | Gate::Open => true,
        },
        FrameKind::Heavy => match gate {
            Gate::Narrow | Gate::Ahead => false,
            Gate::Open => true,
        },
    }
}

// The gate after a frame, before its answer. Those that go ahead all have places, also after one for the leader.
fn gate_after(kind: FrameKind, gate: Gate) -> Gate
    ensures { result ≡ gate_after kind gate }
{
    match kind {
        FrameKind::Light | FrameKind::Local => gate,
        FrameKind::Forwarded => match gate {
            Gate::Ahead => Gate::Ahead,
            Gate::Narrow | Gate::Open => Gate::Narrow,
        },
        FrameKind::Heavy => Gate::Narrow,
    }
}

fn goes_last(kind: FrameKind) -> bool
    ensures { result ≡ goes_last kind }
{
    match kind {
        FrameKind::Light | FrameKind::Forwarded | FrameKind::Local => false,
        FrameKind::Heavy => true,
    }
}

/// How many of the whole frames at the front, at most `most`, are sent on as one piece. A frame that the engine would
/// hold isn't among them after one for the leader, unless they go ahead, nor where the gate is narrow. A frame of
/// unbounded cost goes only through an open gate, and is the last one; so is a length out of bounds.
pub fn frames_going(dialect: Dialect, bytes: &[u8], most: usize, gate: Gate) -> usize
    ensures going { result ≡ frames_going dialect most gate bytes.now }
    ensures bound { result ≤ most }
{
    let mut ahead = Reader::new(bytes);
    let mut here = gate;
    for count in 0..most {
        match read_frame(&mut ahead, CLIENT_FRAME_LIMIT) {
            Ok(frame) => {
                let kind = kind_of_frame(dialect, frame);
                if !goes_with(kind, here) {
                    return count;
                }
                if goes_last(kind) {
                    return count + 1;
                }
                here = gate_after(kind, here);
            }
            Err(fault) => match fault {
                Fault::Short => return count,
                _ => {
                    let ends = goes_with(FrameKind::Heavy, here);
                    return if ends { count + 1 } else { count };
                }
            },
        }
    }
    most
}

/// Whether the last frame that begins in these bytes is of unbounded cost. It is a hint for the hub.
pub(crate) fn ends_heavy(dialect: Dialect, bytes: &[u8]) -> bool {
    let mut ahead = Reader::new(bytes);
    let mut last = bytes;
    for _ in 0..MOST_AT_ONCE {
        let rest = ahead.rest();
        if rest.is_empty() {
            break;
        }
        last = rest;
        if read_frame(&mut ahead, CLIENT_FRAME_LIMIT).is_err() {
            break;
        }
    }
    goes_last(kind_of_frame(dialect, after_int(last)))
}
