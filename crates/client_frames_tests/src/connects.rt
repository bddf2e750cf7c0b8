//! First frames, and their answers.

use crate::helpers::{is_answer, is_connect, is_no_connect};
use sessions::SessionResponse;
use std::test::*;

const CONNECT: [u8; 35] = *b"\x00\x00\x00\x00\x00\x00\x00\x00\x00\x00\x00\x09\x00\x00\x27\x10\
    \x00\x00\x00\x00\x00\x00\x00\x05\x00\x00\x00\x06secret\x00";

/// With the last byte, without it, and without the last byte of the request itself.
#[test]
fn first_frames(rt: HostRuntime) {
    assert!(rt; is_connect(rt.alloc(), &CONNECT, true));
    assert!(rt; is_connect(rt.alloc(), &CONNECT[..34], false));
    assert!(rt; is_no_connect(rt.alloc(), &CONNECT[..33]));
}

/// A refusal, with the last byte and without it.
#[test]
fn refusals(rt: HostRuntime) {
    let refusal = SessionResponse {
        time_out: 0,
        session_id: 0,
        password: [0; 16],
    };
    let frame = b"\x00\x00\x00\x24\x00\x00\x00\x00\x00\x00\x00\x00\x00\x00\x00\x00\x00\x00\x00\x00\
        \x00\x00\x00\x10\x00\x00\x00\x00\x00\x00\x00\x00\x00\x00\x00\x00\x00\x00\x00\x00";
    assert!(rt; is_answer(rt.alloc(), &refusal, false, frame));
    let frame = b"\x00\x00\x00\x25\x00\x00\x00\x00\x00\x00\x00\x00\x00\x00\x00\x00\x00\x00\x00\x00\
        \x00\x00\x00\x10\x00\x00\x00\x00\x00\x00\x00\x00\x00\x00\x00\x00\x00\x00\x00\x00\x00";
    assert!(rt; is_answer(rt.alloc(), &refusal, true, frame));
}
