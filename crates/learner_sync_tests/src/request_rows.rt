//! The packets by which a learner forwards what its clients ask, and asks for their sessions.

ghost use Rattle.std.specs.Prelude.{◌<◌, ◌^◌, length};

use learner_sync::{request_of, session_question, session_request, session_table};
use quorum_packet::write_packet;
use std::alloc::Global;
use std::test::Fail;
use values::NoMemory;

// The bytes of the packet that forwards a frame of session 3, whose client has shown no id.
fn forwarded(alloc: Global, frame: &[u8]) -> Result<Vec<u8>, NoMemory>
    requires { length frame.now < 2 ^ 30 }
{
    let packet = request_of(alloc, 3, frame, &[])?;
    let mut bytes = Vec::new(alloc);
    write_packet(&packet, &mut bytes)?;
    Ok(bytes)
}

// The bytes of the packet that asks for session 3.
fn asked_for(alloc: Global) -> Result<Vec<u8>, NoMemory> {
    let packet = session_request(alloc, 3, 4_000)?;
    let mut bytes = Vec::new(alloc);
    write_packet(&packet, &mut bytes)?;
    Ok(bytes)
}

// The bytes of the packet that asks about a session from another server.
fn asked_about(alloc: Global) -> Result<Vec<u8>, NoMemory> {
    let packet = session_question(alloc, 0x0100_001c_0fff_0000, 20_000)?;
    let mut bytes = Vec::new(alloc);
    write_packet(&packet, &mut bytes)?;
    Ok(bytes)
}

#[test]
fn a_frame_is_forwarded(rt: HostRuntime) -> Result<(), Fail> {
    let bytes = forwarded(rt.alloc(), b"frame")?;
    let request: &[u8] =
        b"\0\0\0\x01\xff\xff\xff\xff\xff\xff\xff\xff\0\0\0\x0d\0\0\0\0\0\0\0\x03frame\0\0\0\0";
    assert!(rt; bytes.as_slice() == request);
    Ok(())
}

#[test]
fn a_session_is_asked_for(rt: HostRuntime) -> Result<(), Fail> {
    let bytes = asked_for(rt.alloc())?;
    let request: &[u8] =
        b"\0\0\0\x01\xff\xff\xff\xff\xff\xff\xff\xff\0\0\0\x14\0\0\0\0\0\0\0\x03\0\0\0\0\xff\xff\xff\xf6\0\0\x0f\xa0\xff\xff\xff\xff";
    assert!(rt; bytes.as_slice() == request);
    Ok(())
}

#[test]
fn a_session_is_asked_about(rt: HostRuntime) -> Result<(), Fail> {
    let bytes = asked_about(rt.alloc())?;
    let question: &[u8] =
        b"\0\0\0\x06\xff\xff\xff\xff\xff\xff\xff\xff\0\0\0\x0c\x01\0\0\x1c\x0f\xff\0\0\0\0\x4e\x20\xff\xff\xff\xff";
    assert!(rt; bytes.as_slice() == question);
    Ok(())
}

#[test]
fn a_table_of_sessions_is_written(rt: HostRuntime) -> Result<(), Fail> {
    let table = session_table(rt.alloc(), &[(0x0300_0000_0000_0001, 40_000), (-1, 0)])?;
    let rows: &[u8] = b"\x03\0\0\0\0\0\0\x01\0\0\x9c\x40\xff\xff\xff\xff\xff\xff\xff\xff\0\0\0\0";
    assert!(rt; table.as_slice() == rows);
    Ok(())
}
