//! Transactions that a leader of ZooKeeper 3.5 to 3.9 writes, each with a digest.

use crate::events::{Event, Start, after, at};
use quorum_packet::PacketKind;
use std::test::Fail;
use values::Fault;

// The containers /c and /d, and the end of /d.
const FIRST: &[u8] =
    b"\0\0\0\x02/c\0\0\0\0\0\0\0\x01\0\0\0\x1f\0\0\0\x05world\0\0\0\x06anyone\0\0\0\x01\0\0\0\x02\0\0\0\0\x51\xc6\xd6\x60";

const SECOND: &[u8] =
    b"\0\0\0\x02/d\0\0\0\0\0\0\0\x01\0\0\0\x1f\0\0\0\x05world\0\0\0\x06anyone\0\0\0\x02\0\0\0\x02\0\0\0\0\x51\xc6\xd6\x60";

const SECOND_ENDS: &[u8] = b"\0\0\0\x02/d\0\0\0\x02\0\0\0\0\x51\xc6\xd6\x60";

// The configuration is set to "v".
const RECONFIG: &[u8] =
    b"\0\0\0\x11/zookeeper/config\0\0\0\x01v\xff\xff\xff\xff\0\0\0\x02\0\0\0\0\x51\xc6\xd6\x60";

// The first container is in the base, and the next leader asks for a truncation before the end of the second.
const TRUNCATED: [Event; 8] = [
    Event::Txn(19, FIRST, 1),
    Event::Checkpoint,
    Event::Txn(19, SECOND, 2),
    Event::Txn(20, SECOND_ENDS, 3),
    Event::Goes,
    Event::Comes,
    Event::Greets,
    Event::Packet(PacketKind::Trunc, 2),
];

#[test]
fn a_truncation_goes_back_over_later_transactions(rt: HostRuntime) -> Result<(), Fail> {
    // The fresh tree has 3 nodes.
    let all = after(rt.alloc(), Start::LaterPrimed, &TRUNCATED[..4])?;
    assert!(rt; all.nodes == 4 && all.logged == 2 && all.refused.is_none());
    let truncated = after(rt.alloc(), Start::LaterPrimed, &TRUNCATED)?;
    assert!(rt; truncated.nodes == 5 && truncated.logged == 1 && truncated.last_zxid == at(2));
    Ok(())
}

#[test]
fn a_reconfig_is_applied(rt: HostRuntime) -> Result<(), Fail> {
    // Its node isn't there, and its zxid counts.
    let reconfig = [Event::Activated(16, RECONFIG, 1)];
    let seen = after(rt.alloc(), Start::LaterPrimed, &reconfig)?;
    assert!(rt; seen.errors.as_slice() == [-101i32].as_slice() && seen.logged == 1);
    assert!(rt; seen.last_zxid == at(1));
    Ok(())
}

// The leader's answer that a session lives, and that another has ended.
const ANSWERS: [Event; 2] = [
    Event::Answer(b"\x01\0\0\x1c\x0f\xff\0\0\x01"),
    Event::Answer(b"\0\0\0\0\0\0\x77\x77\0"),
];

#[test]
fn an_answer_for_a_session_is_told(rt: HostRuntime) -> Result<(), Fail> {
    let seen = after(rt.alloc(), Start::LaterPrimed, &ANSWERS)?;
    let answers = [(0x0100_001c_0fff_0000i64, true), (0x7777i64, false)];
    assert!(rt; seen.answers.as_slice() == answers.as_slice() && seen.refused.is_none());
    // It changes nothing.
    assert!(rt; seen.sessions.as_slice() == [4i64].as_slice() && seen.logged == 0);
    let short = after(
        rt.alloc(),
        Start::LaterPrimed,
        &[Event::Answer(b"\0\0\0\0\0\0\x77\x77")],
    )?;
    assert!(rt; short.refused == Some(Fault::Short));
    Ok(())
}

#[test]
fn the_earlier_dialect_has_none_of_them(rt: HostRuntime) -> Result<(), Fail> {
    let passed = after(
        rt.alloc(),
        Start::Primed,
        &[Event::Activated(16, RECONFIG, 1)],
    )?;
    assert!(rt; passed.refused.is_none() && passed.logged == 0 && passed.last_zxid == 0);
    let refused = after(rt.alloc(), Start::Primed, &[Event::Txn(19, FIRST, 1)])?;
    assert!(rt; refused.refused == Some(Fault::BadTxnType) && refused.logged == 0);
    let answered = after(rt.alloc(), Start::Primed, &ANSWERS)?;
    assert!(rt; answered.answers.is_empty() && answered.refused.is_none());
    Ok(())
}
