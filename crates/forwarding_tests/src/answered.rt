//! What the leader's stream answers, and what then is ready.

use crate::helpers::{Asked, Live, Step, play};
use forwarding::{ConnectKind, ERROR_TXN, PENDING_LIMIT, WriteKind};
use std::test::Fail;

// A connection's requests: a sync, a create, a frame, and a closeSession.
#[test]
fn a_write_overtakes_a_sync(rt: HostRuntime) -> Result<(), Fail> {
    let steps = [
        (Step::Ask(1, Asked::Sync(7, "/a")), ""),
        (Step::Ask(1, Asked::Write(8, WriteKind::Create)), ""),
        (Step::Ask(1, Asked::Frame(&[1, 2])), ""),
        (Step::Ask(1, Asked::Write(9, WriteKind::CloseSession)), ""),
        (Step::Close(1), "9"),
        (Step::Answer(1, 9, ERROR_TXN), "0"),
        (Step::Answer(2, 8, 1), "0"),
        (Step::Answer(1, 8, 5), "0"),
        (Step::IsEmpty, "no"),
        (Step::WouldAnswer(1, 8, 1), "1"),
        (Step::WouldAnswer(1, 8, 5), "0"),
        (Step::Answer(1, 8, 1), "1"),
        (Step::Take(1), ""),
        (Step::Settle(2), "1-"),
        (Step::Take(1), "sync 7 /a; frame [1, 2]; "),
        (Step::Answer(1, 9, ERROR_TXN), "-11"),
        (Step::IsIdle(1), "yes"),
        (Step::IsEmpty, "yes"),
    ];
    play(&rt, rt.alloc(), &steps)
}

// Connection 1 syncs and goes. Its number is used again, after the sync of connection 2.
#[test]
fn syncs_are_settled_in_order(rt: HostRuntime) -> Result<(), Fail> {
    let steps = [
        (Step::Ask(1, Asked::Sync(7, "/a")), ""),
        (Step::Leave(1), ""),
        (Step::Leave(3), ""),
        (Step::Ask(2, Asked::Sync(3, "/b")), ""),
        (Step::Ask(1, Asked::Sync(1, "/c")), ""),
        (Step::Settle(2), "x2"),
        (Step::Take(1), ""),
        (Step::Take(2), "sync 3 /b; "),
        (Step::Clear, ""),
        (Step::Settle(1), "-"),
        (Step::IsIdle(1), "yes"),
    ];
    play(&rt, rt.alloc(), &steps)
}

#[test]
fn a_connect_waits_for_its_session(rt: HostRuntime) -> Result<(), Fail> {
    let steps = [
        (Step::Ask(2, Asked::Connect(ConnectKind::New, -9)), ""),
        (Step::Ask(3, Asked::Connect(ConnectKind::Claimed, -9)), ""),
        (Step::Ask(2, Asked::Frame(&[5])), ""),
        (Step::Ask(2, Asked::Write(4, WriteKind::Create)), ""),
        (Step::Ask(2, Asked::Frame(&[6])), ""),
        (Step::Connecting(-9), "2"),
        (Step::Take(2), ""),
        (Step::TakeConnect(2), "-9; frame [5]; frame [6]; "),
        (Step::TakeConnect(2), "-; "),
        (Step::Connecting(-9), "0"),
        (Step::IsIdle(2), "yes"),
    ];
    play(&rt, rt.alloc(), &steps)
}

// Connection 2 waits for a new session, and connection 3 claims one. Then that connection goes, and connection 4 claims
// the session.
#[test]
fn a_connect_is_found_by_the_way_in_which_it_asks(rt: HostRuntime) -> Result<(), Fail> {
    let steps = [
        (Step::Ask(2, Asked::Connect(ConnectKind::New, -9)), ""),
        (Step::Ask(3, Asked::Connect(ConnectKind::Claimed, 8)), ""),
        (Step::Ask(3, Asked::Frame(&[5])), ""),
        (Step::Awaiting(-9), "2 0"),
        (Step::Awaiting(8), "0 3"),
        (Step::Awaiting(9), "0 0"),
        (Step::Leave(3), ""),
        (Step::Awaiting(8), "0 0"),
        (Step::Ask(4, Asked::Connect(ConnectKind::Claimed, 8)), ""),
        (Step::Awaiting(8), "0 4"),
    ];
    play(&rt, rt.alloc(), &steps)
}

// A deleteContainer is forwarded, and a reconfig by another connection.
#[test]
fn a_write_is_answered_by_its_own_type(rt: HostRuntime) -> Result<(), Fail> {
    let steps = [
        (
            Step::Ask(1, Asked::Write(4, WriteKind::DeleteContainer)),
            "",
        ),
        (Step::Ask(2, Asked::Write(5, WriteKind::Reconfig)), ""),
        (Step::Answer(1, 4, 2), "0"),
        (Step::Answer(2, 5, 5), "0"),
        (Step::Answer(1, 4, 20), "20"),
        (Step::Answer(2, 5, 16), "16"),
        (Step::IsEmpty, "yes"),
    ];
    play(&rt, rt.alloc(), &steps)
}

#[test]
fn each_kind_has_its_number(rt: HostRuntime) -> Result<(), Fail> {
    for (kind, number) in [
        (WriteKind::Create, 1),
        (WriteKind::Delete, 2),
        (WriteKind::SetData, 5),
        (WriteKind::SetAcl, 7),
        (WriteKind::Multi, 14),
        (WriteKind::Create2, 15),
        (WriteKind::Reconfig, 16),
        (WriteKind::CreateContainer, 19),
        (WriteKind::DeleteContainer, 20),
        (WriteKind::CreateTtl, 21),
        (WriteKind::CloseSession, -11),
    ] {
        assert_eq!(rt; kind.number(), number);
    }
    Ok(())
}

#[test]
fn touched_sessions_are_told_once(rt: HostRuntime) -> Result<(), Fail> {
    let live = Live {
        one: (5, 40_000),
        other: (-3, 4_000),
    };
    let steps = [
        (Step::Touch(9), ""),
        (Step::Touch(5), ""),
        (Step::Touch(-3), ""),
        (Step::Touch(5), ""),
        (Step::Touched(live), "-3 4000; 5 40000; "),
        (Step::Touched(live), ""),
    ];
    play(&rt, rt.alloc(), &steps)
}

#[test]
fn a_connection_is_idle_busy_and_full(rt: HostRuntime) -> Result<(), Fail> {
    assert_eq!(rt; PENDING_LIMIT, 1024);
    let steps = [
        (Step::Hold(1, 0), "idle"),
        (Step::Hold(1, 1), "busy"),
        (Step::Hold(1, 1022), "busy"),
        (Step::IsFull(1), "no"),
        (Step::Hold(1, 1), "full"),
        (Step::IsFull(1), "yes"),
    ];
    play(&rt, rt.alloc(), &steps)
}
