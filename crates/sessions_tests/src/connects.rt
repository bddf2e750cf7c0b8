//! Connecting, closing and ending. Passwords were made by another SHA-1, of "secret" and the id's eight bytes.

use crate::helpers::{Claim, Server, Step, play};
use std::test::Fail;

const SERVER: Server<'static> = Server::Keyed(3, 0);

const FIRST: i64 = 0x0300_0000_0000_0001;

const FIRST_PASSWORD: &[u8; 16] =
    b"\x9a\xc2\xa1\x54\x8d\x95\xbd\x05\x2e\x02\x84\x3f\xc8\x76\x06\xf6";

const SECOND: i64 = 0x0300_0000_0000_0002;

// Connections 1 and 2 get a session each.
const OPEN_FIRST: Step<'static> = Step::Open(1, FIRST);

const OPEN_SECOND: Step<'static> = Step::Open(2, SECOND);

// The claim of a session with a timeout of 10 seconds.
fn claim(session: i64, password: Option<&[u8]>) -> Claim<'_> {
    Claim {
        time_out: 10_000,
        session,
        password,
    }
}

// A connection asks for a new session.
fn ask_for_new(number: u64) -> Step<'static> {
    Step::Connect(number, claim(0, Some(&[0; 16])))
}

// Connection 3 claims the first session.
fn ask_for_first() -> Step<'static> {
    Step::Connect(3, claim(FIRST, Some(FIRST_PASSWORD)))
}

#[test]
fn new_sessions_count_up(rt: HostRuntime) -> Result<(), Fail> {
    for (server_id, counter, first, second) in [
        (
            3,
            0,
            "10000 0300000000000001 9ac2a1548d95bd052e02843fc87606f6 -;",
            "10000 0300000000000002 02e2a86c10104a0091022fc3f8030f6a -;",
        ),
        (
            3,
            0x00ff_ffff_ffff_fffe,
            "10000 03ffffffffffffff 6d7d1998324d05aaaab473cd75587528 -;",
            "0 0000000000000000 00000000000000000000000000000000 -;",
        ),
        (
            200,
            0,
            "10000 c800000000000001 9e03e5eed98fb3e3bb143d98810ae35a -;",
            "10000 c800000000000002 650d62e3a8083a79fbdc159f70dcbd93 -;",
        ),
    ] {
        let steps = [
            (ask_for_new(1), first),
            (ask_for_new(2), second),
            (Step::Seats, "000000"),
        ];
        play(&rt, rt.alloc(), Server::Keyed(server_id, counter), &steps)?;
    }
    Ok(())
}

// Two connections get the sessions that the leader has created, and a third gets the first one's.
#[test]
fn a_created_session_is_given(rt: HostRuntime) -> Result<(), Fail> {
    let steps = [
        (
            Step::Admit(1, FIRST, 10_000),
            "10000 0300000000000001 9ac2a1548d95bd052e02843fc87606f6 -;",
        ),
        (
            Step::Admit(2, SECOND, 10_000),
            "10000 0300000000000002 02e2a86c10104a0091022fc3f8030f6a -;",
        ),
        (
            Step::Admit(3, FIRST, 10_000),
            "10000 0300000000000001 9ac2a1548d95bd052e02843fc87606f6 1;",
        ),
        (Step::Seats, "000201"),
    ];
    play(&rt, rt.alloc(), SERVER, &steps)
}

#[test]
fn timeouts_stay_within_their_bounds(rt: HostRuntime) -> Result<(), Fail> {
    for (time_out, expected) in [
        (
            100,
            "4000 0300000000000001 9ac2a1548d95bd052e02843fc87606f6 -;",
        ),
        (
            -1,
            "4000 0300000000000001 9ac2a1548d95bd052e02843fc87606f6 -;",
        ),
        (
            4000,
            "4000 0300000000000001 9ac2a1548d95bd052e02843fc87606f6 -;",
        ),
        (
            40_000,
            "40000 0300000000000001 9ac2a1548d95bd052e02843fc87606f6 -;",
        ),
        (
            i32::MAX,
            "40000 0300000000000001 9ac2a1548d95bd052e02843fc87606f6 -;",
        ),
    ] {
        let claim = Claim {
            time_out,
            session: 0,
            password: None,
        };
        let steps = [(Step::Connect(1, claim), expected)];
        play(&rt, rt.alloc(), SERVER, &steps)?;
    }
    Ok(())
}

#[test]
fn a_session_wants_its_own_password(rt: HostRuntime) -> Result<(), Fail> {
    let short = b"\x9a\xc2\xa1\x54\x8d\x95\xbd\x05\x2e\x02\x84\x3f\xc8\x76\x06";
    let refused = "0 0000000000000000 00000000000000000000000000000000 -;";
    for claim in [
        claim(5, Some(&[0; 16])),
        claim(FIRST, Some(&[0; 16])),
        claim(SECOND, Some(FIRST_PASSWORD)),
        claim(FIRST, Some(short)),
        claim(FIRST, None),
    ] {
        let steps = [
            (OPEN_FIRST, ""),
            (OPEN_SECOND, ""),
            (Step::Connect(3, claim), refused),
            (Step::Seats, "010200"),
        ];
        play(&rt, rt.alloc(), SERVER, &steps)?;
    }
    Ok(())
}

#[test]
fn an_older_connection_gives_way(rt: HostRuntime) -> Result<(), Fail> {
    let steps = [
        (OPEN_FIRST, ""),
        (OPEN_SECOND, ""),
        (
            ask_for_first(),
            "10000 0300000000000001 9ac2a1548d95bd052e02843fc87606f6 1;",
        ),
        (Step::Seats, "000201"),
    ];
    play(&rt, rt.alloc(), SERVER, &steps)
}

#[test]
fn a_session_has_one_connection_at_most(rt: HostRuntime) -> Result<(), Fail> {
    let steps = [
        (OPEN_FIRST, ""),
        (OPEN_SECOND, ""),
        (Step::Owner(FIRST), "1"),
        (Step::Close(1), ""),
        (Step::Owner(SECOND), "2"),
        (Step::Owner(FIRST), "0"),
        (Step::Owner(5), "0"),
    ];
    play(&rt, rt.alloc(), SERVER, &steps)
}

#[test]
fn a_session_outlives_its_connection(rt: HostRuntime) -> Result<(), Fail> {
    let steps = [
        (OPEN_FIRST, ""),
        (OPEN_SECOND, ""),
        (Step::Close(1), ""),
        (Step::Close(1), ""),
        (
            ask_for_first(),
            "10000 0300000000000001 9ac2a1548d95bd052e02843fc87606f6 -;",
        ),
    ];
    play(&rt, rt.alloc(), SERVER, &steps)
}

// An unknown session ends, then the first one, and then the first one again, which the tree doesn't have any more.
#[test]
fn an_ended_session_is_nobodys(rt: HostRuntime) -> Result<(), Fail> {
    let steps = [
        (OPEN_FIRST, ""),
        (OPEN_SECOND, ""),
        (Step::Expire(5), "0"),
        (Step::Expire(FIRST), "1"),
        (Step::Expire(FIRST), "0"),
        (
            Step::ConnectToEnded(3, claim(FIRST, Some(FIRST_PASSWORD))),
            "0 0000000000000000 00000000000000000000000000000000 -;",
        ),
    ];
    play(&rt, rt.alloc(), SERVER, &steps)
}

// Connection 1 asks for a new session, which ends before the connection has it, and then for another.
#[test]
fn an_ended_sessions_id_is_not_given_again(rt: HostRuntime) -> Result<(), Fail> {
    let steps = [
        (
            ask_for_new(1),
            "10000 0300000000000001 9ac2a1548d95bd052e02843fc87606f6 -;",
        ),
        (Step::Expire(FIRST), "0"),
        (
            ask_for_new(1),
            "10000 0300000000000002 02e2a86c10104a0091022fc3f8030f6a -;",
        ),
    ];
    play(&rt, rt.alloc(), SERVER, &steps)
}
