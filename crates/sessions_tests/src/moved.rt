//! Sessions that move between servers. Their passwords were given by servers of ZooKeeper.

use crate::helpers::{Claim, Server, Step, play};
use std::test::Fail;

const MOVED: i64 = 0x0100_001c_0fff_0000;

const MOVED_PASSWORD: &[u8; 16] =
    b"\x33\x93\x34\xdf\x44\xb0\x3b\xff\xc9\xf0\x77\x6b\x2d\x64\x54\x61";

// A claim with a timeout of 20 seconds.
fn claim(session: i64, password: Option<&[u8]>) -> Step<'_> {
    Step::Claim(Claim {
        time_out: 20_000,
        session,
        password,
    })
}

#[test]
fn a_session_of_another_server_can_be_claimed(rt: HostRuntime) -> Result<(), Fail> {
    let short = Claim {
        time_out: 100,
        session: 0x0200_001c_16d8_0000,
        password: Some(b"\x1a\xb9\x18\x7c\x9f\x5d\x61\x09\x88\x82\x26\x51\x80\x0c\xae\x01"),
    };
    let long = Claim {
        time_out: i32::MAX,
        session: 0x7777,
        password: Some(b"\x3d\x79\x71\xb8\x3a\x8c\x66\x2f\x3c\x26\x1e\x1f\xe4\x91\x5c\x30"),
    };
    let steps = [
        (
            claim(MOVED, Some(MOVED_PASSWORD)),
            "20000 0100001c0fff0000 339334df44b03bffc9f0776b2d645461",
        ),
        (
            Step::Claim(short),
            "4000 0200001c16d80000 1ab9187c9f5d610988822651800cae01",
        ),
        (
            Step::Claim(long),
            "40000 0000000000007777 3d7971b83a8c662f3c261e1fe4915c30",
        ),
    ];
    play(&rt, rt.alloc(), Server::Java, &steps)
}

#[test]
fn a_claim_wants_the_sessions_own_password(rt: HostRuntime) -> Result<(), Fail> {
    let short = b"\x33\x93\x34\xdf\x44\xb0\x3b\xff\xc9\xf0\x77\x6b\x2d\x64\x54";
    let steps = [
        (claim(MOVED, None), "refused"),
        (claim(MOVED, Some(&[0; 16])), "refused"),
        (claim(MOVED, Some(&[])), "refused"),
        (claim(MOVED, Some(short)), "refused"),
        (
            claim(0x0200_001c_16d8_0000, Some(MOVED_PASSWORD)),
            "refused",
        ),
    ];
    play(&rt, rt.alloc(), Server::Java, &steps)
}

#[test]
fn a_secret_makes_passwords_of_its_own(rt: HostRuntime) -> Result<(), Fail> {
    let own = b"\x9a\xc2\xa1\x54\x8d\x95\xbd\x05\x2e\x02\x84\x3f\xc8\x76\x06\xf6";
    let steps = [
        (claim(MOVED, Some(MOVED_PASSWORD)), "refused"),
        (
            claim(0x0300_0000_0000_0001, Some(own)),
            "20000 0300000000000001 9ac2a1548d95bd052e02843fc87606f6",
        ),
    ];
    play(&rt, rt.alloc(), Server::Keyed(3, 0), &steps)
}

// Connections get the session one after the other, each with a timeout of its own, the last one with one that is too
// short. Then that connection closes.
#[test]
fn a_connection_is_told_the_timeout_of_its_response(rt: HostRuntime) -> Result<(), Fail> {
    let steps = [
        (Step::Told(MOVED), "0"),
        (
            Step::Admit(1, MOVED, 5000),
            "5000 0100001c0fff0000 339334df44b03bffc9f0776b2d645461 -;",
        ),
        (Step::Told(MOVED), "5000"),
        (
            Step::Admit(2, MOVED, 24_000),
            "24000 0100001c0fff0000 339334df44b03bffc9f0776b2d645461 1;",
        ),
        (Step::Told(MOVED), "24000"),
        (
            Step::Admit(3, MOVED, 100),
            "4000 0100001c0fff0000 339334df44b03bffc9f0776b2d645461 2;",
        ),
        (Step::Told(MOVED), "4000"),
        (Step::Close(3), ""),
        (Step::Told(MOVED), "0"),
    ];
    play(&rt, rt.alloc(), Server::Java, &steps)
}
