//! The ids of connections. Digests were made by another SHA-1 and base64.

use crate::helpers::{Server, Step, play, show};
use sessions::AUTH_LIMIT;
use std::test::Fail;

const SERVER: Server<'static> = Server::Keyed(3, 0);

// Connection 1 gets a session.
const OPEN: Step<'static> = Step::Open(1, 0x0300_0000_0000_0001);

#[test]
fn a_digest_id_is_shown_once(rt: HostRuntime) -> Result<(), Fail> {
    for (text, expected) in [
        ("super:admin", "digest super:xQJmxLMiHGwaqBvst5y6rkB6HQs=;"),
        (
            "user",
            "digest super:xQJmxLMiHGwaqBvst5y6rkB6HQs=;\
                digest user:Et6pb+wgWTVmq3VpLJlJWWgzrck=;",
        ),
        (
            "a:b:c",
            "digest super:xQJmxLMiHGwaqBvst5y6rkB6HQs=;\
                digest a:cLzgnoJ6mP5qz3w+mwvPE2vDgu0=;",
        ),
    ] {
        let steps = [
            (OPEN, ""),
            (show("super:admin"), ""),
            (show(text), ""),
            (Step::Ids, expected),
        ];
        play(&rt, rt.alloc(), SERVER, &steps)?;
    }
    Ok(())
}

#[test]
fn what_is_no_digest_id_is_refused(rt: HostRuntime) -> Result<(), Fail> {
    let steps = [
        (OPEN, ""),
        (show("super:admin"), ""),
        (Step::Auth(None, Some(b"super:admin")), "refused"),
        (Step::Auth(Some("world"), Some(b"super:admin")), "refused"),
        (Step::Auth(Some("digest"), None), "refused"),
        (Step::Auth(Some("digest"), Some(b"a:\xff")), "refused"),
        (Step::Ids, "digest super:xQJmxLMiHGwaqBvst5y6rkB6HQs=;"),
    ];
    play(&rt, rt.alloc(), SERVER, &steps)
}

#[test]
fn a_connection_shows_1024_ids(rt: HostRuntime) -> Result<(), Fail> {
    let steps = [(OPEN, ""), (Step::ShowUsers(1025), "1024"), (show("0"), "")];
    play(&rt, rt.alloc(), SERVER, &steps)
}

// Two users of these many letters are shown, and then the first one again. An id has 35 bytes besides its user:
// "digest", a colon and the 28 letters of a digest.
#[test]
fn ids_of_a_connection_have_65536_bytes(rt: HostRuntime) -> Result<(), Fail> {
    for (first, second, told, count) in [
        (32_733, 32_733, ("", ""), "2"),
        (32_733, 32_734, ("", "refused"), "1"),
        (65_501, 0, ("", "refused"), "1"),
        (65_502, 65_501, ("refused", ""), "1"),
        (1_000_000, 1_000_000, ("refused", "refused"), "0"),
    ] {
        let steps = [
            (OPEN, ""),
            (Step::ShowRepeated(b'a', first), told.0),
            (Step::ShowRepeated(b'b', second), told.1),
            (Step::ShowRepeated(b'a', first), told.0),
            (Step::CountIds, count),
        ];
        play(&rt, rt.alloc(), SERVER, &steps)?;
    }
    Ok(())
}

// The user of the text has no name.
#[test]
fn a_long_text_is_refused(rt: HostRuntime) -> Result<(), Fail> {
    let steps = [
        (OPEN, ""),
        (Step::ShowRepeated(b':', AUTH_LIMIT + 1), "refused"),
        (Step::CountIds, "0"),
        (Step::ShowRepeated(b':', AUTH_LIMIT), ""),
        (Step::CountIds, "1"),
    ];
    play(&rt, rt.alloc(), SERVER, &steps)
}

// A connection closes, and another one of its number has no id; without a session none is added.
#[test]
fn ids_go_with_their_connection(rt: HostRuntime) -> Result<(), Fail> {
    let steps = [
        (OPEN, ""),
        (show("super:admin"), ""),
        (Step::Close(1), ""),
        (show("super:admin"), "refused"),
        (Step::CountIds, "0"),
    ];
    play(&rt, rt.alloc(), SERVER, &steps)
}

// An address is shown, then a digest, and then the address again.
#[test]
fn an_address_is_an_id(rt: HostRuntime) -> Result<(), Fail> {
    for (address, expected) in [
        (
            "127.0.0.1",
            "ip 127.0.0.1;digest alice:V55/p2T0OpjQ+low3NVAH4aLvm0=;",
        ),
        (
            "0:0:0:0:0:0:0:1",
            "ip 0:0:0:0:0:0:0:1;digest alice:V55/p2T0OpjQ+low3NVAH4aLvm0=;",
        ),
    ] {
        let steps = [
            (OPEN, ""),
            (Step::ShowAddress(address), ""),
            (show("alice:pw"), ""),
            (Step::ShowAddress(address), ""),
            (Step::Ids, expected),
        ];
        play(&rt, rt.alloc(), SERVER, &steps)?;
    }
    Ok(())
}
