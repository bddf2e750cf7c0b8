//! The super user. Digests were made by another SHA-1 and base64; that of "super:test" is in ZooKeeper's documentation.

use crate::helpers::{Server, Step, play, show};
use sessions::IDS_LIMIT;
use std::test::Fail;

const DIGEST: &str = "super:D/InIHSb7yEEbrWz8b9l71RjZJU=";

// Connection 1 gets a session.
const OPEN: Step<'static> = Step::Open(1, 0x0300_0000_0000_0001);

#[test]
fn the_super_users_password_makes_a_super_user(rt: HostRuntime) -> Result<(), Fail> {
    for (first, second, expected) in [
        (
            "super:test",
            "super:test",
            "super ;digest super:D/InIHSb7yEEbrWz8b9l71RjZJU=;",
        ),
        (
            "super:admin",
            "super:test",
            "digest super:xQJmxLMiHGwaqBvst5y6rkB6HQs=;\
                super ;digest super:D/InIHSb7yEEbrWz8b9l71RjZJU=;",
        ),
        (
            "super:test",
            "super:admin",
            "super ;digest super:D/InIHSb7yEEbrWz8b9l71RjZJU=;\
                digest super:xQJmxLMiHGwaqBvst5y6rkB6HQs=;",
        ),
    ] {
        let steps = [
            (OPEN, ""),
            (show(first), ""),
            (show(second), ""),
            (Step::Ids, expected),
        ];
        play(&rt, rt.alloc(), Server::JavaWithSuper(DIGEST), &steps)?;
    }
    Ok(())
}

#[test]
fn another_password_makes_no_super_user(rt: HostRuntime) -> Result<(), Fail> {
    for digest in [DIGEST, "super:test", "super:"] {
        let steps = [
            (OPEN, ""),
            (show("super:admin"), ""),
            (Step::Ids, "digest super:xQJmxLMiHGwaqBvst5y6rkB6HQs=;"),
        ];
        play(&rt, rt.alloc(), Server::JavaWithSuper(digest), &steps)?;
    }
    Ok(())
}

// So many other users are shown, and then the super user.
#[test]
fn both_ids_need_room(rt: HostRuntime) -> Result<(), Fail> {
    for (count, accepted, told) in [
        (IDS_LIMIT - 2, "1022", ""),
        (IDS_LIMIT - 1, "1023", "refused"),
        (IDS_LIMIT, "1024", "refused"),
    ] {
        let steps = [
            (OPEN, ""),
            (Step::ShowUsers(count), accepted),
            (show("super:test"), told),
            (Step::CountIds, "1024"),
        ];
        play(&rt, rt.alloc(), Server::JavaWithSuper(DIGEST), &steps)?;
    }
    Ok(())
}
