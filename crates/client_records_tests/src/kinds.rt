//! The codes of requests.

use crate::helpers::expect;
use client_records::{ReadKind, RequestKind};
use settings::Dialect;
use std::test::*;

/// Each type of ZooKeeper 3.4, and addWatch, with its number in `ZooDefs.OpCode`.
const CODES: [(RequestKind, i32); 17] = [
    (RequestKind::Create, 1),
    (RequestKind::Delete, 2),
    (RequestKind::Read(ReadKind::Exists), 3),
    (RequestKind::Read(ReadKind::GetData), 4),
    (RequestKind::SetData, 5),
    (RequestKind::Read(ReadKind::GetAcl), 6),
    (RequestKind::SetAcl, 7),
    (RequestKind::Read(ReadKind::GetChildren), 8),
    (RequestKind::Sync, 9),
    (RequestKind::Ping, 11),
    (RequestKind::Read(ReadKind::GetChildren2), 12),
    (RequestKind::Check, 13),
    (RequestKind::Multi, 14),
    (RequestKind::Auth, 100),
    (RequestKind::SetWatches, 101),
    (RequestKind::AddWatch, 106),
    (RequestKind::CloseSession, -11),
];

/// The types that only later clients send.
const LATER: [(RequestKind, i32); 13] = [
    (RequestKind::Create2, 15),
    (RequestKind::Reconfig, 16),
    (RequestKind::CreateContainer, 19),
    (RequestKind::DeleteContainer, 20),
    (RequestKind::CreateTtl, 21),
    (RequestKind::CheckWatches, 17),
    (RequestKind::RemoveWatches, 18),
    (RequestKind::MultiRead, 22),
    (RequestKind::Sasl, 102),
    (RequestKind::GetEphemerals, 103),
    (RequestKind::GetAllChildrenNumber, 104),
    (RequestKind::SetWatches2, 105),
    (RequestKind::WhoAmI, 107),
];

// The code of a type, and whether the code is of this type in ZooKeeper 3.4, and in later versions.
fn there_and_back(kind: RequestKind, code: i32) -> (i32, bool, bool) {
    (
        kind.code(),
        RequestKind::from_code(Dialect::Zk34, code) == Some(kind),
        RequestKind::from_code(Dialect::Zk38, code) == Some(kind),
    )
}

// A code, and whether it is no type's in ZooKeeper 3.4, and in later versions.
fn unknown(code: i32) -> (i32, bool, bool) {
    (
        code,
        RequestKind::from_code(Dialect::Zk34, code).is_none(),
        RequestKind::from_code(Dialect::Zk38, code).is_none(),
    )
}

#[test]
fn codes_there_and_back(rt: HostRuntime) {
    for (kind, code) in CODES {
        expect(&rt, &there_and_back(kind, code), &(code, true, true));
    }
}

#[test]
fn later_codes(rt: HostRuntime) {
    for (kind, code) in LATER {
        expect(&rt, &there_and_back(kind, code), &(code, false, true));
        expect(&rt, &unknown(code), &(code, true, false));
    }
}

/// Codes that aren't a client's request: a notification, codes between the known ones, createSession and error.
#[test]
fn other_codes(rt: HostRuntime) {
    for code in [0, 10, 23, 99, 108, -1, -10, i32::MAX, i32::MIN] {
        expect(&rt, &unknown(code), &(code, true, true));
    }
}
