//! The requests of later clients and their responses. The bytes are those of a client of ZooKeeper 3.8 and of its server.

use crate::helpers::{expect, expect_spelled, expect_written};
use client_records::{
    Boxed, ClientInfo, ErrorResponse, GetAllChildrenNumberResponse, MultiHeader, Name, PathAndKind,
    ReadKind, ReadPart, SaslRequest, SaslResponse, SetWatches, SetWatches2, WhoAmIResponse,
    read_parts,
};
use jute::Reader;
use std::alloc::Global;
use std::test::Fail;
use values::{Bytes, Fault, Listed, ReadError, Str};

/// Each of the five lists has a path of its own, and a byte follows the record.
#[test]
#[tactic(auto, unfolding(client_records::specs::Requests::set_watches2, client_records::specs::Requests::set_watches))]
fn set_watches2(rt: HostRuntime) -> Result<(), Fail> {
    let alloc = rt.alloc();
    let bytes = b"\x00\x00\x00\x01\x00\x00\x00\x13\
        \x00\x00\x00\x01\x00\x00\x00\x02/d\
        \x00\x00\x00\x01\x00\x00\x00\x02/e\
        \x00\x00\x00\x01\x00\x00\x00\x02/c\
        \x00\x00\x00\x01\x00\x00\x00\x02/p\
        \x00\x00\x00\x01\x00\x00\x00\x02/r\
        \x07";
    let expected = SetWatches2 {
        older: SetWatches {
            relative_zxid: 0x1_0000_0013,
            data_watches: Listed::from_vec(vec![in alloc; Name::new("/d")]?),
            exist_watches: Listed::from_vec(vec![in alloc; Name::new("/e")]?),
            child_watches: Listed::from_vec(vec![in alloc; Name::new("/c")]?),
        },
        persistent_watches: Listed::from_vec(vec![in alloc; Name::new("/p")]?),
        recursive_watches: Listed::from_vec(vec![in alloc; Name::new("/r")]?),
    };
    expect_spelled(&rt, alloc, bytes, &expected)
}

/// A record in a box is the record.
#[test]
fn boxed(rt: HostRuntime) -> Result<(), Fail> {
    let record = Boxed::new(rt.alloc(), ReadKind::Exists)?;
    assert!(rt; *record.get() == ReadKind::Exists);
    Ok(())
}

/// Any watch at /a.
#[test]
#[tactic(auto, unfolding(client_records::specs::Requests::path_and_kind))]
fn path_and_kind(rt: HostRuntime) -> Result<(), Fail> {
    let bytes = b"\x00\x00\x00\x02/a\x00\x00\x00\x03\x07";
    let expected = PathAndKind {
        path: Some(Str::new("/a")),
        kind: 3,
    };
    expect_spelled(&rt, rt.alloc(), bytes, &expected)
}

#[test]
#[tactic(auto, unfolding(client_records::specs::Requests::sasl_request))]
fn sasl_request(rt: HostRuntime) -> Result<(), Fail> {
    let bytes = b"\x00\x00\x00\x03abc\x07";
    let expected = SaslRequest {
        token: Some(Bytes::new(b"abc")),
    };
    expect_spelled(&rt, rt.alloc(), bytes, &expected)
}

/// The header of a getData in a multiRead.
#[test]
#[tactic(auto, unfolding(client_records::specs::Multi::multi_header))]
fn multi_header(rt: HostRuntime) -> Result<(), Fail> {
    let bytes = b"\x00\x00\x00\x04\x00\xff\xff\xff\xff\x07";
    let expected = MultiHeader {
        kind: 4,
        done: false,
        err: -1,
    };
    expect_spelled(&rt, rt.alloc(), bytes, &expected)
}

// Whether a part is of this kind and path.
fn is_part(part: Option<&ReadPart<'_>>, kind: ReadKind, path: &str) -> bool {
    let Some(part) = part else {
        return false;
    };
    part.kind == kind && part.path.as_ref().is_some_and(|it| it.as_str() == path)
}

const PARTS: [u8; 42] = *b"\x00\x00\x00\x04\x00\xff\xff\xff\xff\x00\x00\x00\x02/a\x00\
    \x00\x00\x00\x08\x00\xff\xff\xff\xff\x00\x00\x00\x02/b\x01\
    \xff\xff\xff\xff\x01\xff\xff\xff\xff\x07";

// How many parts are read, whether they are a getData of /a and a getChildren of /b, and whether the last byte is left.
fn two_parts(alloc: Global) -> Result<(usize, bool, bool, bool), Fail> {
    let mut reader = Reader::new(&PARTS);
    let parts = read_parts(alloc, &mut reader)?;
    let parts = parts.as_slice();
    Ok((
        parts.len(),
        is_part(parts.first(), ReadKind::GetData, "/a"),
        is_part(parts.get(1), ReadKind::GetChildren, "/b"),
        reader.rest() == b"\x07".as_slice(),
    ))
}

/// A getData and a getChildren, and a byte after the end.
#[test]
fn parts_of_a_multi_read(rt: HostRuntime) -> Result<(), Fail> {
    expect(&rt, &two_parts(rt.alloc())?, &(2, true, true, true));
    Ok(())
}

// Whether the parts are refused with this fault.
fn are_refused(alloc: Global, bytes: &[u8], fault: Fault) -> bool {
    match read_parts(alloc, &mut Reader::new(bytes)) {
        Err(ReadError::Fault(found)) => found == fault,
        Ok(_) | Err(ReadError::NoMemory) => false,
    }
}

/// Without the end, and with an exists.
#[test]
fn other_parts(rt: HostRuntime) {
    let exists = b"\x00\x00\x00\x03\x00\xff\xff\xff\xff\x00\x00\x00\x02/a\x00";
    let others: [(&[u8], Fault); 3] = [
        (&PARTS[..32], Fault::Short),
        (&[], Fault::Short),
        (exists, Fault::BadTxnType),
    ];
    for (bytes, fault) in others {
        assert!(rt; are_refused(rt.alloc(), bytes, fault));
    }
}

#[test]
#[tactic(auto, unfolding(client_records::specs::Responses::error_response, client_records::specs::Responses::all_children_number_response, client_records::specs::Responses::sasl_response))]
fn short_responses(rt: HostRuntime) -> Result<(), Fail> {
    let alloc = rt.alloc();
    let error = ErrorResponse { err: -101 };
    expect_written(&rt, alloc, &error, b"\xff\xff\xff\x9b")?;
    let number = GetAllChildrenNumberResponse { total_number: 4 };
    expect_written(&rt, alloc, &number, b"\x00\x00\x00\x04")?;
    let sasl = SaslResponse { token: None };
    expect_written(&rt, alloc, &sasl, b"\xff\xff\xff\xff")
}

/// A client that has shown one digest.
#[test]
#[tactic(auto, unfolding(client_records::specs::Responses::who_am_i_response, client_records::specs::Responses::client_info))]
fn who_am_i_response(rt: HostRuntime) -> Result<(), Fail> {
    let alloc = rt.alloc();
    let alice = ClientInfo {
        auth_scheme: Bytes::new(b"digest"),
        user: Bytes::new(b"alice"),
    };
    let response = WhoAmIResponse {
        client_info: Listed::from_vec(vec![in alloc; alice]?),
    };
    let bytes = b"\x00\x00\x00\x01\x00\x00\x00\x06digest\x00\x00\x00\x05alice";
    expect_written(&rt, alloc, &response, bytes)
}
