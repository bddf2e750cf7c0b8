//! Texts in which surrogates may stand: UTF-8, and the halves of characters past U+FFFF.

use jute::{Acl, Reader, is_generalized_utf8, is_text, read_acls, read_name_in};
use std::alloc::Global;
use std::test::Fail;
use values::{Fault, Listed, ReadError};

/// U+1F600 as UTF-8.
const CHARACTER: &[u8; 4] = b"\xf0\x9f\x98\x80";

/// U+1F600 as Java writes it, and ":x".
const HALVES: &[u8; 8] = b"\xed\xa0\xbd\xed\xb8\x80:x";

/// Texts with surrogates: two halves, one alone, and two in the wrong order.
const GENERALIZED: [&[u8]; 3] = [HALVES, b"\xed\xaf\xbf", b"a\xed\xb0\x80\xed\xa0\x80b"];

/// Texts without surrogates, U+D7FF and U+E000 among them.
const PLAIN: [&[u8]; 4] = [b"", b"digest", CHARACTER, b"\xed\x9f\xbf\xee\x80\x80"];

/// No texts: a surrogate that is cut off, or has no continuation; one within a character, and a stray continuation
/// after one; overlong forms; and what is past U+10FFFF.
const OTHERS: [&[u8]; 10] = [
    b"\xed\xa0",
    b"\xed\xa0a",
    b"\xed\xa0\xc0",
    b"\xe2\x82\xed\xa0\x80\xac",
    b"\xed\xa0\x80\x80",
    b"\xc0\xaf",
    b"\xe0\x80\xaf",
    b"\xf0\x80\x80\xaf",
    b"\xf4\x90\x80\x80",
    b"\xf5\x80\x80\x80",
];

// Whether each of these is a text.
fn are_texts(surrogates: bool, texts: &[&[u8]]) -> bool {
    texts.iter().all(|text| is_text(surrogates, text))
}

// Whether one of these is a text.
fn is_any_text(surrogates: bool, texts: &[&[u8]]) -> bool {
    texts.iter().any(|text| is_text(surrogates, text))
}

#[test]
fn surrogates_in_texts(rt: HostRuntime) {
    assert!(rt; are_texts(true, &GENERALIZED));
    assert!(rt; !is_any_text(false, &GENERALIZED));
    assert!(rt; are_texts(true, &PLAIN));
    assert!(rt; are_texts(false, &PLAIN));
    assert!(rt; !is_any_text(true, &OTHERS));
    assert!(rt; !is_any_text(false, &OTHERS));
    assert!(rt; is_generalized_utf8(HALVES));
    assert!(rt; !is_generalized_utf8(b"\xed\xa0\xbd\xed"));
}

/// The ustring of the two halves and ":x", null, and a byte.
const NAMES: &[u8; 17] = b"\x00\x00\x00\x08\xed\xa0\xbd\xed\xb8\x80:x\xff\xff\xff\xff\x07";

// Whether the next name is this one; with surrogates.
fn is_next(reader: &mut Reader<'_>, name: &[u8]) -> bool {
    match read_name_in(true, reader) {
        Ok(found) => found.as_slice() == name,
        Err(_) => false,
    }
}

#[test]
fn names_as_bytes(rt: HostRuntime) {
    let mut reader = Reader::new(NAMES);
    assert!(rt; is_next(&mut reader, HALVES));
    assert!(rt; is_next(&mut reader, b""));
    assert_eq!(rt; reader.rest(), b"\x07".as_slice());
    let mut strict = Reader::new(NAMES);
    assert!(rt; read_name_in(false, &mut strict).err() == Some(Fault::BadText));
    assert!(rt; strict.read_text(false).err() == Some(Fault::BadText));
    assert!(rt; strict.read_text(true) == Ok(Some(HALVES.as_slice())));
}

/// Two entries: of the scheme "digest" with the id of two halves and ":x", and of a half as the scheme.
const ENTRIES: &[u8; 45] = b"\x00\x00\x00\x02\x00\x00\x00\x1f\x00\x00\x00\x06digest\
    \x00\x00\x00\x08\xed\xa0\xbd\xed\xb8\x80:x\
    \x00\x00\x00\x01\x00\x00\x00\x03\xed\xa0\xbd\x00\x00\x00\x00";

fn entries(
    alloc: Global,
    surrogates: bool,
    bytes: &[u8],
) -> Result<Option<Listed<Acl>>, ReadError> {
    read_acls(surrogates, alloc, &mut Reader::new(bytes))
}

// The fault for which no entries are read.
fn entries_fault(alloc: Global, surrogates: bool, bytes: &[u8]) -> Option<ReadError> {
    entries(alloc, surrogates, bytes).err()
}

// Whether these are the two entries.
fn have_surrogates(list: &[Acl]) -> bool {
    match list {
        [first, second] => {
            first.id.id.as_slice() == HALVES.as_slice()
                && second.id.scheme.as_slice() == b"\xed\xa0\xbd".as_slice()
        }
        _ => false,
    }
}

#[test]
fn surrogates_in_entries(rt: HostRuntime) -> Result<(), Fail> {
    let alloc = rt.alloc();
    let refused = Some(ReadError::Fault(Fault::BadText));
    let overlong: &[u8] = b"\x00\x00\x00\x01\x00\x00\x00\x1f\x00\x00\x00\x02\xc0\xaf";
    let list = entries(alloc, true, ENTRIES)?;
    assert!(rt;
        list.as_ref()
            .is_some_and(|list| have_surrogates(list.as_slice()))
    );
    assert!(rt; entries_fault(alloc, false, ENTRIES) == refused);
    assert!(rt; entries_fault(alloc, true, overlong) == refused);
    Ok(())
}
