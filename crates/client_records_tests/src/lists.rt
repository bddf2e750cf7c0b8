//! Lists, and names in a set.

use crate::helpers::expect;
use client_records::{Name, put_list, put_names, read_list};
use ephemerals::TextSet;
use jute::Reader;
use std::alloc::Global;
use std::test::Fail;
use values::{Listed, NoMemory, Text};

/// A set without texts is a count of 0. Texts of children are written by the tests of `read_processor`.
#[test]
fn names_of_an_empty_set(rt: HostRuntime) -> Result<(), Fail> {
    let names = TextSet::new(rt.alloc());
    let mut out = Vec::new(rt.alloc());
    put_names(&mut out, &names)?;
    expect(&rt, &out.as_slice(), &b"\x00\x00\x00\x00".as_slice());
    Ok(())
}

// Whether the bytes are read as these names, in this order, and a byte after them is left.
fn are_read<'a>(alloc: Global, bytes: &'a [u8], texts: &[&'a str]) -> Result<bool, Fail> {
    let mut expected = Vec::new(alloc);
    for text in texts {
        expected.push(Name::new(text))?;
    }
    let mut reader = Reader::new(bytes);
    let names: Listed<Name<'_>> = read_list(alloc, &mut reader)?;
    Ok(names == Listed::from_vec(expected) && reader.rest().len() == 1)
}

/// A list keeps its order and its duplicates; null is read as empty.
#[test]
fn a_list_is_read(rt: HostRuntime) -> Result<(), Fail> {
    let alloc = rt.alloc();
    let three = b"\x00\x00\x00\x03\x00\x00\x00\x02/b\x00\x00\x00\x02/a\x00\x00\x00\x02/b\x07";
    let lists: [(&[u8], &[&str]); 3] = [
        (three, &["/b", "/a", "/b"]),
        (b"\x00\x00\x00\x00\x07", &[]),
        (b"\xff\xff\xff\xff\x07", &[]),
    ];
    for (bytes, texts) in lists {
        assert!(rt; are_read(alloc, bytes, texts)?);
    }
    Ok(())
}

// Whether a list's bytes are refused, and the place is left.
fn is_refused(alloc: Global, bytes: &[u8]) -> bool {
    let mut reader = Reader::new(bytes);
    let names: Result<Listed<Name<'_>>, _> = read_list(alloc, &mut reader);
    names.is_err() && reader.rest().len() == bytes.len()
}

/// A count below -1, and one that exceeds the bytes.
#[test]
fn a_list_is_refused(rt: HostRuntime) {
    let lists: [&[u8]; 2] = [b"\xff\xff\xff\xfe", b"\x00\x00\x00\x02\x00\x00\x00\x02/a"];
    for bytes in lists {
        assert!(rt; is_refused(rt.alloc(), bytes));
    }
}

/// Without a name the list is empty, and not null.
#[test]
fn a_list_is_written(rt: HostRuntime) -> Result<(), Fail> {
    let alloc = rt.alloc();
    let mut out = Vec::new(alloc);
    put_list(&mut out, [Name::new("/b"), Name::new("/a")].as_slice())?;
    let none: &[Name<'_>] = &[];
    put_list(&mut out, none)?;
    let bytes = b"\x00\x00\x00\x02\x00\x00\x00\x02/b\x00\x00\x00\x02/a\x00\x00\x00\x00";
    expect(&rt, &out.as_slice(), &bytes.as_slice());
    Ok(())
}
