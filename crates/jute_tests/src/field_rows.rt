//! Fields, and refused reads.

use jute::{
    Reader, put_blob, put_bool, put_bytes, put_int, put_long, put_string, read_blob, read_frame,
    read_name,
};
use std::alloc::Global;
use std::test::Fail;
use values::{Blob, Fault, NoMemory, ReadError};

const LIMIT: u32 = 4_194_304;

/// An int, a long, a boolean, two buffers and a text.
const FIELDS: &[u8; 29] =
    b"\xff\xff\xff\xfe\x00\x00\x00\x01\x00\x00\x00\x01\x01\x00\x00\x00\x02hi\xff\xff\xff\xff\x00\x00\x00\x02/a";

/// True, a count of 5, the name x and a null name.
const OTHERS: &[u8; 14] = b"\x07\x00\x00\x00\x05\x00\x00\x00\x01x\xff\xff\xff\xff";

/// A buffer, and null.
const BLOBS: &[u8; 10] = b"\0\0\0\x02hi\xff\xff\xff\xff";

// The fault for which no text is read, if the place is left.
fn text_fault(bytes: &[u8]) -> Option<Fault> {
    let mut reader = Reader::new(bytes);
    let fault = reader.read_string().err();
    if reader.rest() == bytes { fault } else { None }
}

#[test]
fn refused_texts(rt: HostRuntime) {
    let cases: [(&[u8], Fault); 7] = [
        (b"\xff\xff\xff\xfe", Fault::BadLength),
        (b"\x00\x40\x00\x01", Fault::BadLength),
        (b"\x00\x00\x00\x02\xc0\xaf", Fault::BadText),
        (b"\x00\x00\x00\x02\xc0", Fault::Short),
        (b"\x00\x40\x00\x00a", Fault::Short),
        (b"\x00\x00\x00", Fault::Short),
        (b"", Fault::Short),
    ];
    for (bytes, fault) in cases.iter().copied() {
        assert_eq!(rt; text_fault(bytes), Some(fault), "{bytes:?}");
    }
}

// The fault for which no frame is read.
fn frame_fault(reader: &mut Reader<'_>, limit: u32) -> Option<Fault> {
    read_frame(reader, limit).err()
}

// A refusal leaves the place, so the next one reads the same bytes.
#[test]
fn refused_numbers_and_frames(rt: HostRuntime) {
    let mut reader = Reader::new(b"\x00\x10\x00\x01");
    assert!(rt; reader.read_count() == Err(Fault::BadLength));
    assert!(rt; reader.read_long() == Err(Fault::Short));
    assert!(rt; frame_fault(&mut reader, LIMIT) == Some(Fault::Short));
    assert!(rt; frame_fault(&mut reader, 0x10_0000) == Some(Fault::BadLength));
    let mut negative = Reader::new(b"\xff\xff\xff\xff");
    assert!(rt; frame_fault(&mut negative, LIMIT) == Some(Fault::BadLength));
}

// The fields as they are written.
fn fields(alloc: Global) -> Result<Vec<u8>, NoMemory> {
    let mut out = Vec::new(alloc);
    put_int(&mut out, -2)?;
    put_long(&mut out, 0x1_0000_0001)?;
    put_bool(&mut out, true)?;
    put_bytes(&mut out, b"hi")?;
    put_int(&mut out, -1)?;
    put_string(&mut out, "/a")?;
    Ok(out)
}

// Whether the int, the long and the boolean come next.
fn are_numbers(reader: &mut Reader<'_>) -> bool {
    reader.read_int() == Ok(-2)
        && reader.read_long() == Ok(0x1_0000_0001)
        && reader.read_bool() == Ok(true)
}

// Whether the buffers and the text come next.
fn are_texts(reader: &mut Reader<'_>) -> bool {
    reader.read_buffer() == Ok(Some(b"hi".as_slice()))
        && reader.read_buffer() == Ok(None)
        && reader.read_string() == Ok(Some("/a"))
}

// The next name; null is an empty one.
fn next_name<'a>(reader: &mut Reader<'a>) -> Option<&'a str> {
    match read_name(reader) {
        Ok(name) => Some(name.as_str()),
        Err(_) => None,
    }
}

// Whether the bytes are a boolean, a count and two names.
fn are_others(bytes: &[u8]) -> bool {
    let mut reader = Reader::new(bytes);
    reader.read_bool() == Ok(true)
        && reader.read_count() == Ok(Some(5))
        && next_name(&mut reader) == Some("x")
        && next_name(&mut reader) == Some("")
}

#[test]
fn fields_are_read_and_written(rt: HostRuntime) -> Result<(), Fail> {
    assert_eq!(rt; fields(rt.alloc())?.as_slice(), FIELDS.as_slice());
    let mut reader = Reader::new(FIELDS);
    assert!(rt; are_numbers(&mut reader));
    assert!(rt; are_texts(&mut reader));
    assert!(rt; are_others(OTHERS));
    Ok(())
}

// A buffer and null, as they are written.
fn blobs(alloc: Global) -> Result<Vec<u8>, NoMemory> {
    let mut out = Vec::new(alloc);
    put_blob(&mut out, &Some(Blob::new(alloc, b"hi")?))?;
    put_blob(&mut out, &None)?;
    Ok(out)
}

// Whether the bytes are those of the buffer and null.
fn are_blobs(alloc: Global, bytes: &[u8]) -> Result<bool, ReadError> {
    let mut reader = Reader::new(bytes);
    let first = read_blob(alloc, &mut reader)?;
    let second = read_blob(alloc, &mut reader)?;
    Ok(second.is_none() && first == Some(Blob::new(alloc, b"hi")?))
}

#[test]
fn blobs_are_written_and_read(rt: HostRuntime) -> Result<(), Fail> {
    assert_eq!(rt; blobs(rt.alloc())?.as_slice(), BLOBS.as_slice());
    assert!(rt; are_blobs(rt.alloc(), BLOBS)?);
    Ok(())
}
