//! The only places where a test ends that finds something else.
//!
//! Each assertion of its own would cost a test's proof many seconds, and these are proved once for all records.

use jute::{ReadRecord, Reader, WriteRecord};
use std::alloc::Global;
use std::fmt::Debug;
use std::process::Abort;
use std::test::Fail;

/// Whether the bytes are read as the value, a byte after them is left, and no prefix of them is read.
pub fn is_read<'a, T: ReadRecord<'a> + PartialEq>(
    alloc: Global,
    bytes: &'a [u8],
    expected: &T,
) -> Result<bool, Fail> {
    let Some((_, text)) = bytes.split_last() else {
        return Ok(false);
    };
    let mut reader = Reader::new(bytes);
    let same = T::read(alloc, &mut reader)? == *expected;
    Ok(same && reader.rest().len() == 1 && refuses_fronts::<T>(alloc, text))
}

// Whether each prefix of the bytes is refused, and leaves the place.
fn refuses_fronts<'a, T: ReadRecord<'a>>(alloc: Global, bytes: &'a [u8]) -> bool {
    for end in 0..bytes.len() {
        let front = &bytes[..end];
        let mut reader = Reader::new(front);
        if T::read(alloc, &mut reader).is_ok() || reader.rest().len() != end {
            return false;
        }
    }
    true
}

/// Ends the test unless both are equal.
pub fn expect<R: Abort, T: Debug + PartialEq>(rt: &R, found: &T, expected: &T) {
    assert_eq!(rt; *found, *expected);
}

/// Ends the test unless the bytes are read as the value, a byte after them is left, and no prefix of them is read.
pub fn expect_read<'a, R: Abort, T: ReadRecord<'a> + PartialEq>(
    rt: &R,
    alloc: Global,
    bytes: &'a [u8],
    value: &T,
) -> Result<(), Fail> {
    assert!(rt; is_read(alloc, bytes, value)?);
    Ok(())
}

/// Ends the test unless the value is written as these bytes.
pub fn expect_written<R: Abort, T: WriteRecord>(
    rt: &R,
    alloc: Global,
    value: &T,
    bytes: &[u8],
) -> Result<(), Fail>
    requires { T.format.Writable value.now }
{
    let mut out = Vec::new(alloc);
    value.write(&mut out)?;
    assert_eq!(rt; out.as_slice(), bytes);
    Ok(())
}

/// Ends the test unless the value is written as these bytes without the last one, and read from them.
pub fn expect_spelled<'a, R: Abort, T: ReadRecord<'a> + WriteRecord + PartialEq>(
    rt: &R,
    alloc: Global,
    bytes: &'a [u8],
    value: &T,
) -> Result<(), Fail>
    requires { T.format.Writable value.now }
{
    expect_read(rt, alloc, bytes, value)?;
    match bytes.split_last() {
        Some((_, front)) => expect_written(rt, alloc, value, front),
        None => Err(Fail::from("no bytes")),
    }
}
