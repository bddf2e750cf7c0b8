//! Rows of tests: a name, bytes in hexadecimal digits, and what is expected.

use std::alloc::Global;
use std::test::Fail;

/// The bytes of hexadecimal words.
pub fn bytes_of(alloc: Global, words: &str) -> Result<Vec<u8>, Fail> {
    let mut bytes = Vec::new(alloc);
    for word in words.split(' ') {
        bytes.extend_from_slice(&hex::decode(alloc, word)?)?;
    }
    Ok(bytes)
}

/// The fields of a row.
#[derive(Drop)]
pub struct Row<'a> {
    pub name: &'a str,
    pub bytes: Vec<u8>,
    pub expected: &'a str,
}

impl<'a> Row<'a> {
    /// The expected bytes, or the row's own if it has this word in their place.
    pub fn bytes_or(&self, alloc: Global, same: &str) -> Result<Vec<u8>, Fail> {
        if self.expected == same {
            return Ok(self.bytes.clone()?);
        }
        bytes_of(alloc, self.expected)
    }
}

/// The row of a line.
pub fn row_of<'a>(alloc: Global, line: &'a str) -> Result<Row<'a>, Fail> {
    let (name, rest) = line.split_once(" | ").ok_or("a name")?;
    let (digits, expected) = rest.split_once(" | ").ok_or("what is expected")?;
    Ok(Row {
        name,
        bytes: bytes_of(alloc, digits)?,
        expected,
    })
}
