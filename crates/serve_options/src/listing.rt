//! The text of `serve --help`.

use crate::row::{NAMES, Row, Without};
use std::alloc::{AllocError, Global};

const HEAD: &str =
    "observer serve OPTION..\n\nFollows the leader of a ZooKeeper ensemble as an observer, and serves clients.\n";

fn put_row(out: &mut String, row: &Row) -> Result<(), AllocError> {
    let Row {
        word,
        value,
        kind,
        without,
        help,
    } = row;
    if value.is_empty() {
        write!(out, "\n  {word}\n      {help}\n")?;
    } else {
        write!(out, "\n  {word} {value}\n      {help}\n")?;
    }
    match without {
        Without::Nothing => Ok(()),
        Without::Value(value) => writeln!(out, "      {kind}; without it: {value}"),
        Without::Meaning(meaning) => writeln!(out, "      {kind}; without it: {meaning}"),
    }
}

/// The text of `serve --help`: what each option is for, what its value may be, and what holds without it.
pub fn help(alloc: Global) -> Result<String, AllocError> {
    let mut out = String::from_str(alloc, HEAD)?;
    for name in NAMES {
        put_row(&mut out, &name.row())?;
    }
    Ok(out)
}
