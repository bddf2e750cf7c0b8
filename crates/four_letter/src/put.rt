//! Pieces of a text.

ghost use Rattle.std.specs.Prelude.{◌≡◌, ◌++◌, OnOk, decimal, codes};
ghost use Rattle.four_letter.specs.Texts.{name_value_line, prefixed_hex, path_line, timeout_line, counted_heading};

use std::io::Write;
use values::NoMemory;

/// Appends a text.
pub fn put(out: &mut Vec<u8>, text: &str) -> Result<(), NoMemory>
    ensures { OnOk result (out.new.items ≡ out.old.items ++ text.now) }
{
    out.extend_from_slice(text.as_bytes())?;
    Ok(())
}

/// Appends a line of a name and a count.
pub fn put_count(out: &mut Vec<u8>, name: &str, count: u128) -> Result<(), NoMemory>
    ensures { OnOk result (out.new.items ≡ out.old.items ++ name_value_line name.now (decimal count)) }
{
    match writeln!(out, "{name}{count}") {
        Ok(()) => Ok(()),
        Err(_) => Err(NoMemory),
    }
}

/// Appends a line of a name and a number as the 64 bits of two's complement, in hexadecimal.
pub fn put_hex(out: &mut Vec<u8>, name: &str, number: i64) -> Result<(), NoMemory>
    ensures { OnOk result (out.new.items ≡ out.old.items ++ name_value_line name.now (prefixed_hex number)) }
{
    let bits = number.cast_unsigned();
    match writeln!(out, "{name}0x{bits:x}") {
        Ok(()) => Ok(()),
        Err(_) => Err(NoMemory),
    }
}

/// Appends a session's id, in hexadecimal, and what ends its line.
pub(crate) fn put_id(out: &mut Vec<u8>, session: i64, ending: &str) -> Result<(), NoMemory>
    ensures { OnOk result (out.new.items ≡ out.old.items ++ (prefixed_hex session ++ ending.now)) }
{
    let bits = session.cast_unsigned();
    match write!(out, "0x{bits:x}{ending}") {
        Ok(()) => Ok(()),
        Err(_) => Err(NoMemory),
    }
}

/// Appends the line of a path below its session.
pub(crate) fn put_path(out: &mut Vec<u8>, path: &str) -> Result<(), NoMemory>
    ensures { OnOk result (out.new.items ≡ out.old.items ++ path_line path.now) }
{
    match writeln!(out, "\t{path}") {
        Ok(()) => Ok(()),
        Err(_) => Err(NoMemory),
    }
}

/// Appends the line of a session and its timeout.
pub(crate) fn put_timeout(out: &mut Vec<u8>, session: i64, timeout: i32) -> Result<(), NoMemory>
    ensures { OnOk result (out.new.items ≡ out.old.items ++ timeout_line (session, timeout)) }
{
    let bits = session.cast_unsigned();
    match writeln!(out, "0x{bits:x}\t{timeout}ms") {
        Ok(()) => Ok(()),
        Err(_) => Err(NoMemory),
    }
}

/// Appends the line of a title and a count.
pub(crate) fn put_heading(out: &mut Vec<u8>, title: &str, count: usize) -> Result<(), NoMemory>
    ensures { OnOk result (out.new.items ≡ out.old.items ++ counted_heading title.now count) }
{
    match writeln!(out, "{title}({count}):") {
        Ok(()) => Ok(()),
        Err(_) => Err(NoMemory),
    }
}

/// Appends the line with the number of connections that watch and of paths that are watched.
pub(crate) fn put_watching(
    out: &mut Vec<u8>,
    connections: u128,
    paths: u128,
) -> Result<(), NoMemory>
    ensures { OnOk result (out.new.items ≡ out.old.items ++ (decimal connections
        ++ codes " connections watching " ++ decimal paths ++ codes " paths\n")) }
{
    match writeln!(out, "{connections} connections watching {paths} paths") {
        Ok(()) => Ok(()),
        Err(_) => Err(NoMemory),
    }
}
