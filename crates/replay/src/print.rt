//! The lines that a replay and an audit print.

ghost use Rattle.std.specs.Prelude.{◌≡◌, ◌++◌, OnOk, decimal};
ghost use Rattle.replay.specs.Lines.{output_line, hex_digits_of, end_line, count_line};
ghost use Rattle.std.specs.Fmt.{signed_decimal};

use observer_core::Output;
use replay_script::put_hex;
use std::io::Write;
use values::NoMemory;

fn put(out: &mut Vec<u8>, text: &[u8]) -> Result<(), NoMemory>
    ensures { OnOk result (out.new.items ≡ out.old.items ++ text.now) }
{
    out.extend_from_slice(text)?;
    Ok(())
}

fn put_decimal(out: &mut Vec<u8>, number: u64) -> Result<(), NoMemory>
    ensures { OnOk result (out.new.items ≡ out.old.items ++ decimal number) }
{
    match write!(out, "{number}") {
        Ok(()) => Ok(()),
        Err(_) => Err(NoMemory),
    }
}

fn put_signed(out: &mut Vec<u8>, number: i32) -> Result<(), NoMemory>
    ensures { OnOk result (out.new.items ≡ out.old.items ++ signed_decimal number) }
{
    match write!(out, "{number}") {
        Ok(()) => Ok(()),
        Err(_) => Err(NoMemory),
    }
}

// Appends the 64 bits of two's complement as a hexadecimal number, without leading zeros.
fn put_hex_number(out: &mut Vec<u8>, number: i64) -> Result<(), NoMemory>
    ensures { OnOk result (out.new.items ≡ out.old.items ++ hex_digits_of number) }
{
    let bits = number.cast_unsigned();
    match write!(out, "{bits:x}") {
        Ok(()) => Ok(()),
        Err(_) => Err(NoMemory),
    }
}

/// Appends the line of an output. A refused allocation leaves a part of it appended.
pub fn put_output(out: &mut Vec<u8>, output: &Output) -> Result<(), NoMemory>
    ensures { OnOk result (out.new.items ≡ out.old.items ++ output_line output.now) }
{
    match output {
        Output::ToLeader(bytes) => {
            put(out, b"L ")?;
            put_hex(out, bytes.as_slice())?;
        }
        Output::ToClient(client, bytes) => {
            put(out, b"C ")?;
            put_decimal(out, *client)?;
            put(out, b" ")?;
            put_hex(out, bytes.as_slice())?;
        }
        Output::CloseLeader(fault) => {
            put(out, b"L close F")?;
            put_decimal(out, u64::from(fault.number()))?;
            put(out, b" ")?;
            put(out, fault.word().as_bytes())?;
        }
        Output::CloseClient(client) => {
            put(out, b"C ")?;
            put_decimal(out, *client)?;
            put(out, b" close")?;
        }
    }
    put(out, b"\n")
}

/// Appends the last line: the last zxid and the number of paths.
pub fn put_end(out: &mut Vec<u8>, zxid: i64, paths: usize) -> Result<(), NoMemory>
    ensures { OnOk result (out.new.items ≡ out.old.items ++ end_line zxid paths) }
{
    put(out, b"end zxid=0x")?;
    put_hex_number(out, zxid)?;
    put(out, b" paths=")?;
    put_decimal(out, paths as u64)?;
    put(out, b"\n")
}

/// Appends the line of an audit: the counted cversion and pzxid.
pub fn put_count(out: &mut Vec<u8>, cversion: i32, pzxid: i64) -> Result<(), NoMemory>
    ensures { OnOk result (out.new.items ≡ out.old.items ++ count_line cversion pzxid) }
{
    put(out, b"cversion=")?;
    put_signed(out, cversion)?;
    put(out, b" pzxid=0x")?;
    put_hex_number(out, pzxid)?;
    put(out, b"\n")
}
