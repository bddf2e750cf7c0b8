//! Bytes as hexadecimal digits.

ghost use Rattle.std.specs.Prelude.{◌≡◌, ◌<◌, ◌+◌, ◌++◌, IfSome, IfOk, OnOk};
ghost use Rattle.values.specs.Hex.{digit_value, bytes_of_hex, hex_digit, hex_digits};
ghost use Rattle.values.specs.Gains.{Puts};

use std::alloc::Global;
use values::{Blob, NoMemory};

fn digit_of(byte: u8) -> Option<u8>
    ensures value { result ≡ digit_value byte }
    ensures small { IfSome result (λ d. d < 16) }
{
    match byte {
        b'0'..=b'9' => Some(byte - b'0'),
        b'a'..=b'f' => Some(byte - b'a' + 10),
        b'A'..=b'F' => Some(byte - b'A' + 10),
        _ => None,
    }
}

/// The bytes that a text spells, two hexadecimal digits for each; None if it spells none. Digits are of either case,
/// and blanks are ignored. Fails only if an allocation is refused.
pub(crate) fn read_hex(alloc: Global, text: &[u8]) -> Result<Option<Blob>, NoMemory>
    ensures { IfOk result (λ found. found ≡ bytes_of_hex text.now) }
{
    let mut bytes = Vec::with_capacity(alloc, text.len() / 2)?;
    let mut high = None;
    for byte in text {
        if *byte == b' ' {
            continue;
        }
        let Some(digit) = digit_of(*byte) else {
            return Ok(None);
        };
        match high {
            None => high = Some(digit),
            Some(first) => {
                bytes.push(first * 16 + digit)?;
                high = None;
            }
        }
    }
    if high.is_some() || bytes.is_empty() {
        return Ok(None);
    }
    Ok(Some(Blob::from_vec(bytes)))
}

fn digit(value: u8) -> u8
    requires { value < 16 }
    ensures { result ≡ hex_digit value }
{
    if value < 10 {
        b'0' + value
    } else {
        b'a' - 10 + value
    }
}

/// Appends bytes in lower-case hexadecimal digits. A refused allocation leaves some of the digits appended.
pub fn put_hex(out: &mut Vec<u8>, bytes: &[u8]) -> Result<(), NoMemory>
    ensures { Puts result out.old.items (hex_digits bytes.now) out.new.items }
{
    for byte in bytes {
        out.extend_from_slice(&[digit(byte / 16), digit(byte % 16)])?;
    }
    Ok(())
}
