//! The addresses that an entry of an access control list names.

ghost use Rattle.std.specs.Prelude.{◌≡◌, ◌≤◌, ◌<◌, ◌^◌, IfSome, option_map};
ghost use Rattle.permissions.specs.Addresses.{number_before_dot, address_of, bits_of, network_of, names_address};

use texts::{cut_at, number_up_to};
use values::Bytes;

const ALL_BITS: u64 = 32;

// The number before the first dot, if it is below 256, and the text after the dot.
fn number_before_dot(text: &[u8]) -> Option<(u64, Bytes<'_>)>
    ensures value { result ≡ number_before_dot text.now }
    ensures within { IfSome result (λ found. found.0 ≤ 255) }
{
    let parts = cut_at(b'.', text);
    let number = number_up_to(255, parts.front.as_slice())?;
    let behind = parts.behind?;
    Some((number, behind))
}

// An IPv4 address, as a number of 32 bits.
fn address_of(text: &[u8]) -> Option<u64>
    ensures { result ≡ address_of text.now }
{
    let (first, behind) = number_before_dot(text)?;
    let (second, behind) = number_before_dot(behind.as_slice())?;
    let (third, behind) = number_before_dot(behind.as_slice())?;
    let fourth = number_up_to(255, behind.as_slice())?;
    Some(((first * 256 + second) * 256 + third) * 256 + fourth)
}

// How many bits count.
fn bits_of(text: Option<Bytes<'_>>) -> Option<u64>
    ensures value { result ≡ bits_of text.entry }
    ensures within { IfSome result (λ bits. bits ≤ 32) }
{
    match text {
        None => return Some(ALL_BITS),
        Some(text) => number_up_to(ALL_BITS, text.as_slice()),
    }
}

// An address, and how many of its bits count.
fn network_of(text: &[u8]) -> Option<(u64, u64)>
    ensures value { result ≡ network_of text.now }
    ensures within { IfSome result (λ network. network.1 ≤ 32) }
{
    let parts = cut_at(b'/', text);
    let address = address_of(parts.front.as_slice())?;
    let bits = bits_of(parts.behind)?;
    Some((address, bits))
}

// Whether an entry of the scheme "ip" names an address: it is that one, or its first bits are the same.
pub(crate) fn names_address(entry: &[u8], address: &[u8]) -> bool
    ensures { result ≡ names_address entry.now address.now }
{
    let Some((wanted, bits)) = network_of(entry) else {
        return false;
    };
    let Some(found) = address_of(address) else {
        return false;
    };
    let others = ALL_BITS - bits;
    wanted >> others == found >> others
}
