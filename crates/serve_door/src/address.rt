//! The texts of clients' addresses.

ghost use Rattle.std.specs.Prelude.{◌≡◌, ◌++◌, OnOk, IfOk, string_bytes};
ghost use Rattle.std.specs.Net.Addr.{ipv4_octets, ipv6_segments, MatchIp};
ghost use Rattle.std.specs.Net.Text.{ipv4_text};
ghost use Rattle.serve_door.specs.Addresses.{group_text, next_text, groups_text, IsTextOf};

use std::alloc::Global;
use std::net::{IpAddr, Ipv6Addr};
use values::{NoMemory, Text};

// Appends a group in hexadecimal digits, without zeros in front.
fn put_group(text: &mut String, group: u16) -> Result<(), NoMemory>
    ensures { OnOk result (string_bytes text.new ≡ string_bytes text.old ++ group_text group) }
{
    write!(text, "{group:x}")?;
    Ok(())
}

// Appends a group, preceded by a colon if it isn't the first one.
fn put_next(text: &mut String, group: u16, is_first: bool) -> Result<(), NoMemory>
    ensures { OnOk result (string_bytes text.new ≡ string_bytes text.old ++ next_text is_first group) }
{
    if is_first {
        return put_group(text, group);
    }
    text.push_str(":")?;
    put_group(text, group)
}

// Appends the eight groups of an address.
fn put_groups(text: &mut String, address: &Ipv6Addr) -> Result<(), NoMemory>
    ensures { OnOk result (string_bytes text.new
        ≡ string_bytes text.old ++ groups_text (ipv6_segments address.now)) }
{
    let mut is_first = true;
    for group in address.segments() {
        put_next(text, group, is_first)?;
        is_first = false;
    }
    Ok(())
}

fn put_address(text: &mut String, address: &IpAddr) -> Result<(), NoMemory>
    ensures { OnOk result (MatchIp address.now
        (λ ip. string_bytes text.new ≡ string_bytes text.old ++ ipv4_text (ipv4_octets ip))
        (λ ip. string_bytes text.new ≡ string_bytes text.old ++ groups_text (ipv6_segments ip))) }
{
    match address {
        IpAddr::V4(address) => {
            write!(text, "{address}")?;
            Ok(())
        }
        IpAddr::V6(address) => put_groups(text, address),
    }
}

/// The text of an address, as the servers of an ensemble write it, so that an entry of an access control list names the
/// same client here and there: of IPv6 all eight groups are written, and an address of IPv4 within one of IPv6 is
/// written as that of IPv4. Fails only if an allocation is refused.
pub(crate) fn address_text(alloc: Global, address: IpAddr) -> Result<Text, NoMemory>
    ensures { IfOk result (IsTextOf address) }
{
    let mut text = String::new(alloc);
    put_address(&mut text, &address.to_canonical())?;
    Text::new(alloc, text.as_str())
}
