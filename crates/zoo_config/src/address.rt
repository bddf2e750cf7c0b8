//! How a server is met.

ghost use Rattle.std.specs.Prelude.{◌≡◌, ◌<◌, ◌==◌, IfOk, map, option_map};
ghost use Rattle.std.specs.List.{slice_split};
ghost use Rattle.zoo_config.specs.Addresses.{halves_at, after_mark, without_plus, is_negative_up_to, bare_host, port_in, host_in, says_word, role_in, parts_or_whole, meeting_place, address_spelling, meeting_places, one_is_wrong, one_is, is_observer, is_participant, are_wrong};

use std::alloc::{AllocError, Global};
use texts::number_up_to;
use values::NoMemory;

/// What an address says of its server, in letters of either case.
#[derive(Clone, Copy, Debug, PartialEq, Eq)]
pub enum ServerRole {
    Unsaid,
    Participant,
    Observer,
}

/// An address of a server.
#[derive(Clone, Copy, Debug)]
pub struct ServerAddress<'a> {
    /// Without brackets.
    pub host: &'a str,
    /// The quorum port, in decimal digits.
    pub port: &'a str,
    pub role: ServerRole,
}

const MOST_PORT: u64 = 65_535;

// The parts before the first of a mark and after it, if the text has it.
pub(crate) fn halves_at(mark: char, text: &str) -> Option<(&str, &str)>
    requires { mark < 128 }
    ensures { option_map (λ halves. (halves.0.now, halves.1.now)) result ≡ halves_at mark text.now }
{
    text.split_once(mark)
}

// What stands after a mark, if the text begins with it.
fn after_mark(mark: char, text: &str) -> Option<&str>
    requires { mark < 128 }
    ensures { option_map (λ rest. rest.now) result ≡ after_mark mark text.now }
{
    text.strip_prefix(mark)
}

/// A number without the plus that it may have in front.
pub fn without_plus(text: &str) -> &str
    ensures { result.now ≡ without_plus text.now }
{
    match after_mark('+', text) {
        Some(digits) => digits,
        None => text,
    }
}

/// Whether a text spells zero, or a number of so much or less below it.
pub fn is_negative_up_to(most: u64, text: &str) -> bool
    ensures { result ≡ is_negative_up_to most text.now }
{
    match after_mark('-', text) {
        Some(digits) => number_up_to(most, digits.as_bytes()).is_some(),
        None => number_up_to(0, text.as_bytes()).is_some(),
    }
}

/// A host without the brackets that may be around it.
pub fn bare_host(host: &str) -> &str
    ensures { result.now ≡ bare_host host.now }
{
    let Some(inner) = after_mark('[', host) else {
        return host;
    };
    match halves_at(']', inner) {
        Some((bare, rest)) if rest.is_empty() => bare,
        _ => host,
    }
}

// The port without a plus, if the text is a port.
pub(crate) fn port_in(text: &str) -> Option<&str>
    ensures { option_map (λ port. port.now) result ≡ port_in text.now }
{
    let digits = without_plus(text);
    match number_up_to(MOST_PORT, digits.as_bytes()) {
        Some(_) => Some(digits),
        None => None,
    }
}

// The host and what follows the colon after it, if the text has these. A host that has colons is in brackets.
pub(crate) fn host_in(text: &str) -> Option<(&str, &str)>
    ensures { option_map (λ halves. (halves.0.now, halves.1.now)) result ≡ host_in text.now }
{
    let Some(inner) = after_mark('[', text) else {
        return halves_at(':', text);
    };
    let (host, after) = halves_at(']', inner)?;
    let rest = after_mark(':', after)?;
    Some((host, rest))
}

// Whether a text is a word, whatever the case of its letters and whatever blanks are around it.
fn says_word(word: &str, text: &str) -> bool
    ensures { result ≡ says_word word.now text.now }
{
    text.trim().eq_ignore_ascii_case(word)
}

fn role_in(text: &str) -> Option<ServerRole>
    ensures { result ≡ role_in text.now }
{
    if text.is_empty() {
        return Some(ServerRole::Unsaid);
    }
    if says_word("observer", text) {
        return Some(ServerRole::Observer);
    }
    if says_word("participant", text) {
        return Some(ServerRole::Participant);
    }
    None
}

// The part before the first of a mark, and the one after it.
pub(crate) fn parts_or_whole(mark: char, text: &str) -> (&str, &str)
    requires { mark < 128 }
    ensures { (result.0.now, result.1.now) ≡ parts_or_whole text.now (halves_at mark text.now) }
{
    match halves_at(mark, text) {
        Some(halves) => halves,
        None => (text, ""),
    }
}

// The address that a text spells as HOST:PORT:PORT[:ROLE].
fn address_in(text: &str) -> Option<ServerAddress<'_>>
    ensures { option_map address_spelling result ≡ meeting_place text.now }
{
    let (host, ports) = host_in(text)?;
    if host.is_empty() {
        return None;
    }
    let (quorum, rest) = halves_at(':', ports)?;
    let port = port_in(quorum)?;
    let (election, role) = parts_or_whole(':', rest);
    port_in(election)?;
    let role = role_in(role)?;
    Some(ServerAddress { host, port, role })
}

fn parts_of(alloc: Global, text: &str) -> Result<Vec<&str>, AllocError>
    ensures { IfOk result (λ parts. map (λ part. part.now) parts.items ≡ slice_split (λ letter. letter == 124) text.now) }
{
    text.split('|').collect(alloc)
}

/// The addresses of a server, with bars between; None in place of a wrong one.
pub fn addresses_in(alloc: Global, text: &str) -> Result<Vec<Option<ServerAddress<'_>>>, NoMemory>
    ensures { IfOk result (λ addresses. map (option_map address_spelling) addresses.items ≡ meeting_places text.now) }
{
    let parts = parts_of(alloc, text)?;
    let mut addresses = Vec::new(alloc);
    for part in parts.as_slice() {
        addresses.push(address_in(part))?;
    }
    Ok(addresses)
}

fn one_is_wrong(addresses: &[Option<ServerAddress<'_>>]) -> bool
    ensures { result ≡ one_is_wrong (map (option_map address_spelling) addresses.now) }
{
    for address in addresses {
        if address.is_none() {
            return true;
        }
    }
    false
}

/// Whether one of the addresses says that the server is an observer.
pub(crate) fn one_is_observer(addresses: &[Option<ServerAddress<'_>>]) -> bool
    ensures { result ≡ one_is is_observer (map (option_map address_spelling) addresses.now) }
{
    for address in addresses {
        if let Some(address) = address {
            if address.role == ServerRole::Observer {
                return true;
            }
        }
    }
    false
}

fn one_is_participant(addresses: &[Option<ServerAddress<'_>>]) -> bool
    ensures { result ≡ one_is is_participant (map (option_map address_spelling) addresses.now) }
{
    for address in addresses {
        if let Some(address) = address {
            if address.role == ServerRole::Participant {
                return true;
            }
        }
    }
    false
}

// Whether an address is wrong, or two disagree on the role.
pub(crate) fn are_wrong(addresses: &[Option<ServerAddress<'_>>]) -> bool
    ensures { result ≡ are_wrong (map (option_map address_spelling) addresses.now) }
{
    one_is_wrong(addresses) || (one_is_observer(addresses) && one_is_participant(addresses))
}
