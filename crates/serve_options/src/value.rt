//! The values of options.

ghost use Rattle.std.specs.Prelude.{◌≡◌, ◌≤◌, ◌==◌, ℕ, Some, IfSome, IfOk, map, vec_len};
ghost use Rattle.std.specs.List.{list_any};
ghost use Rattle.serve_options.specs.Rows.{IsWithin};
ghost use Rattle.serve_options.specs.Texts.{has_colon};
ghost use Rattle.serve_options.specs.Words.{parts_of};
ghost use Rattle.serve_options.specs.Values.{number_within, port_number_of, SpellsHost, SpellsPlace, SpellsAddress, ArePlaces, level_of, format_of, dialect_of, is_digest_text};

use crate::row::Bounds;
use log::LevelFilter;
use settings::Dialect;
use std::alloc::{AllocError, Global};
use std::fmt;
use texts::number_up_to;

/// A host and a port.
#[derive(Clone, Copy, Debug, PartialEq, Eq)]
pub struct Address<'a> {
    pub host: &'a str,
    pub port: u16,
}

impl<'a> fmt::Display for Address<'a> {
    ghost use Rattle.std.specs.Prelude.{Some};
    ghost use Rattle.serve_options.specs.Texts.{address_text};

    ghost output = { λ address. Some (address_text address.host.now address.port) };

    fn fmt<W: fmt::Write>(&self, f: &mut fmt::Formatter<W>) -> fmt::Result {
        let Address { host, port } = self;
        if has_colon(host) {
            write!(f, "[{host}]:{port}")
        } else {
            write!(f, "{host}:{port}")
        }
    }
}

/// How a line of the log is written.
#[derive(Clone, Copy, Debug, PartialEq, Eq)]
pub enum LogFormat {
    Text,
    /// An object of JSON.
    Json,
}

// The host of a port alone.
const LOCAL: &str = "127.0.0.1";

const MOST_PORT: u64 = 65_535;

// The letters of a hash of SHA-1 in base64.
const HASH_LETTERS: usize = 28;

// The most servers of a list.
const MOST_SERVERS: usize = 64;

/// The number that a text spells in decimal digits, if it is within the bounds.
pub(crate) fn number_within(bounds: Bounds, text: &str) -> Option<u64>
    ensures value { result ≡ number_within bounds text.now }
    ensures bounds { IfSome result (IsWithin bounds) }
{
    let number = number_up_to(bounds.most, text.as_bytes())?;
    if number < bounds.least {
        return None;
    }
    Some(number)
}

fn port_of(text: &str) -> Option<u16>
    ensures { result ≡ port_number_of text.now }
{
    let port = number_up_to(MOST_PORT, text.as_bytes())?;
    Some(port as u16)
}

// An IPv6 address is in brackets, since a port follows it.
fn host_of(text: &str) -> Option<&str>
    ensures { IfSome result (λ host. SpellsHost text.now host.now) }
{
    let host = match text.strip_prefix("[") {
        Some(inner) => inner.strip_suffix("]")?,
        None => text,
    };
    if host.is_empty() {
        return None;
    }
    Some(host)
}

/// Whether a text has a colon: an address that names a host has, and so has a host of IPv6.
pub(crate) fn has_colon(text: &str) -> bool
    ensures { result ≡ has_colon text.now }
{
    text.as_bytes().contains(&b':')
}

// The address that a text spells as HOST:PORT.
fn place_of(text: &str) -> Option<Address<'_>>
    ensures { IfSome result (λ address. SpellsPlace text.now address.host.now address.port) }
{
    let (front, back) = text.rsplit_once(":")?;
    Some(Address {
        host: host_of(front)?,
        port: port_of(back)?,
    })
}

/// The address that a text spells as PORT or HOST:PORT. A port alone is one of this machine.
pub(crate) fn address_of(text: &str) -> Option<Address<'_>>
    ensures { IfSome result (λ address. SpellsAddress text.now address.host.now address.port) }
{
    if has_colon(text) {
        return place_of(text);
    }
    Some(Address {
        host: LOCAL,
        port: port_of(text)?,
    })
}

fn parts_of(alloc: Global, text: &str) -> Result<Vec<&str>, AllocError>
    ensures { IfOk result (λ parts. map (λ part. part.now) parts.items ≡ parts_of text.now) }
{
    text.split(',').collect(alloc)
}

/// From 1 to 64 addresses, with commas between. Returns None if the text isn't these, or if one has no host.
pub(crate) fn addresses_of(
    alloc: Global,
    text: &str,
) -> Result<Option<Vec<Address<'_>>>, AllocError>
    ensures spelled { IfOk result (λ found. IfSome found (λ addresses. ArePlaces (parts_of text.now) addresses.items)) }
    ensures length { IfOk result (λ found. IfSome found (λ addresses.
        (1 ≤ vec_len addresses) × (vec_len addresses ≤ 64))) }
{
    let parts = parts_of(alloc, text)?;
    if parts.len() > MOST_SERVERS {
        return Ok(None);
    }
    let mut addresses = Vec::new(alloc);
    for part in parts.as_slice() {
        match place_of(part) {
            Some(address) => addresses.push(address)?,
            None => return Ok(None),
        }
    }
    Ok(Some(addresses))
}

/// The level of the log that a text names.
pub(crate) fn level_of(text: &str) -> Option<LevelFilter>
    ensures { result ≡ level_of text.now }
{
    if text == "off" {
        return Some(LevelFilter::Off);
    }
    if text == "error" {
        return Some(LevelFilter::Error);
    }
    if text == "warn" {
        return Some(LevelFilter::Warn);
    }
    if text == "info" {
        return Some(LevelFilter::Info);
    }
    if text == "debug" {
        return Some(LevelFilter::Debug);
    }
    None
}

/// The format of the log that a text names.
pub(crate) fn format_of(text: &str) -> Option<LogFormat>
    ensures { result ≡ format_of text.now }
{
    if text == "text" {
        return Some(LogFormat::Text);
    }
    if text == "json" {
        return Some(LogFormat::Json);
    }
    None
}

/// The dialect that a release names.
pub(crate) fn dialect_of(text: &str) -> Option<Dialect>
    ensures { result ≡ dialect_of text.now }
{
    if text == "3.4" {
        return Some(Dialect::Zk34);
    }
    if text == "3.8" {
        return Some(Dialect::Zk38);
    }
    None
}

/// The release that names a dialect.
pub fn release_of(dialect: Dialect) -> &'static str
    ensures { dialect_of result.now ≡ Some dialect }
{
    match dialect {
        Dialect::Zk34 => "3.4",
        Dialect::Zk38 => "3.8",
    }
}

fn has_line_end(text: &[u8]) -> bool
    ensures { result ≡ list_any (λ letter. letter == 10) text.now }
{
    text.iter().any(|letter| *letter == b'\n')
}

/// Whether a text may be a digest: a user, a colon, and as many letters as a hash of SHA-1 has in base64, on one line.
pub(crate) fn is_digest_text(text: &str) -> bool
    ensures { result ≡ is_digest_text text.now }
{
    if has_line_end(text.as_bytes()) {
        return false;
    }
    match text.split_once(':') {
        None => return false,
        Some((_, hash)) => hash.len() == HASH_LETTERS,
    }
}
