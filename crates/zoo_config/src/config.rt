//! A configuration file as a whole.

ghost use Rattle.std.specs.Prelude.{◌≡◌, IfOk, None, Some, Err, option_map};
ghost use Rattle.zoo_config.specs.Form.{entries_of};
ghost use Rattle.zoo_config.specs.Keys.{first_refused, value_in, key_default, setting_in, serves_metrics, master_port};

use crate::address::port_in;
use crate::error::{BadLine, ConfigError};
use crate::form::{Entry, entries_of};
use crate::key::{is_prometheus, reason_of};
use std::alloc::Global;
use texts::number_up_to;

// The first entry that is refused.
fn first_refused(entries: &[Entry]) -> Option<BadLine>
    ensures { result ≡ first_refused entries.now }
{
    for entry in entries {
        if let Some(reason) = reason_of(entry.key.as_str(), entry.value.as_str()) {
            return Some(BadLine {
                line: entry.line,
                reason,
            });
        }
    }
    None
}

/// The entries of a file, none of which is refused. Fails with [`ConfigError`].
pub fn parse(alloc: Global, text: &str) -> Result<Vec<Entry>, ConfigError>
    ensures entries { IfOk result (λ entries. entries.items ≡ entries_of text.now) }
    ensures allowed { IfOk result (λ entries. first_refused (entries_of text.now) ≡ None) }
    ensures bad { (line : BadLine)
        → result ≡ Err (ConfigError.Bad line) → first_refused (entries_of text.now) ≡ Some line }
{
    let entries = entries_of(alloc, text)?;
    match first_refused(entries.as_slice()) {
        Some(line) => Err(ConfigError::Bad(line)),
        None => Ok(entries),
    }
}

/// The value of a key among entries, without its default: a later line wins.
pub fn value_in<'a>(entries: &'a [Entry], key: &str) -> Option<&'a str>
    ensures { option_map (λ value. value.now) result ≡ value_in key.now entries.now }
{
    let mut found = None;
    for entry in entries {
        if entry.key.as_str() == key {
            found = Some(entry.value.as_str());
        }
    }
    found
}

// What ZooKeeper takes for a key that no line has.
fn key_default(key: &str) -> Option<&'static str>
    ensures { option_map (λ value. value.now) result ≡ key_default key.now }
{
    if key == "tickTime" {
        return Some("3000");
    }
    if key == "maxClientCnxns" {
        return Some("60");
    }
    if key == "maxCnxns" {
        return Some("0");
    }
    if key == "4lw.commands.whitelist" {
        return Some("srvr");
    }
    if key == "metricsProvider.httpPort" {
        return Some("7000");
    }
    if key == "metricsProvider.httpHost" {
        return Some("0.0.0.0");
    }
    None
}

/// The value of a key among entries, or what ZooKeeper takes without it.
pub fn setting_in<'a>(entries: &'a [Entry], key: &str) -> Option<&'a str>
    ensures { option_map (λ value. value.now) result ≡ setting_in key.now entries.now }
{
    match value_in(entries, key) {
        Some(value) => Some(value),
        None => key_default(key),
    }
}

/// Whether entries ask for metrics over HTTP.
pub fn serves_metrics(entries: &[Entry]) -> bool
    ensures { result ≡ serves_metrics entries.now }
{
    match value_in(entries, "metricsProvider.className") {
        Some(class) => is_prometheus(class),
        None => false,
    }
}

/// The port at which followers serve observers, without a plus, if entries have one. A number that isn't above zero is
/// as without the key.
pub fn master_port(entries: &[Entry]) -> Option<&str>
    ensures { option_map (λ port. port.now) result ≡ master_port entries.now }
{
    let port = port_in(value_in(entries, "observerMasterPort")?)?;
    if number_up_to(0, port.as_bytes()).is_some() {
        return None;
    }
    Some(port)
}
