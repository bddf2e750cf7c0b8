//! What a configuration file sets, as options that say the same.

ghost use Rattle.std.specs.Prelude.{◌≡◌, IfOk, map, filter, string_bytes, option_map};
ghost use Rattle.serve_options.specs.Rows.{option_word};
ghost use Rattle.serve_options.specs.Filed.{word_after, given_spelling, filed_spelling, counts_beside, filed_address, client_port, client_place, own_client, metrics_place};

use crate::ensemble::{
    own_server, place_text, servers_of, servers_text, tried_master, voter_addresses,
};
use crate::given::Given;
use crate::row::Name;
use crate::words::is_word;
use std::alloc::{AllocError, Global};
use texts::number_up_to;
use zoo_config::{
    ClientPlace, ConfigError, Entry, Server, bare_host, is_negative_up_to, serves_metrics,
    setting_in, value_in, without_plus,
};

/// An option that a file sets, and its value as it would be spelled.
#[derive(Debug, Drop)]
pub struct Filed {
    pub name: Name,
    pub value: String,
}

// The options that are set by one key each, whose value is a number.
const KEYS: [(&str, Name); 7] = [
    ("tickTime", Name::Tick),
    ("initLimit", Name::InitLimit),
    ("syncLimit", Name::SyncLimit),
    ("minSessionTimeout", Name::MinSessionTimeout),
    ("maxSessionTimeout", Name::MaxSessionTimeout),
    ("maxClientCnxns", Name::MaxPerAddress),
    ("maxCnxns", Name::MaxClients),
];

const MOST_ID: u64 = 255;

fn put(filed: &mut Vec<Filed>, name: Name, value: String) -> Result<(), AllocError> {
    filed.push(Filed { name, value })?;
    Ok(())
}

const MOST_NEGATIVE: u64 = 2_147_483_648;

// Whether the value says that the key is as without it, where the option isn't given then: a bound of connections that
// isn't above zero is none, and a timeout of minus one is that of the ticks.
fn is_unset(name: Name, value: &str) -> bool {
    match name {
        Name::MaxPerAddress | Name::MaxClients => is_negative_up_to(MOST_NEGATIVE, value),
        Name::MinSessionTimeout | Name::MaxSessionTimeout => {
            is_negative_up_to(1, value) && number_up_to(0, value.as_bytes()).is_none()
        }
        _ => false,
    }
}

// Sets the options of one key each. A number may have a plus in front.
fn put_keys(alloc: Global, filed: &mut Vec<Filed>, entries: &[Entry]) -> Result<(), AllocError> {
    for (key, name) in KEYS {
        if let Some(value) = setting_in(entries, key) {
            let value = without_plus(value);
            if !is_unset(name, value) {
                put(filed, name, String::from_str(alloc, value)?)?;
            }
        }
    }
    if let Some(digest) = value_in(entries, "DigestAuthenticationProvider.superDigest") {
        put(filed, Name::SuperDigest, String::from_str(alloc, digest)?)?;
    }
    Ok(())
}

// The words of a whitelist that are answered here.
fn whitelisted(alloc: Global, list: &str) -> Result<String, AllocError> {
    let mut words = String::new(alloc);
    for part in list.split(",") {
        let word = part.trim();
        if word == "*" {
            return String::from_str(alloc, "all");
        }
        if is_word(word) {
            if !words.as_str().is_empty() {
                words.push_str(",")?;
            }
            words.push_str(word)?;
        }
    }
    if words.as_str().is_empty() {
        words.push_str("none")?;
    }
    Ok(words)
}

// An address and a port; all addresses where none is named, as ZooKeeper does.
fn address_text(alloc: Global, address: Option<&str>, port: &str) -> Result<String, AllocError>
    ensures { IfOk result (λ text.
        string_bytes text ≡ filed_address (option_map (λ host. host.now) address.entry) port.now) }
{
    match address {
        Some(host) => place_text(alloc, bare_host(host), without_plus(port)),
        None => place_text(alloc, "0.0.0.0", without_plus(port)),
    }
}

// The port of clients, by the key for it; 0 is as without the key.
fn client_port(entries: &[Entry]) -> Option<&str>
    ensures { option_map (λ port. port.now) result ≡ client_port entries.now }
{
    let port = value_in(entries, "clientPort")?;
    if number_up_to(0, without_plus(port).as_bytes()).is_some() {
        return None;
    }
    Some(port)
}

// Where clients are served: by the keys for it, or by this server's own line.
fn client_of(
    alloc: Global,
    entries: &[Entry],
    own: Option<Server<'_>>,
) -> Result<Option<String>, AllocError>
    ensures { IfOk result (λ place. option_map string_bytes place ≡ client_place entries.now (own_client own.entry)) }
{
    if let Some(port) = client_port(entries) {
        let address = value_in(entries, "clientPortAddress");
        return Ok(Some(address_text(alloc, address, port)?));
    }
    let client = match own {
        Some(server) => server.client,
        None => None,
    };
    match client {
        None => Ok(None),
        Some(ClientPlace { host, port }) => Ok(Some(address_text(alloc, host, port)?)),
    }
}

// Where metrics are served, if the file asks for it.
fn metrics_of(alloc: Global, entries: &[Entry]) -> Result<Option<String>, AllocError>
    ensures { IfOk result (λ place. option_map string_bytes place ≡ metrics_place entries.now) }
{
    if !serves_metrics(entries) {
        return Ok(None);
    }
    let host = setting_in(entries, "metricsProvider.httpHost");
    match setting_in(entries, "metricsProvider.httpPort") {
        Some(port) => Ok(Some(address_text(alloc, host, port)?)),
        None => Ok(None),
    }
}

/// The options that a file sets: its entries, and beside them those of its `dynamicConfigFile`. The id is the one that
/// is given, or that `myid` has. Beside `--leader-only` no port of followers is tried. Fails if the line of a server is
/// wrong, or says that this server votes, or if an allocation is refused.
pub fn filed_by(
    alloc: Global,
    entries: &[Entry],
    listed: &[Entry],
    id: Option<&str>,
    is_leader_only: bool,
) -> Result<Vec<Filed>, ConfigError> {
    let mut filed = Vec::new(alloc);
    let number = match id {
        Some(id) => number_up_to(MOST_ID, id.as_bytes()).unwrap_or(0),
        None => 0,
    };
    let servers = servers_of(alloc, listed)?;
    let own = own_server(servers.as_slice(), number)?;
    let voters = voter_addresses(alloc, servers.as_slice(), number)?;
    if !voters.is_empty() {
        let master = tried_master(entries, is_leader_only);
        let tried = servers_text(alloc, voters.as_slice(), master)?;
        put(&mut filed, Name::Servers, tried)?;
    }
    if let Some(client) = client_of(alloc, entries, own)? {
        put(&mut filed, Name::Client, client)?;
    }
    if let Some(id) = id {
        put(&mut filed, Name::Id, String::from_str(alloc, id)?)?;
    }
    put_keys(alloc, &mut filed, entries)?;
    if let Some(list) = setting_in(entries, "4lw.commands.whitelist") {
        put(&mut filed, Name::Words, whitelisted(alloc, list)?)?;
    }
    if let Some(metrics) = metrics_of(alloc, entries)? {
        put(&mut filed, Name::Metrics, metrics)?;
    }
    Ok(filed)
}

/// The word after an option, if the words have the option.
pub fn value_given(words: &[String], name: Name) -> Option<&str>
    ensures { option_map (λ value. value.now) result ≡ word_after (option_word name) (map string_bytes words.now) }
{
    let option = name.row().word;
    let mut rest = words;
    while let Some((word, others)) = rest.split_first() {
        if word.as_str() == option {
            let value = others.first()?;
            return Some(value.as_str());
        }
        rest = others;
    }
    None
}

/// The same as options that are given, but for the servers beside a leader that is.
pub fn given_by<'a>(
    alloc: Global,
    filed: &'a [Filed],
    has_leader: bool,
) -> Result<Vec<Given<'a>>, AllocError>
    ensures { IfOk result (λ given.
        map given_spelling given.items ≡ map filed_spelling (filter (counts_beside has_leader) filed.now)) }
{
    let mut given = Vec::with_capacity(alloc, filed.len())?;
    for option in filed {
        if option.name != Name::Servers || !has_leader {
            given.push(Given {
                name: option.name,
                value: Some(option.value.as_str()),
            })?;
        }
    }
    Ok(given)
}
