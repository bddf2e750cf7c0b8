//! The servers of the ensemble, as a file lists them, and where they are tried.

ghost use Rattle.std.specs.Prelude.{◌≡◌, ◌++◌, IfOk, OnOk, map, string_bytes, option_map};
ghost use Rattle.zoo_config.specs.Addresses.{address_spelling};
ghost use Rattle.serve_options.specs.Texts.{place_text};
ghost use Rattle.serve_options.specs.Ensemble.{server_addresses, voter_addresses, master_places, quorum_places, servers_text, tried_master};

use crate::value::has_colon;
use std::alloc::{AllocError, Global};
use std::fmt;
use zoo_config::{
    BadLine, ConfigError, Entry, Reason, Server, ServerAddress, addresses_in, master_port,
    server_in, value_in, voters_beside,
};

/// The servers of a file, each by the last line that has its key.
pub(crate) fn servers_of<'a>(
    alloc: Global,
    entries: &'a [Entry],
) -> Result<Vec<Server<'a>>, ConfigError> {
    let mut servers = Vec::new(alloc);
    let mut rest = entries;
    while let Some((entry, others)) = rest.split_first() {
        rest = others;
        if value_in(rest, entry.key.as_str()).is_none() {
            if let Some(server) = server_in(alloc, entry)? {
                servers.push(server)?;
            }
        }
    }
    Ok(servers)
}

fn wrong(server: &Server<'_>, reason: Reason) -> ConfigError {
    ConfigError::Bad(BadLine {
        line: server.line,
        reason,
    })
}

/// This server among those of the file, where it has a line. It has to be an observer.
pub(crate) fn own_server<'a>(
    servers: &[Server<'a>],
    id: u64,
) -> Result<Option<Server<'a>>, ConfigError> {
    for server in servers {
        if server.id == id {
            if !server.is_observer {
                return Err(wrong(server, Reason::Votes));
            }
            return Ok(Some(*server));
        }
    }
    Ok(None)
}

// A host and a port. A host that has colons, as those of IPv6 have, is in brackets.
#[derive(Drop)]
struct Place<'a> {
    host: &'a str,
    port: &'a str,
}

impl<'a> fmt::Display for Place<'a> {
    ghost use Rattle.std.specs.Prelude.{Some};
    ghost use Rattle.serve_options.specs.Texts.{place_text};

    ghost output = { λ place. Some (place_text place.host.now place.port.now) };

    fn fmt<W: fmt::Write>(&self, f: &mut fmt::Formatter<W>) -> fmt::Result {
        let Place { host, port } = self;
        if has_colon(host) {
            write!(f, "[{host}]:{port}")
        } else {
            write!(f, "{host}:{port}")
        }
    }
}

/// A host and a port as they are written.
pub(crate) fn place_text(alloc: Global, host: &str, port: &str) -> Result<String, AllocError>
    ensures { IfOk result (λ text. string_bytes text ≡ place_text host.now port.now) }
{
    let place = Place { host, port };
    format!(in alloc; "{place}")
}

// Appends the addresses of a server.
fn put_addresses<'a>(
    alloc: Global,
    all: &mut Vec<ServerAddress<'a>>,
    server: &Server<'a>,
) -> Result<(), ConfigError>
    ensures { OnOk result (
        map address_spelling all.new.items ≡ map address_spelling all.old.items ++ server_addresses server.now) }
{
    let addresses = addresses_in(alloc, server.addresses)?;
    for address in addresses.as_slice() {
        match address {
            Some(address) => all.push(*address)?,
            None => return Err(wrong(server, Reason::Server)),
        }
    }
    Ok(())
}

/// The addresses of the other servers that may lead.
pub(crate) fn voter_addresses<'a>(
    alloc: Global,
    servers: &[Server<'a>],
    id: u64,
) -> Result<Vec<ServerAddress<'a>>, ConfigError>
    ensures { IfOk result (λ addresses. map address_spelling addresses.items ≡ voter_addresses id servers.now) }
{
    let voters = voters_beside(alloc, servers, id)?;
    let mut addresses = Vec::new(alloc);
    for voter in voters.as_slice() {
        put_addresses(alloc, &mut addresses, voter)?;
    }
    Ok(addresses)
}

// Appends where the servers serve observers while they follow: at one port, if there is one, which all of them have.
fn put_master_places(
    alloc: Global,
    places: &mut Vec<String>,
    addresses: &[ServerAddress<'_>],
    master: Option<&str>,
) -> Result<(), AllocError>
    ensures { OnOk result (map string_bytes places.new.items ≡ map string_bytes places.old.items
        ++ master_places (option_map (λ port. port.now) master.entry) (map address_spelling addresses.now)) }
{
    let Some(port) = master else {
        return Ok(());
    };
    for address in addresses {
        places.push(place_text(alloc, address.host, port)?)?;
    }
    Ok(())
}

// Appends where the servers listen for learners while they lead.
fn put_quorum_places(
    alloc: Global,
    places: &mut Vec<String>,
    addresses: &[ServerAddress<'_>],
) -> Result<(), AllocError>
    ensures { OnOk result (map string_bytes places.new.items
        ≡ map string_bytes places.old.items ++ quorum_places (map address_spelling addresses.now)) }
{
    for address in addresses {
        places.push(place_text(alloc, address.host, address.port)?)?;
    }
    Ok(())
}

/// The list of where the servers are tried, one place after the other.
pub(crate) fn servers_text(
    alloc: Global,
    addresses: &[ServerAddress<'_>],
    master: Option<&str>,
) -> Result<String, AllocError>
    ensures { IfOk result (λ text. string_bytes text
        ≡ servers_text (option_map (λ port. port.now) master.entry) (map address_spelling addresses.now)) }
{
    let mut places = Vec::new(alloc);
    put_master_places(alloc, &mut places, addresses, master)?;
    put_quorum_places(alloc, &mut places, addresses)?;
    places.as_slice().join(alloc, ",")
}

/// The port at which followers serve observers, if the file has one, unless the leader alone is to be followed.
pub(crate) fn tried_master(entries: &[Entry], is_leader_only: bool) -> Option<&str>
    ensures { option_map (λ port. port.now) result ≡ tried_master is_leader_only entries.now }
{
    if is_leader_only {
        return None;
    }
    master_port(entries)
}
