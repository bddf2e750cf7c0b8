//! The servers of a configuration file.

ghost use Rattle.std.specs.Prelude.{◌≡◌, ◌++◌, List, ℕ, Some, None, filter, IfOk, IfSome, IfNone, codes, option_map};
ghost use Rattle.zoo_config.specs.declared.error.ConfigError.TheVariants as errors;
ghost use Rattle.zoo_config.specs.declared.error.Reason.TheVariants as reasons;
ghost use Rattle.zoo_config.specs.declared.error.BadLine.{BadLine};
ghost use Rattle.zoo_config.specs.Addresses.{parts_or_whole, halves_at};
ghost use Rattle.zoo_config.specs.Servers.{server_id_in, place_spelling, client_place_in, served_at, IsServerKey, IsNoServer, SpellsServer, IsServerOf, IsWrongServer, is_voter_beside};

use crate::address::{
    ServerAddress, addresses_in, are_wrong, host_in, one_is_observer, parts_or_whole, port_in,
    without_plus,
};
use crate::error::{BadLine, ConfigError, Reason};
use crate::form::Entry;
use std::alloc::Global;
use texts::number_up_to;
use values::NoMemory;

/// Where a server serves clients.
#[derive(Clone, Copy, Debug)]
pub struct ClientPlace<'a> {
    /// Without brackets; None: at all addresses.
    pub host: Option<&'a str>,
    /// In decimal digits.
    pub port: &'a str,
}

/// A server of the ensemble.
#[derive(Clone, Copy, Debug)]
pub struct Server<'a> {
    /// The line that it has in the file.
    pub line: u64,
    pub id: u64,
    pub is_observer: bool,
    /// One or more of HOST:PORT:PORT[:ROLE], with bars between; `addresses_in` reads them, and none is wrong.
    pub addresses: &'a str,
    pub client: Option<ClientPlace<'a>>,
}

const MOST_ID: u64 = 255;

// The id that the digits spell: one from 1 to 255.
fn server_id_in(digits: &str) -> Option<u64>
    ensures { result ≡ server_id_in digits.now }
{
    let id = number_up_to(MOST_ID, without_plus(digits).as_bytes())?;
    if id == 0 {
        return None;
    }
    Some(id)
}

// The place of a port, or of a host and a port.
fn client_place_in(text: &str) -> Option<ClientPlace<'_>>
    ensures { option_map place_spelling result ≡ client_place_in text.now }
{
    match host_in(text) {
        None => {
            let port = port_in(text)?;
            Some(ClientPlace { host: None, port })
        }
        Some((host, rest)) => {
            if host.is_empty() {
                return None;
            }
            let port = port_in(rest)?;
            Some(ClientPlace {
                host: Some(host),
                port,
            })
        }
    }
}

// The server of a line, or None if the line is wrong.
fn server_of<'a>(
    alloc: Global,
    digits: &str,
    entry: &'a Entry,
) -> Result<Option<Server<'a>>, NoMemory>
    ensures some { IfOk result (λ found. IfSome found (IsServerOf digits.now entry.now)) }
    ensures none { IfOk result (λ found. IfNone found (IsWrongServer digits.now entry.now)) }
{
    let Some(id) = server_id_in(digits) else {
        return Ok(None);
    };
    let (front, after) = parts_or_whole(';', entry.value.as_str());
    let addresses = addresses_in(alloc, front)?;
    if are_wrong(addresses.as_slice()) {
        return Ok(None);
    }
    let is_observer = one_is_observer(addresses.as_slice());
    let client = client_place_in(after);
    if client.is_none() && !after.is_empty() {
        return Ok(None);
    }
    Ok(Some(Server {
        line: entry.line,
        id,
        is_observer,
        addresses: front,
        client,
    }))
}

/// The server of an entry whose key begins with `server.`; None of any other. Fails if the number after that isn't one
/// from 1 to 255, if the value isn't that of a server, or if an allocation is refused.
pub fn server_in<'a>(alloc: Global, entry: &'a Entry) -> Result<Option<Server<'a>>, ConfigError>
    ensures server { IfOk result (λ found. IfSome found (SpellsServer entry.now)) }
    ensures others { IfOk result (λ found. IfNone found ((digits : List ℕ) → IsServerKey entry.now.key digits → ⊥)) }
    ensures bad { (line : BadLine) → result ≡ Err (errors.Bad line)
        → (line.line ≡ entry.now.line) × (line.reason ≡ reasons.Server) × IsNoServer entry.now }
{
    let Some(digits) = entry.key.as_str().strip_prefix("server.") else {
        return Ok(None);
    };
    match server_of(alloc, digits, entry)? {
        Some(server) => Ok(Some(server)),
        None => Err(ConfigError::Bad(BadLine {
            line: entry.line,
            reason: Reason::Server,
        })),
    }
}

/// The servers but this one that may lead.
pub fn voters_beside<'a>(
    alloc: Global,
    servers: &[Server<'a>],
    id: u64,
) -> Result<Vec<Server<'a>>, NoMemory>
    ensures { IfOk result (λ voters. voters.items ≡ filter (is_voter_beside id) servers.now) }
{
    let mut voters = Vec::new(alloc);
    for server in servers {
        if !server.is_observer && server.id != id {
            voters.push(*server)?;
        }
    }
    Ok(voters)
}
