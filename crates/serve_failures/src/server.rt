//! The servers that may lead.

ghost use Rattle.std.specs.Prelude.{◌≡◌, IfOk, length, string_bytes};

use serve_options::Address;
use std::alloc::Global;
use std::io::ErrorKind;
use std::{fmt, io};
use values::{Fault, NoMemory};

/// A server that may lead: its host and its quorum port.
#[derive(Debug, Drop)]
pub struct Server {
    pub host: String,
    pub port: u16,
}

impl fmt::Display for Server {
    fn fmt<W: fmt::Write>(&self, f: &mut fmt::Formatter<W>) -> fmt::Result {
        let Server { host, port } = self;
        if host.as_str().contains(":") {
            write!(f, "[{host}]:{port}")
        } else {
            write!(f, "{host}:{port}")
        }
    }
}

impl Server {
    /// The server at an address. Fails only if an allocation is refused.
    pub fn new(alloc: Global, address: Address<'_>) -> Result<Server, NoMemory>
        ensures { IfOk result (λ server. (string_bytes server.host ≡ address.entry.host.now) × (server.port ≡ address.entry.port)) }
    {
        Ok(Server {
            host: String::from_str(alloc, address.host)?,
            port: address.port,
        })
    }
}

/// The servers at these addresses. Fails only if an allocation is refused.
pub fn servers_of(alloc: Global, addresses: &[Address<'_>]) -> Result<Vec<Server>, NoMemory>
    ensures { IfOk result (λ servers. length servers.items ≡ length addresses.now) }
{
    let mut servers = Vec::with_capacity(alloc, addresses.len())?;
    for address in addresses {
        servers.push(Server::new(alloc, *address)?)?;
    }
    Ok(servers)
}

/// Why a server isn't followed.
#[derive(Clone, Copy, Debug, PartialEq, Eq)]
pub enum Reason {
    /// It wasn't tried yet.
    Untried,
    /// Its name can't be resolved.
    UnknownName,
    /// Nobody listens at its port.
    Refused,
    /// It didn't accept a connection in time.
    TimedOut,
    /// It can't be reached for another reason.
    Unreachable,
    /// Its connection has ended.
    Ended,
    /// It has fallen silent.
    Silent,
    /// What it sent was refused.
    Faulty(Fault),
}

impl Reason {
    /// The reason why a server didn't accept a connection.
    pub fn of_connecting(error: &io::Error) -> Reason {
        match error.kind() {
            ErrorKind::ConnectionRefused => Reason::Refused,
            ErrorKind::TimedOut => Reason::TimedOut,
            _ => Reason::Unreachable,
        }
    }
}

impl fmt::Display for Reason {
    fn fmt<W: fmt::Write>(&self, f: &mut fmt::Formatter<W>) -> fmt::Result {
        match self {
            Reason::Untried => f.write_str("not tried yet"),
            Reason::UnknownName => f.write_str("unknown name"),
            Reason::Refused => f.write_str("refused"),
            Reason::TimedOut => f.write_str("timed out"),
            Reason::Unreachable => f.write_str("unreachable"),
            Reason::Ended => f.write_str("ended"),
            Reason::Silent => f.write_str("silent"),
            Reason::Faulty(fault) => {
                let number = fault.number();
                let word = fault.word();
                write!(f, "F{number} {word}")
            }
        }
    }
}

/// Shows servers, each with why it isn't followed: `zk1:2888 (refused), zk2:2888 (timed out)`.
#[derive(Clone, Copy)]
pub struct Tried<'a> {
    pub servers: &'a [Server],
    pub reasons: &'a [Reason],
}

impl<'a> fmt::Display for Tried<'a> {
    fn fmt<W: fmt::Write>(&self, f: &mut fmt::Formatter<W>) -> fmt::Result {
        let mut is_first = true;
        for (server, reason) in self.servers.iter().zip(self.reasons) {
            if !is_first {
                f.write_str(", ")?;
            }
            is_first = false;
            write!(f, "{server} ({reason})")?;
        }
        Ok(())
    }
}
