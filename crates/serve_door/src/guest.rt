//! A connection that hasn't said yet what it wants.

use crate::address::address_text;
use crate::first::{First, Said};
use mio::net::TcpStream;
use mio::{Interest, Registry, Token};
use server_tally::{ClientTally, Tally};
use server_words::ServerWord;
use std::alloc::Global;
use std::io::{Read, Write};
use std::net::{Shutdown, SocketAddr};
use std::sync::{Arc, Wait};
use std::time::Clock;
use std::{io, net};
use values::{NoMemory, Text};

/// A client's connection, and what it has said so far.
#[derive(Drop)]
pub struct Accepted {
    pub stream: net::TcpStream,
    pub peer: SocketAddr,
    /// The text of its address.
    pub address: Text,
    /// It is counted, and listed.
    pub tally: ClientTally,
    pub first: First,
    /// For how many milliseconds it has been connected.
    pub waited: u64,
}

/// A connection whose first bytes are waited for.
#[derive(Drop)]
pub(crate) struct Guest {
    stream: TcpStream,
    pub peer: SocketAddr,
    address: Text,
    pub tally: ClientTally,
    first: First,
    /// When it came, by the acceptor's clock.
    pub came: u64,
}

// The text of an address, and the same with the port.
fn named(alloc: Global, peer: SocketAddr) -> Result<(Text, Text), NoMemory> {
    let address = address_text(alloc, peer.ip())?;
    let host = address.as_str();
    let port = peer.port();
    let text = if host.contains(':') {
        format!(in alloc; "[{host}]:{port}")?
    } else {
        format!(in alloc; "{host}:{port}")?
    };
    let place = Text::new(alloc, text.as_str())?;
    Ok((address, place))
}

impl Guest {
    /// A connection that came just now. It is counted, and listed under the number.
    pub fn new<R: Wait>(
        rt: &R,
        alloc: Global,
        stream: TcpStream,
        peer: SocketAddr,
        tally: &Arc<Tally, Global>,
        number: u64,
        came: u64,
    ) -> Result<Guest, NoMemory> {
        let (address, place) = named(alloc, peer)?;
        let tally = ClientTally::new(alloc, Arc::try_clone(tally)?, number, place)?;
        tally.enter(rt);
        Ok(Guest {
            stream,
            peer,
            address,
            tally,
            first: First::new(),
            came,
        })
    }

    /// Reads what has come.
    pub fn hear(&mut self) -> Said {
        self.first.hear(&mut self.stream)
    }

    /// Has the registry tell under the token when something comes.
    pub fn register(&mut self, registry: &Registry, token: Token) -> io::Result<()> {
        registry.register(&mut self.stream, token, Interest::READABLE)
    }

    /// Has the registry tell no more.
    pub fn deregister(&mut self, registry: &Registry) {
        // If this fails, the registry tells of a connection that isn't here, which is passed over.
        let _ = registry.deregister(&mut self.stream);
    }

    /// Answers a word, as far as that needs no wait, and closes the connection. The answer is shorter than what a new
    /// socket takes at once.
    pub fn tell<R: Wait + Clock>(&mut self, rt: &R, alloc: Global, word: ServerWord) {
        if let Ok(text) = self.tally.text_for(rt, alloc, word) {
            let _ = self.stream.write(text.as_slice());
        }
        // What came after the word is taken: where a socket is closed with unread bytes, the answer may be lost.
        let mut unread = [0; 256];
        let _ = self.stream.read(&mut unread);
        let _ = self.stream.shutdown(Shutdown::Both);
    }

    /// The connection, for the hub.
    pub fn into_accepted(self, now: u64) -> Accepted {
        let Guest {
            stream,
            peer,
            address,
            tally,
            first,
            came,
        } = self;
        Accepted {
            stream: net::TcpStream::from(stream),
            peer,
            address,
            tally,
            first,
            waited: now.saturating_sub(came),
        }
    }
}
