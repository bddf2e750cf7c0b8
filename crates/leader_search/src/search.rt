//! The search for a leader among several servers.

use crate::finder::{Attempt, Finder, FinderBell};
use following::{Candidate, Finding, Outcome};
use rtrb::{Consumer, Producer, RingBuffer};
use serve_failures::{Reason, Server};
use std::alloc::Global;
use std::net::TcpStream;
use std::sync::Arc;
use values::NoMemory;

// Where the search is. Times are in milliseconds of the server's stopwatch.
#[derive(Clone, Copy)]
enum Place {
    // A server is tried at this time.
    Pausing { server: usize, until: u64 },
    // The finder tries a server.
    Trying,
    // A server was found, and is followed.
    Following { server: usize },
}

/// The hub's part of the search: it picks the server to be tried, and the finder's thread connects to it.
#[derive(Drop)]
pub struct Search {
    finding: Finding,
    servers: Arc<Vec<Server>, Global>,
    // Why each server isn't followed, as far as it was tried.
    reasons: Vec<Reason>,
    orders: Producer<usize>,
    from_finder: Consumer<Attempt>,
    bell: Arc<FinderBell, Global>,
    place: Place,
}

impl Search {
    /// The servers, and why each isn't followed.
    pub fn tried(&self) -> (&[Server], &[Reason]) {
        (self.servers.as_slice(), self.reasons.as_slice())
    }

    /// The server that is followed.
    pub fn followed(&self) -> Option<&Server> {
        match self.place {
            Place::Following { server } => self.servers.get(server),
            Place::Pausing { .. } | Place::Trying => None,
        }
    }

    /// Whether the server that is followed was silent the last time.
    pub fn was_silent(&self) -> bool {
        match self.place {
            Place::Following { server } => self.reasons.get(server) == Some(&Reason::Silent),
            Place::Pausing { .. } | Place::Trying => false,
        }
    }

    /// Whether a new process is needed: the bytes of several leaders, one after the other, were refused.
    pub fn is_hopeless(&self) -> bool {
        self.finding.is_hopeless()
    }

    // Picks the next server.
    fn choose(&mut self, now: u64) {
        let Candidate { server, pause } = self.finding.next();
        self.place = Place::Pausing {
            server,
            until: now.saturating_add(pause),
        };
    }

    fn report(&mut self, server: usize, outcome: Outcome, reason: Reason, now: u64) {
        if let Some(place) = self.reasons.get_mut(server) {
            *place = reason;
        }
        self.finding.report(server, outcome);
        self.choose(now);
    }

    /// The leader that was followed is gone.
    pub fn lost(&mut self, outcome: Outcome, reason: Reason, now: u64) {
        if let Place::Following { server } = self.place {
            self.report(server, outcome, reason, now);
        }
    }

    // Takes what became of a try.
    fn take(&mut self, attempt: Attempt, now: u64) -> Option<TcpStream> {
        let Attempt { server, found } = attempt;
        match found {
            Ok(stream) => {
                self.place = Place::Following { server };
                Some(stream)
            }
            Err(reason) => {
                self.report(server, Outcome::NotLeading, reason, now);
                None
            }
        }
    }

    /// Goes on with the search, and returns a connection to the next server where one was found.
    pub fn advance(&mut self, now: u64) -> Option<TcpStream> {
        match self.place {
            Place::Following { .. } => None,
            Place::Trying => {
                let attempt = self.from_finder.pop().ok()?;
                self.take(attempt, now)
            }
            Place::Pausing { server, until } => {
                if until <= now && self.orders.push(server).is_ok() {
                    self.place = Place::Trying;
                    self.bell.ring();
                }
                None
            }
        }
    }

    /// For how many milliseconds there is nothing to do here, unless the finder wakes the hub.
    pub fn rest(&self, now: u64) -> u64 {
        match self.place {
            Place::Following { .. } | Place::Trying => u64::MAX,
            Place::Pausing { until, .. } => until.saturating_sub(now),
        }
    }

    /// Ends the finder's thread.
    pub fn stop(&self) {
        self.bell.stop();
    }
}

// Why each server isn't followed, before any was tried.
fn untried(alloc: Global, servers: &[Server]) -> Result<Vec<Reason>, NoMemory> {
    let mut reasons = Vec::with_capacity(alloc, servers.len())?;
    for _ in servers {
        reasons.push(Reason::Untried)?;
    }
    Ok(reasons)
}

/// A search among these servers that begins now, and what its thread needs. Fails only if an allocation is refused.
pub fn search_among(
    alloc: Global,
    servers: Vec<Server>,
    finding: Finding,
    now: u64,
) -> Result<(Search, Finder), NoMemory> {
    let reasons = untried(alloc, servers.as_slice())?;
    let servers = Arc::new(alloc, servers)?;
    let (orders, from_hub) = RingBuffer::new(alloc, 1)?;
    let (to_hub, from_finder) = RingBuffer::new(alloc, 1)?;
    let bell = Arc::new(alloc, FinderBell::new())?;
    let finder = Finder {
        servers: Arc::try_clone(&servers)?,
        orders: from_hub,
        to_hub,
        bell: Arc::try_clone(&bell)?,
    };
    let mut search = Search {
        finding,
        servers,
        reasons,
        orders,
        from_finder,
        bell,
        place: Place::Trying,
    };
    search.choose(now);
    Ok((search, finder))
}
