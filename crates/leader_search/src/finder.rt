//! The thread that connects to the servers that may lead.

use intake::Waker as HubWaker;
use rtrb::{Consumer, Producer};
use serve_failures::{Reason, Server};
use std::alloc::Global;
use std::io;
use std::net::{Net, SocketAddr, TcpStream, ToSocketAddrs};
use std::sync::atomic::{AtomicBool, Ordering};
use std::sync::{Arc, Wait};
use std::thread::Parker;
use std::time::{Clock, Duration};

// How long an address has to accept a connection, in milliseconds.
const CONNECT_LIMIT: u64 = 1000;

// The longest wait for an order, in milliseconds; a wake that is lost costs no more than this.
const LONGEST_WAIT: u64 = 1000;

/// A server that was tried, by its place among the servers.
#[derive(Drop)]
pub struct Attempt {
    pub server: usize,
    pub found: Result<TcpStream, Reason>,
}

/// What the hub wakes the finder by.
#[derive(Drop)]
pub struct FinderBell {
    parker: Parker,
    stopped: AtomicBool,
}

impl FinderBell {
    pub fn new() -> FinderBell {
        FinderBell {
            parker: Parker::new(),
            stopped: AtomicBool::new(false),
        }
    }

    /// An order was given.
    pub fn ring(&self) {
        self.parker.unpark();
    }

    /// Ends the thread, at once or when the connection that it tries is there or refused.
    pub fn stop(&self) {
        self.stopped.store(true, Ordering::SeqCst);
        self.ring();
    }

    fn is_stopped(&self) -> bool {
        self.stopped.load(Ordering::SeqCst)
    }
}

/// The state of the thread that connects to servers. It takes the places of servers to be tried, one at a time.
#[derive(Drop)]
pub struct Finder {
    pub(crate) servers: Arc<Vec<Server>, Global>,
    pub(crate) orders: Consumer<usize>,
    pub(crate) to_hub: Producer<Attempt>,
    pub(crate) bell: Arc<FinderBell, Global>,
}

// Connects to an address. The packets of an observer are small, and none is to wait for an acknowledgement, so the
// connection is without delay (TCP_NODELAY).
fn connect<R: Net<Stream = TcpStream>>(rt: &R, address: SocketAddr) -> io::Result<TcpStream> {
    let stream = TcpStream::connect_timeout(rt, &address, Duration::from_millis(CONNECT_LIMIT))?;
    stream.set_nodelay(true)?;
    Ok(stream)
}

// Connects to a server, by the first of its addresses that accepts.
fn reach<R: Net<Stream = TcpStream>>(rt: &R, server: &Server) -> Result<TcpStream, Reason> {
    let Ok(addresses) = (server.host.as_str(), server.port).to_socket_addrs(rt) else {
        return Err(Reason::UnknownName);
    };
    let mut last = Reason::UnknownName;
    for address in addresses {
        match connect(rt, address) {
            Ok(stream) => return Ok(stream),
            Err(error) => last = Reason::of_connecting(&error),
        }
    }
    Err(last)
}

impl Finder {
    fn try_server<R: Net<Stream = TcpStream>>(&mut self, rt: &R, server: usize) {
        let found = match self.servers.get(server) {
            Some(server) => reach(rt, server),
            None => Err(Reason::UnknownName),
        };
        // There is room: the hub gives no order before it has taken the answer to the last one.
        let _ = self.to_hub.push(Attempt { server, found });
    }
}

/// Tries the servers that the hub names, until it is told to stop. It alone resolves names, which may take long.
pub fn find_all<R: Net<Stream = TcpStream> + Wait + Clock>(rt: &R, finder: Finder, hub: &HubWaker) {
    let mut finder = finder;
    for _ in rt.forever() {
        if finder.bell.is_stopped() {
            return;
        }
        match finder.orders.pop() {
            Ok(server) => {
                finder.try_server(rt, server);
                hub.wake();
            }
            Err(_) => finder
                .bell
                .parker
                .park_timeout(rt, Duration::from_millis(LONGEST_WAIT)),
        }
    }
}
