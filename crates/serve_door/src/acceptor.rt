//! The thread that accepts connections.

use crate::door::{Door, Places};
use crate::guest::Accepted;
use crate::lobby::Lobby;
use mio::net::TcpListener;
use mio::{Events, Interest, Poll, Token, Waker};
use port_hints::Waker as HubWaker;
use rtrb::{Consumer, RingBuffer};
use server_tally::Tally;
use std::alloc::Global;
use std::io::ErrorKind;
use std::net::Net;
use std::sync::{Arc, Wait};
use std::time::{Clock, Duration};
use std::{io, thread};

const LISTENER: usize = 0;

const STOP: usize = 1;

const FIRST_GUEST: usize = 2;

// How many connections may wait for the hub.
const RING_LEN: usize = 1024;

// How many connections are accepted between two looks at those that wait, and of how many of these is told at once.
const AT_ONCE: usize = 64;

// The longest wait for a connection, in milliseconds; a wake that is lost costs no more than this.
const LONGEST_WAIT: u64 = 1000;

// The pause when the system has no descriptor left, in milliseconds.
const PAUSE: u64 = 10;

/// The state of the thread that accepts connections.
pub struct Acceptor {
    listener: TcpListener,
    poll: Poll,
    events: Events,
    lobby: Lobby,
}

impl Drop for Acceptor {
    fn drop(self) {
        let Acceptor {
            listener,
            poll,
            events,
            lobby,
        } = self;
        drop(poll);
        drop(listener);
        drop(events);
        drop(lobby);
    }
}

/// An acceptor, and what its thread shares with the hub's.
pub struct Accepting {
    pub acceptor: Acceptor,
    pub from_acceptor: Consumer<Accepted>,
    pub door: Arc<Door, Global>,
}

/// What keeps connections within bounds before the hub has them.
#[derive(Clone, Copy, Debug)]
pub struct DoorLimits {
    /// How many there may be.
    pub places: Places,
    /// For how many milliseconds one may say less than a word; 0: any number.
    pub silent: u64,
}

/// Prepares to accept connections. They are counted by the tally.
pub fn open_door(
    net: &impl Net,
    alloc: Global,
    listener: TcpListener,
    limits: DoorLimits,
    tally: Arc<Tally, Global>,
) -> io::Result<Accepting> {
    let mut listener = listener;
    let poll = Poll::new(net)?;
    poll.registry()
        .register(&mut listener, Token(LISTENER), Interest::READABLE)?;
    let waker = Waker::new(poll.registry(), Token(STOP))?;
    let events = Events::with_capacity(alloc, AT_ONCE)?;
    let door = Arc::new(alloc, Door::new(alloc, limits.places, waker))?;
    let (to_hub, from_acceptor) = RingBuffer::new(alloc, RING_LEN)?;
    let lobby = Lobby::new(
        alloc,
        FIRST_GUEST,
        limits.silent,
        tally,
        to_hub,
        Arc::try_clone(&door)?,
    );
    let acceptor = Acceptor {
        listener,
        poll,
        events,
        lobby,
    };
    Ok(Accepting {
        acceptor,
        from_acceptor,
        door,
    })
}

// What accepting the next connection came to.
#[derive(Clone, Copy)]
enum Next {
    /// There may be one more.
    Taken,
    Nothing,
    /// None could be accepted for now.
    Paused,
}

impl Acceptor {
    // Accepts the next connection.
    fn accept_next<R: Wait + Clock>(&mut self, rt: &R, hub: &HubWaker) -> Next {
        match self.listener.accept() {
            Ok((stream, peer)) => {
                let registry = self.poll.registry();
                self.lobby.welcome(rt, hub, registry, stream, peer);
                Next::Taken
            }
            Err(error) => match error.kind() {
                ErrorKind::WouldBlock => Next::Nothing,
                ErrorKind::Interrupted | ErrorKind::ConnectionAborted => Next::Taken,
                // For example, no descriptor is left. Connections will end and free some.
                _ => {
                    thread::sleep(rt, Duration::from_millis(PAUSE));
                    Next::Paused
                }
            },
        }
    }

    // Accepts some of the connections that wait. Returns whether there may be more.
    fn accept_some<R: Wait + Clock>(&mut self, rt: &R, hub: &HubWaker) -> bool {
        for _ in 0..AT_ONCE {
            match self.accept_next(rt, hub) {
                Next::Taken => {}
                Next::Nothing => return false,
                Next::Paused => return true,
            }
        }
        true
    }

    // Waits until something comes, but not if there may be more connections, and hears those of which something has come.
    fn attend<R: Wait + Clock>(&mut self, rt: &R, hub: &HubWaker, is_behind: bool) {
        let most = if is_behind {
            0
        } else {
            LONGEST_WAIT.min(self.lobby.rest(rt))
        };
        // If the wait fails, the next call accepts the connections for which it would have waited.
        let _ = self
            .poll
            .poll(&mut self.events, Some(Duration::from_millis(most)));
        for event in self.events.iter() {
            self.lobby
                .hear(rt, hub, self.poll.registry(), event.token());
        }
        self.lobby.look(rt);
    }
}

/// Accepts connections until it is told to stop. It answers those that ask a word about the server, and hands the others to
/// the hub, which it wakes for each, once they have said as much as a word has.
pub fn accept_all<R: Wait + Clock>(rt: &R, acceptor: Acceptor, hub: &HubWaker) {
    let mut acceptor = acceptor;
    for _ in rt.forever() {
        if acceptor.lobby.is_stopped() {
            return;
        }
        let is_behind = acceptor.accept_some(rt, hub);
        acceptor.attend(rt, hub, is_behind);
    }
}
