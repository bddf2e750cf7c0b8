//! The connections whose first bytes are waited for.

use crate::door::Door;
use crate::first::Said;
use crate::guest::{Accepted, Guest};
use mio::net::TcpStream;
use mio::{Registry, Token};
use port_hints::Waker as HubWaker;
use rtrb::{Producer, PushError};
use server_tally::Tally;
use slab::Slab;
use std::alloc::Global;
use std::net::SocketAddr;
use std::sync::{Arc, Wait};
use std::thread;
use std::time::{Clock, Duration};

// The pause when the hub has no room, in milliseconds.
const PAUSE: u64 = 10;

// The least time between two looks for connections that have waited too long, in milliseconds.
const LOOK: u64 = 100;

/// The connections whose first bytes are waited for, and what becomes of those that have said enough. They have no
/// thread, no port and no place in the engine: whoever connects and says nothing costs a descriptor and some hundred
/// bytes.
pub(crate) struct Lobby {
    alloc: Global,
    guests: Slab<Guest>,
    // The least token of a guest; the others follow by their places in the slab.
    first_token: usize,
    // For how many milliseconds a connection may say nothing; 0: any number.
    limit: u64,
    // When the first of them may have waited too long.
    next_look: u64,
    // How many connections came so far.
    count: u64,
    tally: Arc<Tally, Global>,
    to_hub: Producer<Accepted>,
    door: Arc<Door, Global>,
}

impl Drop for Lobby {
    fn drop(self) {
        let Lobby {
            alloc: _,
            guests,
            first_token: _,
            limit: _,
            next_look: _,
            count: _,
            tally,
            to_hub,
            door,
        } = self;
        drop(guests);
        drop(tally);
        drop(to_hub);
        drop(door);
    }
}

impl Lobby {
    pub fn new(
        alloc: Global,
        first_token: usize,
        limit: u64,
        tally: Arc<Tally, Global>,
        to_hub: Producer<Accepted>,
        door: Arc<Door, Global>,
    ) -> Lobby {
        Lobby {
            alloc,
            guests: Slab::new(alloc),
            first_token,
            limit,
            next_look: u64::MAX,
            count: 0,
            tally,
            to_hub,
            door,
        }
    }

    pub fn is_stopped(&self) -> bool {
        self.door.is_stopped()
    }

    // The milliseconds since the server began.
    fn now<R: Clock>(&self, rt: &R) -> u64 {
        self.tally.microseconds(rt) / 1000
    }

    /// Takes a connection in, unless there is no place or no memory for it.
    pub fn welcome<R: Wait + Clock>(
        &mut self,
        rt: &R,
        hub: &HubWaker,
        registry: &Registry,
        stream: TcpStream,
        peer: SocketAddr,
    ) {
        if !self.door.enter(rt, peer.ip()) {
            self.tally.reject();
            return;
        }
        // If this fails, an answer may wait for an acknowledgement, and nothing worse.
        let _ = stream.set_nodelay(true);
        self.count = self.count.wrapping_add(1);
        let now = self.now(rt);
        match Guest::new(rt, self.alloc, stream, peer, &self.tally, self.count, now) {
            Ok(guest) => self.begin(rt, hub, registry, guest),
            Err(_) => self.door.leave(rt, peer.ip()),
        }
    }

    // Hears what a connection has said already, and waits if that is too little.
    fn begin<R: Wait + Clock>(
        &mut self,
        rt: &R,
        hub: &HubWaker,
        registry: &Registry,
        guest: Guest,
    ) {
        let mut guest = guest;
        match guest.hear() {
            Said::TooLittle => self.seat(rt, registry, guest),
            said => self.settle(rt, hub, guest, said),
        }
    }

    // Waits for what a connection says.
    fn seat<R: Wait>(&mut self, rt: &R, registry: &Registry, guest: Guest) {
        let came = guest.came;
        let place = match self.guests.insert(guest) {
            Ok(place) => place,
            Err(failed) => {
                self.turn_away(rt, failed.value);
                return;
            }
        };
        let token = Token(self.first_token.saturating_add(place));
        let registered = match self.guests.get_mut(place) {
            Some(guest) => guest.register(registry, token).is_ok(),
            None => false,
        };
        if !registered {
            self.turn_away_from(rt, place);
        } else if self.limit > 0 {
            self.next_look = self.next_look.min(came.saturating_add(self.limit));
        }
    }

    // A connection that has said enough, or has ended, is answered, handed to the hub or closed.
    fn settle<R: Wait + Clock>(&mut self, rt: &R, hub: &HubWaker, guest: Guest, said: Said) {
        let mut guest = guest;
        match said {
            Said::Word(word) => {
                guest.tell(rt, self.alloc, word);
                self.turn_away(rt, guest);
            }
            Said::More => self.hand_over(rt, hub, guest),
            Said::Nothing | Said::TooLittle => self.turn_away(rt, guest),
        }
    }

    fn turn_away<R: Wait>(&self, rt: &R, guest: Guest) {
        guest.tally.leave(rt);
        self.door.leave(rt, guest.peer.ip());
    }

    fn turn_away_from<R: Wait>(&mut self, rt: &R, place: usize) {
        if let Some(guest) = self.guests.try_remove(place) {
            self.turn_away(rt, guest);
        }
    }

    // Hands a connection to the hub. While the hub has no room it waits, unless it is to stop.
    fn hand_over<R: Wait + Clock>(&mut self, rt: &R, hub: &HubWaker, guest: Guest) {
        let mut accepted = guest.into_accepted(self.now(rt));
        for _ in rt.forever() {
            match self.to_hub.push(accepted) {
                Ok(()) => break,
                Err(PushError::Full(back)) => accepted = back,
            }
            if self.door.is_stopped() {
                return;
            }
            hub.wake();
            thread::sleep(rt, Duration::from_millis(PAUSE));
        }
        hub.wake();
    }

    /// Hears the connection under the token, of which something has come.
    pub fn hear<R: Wait + Clock>(
        &mut self,
        rt: &R,
        hub: &HubWaker,
        registry: &Registry,
        token: Token,
    ) {
        let Some(place) = token.0.checked_sub(self.first_token) else {
            return;
        };
        let Some(guest) = self.guests.get_mut(place) else {
            return;
        };
        let said = guest.hear();
        if said == Said::TooLittle {
            return;
        }
        guest.deregister(registry);
        if let Some(guest) = self.guests.try_remove(place) {
            self.settle(rt, hub, guest, said);
        }
    }

    // When a connection will have waited too long.
    fn end_of(&self, place: usize) -> Option<u64> {
        let guest = self.guests.get(place)?;
        Some(guest.came.saturating_add(self.limit))
    }

    /// Closes the connections that have waited too long, at most ten times a second.
    pub fn look<R: Wait + Clock>(&mut self, rt: &R) {
        let now = self.now(rt);
        if now < self.next_look {
            return;
        }
        self.next_look = u64::MAX;
        for place in 0..self.guests.capacity() {
            match self.end_of(place) {
                Some(end) if end <= now => self.turn_away_from(rt, place),
                Some(end) => self.next_look = self.next_look.min(end.max(now.saturating_add(LOOK))),
                None => {}
            }
        }
    }

    /// For how many milliseconds nobody will have waited too long.
    pub fn rest<R: Clock>(&self, rt: &R) -> u64 {
        if self.next_look == u64::MAX {
            return u64::MAX;
        }
        self.next_look.saturating_sub(self.now(rt))
    }
}
