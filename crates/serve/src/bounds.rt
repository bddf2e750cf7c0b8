//! What bounds the connections of clients: how long they may say nothing or not read, how much may wait for them, and
//! how many watches they may leave.

use crate::hub::Hub;
use connection_loop::{AllowedWords, SessionLimits};
use intake::Limits;
use log::Log;
use serve_bounds::are_too_many;
use serve_door::Places;
use serve_options::{Options, Words};
use std::io::Write;

const MIB: u64 = 1024 * 1024;

/// The bounds of a server.
#[derive(Clone, Copy, Debug)]
pub struct Bounds {
    pub places: Places,
    pub session: SessionLimits,
    pub desk: Limits,
    /// How many watches a connection may leave; 0: any number.
    pub watches: u64,
}

// The words as the thread of a connection takes them.
fn allowed(words: Words) -> AllowedWords {
    let mut allowed = AllowedWords::none();
    for (word, is_answered) in words.each() {
        if let (true, Some(letters)) = (is_answered, word.as_bytes().first_chunk::<4>()) {
            allowed = allowed.with(*letters);
        }
    }
    allowed
}

impl Bounds {
    /// The bounds that the options set. A client that doesn't read is closed after the greatest timeout of a session, since
    /// its session has ended by then if it says nothing, too.
    pub fn new(options: &Options<'_>) -> Bounds {
        Bounds {
            places: Places {
                in_all: options.max_clients,
                per_address: options.max_per_address,
            },
            session: SessionLimits {
                unconnected: options.unconnected.saturating_mul(1000),
                unread: u64::try_from(options.timeouts.greatest()).unwrap_or(0),
                words: allowed(options.words),
                dialect: options.dialect,
                ..SessionLimits::default()
            },
            desk: Limits {
                under_way: options.max_under_way.saturating_mul(MIB),
            },
            watches: options.max_watches,
        }
    }
}

impl<L: Log, W: Write + Drop> Hub<L, W> {
    // Ends a client's connection. Returns whether it wasn't ended before.
    fn end_client(&self, number: usize) -> bool {
        match self.clients.get(&number) {
            Some(client) if !client.bell.is_stopped() => {
                client.bell.stop();
                true
            }
            _ => false,
        }
    }

    // Ends the slowest connection where more waits for clients than may. The next one is ended only when this one is gone,
    // with what waited for it.
    pub(crate) fn relieve(&mut self) {
        if self.desk.under_way() <= self.bounds.desk.under_way {
            return;
        }
        if let Some(number) = self.desk.slowest() {
            if self.end_client(number) {
                self.slow_ended = self.slow_ended.saturating_add(1);
            }
        }
    }

    // Ends the connections that have left more watches than one may, among those of which the last turn took messages: the
    // messages of a port stand together. A read that is held leaves its watch later, and then the connection is looked at
    // when its next frame comes, which is its ping at the latest. Returns how many it ended.
    fn end_watching(&self) -> u64 {
        let mut before = 0;
        let mut ended: u64 = 0;
        for (port, _) in self.desk.fresh() {
            let port = *port;
            if port != before {
                let watches = self.desk.engine().watches_of(port as u64);
                if are_too_many(watches, self.bounds.watches) && self.end_client(port) {
                    ended = ended.saturating_add(1);
                }
            }
            before = port;
        }
        ended
    }

    // Ends the connections that have left more watches than one may, and counts them.
    pub(crate) fn relieve_of_watches(&mut self) {
        let ended = self.end_watching();
        self.watching_ended = self.watching_ended.saturating_add(ended);
    }
}
