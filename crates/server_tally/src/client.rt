//! The counts of a connection.

use crate::counts::Counts;
use crate::tally::Tally;
use crate::timed::Timed;
use server_words::{ClientFigures, ServerWord};
use std::alloc::Global;
use std::sync::atomic::{AtomicU64, Ordering};
use std::sync::{Arc, Wait};
use std::time::Clock;
use values::{NoMemory, Str, Text};

// What is said of a word that isn't answered.
const NOT_ALLOWED: &[u8] = b" is not executed because it is not in the whitelist.\n";

/// What has gone through a connection, for others to read. Its own thread alone counts it.
#[derive(Drop)]
pub(crate) struct Passed {
    /// Its address and port.
    address: Text,
    pub counts: Counts,
    // The frame whose answer is timed: how many answers come until its own has, 0 if none is timed; and since when.
    left: AtomicU64,
    since: AtomicU64,
}

impl Passed {
    pub(crate) fn figures(&self) -> ClientFigures<'_> {
        ClientFigures {
            address: Str::new(self.address.as_str()),
            queued: self.counts.owed(),
            received: self.counts.received(),
            sent: self.counts.sent(),
        }
    }

    fn timed(&self) -> Option<Timed> {
        let left = self.left.load(Ordering::SeqCst);
        if left == 0 {
            return None;
        }
        Some(Timed {
            since: self.since.load(Ordering::SeqCst),
            left,
        })
    }

    fn set_timed(&self, timed: Option<Timed>) {
        match timed {
            None => self.left.store(0, Ordering::SeqCst),
            Some(timed) => {
                self.since.store(timed.since, Ordering::SeqCst);
                self.left.store(timed.left, Ordering::SeqCst);
            }
        }
    }
}

/// The tally of a connection: what its thread counts, and the server's own counts.
#[derive(Drop)]
pub struct ClientTally {
    tally: Arc<Tally, Global>,
    passed: Arc<Passed, Global>,
    // The number under which it is listed.
    number: u64,
}

impl ClientTally {
    /// The tally of the connection with this number, which comes from this address and port.
    pub fn new(
        alloc: Global,
        tally: Arc<Tally, Global>,
        number: u64,
        address: Text,
    ) -> Result<ClientTally, NoMemory> {
        let passed = Arc::new(
            alloc,
            Passed {
                address,
                counts: Counts::new(),
                left: AtomicU64::new(0),
                since: AtomicU64::new(0),
            },
        )?;
        Ok(ClientTally {
            tally,
            passed,
            number,
        })
    }

    /// The same tally once more, for the other side of the connection.
    pub fn share(&self) -> Result<ClientTally, NoMemory> {
        Ok(ClientTally {
            tally: Arc::try_clone(&self.tally)?,
            passed: Arc::try_clone(&self.passed)?,
            number: self.number,
        })
    }

    /// Counts the connection, and lists it if there is memory for that.
    pub fn enter<T: Wait>(&self, rt: &T) {
        self.tally.connections.fetch_add(1, Ordering::SeqCst);
        if let Ok(passed) = Arc::try_clone(&self.passed) {
            let _ = self.tally.clients.lock(rt).insert(self.number, passed);
        }
    }

    /// The connection has ended: nothing of it is waited for any more.
    pub fn leave<T: Wait>(&self, rt: &T) {
        let owed = self.passed.counts.owed();
        self.passed.counts.settle(owed);
        self.tally.counts.settle(owed);
        let _ = self.tally.clients.lock(rt).remove(&self.number);
        self.tally.connections.fetch_sub(1, Ordering::SeqCst);
    }

    /// Counts frames that came. The answer to the last of them is timed if none is.
    pub fn receive<T: Clock>(&self, rt: &T, frames: u64) {
        self.tally.counts.receive(frames);
        self.passed.counts.receive(frames);
        if frames > 0 && self.passed.timed().is_none() {
            self.passed.set_timed(Some(Timed {
                since: self.tally.microseconds(rt),
                left: self.passed.counts.owed(),
            }));
        }
    }

    /// Counts packets that were sent, so many of them answers.
    pub fn send<T: Clock>(&self, rt: &T, packets: u64, answers: u64) {
        self.tally.counts.send(packets);
        self.passed.counts.send(packets);
        let answered = answers.min(self.passed.counts.owed());
        self.tally.counts.settle(answered);
        self.passed.counts.settle(answered);
        if let Some(timed) = self.passed.timed() {
            let rest = timed.after(answered);
            self.passed.set_timed(rest);
            if rest.is_none() {
                let took = self.tally.microseconds(rt).saturating_sub(timed.since);
                self.tally.counts.time(took);
                self.tally.answers.add(took);
            }
        }
    }

    /// The text for a word: its answer, or that it isn't answered. Does what the word asks for, if it is answered.
    pub fn text_for<T: Wait + Clock>(
        &self,
        rt: &T,
        alloc: Global,
        word: ServerWord,
    ) -> Result<Vec<u8>, NoMemory> {
        self.passed.counts.note_word();
        if let Some(text) = self.tally.answer(rt, alloc, word)? {
            return Ok(text);
        }
        let mut text = Vec::new(alloc);
        text.extend_from_slice(&word.letters())?;
        text.extend_from_slice(NOT_ALLOWED)?;
        Ok(text)
    }
}
