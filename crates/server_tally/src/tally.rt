//! The counts of a server.

use crate::client::Passed;
use crate::counts::Counts;
use crate::histogram::Histogram;
use server_words::{
    AnsweredWords, Descriptors, Report, ServerFigures, ServerSettings, ServerWord, answer,
};
use settings::Dialect;
use std::alloc::Global;
use std::collections::BTreeMap;
use std::sync::atomic::{AtomicBool, AtomicI64, AtomicU64, Ordering};
use std::sync::{Arc, Mutex, Wait};
use std::time::{Clock, Instant};
use values::{Listed, NoMemory, Str, Text};

/// What the hub knows after a turn.
#[derive(Clone, Copy, Debug, PartialEq, Eq)]
pub struct EngineFigures {
    /// Whether clients are served.
    pub serving: bool,
    /// The last zxid.
    pub zxid: i64,
    /// The paths in the tree.
    pub paths: u64,
    pub watches: u64,
    /// The pairs of a session and an ephemeral node.
    pub pairs: u64,
    /// The sessions of the ensemble.
    pub sessions: u64,
    /// The transactions that are kept since the base.
    pub log: u64,
}

/// What a turn of the hub was.
#[derive(Clone, Copy, Debug, PartialEq, Eq)]
pub struct TurnFigures {
    /// The microseconds that it took.
    pub took: u64,
    /// Whether the leader was heard.
    pub heard: bool,
}

/// What a server tells of itself at any time.
pub struct TallySettings {
    /// The version of ZooKeeper that it answers for, and its own.
    pub version: Text,
    pub dialect: Dialect,
    pub settings: ServerSettings,
    /// The words that are answered.
    pub words: AnsweredWords,
}

impl Drop for TallySettings {
    fn drop(self) {
        let TallySettings {
            version,
            dialect: _,
            settings: _,
            words,
        } = self;
        drop(version);
        drop(words);
    }
}

/// What all threads of a server count.
pub struct Tally {
    start: Option<Instant>,
    told: TallySettings,
    pub(crate) counts: Counts,
    pub(crate) connections: AtomicU64,
    pub(crate) clients: Mutex<BTreeMap<u64, Arc<Passed, Global>>>,
    serving: AtomicBool,
    zxid: AtomicI64,
    paths: AtomicU64,
    watches: AtomicU64,
    pairs: AtomicU64,
    rejected: AtomicU64,
    sessions: AtomicU64,
    pub(crate) log: AtomicU64,
    // The descriptors of the process; none are open while the system hasn't told.
    descriptors: AtomicU64,
    most_descriptors: AtomicU64,
    // The transactions that were applied.
    pub(crate) transactions: AtomicU64,
    // When the leader was last heard, and when the last turn ended, in microseconds since the start.
    pub(crate) heard: AtomicU64,
    pub(crate) turned: AtomicU64,
    pub(crate) answers: Histogram,
    pub(crate) turns: Histogram,
}

impl Drop for Tally {
    fn drop(self) {
        let Tally {
            start: _,
            told,
            counts,
            connections,
            clients,
            serving,
            zxid,
            paths,
            watches,
            pairs,
            rejected,
            sessions,
            log,
            descriptors,
            most_descriptors,
            transactions,
            heard,
            turned,
            answers,
            turns,
        } = self;
        drop(told);
        drop(counts);
        drop(connections);
        drop(clients);
        drop(serving);
        drop(zxid);
        drop(paths);
        drop(watches);
        drop(pairs);
        drop(rejected);
        drop(sessions);
        drop(log);
        drop(descriptors);
        drop(most_descriptors);
        drop(transactions);
        drop(heard);
        drop(turned);
        drop(answers);
        drop(turns);
    }
}

// How many transactions lead from a zxid to a later one: within an epoch each has the next zxid, and the first of an
// epoch has counter 1.
fn transactions_between(before: i64, after: i64) -> u64 {
    let before = before.cast_unsigned();
    let after = after.cast_unsigned();
    if before >> 32 == after >> 32 {
        after.saturating_sub(before)
    } else {
        after & 0xffff_ffff
    }
}

impl Tally {
    /// Begins to count. Clients aren't served yet.
    pub fn new<T: Clock>(rt: &T, alloc: Global, told: TallySettings) -> Tally {
        Tally {
            start: Instant::now(rt).ok(),
            told,
            counts: Counts::new(),
            connections: AtomicU64::new(0),
            clients: Mutex::new(BTreeMap::new(alloc)),
            serving: AtomicBool::new(false),
            zxid: AtomicI64::new(0),
            paths: AtomicU64::new(0),
            watches: AtomicU64::new(0),
            pairs: AtomicU64::new(0),
            rejected: AtomicU64::new(0),
            sessions: AtomicU64::new(0),
            log: AtomicU64::new(0),
            descriptors: AtomicU64::new(0),
            most_descriptors: AtomicU64::new(0),
            transactions: AtomicU64::new(0),
            heard: AtomicU64::new(0),
            turned: AtomicU64::new(0),
            answers: Histogram::new(),
            turns: Histogram::new(),
        }
    }

    // Counts the transactions that were applied since the last figures. While a leader brings the server up to date the
    // log tells how many, since the zxid may leap; while clients are served the zxid, since the log may be emptied.
    fn count_transactions(&self, figures: EngineFigures) {
        let count = if figures.serving && self.serving.load(Ordering::SeqCst) {
            transactions_between(self.zxid.load(Ordering::SeqCst), figures.zxid)
        } else {
            figures.log.saturating_sub(self.log.load(Ordering::SeqCst))
        };
        self.transactions.fetch_add(count, Ordering::SeqCst);
    }

    /// Counts a turn of the hub, which has just ended.
    pub fn turn<T: Clock>(&self, rt: &T, figures: TurnFigures) {
        let now = self.microseconds(rt);
        self.turned.store(now, Ordering::SeqCst);
        self.turns.add(figures.took);
        if figures.heard {
            self.heard.store(now, Ordering::SeqCst);
        }
    }

    /// Counts a connection that was closed at once, for want of a place.
    pub fn reject(&self) {
        self.rejected.fetch_add(1, Ordering::SeqCst);
    }

    /// How many connections were closed at once.
    pub fn rejected(&self) -> u64 {
        self.rejected.load(Ordering::SeqCst)
    }

    /// Stores what the hub knows.
    pub fn store(&self, figures: EngineFigures) {
        self.count_transactions(figures);
        self.serving.store(figures.serving, Ordering::SeqCst);
        self.zxid.store(figures.zxid, Ordering::SeqCst);
        self.paths.store(figures.paths, Ordering::SeqCst);
        self.watches.store(figures.watches, Ordering::SeqCst);
        self.pairs.store(figures.pairs, Ordering::SeqCst);
        self.sessions.store(figures.sessions, Ordering::SeqCst);
        self.log.store(figures.log, Ordering::SeqCst);
    }

    /// Stores what the system told of the process.
    pub fn store_descriptors(&self, descriptors: Descriptors) {
        self.most_descriptors
            .store(descriptors.most, Ordering::SeqCst);
        self.descriptors.store(descriptors.count, Ordering::SeqCst);
    }

    // The descriptors of the process, if the system has told.
    fn descriptors(&self) -> Option<Descriptors> {
        match self.descriptors.load(Ordering::SeqCst) {
            0 => None,
            count => Some(Descriptors {
                count,
                most: self.most_descriptors.load(Ordering::SeqCst),
            }),
        }
    }

    /// The microseconds since the start. While the clock can't be read, none have passed.
    pub fn microseconds<T: Clock>(&self, rt: &T) -> u64 {
        match (self.start, Instant::now(rt)) {
            (Some(start), Ok(now)) => {
                u64::try_from(now.duration_since(start).as_micros()).unwrap_or(u64::MAX)
            }
            _ => 0,
        }
    }

    pub(crate) fn figures<T: Clock>(&self, rt: &T) -> ServerFigures {
        ServerFigures {
            serving: self.serving.load(Ordering::SeqCst),
            latency: self.counts.latency(),
            received: self.counts.received(),
            sent: self.counts.sent(),
            connections: self.connections.load(Ordering::SeqCst),
            rejected: self.rejected(),
            outstanding: self.counts.owed(),
            zxid: self.zxid.load(Ordering::SeqCst),
            paths: self.paths.load(Ordering::SeqCst),
            watches: self.watches.load(Ordering::SeqCst),
            pairs: self.pairs.load(Ordering::SeqCst),
            sessions: self.sessions.load(Ordering::SeqCst),
            uptime: self.microseconds(rt) / 1000,
            descriptors: self.descriptors(),
        }
    }

    // The connections that are open. They are listed first, so that no thread waits while their texts are made.
    fn open_clients<T: Wait>(
        &self,
        rt: &T,
        alloc: Global,
    ) -> Result<Vec<Arc<Passed, Global>>, NoMemory> {
        let mut open = Vec::new(alloc);
        let clients = self.clients.lock(rt);
        for client in clients.values() {
            open.push(Arc::try_clone(client)?)?;
        }
        Ok(open)
    }

    // Counts anew what goes through each connection.
    fn reset_clients<T: Wait>(&self, rt: &T) {
        let clients = self.clients.lock(rt);
        for client in clients.values() {
            client.counts.reset();
        }
    }

    fn listed<T: Wait>(
        &self,
        rt: &T,
        alloc: Global,
        word: ServerWord,
    ) -> Result<Vec<Arc<Passed, Global>>, NoMemory> {
        if !word.lists_clients() {
            return Ok(Vec::new(alloc));
        }
        self.open_clients(rt, alloc)
    }

    // The answer to a word, with these clients listed.
    fn text<T: Clock>(
        &self,
        rt: &T,
        alloc: Global,
        word: ServerWord,
        open: &[Arc<Passed, Global>],
    ) -> Result<Vec<u8>, NoMemory> {
        let mut clients = Vec::with_capacity(alloc, open.len())?;
        for client in open {
            clients.push(client.figures())?;
        }
        let report = Report {
            version: Str::new(self.told.version.as_str()),
            dialect: self.told.dialect,
            figures: self.figures(rt),
            settings: self.told.settings,
            clients: Listed::from_vec(clients),
        };
        let mut text = Vec::new(alloc);
        answer(word, &report, &mut text)?;
        Ok(text)
    }

    /// The answer to a word, or None if it isn't answered. Does what the word asks for.
    pub(crate) fn answer<T: Wait + Clock>(
        &self,
        rt: &T,
        alloc: Global,
        word: ServerWord,
    ) -> Result<Option<Vec<u8>>, NoMemory> {
        if !self.told.words.has(word) {
            return Ok(None);
        }
        self.counts.note_word();
        let open = self.listed(rt, alloc, word)?;
        let text = self.text(rt, alloc, word, open.as_slice())?;
        match word {
            ServerWord::Crst => self.reset_clients(rt),
            ServerWord::Srst => self.counts.reset(),
            _ => {}
        }
        Ok(Some(text))
    }
}
