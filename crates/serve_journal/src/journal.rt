//! The log lines of a server, one for each event.

use crate::greeting::Greeting;
use crate::settings_line::SettingsLine;
use intake::{Desk, Message};
use learner_sync::{Learner, Phase};
use log::{Log, debug, info, warn};
use serve_config::FileLines;
use serve_failures::{Failure, Reason, Server, Tried, fault_hint};
use serve_log::{Pace, Refusals};
use serve_options::{Options, VERSION};
use settings::Dialect;
use std::alloc::Global;
use std::net::SocketAddr;
use values::Fault;
use zoo_config::{Meaning, meaning_of};

/// Writes what happens to the logger.
#[derive(Drop)]
pub struct Journal<L> {
    log: L,
    phase: Phase,
    greeting: Greeting,
    // The epoch of the leader that clients were last served with.
    served_epoch: Option<i32>,
    searching: Pace,
    refusals: Refusals,
    slow: Refusals,
    watching: Refusals,
}

impl<L: Log> Journal<L> {
    pub fn new(alloc: Global, log: L) -> Journal<L> {
        Journal {
            log,
            phase: Phase::Down,
            greeting: Greeting::new(alloc),
            served_epoch: None,
            searching: Pace::new(),
            refusals: Refusals::new(),
            slow: Refusals::new(),
            watching: Refusals::new(),
        }
    }

    /// The server has started, and listens for clients at this port.
    pub fn started(&self, options: &Options<'_>, port: u16) {
        let settings = SettingsLine { options, port };
        info!(self.log; target: "start", "kezhundam {VERSION}, {settings}");
        if options.default_id {
            warn!(self.log; target: "start",
                "no --id: this server has the id 1, and is counted as the server of the ensemble that has it");
        }
    }

    /// The server has started by this file. What isn't heeded of it is told, but for what means nothing here.
    pub fn started_by(&self, lines: FileLines<'_>) {
        let FileLines { name, entries } = lines;
        for entry in entries {
            let line = entry.line;
            let key = entry.key.as_str();
            let meaning = meaning_of(key, entry.value.as_str());
            if meaning == Meaning::Unheeded || meaning == Meaning::Unknown {
                warn!(self.log; target: "start", "{name}:{line}: {key} {meaning}");
            }
        }
    }

    /// A client's connection was accepted.
    pub fn client_came(&self, number: usize, address: Option<SocketAddr>) {
        match address {
            Some(address) =>
                debug!(self.log; target: "client", "{number} connected from {address}"),
            None => debug!(self.log; target: "client", "{number} connected"),
        }
    }

    /// A client's connection couldn't be served.
    pub fn client_refused(&self, error: Failure) {
        warn!(self.log; target: "client", "a connection was closed at once: {error}");
    }

    /// A server has accepted a connection. Whether it leads, its LEADERINFO tells.
    pub fn leader_connected(&self, server: &Server) {
        debug!(self.log; target: "leader", "{server} connected");
    }

    /// A server accepted a connection, and no thread could be started for it.
    pub fn leader_refused(&self, error: Failure) {
        warn!(self.log; target: "leader", "a connection was closed at once: {error}");
    }

    /// Clients are served, after so many milliseconds without a leader.
    pub fn serving(&mut self, learner: &Learner, without: u64) {
        let (_, epoch) = learner.epochs();
        let zxid = learner.last_zxid();
        let word = self.greeting.word();
        let bytes = self.greeting.bytes();
        info!(self.log; target: "leader",
            "{word} in epoch {epoch}: serving from zxid {zxid:#x} on, after {bytes} bytes, and {without} ms without a leader");
        // Where the leader isn't asked for the sessions that come back, it goes on refusing their writes.
        if self.served_epoch == Some(epoch) && !learner.dialect().reads().moved_sessions {
            warn!(self.log; target: "leader",
                "the epoch is the same as before: a client that comes back with its session can read, and not write");
        }
        self.served_epoch = Some(epoch);
    }

    /// The leader has been silent for so many milliseconds, and its connection is closed. A server that hasn't said
    /// anything is one that doesn't lead, which is no news.
    pub fn leader_silent(&self, server: &Server, silent: u64, is_greeted: bool) {
        if is_greeted {
            warn!(self.log; target: "leader", "{server} silent for {silent} ms: closed");
        } else {
            debug!(self.log; target: "leader", "{server} says nothing: closed");
        }
    }

    /// The leader's connection is gone; a fault is one in this dialect.
    pub fn leader_gone(
        &self,
        server: &Server,
        fault: Option<Fault>,
        dialect: Dialect,
        is_greeted: bool,
    ) {
        match fault {
            Some(fault) => {
                let number = fault.number();
                let word = fault.word();
                let hint = fault_hint(fault, dialect);
                warn!(self.log; target: "leader", "{server} closed: F{number} {word}: {hint}");
            }
            None if is_greeted => warn!(self.log; target: "leader", "{server} ended"),
            None => debug!(self.log; target: "leader", "{server} ended"),
        }
    }

    /// No leader is found yet: a line in ten seconds says why, server by server.
    pub fn no_leader(&mut self, servers: &[Server], reasons: &[Reason], now: u64) {
        if self.searching.is_due(now) {
            let tried = Tried { servers, reasons };
            warn!(self.log; target: "leader", "no leader among {tried}");
        }
    }

    /// So many connections were refused since the start, for want of a place: a line in ten seconds says how many more
    /// there were.
    pub fn connections_refused(&mut self, all: u64, now: u64) {
        if let Some(fresh) = self.refusals.report(all, now) {
            warn!(self.log; target: "client", "{fresh} connections were closed at once: --max-clients or --max-per-address");
        }
    }

    /// So many connections were closed since the start, since too much waited for clients: a line in ten seconds says how
    /// many more there were.
    pub fn slow_closed(&mut self, all: u64, now: u64) {
        if let Some(fresh) = self.slow.report(all, now) {
            warn!(self.log; target: "client", "{fresh} connections that don't read were closed: --max-under-way");
        }
    }

    /// So many connections were closed since the start, since they left more watches than one may: a line in ten seconds
    /// says how many more there were.
    pub fn watching_closed(&mut self, all: u64, now: u64) {
        if let Some(fresh) = self.watching.report(all, now) {
            warn!(self.log; target: "client", "{fresh} connections with too many watches were closed: --max-watches");
        }
    }

    /// A checkpoint was made: at this zxid, in so many milliseconds, of a tree with so many nodes; the log had so many
    /// transactions.
    pub fn checkpoint(&self, zxid: i64, pause: u64, nodes: usize, entries: usize) {
        info!(self.log; target: "log",
            "checkpoint at {zxid:#x} in {pause} ms, {nodes} nodes, log of {entries} transactions dropped");
    }

    /// A turn took long.
    pub fn slow_turn(&self, took: u64, events: usize) {
        warn!(self.log; target: "hub", "a turn took {took} ms, for {events} messages");
    }

    fn message(&mut self, port: usize, message: &Message) {
        match message {
            Message::Up(_) => {
                if port == 0 {
                    self.greeting.begin();
                }
            }
            Message::Bytes(bytes) => {
                if port == 0 {
                    self.greeting.take(bytes.as_slice());
                }
            }
            Message::End => {
                if port > 0 {
                    debug!(self.log; target: "client", "{port} is gone");
                }
            }
            Message::Checkpoint | Message::Expire(_) => {}
        }
    }

    // Logs how far the leader is followed, if that has changed.
    fn phase(&mut self, learner: &Learner) {
        let phase = learner.phase();
        if phase == self.phase {
            return;
        }
        let (accepted, _) = learner.epochs();
        match phase {
            Phase::Sync => info!(self.log; target: "leader", "epoch {accepted}"),
            Phase::Down
            | Phase::Hello
            | Phase::Serving
            | Phase::Image(_)
            | Phase::ReplayOnImage(_)
            | Phase::Replay => {}
        }
        self.phase = phase;
    }

    /// A turn was made.
    pub fn turned(&mut self, desk: &Desk) {
        for (port, message) in desk.fresh() {
            self.message(*port, message);
        }
        self.phase(desk.engine().learner());
    }
}
