//! The leader's side of the hub: the leader that is followed, its silence, its end, and the next one.

use crate::connections::{Handed, Leader, start_leader};
use crate::hub::{CAPACITY, Hub};
use crate::silence::{SECOND_LOOK, Silence, SilenceLimits};
use connection_loop::LeaderGone;
use following::{Judgement, Outcome, Verdict};
use intake::{Message, Port};
use leader_search::Search;
use learner_sync::Phase;
use log::Log;
use observer_core::Output;
use serve_failures::{Failure, Reason, Server};
use std::alloc::Global;
use std::io::Write;
use std::net::{Net, TcpStream};
use std::sync::{Arc, Mutex, Wait};
use std::thread::Threads;
use std::time::Clock;
use values::{Fault, NoMemory};

/// Where leaders come from.
#[derive(Drop)]
pub enum Source {
    /// One connection, with whose end this server ends; its server is the first of these.
    Once(Vec<Server>),
    /// Several servers, one of which leads at a time.
    Search(Search),
}

// A leader that is gone, and the fault that its thread was told of.
#[derive(Clone, Copy)]
struct Gone {
    fault: Option<Fault>,
}

/// What was still put to the port of a leader that is gone: whether there was anything, and the last fault. An end inside
/// a packet is none, since it says only that the rest is missing.
#[derive(Clone, Copy)]
pub(crate) struct Rest {
    is_empty: bool,
    fault: Option<Fault>,
}

/// What the hub knows of its leaders. Port 0 is theirs, one after the other: a number isn't used again, and outputs for
/// a leader are those of port 0.
#[derive(Drop)]
pub struct Leading {
    source: Source,
    thread: Option<Leader>,
    // Port 0, while no leader is followed.
    resting: Option<Port>,
    // A leader whose thread was joined, until its end is judged.
    gone: Option<Gone>,
    silence: Silence,
    // The leader fell silent, and its connection is being ended.
    is_given_up: bool,
    // The observer was greeted by this leader.
    is_greeted: bool,
    // Since when clients are served.
    served_since: Option<u64>,
    // Since when they aren't.
    unserved_since: u64,
    // For how many milliseconds they may be unserved, before the server gives up.
    give_up: u64,
}

impl Leading {
    /// `give_up` is in seconds.
    pub fn new(source: Source, limits: SilenceLimits, give_up: Option<u64>) -> Leading {
        Leading {
            source,
            thread: None,
            resting: None,
            gone: None,
            silence: Silence::new(limits),
            is_given_up: false,
            is_greeted: false,
            served_since: None,
            unserved_since: 0,
            give_up: give_up.unwrap_or(u64::MAX).saturating_mul(1000),
        }
    }

    /// Whether a leader is followed.
    pub(crate) fn is_following(&self) -> bool {
        self.thread.is_some()
    }

    pub fn ring(&self) {
        if let Some(leader) = &self.thread {
            leader.bell.ring();
        }
    }

    /// Ends the search for a leader.
    pub(crate) fn stop_search(&self) {
        if let Source::Search(search) = &self.source {
            search.stop();
        }
    }

    /// Ends the leader's connection.
    pub fn stop(&self) {
        if let Some(leader) = &self.thread {
            leader.bell.stop();
        }
    }

    /// Ends the leader's connection while no thread takes what it sends.
    pub fn abandon(&self) {
        if let Some(leader) = &self.thread {
            leader.bell.abandon();
        }
    }

    fn server(&self) -> Option<&Server> {
        match &self.source {
            Source::Once(servers) => servers.first(),
            Source::Search(search) => search.followed(),
        }
    }

    // Whether the server that is followed leads, as far as is known: its LEADERINFO says so, or the one who named it.
    fn is_leader(&self) -> bool {
        self.is_greeted || matches!(self.source, Source::Once(_))
    }

    // Goes on with the search, and returns a connection where a server has accepted.
    fn advance(&mut self, now: u64) -> Option<TcpStream> {
        match &mut self.source {
            Source::Once(_) => None,
            Source::Search(search) => search.advance(now),
        }
    }

    // Whether the server that is followed was silent the last time.
    fn was_silent(&self) -> bool {
        match &self.source {
            Source::Once(_) => false,
            Source::Search(search) => search.was_silent(),
        }
    }

    // For how long clients were served by the leader that is gone, in milliseconds.
    fn served(&mut self, now: u64) -> u64 {
        match self.served_since.take() {
            None => 0,
            Some(since) => {
                self.unserved_since = now;
                // The millisecond in which it began counts, too.
                now.saturating_sub(since).max(1)
            }
        }
    }

    // What became of a leader that sent nothing wrong.
    fn outcome(&self, served: u64) -> (Outcome, Reason) {
        let reason = if self.is_given_up {
            Reason::Silent
        } else {
            Reason::Ended
        };
        if !self.is_greeted {
            return (Outcome::NotLeading, reason);
        }
        if self.is_given_up {
            (Outcome::Silent { served }, reason)
        } else {
            (Outcome::Ended { served }, reason)
        }
    }

    /// Takes the outputs that were meant for a leader that is gone.
    pub(crate) fn drop_rest(&mut self) -> Rest {
        let mut rest = Rest {
            is_empty: true,
            fault: None,
        };
        let Some(port) = &mut self.resting else {
            return rest;
        };
        for _ in 0..u64::MAX {
            let Some(output) = port.receive() else {
                break;
            };
            rest.is_empty = false;
            match output {
                Output::CloseLeader(Fault::Short) => {}
                Output::CloseLeader(fault) => rest.fault = Some(fault),
                _ => {}
            }
        }
        port.written_all();
        rest
    }
}

// How many bytes of the leader are among the messages, if it sent any message.
fn leader_bytes(messages: &[(usize, Message)]) -> Option<u64> {
    let mut found = None;
    for (port, message) in messages {
        if *port == 0 {
            let length = match message {
                Message::Bytes(bytes) => bytes.as_slice().len() as u64,
                _ => 0,
            };
            found = Some(length.saturating_add(found.unwrap_or(0)));
        }
    }
    found
}

impl<L: Log, W: Write + Drop> Hub<L, W> {
    // Notes what the last turn, which ended at this time, tells of the leader. Returns whether the leader sent bytes.
    pub(crate) fn note_leader(&mut self, now: u64) -> bool {
        let heard = leader_bytes(self.desk.fresh());
        if heard.is_some() {
            self.leading.silence.heard(now);
        }
        match self.desk.engine().learner().phase() {
            Phase::Down | Phase::Hello => {}
            Phase::Serving => {
                self.leading.is_greeted = true;
                self.note_serving(now);
                // What comes before is mostly an image, after which the log is empty.
                self.log_keeper.checkpoints.received(heard.unwrap_or(0));
            }
            _ => self.leading.is_greeted = true,
        }
        heard.unwrap_or(0) > 0
    }

    fn note_serving(&mut self, now: u64) {
        if self.leading.served_since.is_some() {
            return;
        }
        self.leading.served_since = Some(now);
        let without = now.saturating_sub(self.leading.unserved_since);
        self.journal.serving(self.desk.engine().learner(), without);
    }

    /// Opens port 0, before any other.
    pub(crate) fn open_leader_port(&mut self) -> Result<(), Failure> {
        match self.desk.add_port(CAPACITY) {
            Ok(port) => {
                self.leading.resting = Some(port);
                Ok(())
            }
            Err(_) => Err(Failure::NoMemory),
        }
    }

    /// Follows the leader at the other end of the stream, by port 0. If its thread can't be started the port rests.
    pub fn follow<R: Threads + Wait + Net + Clock + Copy + Send + 'static>(
        &mut self,
        rt: &R,
        stream: TcpStream,
    ) -> Result<(), Failure> {
        let handed: Handed = Arc::new(self.alloc, Mutex::new(self.leading.resting.take()))?;
        let theirs = Arc::try_clone(&handed)?;
        match start_leader(rt, self.alloc, stream, theirs) {
            Ok(leader) => {
                self.leading.thread = Some(leader);
                let now = self.clock.now(rt);
                let was_silent = self.leading.was_silent();
                self.leading.silence.begin(now, was_silent);
                self.leading.is_given_up = false;
                self.leading.is_greeted = false;
                if let Some(server) = self.leading.server() {
                    self.journal.leader_connected(server);
                }
                Ok(())
            }
            Err(error) => {
                self.leading.resting = handed.lock(rt).take();
                Err(Failure::from(error))
            }
        }
    }

    // Drops what was still to be sent to the leader that is gone, turn by turn, until a turn brings nothing: the next one
    // would take it for requests of its own observer. Without a leader the engine sends nothing to one, so nothing new
    // comes. Returns the fault that is among it: a leader may end right after bytes that are refused, and before its
    // thread is told.
    fn drop_rest<R: Threads + Wait + Sync + Clock>(
        &mut self,
        rt: &R,
    ) -> Result<Option<Fault>, NoMemory> {
        let mut fault = None;
        for _ in rt.forever() {
            self.turn(rt)?;
            self.join_ended(rt);
            let rest = self.leading.drop_rest();
            fault = rest.fault.or(fault);
            if rest.is_empty {
                break;
            }
        }
        Ok(fault)
    }

    // Follows the server that was found, if a thread can be started for it.
    fn follow_found<R: Threads + Wait + Net + Clock + Copy + Send + Sync + 'static>(
        &mut self,
        rt: &R,
        stream: TcpStream,
        now: u64,
    ) {
        if let Err(error) = self.follow(rt, stream) {
            self.journal.leader_refused(error);
            if let Source::Search(search) = &mut self.leading.source {
                search.lost(Outcome::NotLeading, Reason::Unreachable, now);
            }
        }
    }

    // A line in ten seconds says why no server is followed, once each was tried.
    fn tell_search(&mut self, now: u64) {
        if let Source::Search(search) = &self.leading.source {
            let (servers, reasons) = search.tried();
            if !reasons.contains(&Reason::Untried) {
                self.journal.no_leader(servers, reasons, now);
            }
        }
    }

    // Goes on with the search for a leader. Returns for how many milliseconds there is nothing to do.
    fn seek<R: Threads + Wait + Net + Clock + Copy + Send + Sync + 'static>(
        &mut self,
        rt: &R,
        now: u64,
    ) -> u64 {
        match self.leading.advance(now) {
            Some(stream) => {
                self.follow_found(rt, stream, now);
                0
            }
            None => {
                self.tell_search(now);
                match &self.leading.source {
                    Source::Once(_) => u64::MAX,
                    Source::Search(search) => search.rest(now),
                }
            }
        }
    }

    // Gives the leader up where it has been silent for too long. Returns for how many milliseconds there is nothing to
    // do.
    fn judge_silence(&mut self, now: u64) -> u64 {
        if self.leading.is_given_up {
            return u64::MAX;
        }
        let mut silence = self.leading.silence;
        let judgement = silence.judge(self.desk.engine(), now);
        self.leading.silence = silence;
        match judgement {
            Judgement::Wait(left) => left,
            Judgement::SecondLook => SECOND_LOOK,
            Judgement::GivenUp { silent } => {
                self.leading.stop();
                self.leading.is_given_up = true;
                self.tell_silent(silent);
                u64::MAX
            }
        }
    }

    fn tell_silent(&self, silent: u64) {
        if let Some(server) = self.leading.server() {
            let is_leader = self.leading.is_leader();
            self.journal.leader_silent(server, silent, is_leader);
        }
    }

    fn tell_gone(&self, fault: Option<Fault>) {
        if let Some(server) = self.leading.server() {
            let is_leader = self.leading.is_leader();
            let dialect = self.bounds.session.dialect;
            self.journal.leader_gone(server, fault, dialect, is_leader);
        }
    }

    // No leader was found in time.
    fn no_leader(&self) -> Failure {
        let seconds = self.leading.give_up / 1000;
        match &self.leading.source {
            Source::Once(servers) => {
                Failure::no_leader(self.alloc, seconds, servers.as_slice(), &[Reason::Silent])
            }
            Source::Search(search) => {
                let (servers, reasons) = search.tried();
                Failure::no_leader(self.alloc, seconds, servers, reasons)
            }
        }
    }

    // How serving ends after a leader, where it ends then.
    fn ending(&self, fault: Option<Fault>) -> Result<(), Failure> {
        match (fault, self.leading.server()) {
            (Some(fault), Some(server)) => {
                let dialect = self.bounds.session.dialect;
                Err(Failure::refused(self.alloc, fault, dialect, server))
            }
            (None, _) | (_, None) => Ok(()),
        }
    }

    /// Looks after the leader. Returns for how many milliseconds there is nothing to do.
    pub(crate) fn attend_leader<R: Threads + Wait + Net + Clock + Copy + Send + Sync + 'static>(
        &mut self,
        rt: &R,
    ) -> Result<u64, Failure> {
        self.judge_gone(rt)?;
        let now = self.clock.now(rt);
        let rest = if self.leading.is_following() {
            self.judge_silence(now)
        } else {
            self.seek(rt, now)
        };
        if self.leading.served_since.is_some() {
            return Ok(rest);
        }
        let unserved = now.saturating_sub(self.leading.unserved_since);
        let left = self.leading.give_up.saturating_sub(unserved);
        if left == 0 {
            self.over = Some(Err(self.no_leader()));
        }
        Ok(rest.min(left))
    }

    /// Joins the leader's thread, whose `End` was taken or isn't waited for. Its end is judged later.
    pub(crate) fn join_leader<R: Threads>(&mut self, rt: &R) {
        let Some(leader) = self.leading.thread.take() else {
            return;
        };
        let Leader { handle, bell: _ } = leader;
        let Some(gone) = handle.join(rt) else {
            return;
        };
        let LeaderGone {
            port,
            fault,
            wants_memory,
        } = gone;
        self.leading.resting = Some(port);
        if wants_memory {
            self.over = Some(Err(Failure::NoMemory));
            return;
        }
        self.leading.gone = Some(Gone { fault });
    }

    /// Judges what the end of a leader means whose thread was joined, once all is known that was put to its port.
    pub(crate) fn judge_gone<R: Threads + Wait + Sync + Clock>(
        &mut self,
        rt: &R,
    ) -> Result<(), NoMemory> {
        let Some(Gone { fault }) = self.leading.gone.take() else {
            return Ok(());
        };
        let late = self.drop_rest(rt)?;
        let now = self.clock.now(rt);
        self.judge_end(fault.or(late), now);
        Ok(())
    }

    /// Tells of a leader whose thread was joined, where no turn can be made any more.
    pub(crate) fn tell_last_leader(&mut self) {
        if let Some(Gone { fault }) = self.leading.gone.take() {
            let rest = self.leading.drop_rest();
            self.tell_gone(fault.or(rest.fault));
        }
    }

    // Judges what the end of a leader means, unless the server ends anyway.
    fn judge_end(&mut self, fault: Option<Fault>, now: u64) {
        let served = self.leading.served(now);
        self.tell_gone(fault);
        // The engine has closed them all, but a thread whose client doesn't read can't write up to that.
        self.stop_clients();
        if self.over.is_some() {
            return;
        }
        let (outcome, reason) = self.leading.outcome(served);
        let ending = self.ending(fault);
        let Source::Search(search) = &mut self.leading.source else {
            self.over = Some(ending);
            return;
        };
        match Verdict::after(fault) {
            Verdict::SameEngine => search.lost(outcome, reason, now),
            Verdict::NewProcess => self.over = Some(ending),
            Verdict::Pause => {
                let reason = fault.map(Reason::Faulty).unwrap_or(reason);
                search.lost(Outcome::Refused, reason, now);
                if search.is_hopeless() {
                    self.over = Some(ending);
                }
            }
        }
    }
}
