//! The main thread: it has the desk, and the threads of the connections.

use crate::bounds::Bounds;
use crate::connections::{Client, Handed, Newcomer, start_client};
use crate::leading::Leading;
use crate::log_keeping::LogKeeper;
use apply_workers::OpenGate;
use connection_loop::ReadsAhead;
use intake::{Budget, Desk, Port, Unlimited, Waker as HubWaker};
use log::Log;
use mio::net::TcpStream;
use rtrb::Consumer;
use serve_bounds::{Pause, Stopwatch, TurnBudget};
use serve_door::{Accepted, Door};
use serve_failures::Failure;
use serve_journal::Journal;
use serve_metrics::DescriptorCount;
use serve_record::Record;
use server_tally::{Tally, TurnFigures};
use session_streams::{Sides, split};
use std::alloc::Global;
use std::collections::BTreeMap;
use std::collections::btree_map::Entry;
use std::io::Write;
use std::net::Net;
use std::rt::Files;
use std::sync::{Arc, Mutex, Wait};
use std::thread::Threads;
use std::time::{Clock, Duration};
use values::NoMemory;

/// How many messages, and how many outputs, of a connection may wait.
pub(crate) const CAPACITY: usize = 64;

// The hub's longest wait, in milliseconds; a wake that is lost costs no more than this.
const LONGEST_WAIT: u64 = 1000;

// A turn that takes longer, in milliseconds, is logged: a leader gives up an observer that doesn't answer its PINGs.
const SLOW_TURN: u64 = 500;

// How many new connections are taken between two turns.
const NEW_AT_ONCE: usize = 64;

/// The desk, and the threads that have its ports.
#[derive(Drop)]
pub struct Hub<L, W> {
    pub(crate) alloc: Global,
    pub(crate) desk: Desk,
    pub(crate) clock: Stopwatch,
    pub(crate) leading: Leading,
    pub(crate) log_keeper: LogKeeper,
    pub(crate) bounds: Bounds,
    ahead: Arc<ReadsAhead, Global>,
    // No port is served meanwhile whose last messages were costly.
    pause: Pause,
    // The last turn began in a pause, so it may have left such ports.
    is_paused: bool,
    pub(crate) clients: BTreeMap<usize, Client>,
    // How many connections were ended because too much waited for clients.
    pub(crate) slow_ended: u64,
    // The watches of all clients, as far as they were counted.
    pub(crate) watches: u64,
    pub(crate) tally: Arc<Tally, Global>,
    descriptors: DescriptorCount,
    // How many were ended because of their watches.
    pub(crate) watching_ended: u64,
    from_acceptor: Consumer<Accepted>,
    pub(crate) door: Arc<Door, Global>,
    pub(crate) journal: Journal<L>,
    record: Record<W>,
    // How serving ends, once it is to end.
    pub(crate) over: Option<Result<(), Failure>>,
}

/// What a hub has besides its desk, its journal and its record.
#[derive(Drop)]
pub struct Parts {
    pub clock: Stopwatch,
    pub leading: Leading,
    pub log_keeper: LogKeeper,
    pub bounds: Bounds,
    pub ahead: Arc<ReadsAhead, Global>,
    pub tally: Arc<Tally, Global>,
    pub descriptors: DescriptorCount,
    pub from_acceptor: Consumer<Accepted>,
    pub door: Arc<Door, Global>,
}

impl<L: Log, W: Write + Drop> Hub<L, W> {
    pub fn new(
        alloc: Global,
        desk: Desk,
        parts: Parts,
        journal: Journal<L>,
        record: Record<W>,
    ) -> Hub<L, W> {
        let Parts {
            clock,
            leading,
            log_keeper,
            bounds,
            ahead,
            tally,
            descriptors,
            from_acceptor,
            door,
        } = parts;
        let mut desk = desk;
        desk.set_limits(bounds.desk);
        Hub {
            alloc,
            desk,
            clock,
            leading,
            log_keeper,
            bounds,
            ahead,
            pause: Pause::default(),
            is_paused: false,
            clients: BTreeMap::new(alloc),
            slow_ended: 0,
            watches: 0,
            tally,
            descriptors,
            watching_ended: 0,
            from_acceptor,
            door,
            journal,
            record,
            over: None,
        }
    }

    /// The waker of this thread.
    pub fn waker(&self) -> Result<Arc<HubWaker, Global>, NoMemory> {
        self.desk.waker()
    }

    fn add_client<R: Threads + Wait + Net + Clock + Copy + Send + 'static>(
        &mut self,
        rt: &R,
        accepted: Accepted,
    ) -> Result<(), Failure> {
        let Accepted {
            stream,
            peer,
            address,
            tally,
            first,
            waited,
        } = accepted;
        let newcomer = Newcomer {
            address: peer.ip(),
            text: address,
            first,
            waited,
            tally,
        };
        let sides = split(rt, self.alloc, TcpStream::from_std(stream))?;
        let handed = Arc::new(self.alloc, Mutex::new(None))?;
        let theirs = Arc::try_clone(&handed)?;
        let port = match self.desk.add_port(CAPACITY) {
            Ok(port) => port,
            Err(_) => return Err(Failure::NoMemory),
        };
        let number = port.number();
        *handed.lock(rt) = Some(port);
        match self.run_client(rt, number, sides, theirs, newcomer) {
            Ok(()) => {
                self.journal.client_came(number, Some(peer));
                Ok(())
            }
            Err(error) => {
                let port = handed.lock(rt).take();
                if let Some(port) = port {
                    self.desk.close(port.finish());
                }
                Err(error)
            }
        }
    }

    // Starts a client's thread, and stores it under its number.
    fn run_client<R: Threads + Wait + Net + Clock + Copy + Send + 'static>(
        &mut self,
        rt: &R,
        number: usize,
        sides: Sides,
        handed: Handed,
        newcomer: Newcomer,
    ) -> Result<(), Failure> {
        let limits = self.bounds.session;
        let ahead = Arc::try_clone(&self.ahead)?;
        match self.clients.entry(number)? {
            Entry::Vacant(entry) => {
                let client = start_client(rt, self.alloc, sides, handed, newcomer, limits, ahead)?;
                entry.insert(client);
                Ok(())
            }
            Entry::Occupied(_) => Err(Failure::NoThread),
        }
    }

    // The same. A connection that couldn't be served isn't listed any more.
    fn admit<R: Threads + Wait + Net + Clock + Copy + Send + 'static>(
        &mut self,
        rt: &R,
        accepted: Accepted,
    ) -> Result<(), Failure> {
        let listed = match accepted.tally.share() {
            Ok(listed) => listed,
            Err(error) => {
                accepted.tally.leave(rt);
                return Err(Failure::from(error));
            }
        };
        let added = self.add_client(rt, accepted);
        if added.is_err() {
            listed.leave(rt);
        }
        added
    }

    // Serves the connections that were accepted since the last call, and returns whether there was one.
    fn take_new<R: Threads + Wait + Net + Clock + Copy + Send + 'static>(
        &mut self,
        rt: &R,
    ) -> bool {
        let mut found = false;
        for _ in 0..NEW_AT_ONCE {
            let Ok(accepted) = self.from_acceptor.pop() else {
                break;
            };
            found = true;
            let address = accepted.peer.ip();
            if let Err(error) = self.admit(rt, accepted) {
                self.door.leave(rt, address);
                self.journal.client_refused(error);
            }
        }
        found
    }

    fn ring(&self, number: usize) {
        if number == 0 {
            self.leading.ring();
        } else if let Some(client) = self.clients.get(&number) {
            client.bell.ring();
        }
    }

    fn ring_each(&self, numbers: &[usize]) {
        for number in numbers {
            self.ring(*number);
        }
    }

    // Has the connections that the last turn closed write what is left within a short time.
    fn hurry_each(&self, numbers: &[usize]) {
        for number in numbers {
            if let Some(client) = self.clients.get(number) {
                client.bell.hurry();
            }
        }
    }

    // Makes a turn of the desk, tells the threads, and records it. Ends connections with too many watches.
    fn turn_within<R: Threads + Sync + Clock, B: Budget>(
        &mut self,
        rt: &R,
        budget: &mut B,
    ) -> Result<usize, NoMemory> {
        let began = self.clock.microseconds(rt);
        let turned = self.desk.turn_within(rt, &OpenGate, budget);
        self.ring_each(self.desk.told());
        self.hurry_each(self.desk.closing());
        let took = self.clock.microseconds(rt).saturating_sub(began);
        self.record.add(self.desk.fresh());
        self.journal.turned(&self.desk);
        self.relieve_of_watches();
        self.store_figures();
        if took / 1000 > SLOW_TURN {
            self.journal.slow_turn(took / 1000, self.desk.fresh().len());
        }
        let now = self.clock.last();
        let heard = self.note_leader(now);
        self.tally.turn(rt, TurnFigures { took, heard });
        self.note_checkpoint(began / 1000, now);
        turned.map_err(|_| NoMemory)
    }

    // Makes a turn that takes of clients what the budget of a turn allows.
    pub(crate) fn turn<R: Threads + Sync + Clock>(&mut self, rt: &R) -> Result<(), NoMemory> {
        let mut budget = TurnBudget::new(rt, self.clock, self.pause);
        self.is_paused = !budget.takes_costly();
        let turned = self.turn_within(rt, &mut budget);
        self.pause = self.pause.after(&budget);
        turned?;
        Ok(())
    }

    fn join_client<R: Threads + Wait>(&mut self, rt: &R, number: usize) {
        let Some(client) = self.clients.remove(&number) else {
            return;
        };
        let Client {
            handle,
            bell: _,
            address,
            watches,
        } = client;
        self.watches = self.watches.saturating_sub(watches);
        if let Some(end) = handle.join(rt) {
            self.desk.close(end);
        }
        self.door.leave(rt, address);
    }

    // Joins the threads whose `End` the last turn took. All bells are rung first, so that no thread waits for the
    // others.
    pub(crate) fn join_ended<R: Threads + Wait>(&mut self, rt: &R) {
        self.ring_each(self.desk.ended());
        for place in 0..self.desk.ended().len() {
            match self.desk.ended().get(place).copied() {
                None => {}
                Some(0) => self.join_leader(rt),
                Some(number) => self.join_client(rt, number),
            }
        }
    }

    // Waits for up to so many milliseconds, and no longer than ports are put off because they are costly.
    fn wait<R: Wait + Clock>(&mut self, rt: &R, rest: u64) {
        let mut rest = rest.min(LONGEST_WAIT);
        if self.is_paused {
            let paused = self.pause.rest(self.clock.microseconds(rt));
            rest = rest.min((paused / 1000).saturating_add(1));
        }
        self.desk.wait(rt, Duration::from_millis(rest));
    }

    /// Serves until the last leader is gone, or until it is to end for another reason.
    pub fn serve<R: Threads + Wait + Net + Clock + Files + Copy + Send + Sync + 'static>(
        &mut self,
        rt: &R,
    ) -> Result<(), Failure> {
        for _ in rt.forever() {
            let found = self.take_new(rt);
            self.turn(rt)?;
            self.join_ended(rt);
            let by_leader = self.attend_leader(rt)?;
            if self.over.is_some() {
                break;
            }
            let by_log = self.look_at_log();
            let by_count = self.descriptors.count(rt, &*self.tally, self.clock.last());
            self.relieve();
            self.tell_closed();
            // What came during the turn ends the wait at once.
            if !found && !self.desk.is_behind() {
                self.wait(rt, by_leader.min(by_log).min(by_count));
            }
        }
        Ok(())
    }

    // Tells how many connections were closed for want of room for them, for what they don't read, or for their watches.
    fn tell_closed(&mut self) {
        let now = self.clock.last();
        self.journal.connections_refused(self.tally.rejected(), now);
        self.journal.slow_closed(self.slow_ended, now);
        self.journal.watching_closed(self.watching_ended, now);
    }

    /// Ends the clients' connections. One that doesn't read what it is sent isn't waited for.
    pub(crate) fn stop_clients(&self) {
        for client in self.clients.values() {
            client.bell.stop();
        }
    }

    // Ends all connections: each thread reaches the end of its stream, and its `End` is taken.
    fn end_connections<R: Threads + Wait + Sync + Clock>(
        &mut self,
        rt: &R,
    ) -> Result<(), NoMemory> {
        self.leading.stop();
        self.stop_clients();
        for _ in rt.forever() {
            if self.clients.is_empty() && !self.leading.is_following() {
                break;
            }
            let took = self.turn_within(rt, &mut Unlimited)?;
            self.join_ended(rt);
            self.judge_gone(rt)?;
            // What is left for a leader that is gone would hold up the clients' ends.
            let _ = self.leading.drop_rest();
            if took == 0 && !self.desk.is_behind() {
                self.wait(rt, LONGEST_WAIT);
            }
        }
        Ok(())
    }

    // Ends all connections of a desk that takes nothing any more.
    fn abandon<R: Threads>(&mut self, rt: &R) {
        self.leading.abandon();
        for client in self.clients.values() {
            client.bell.abandon();
        }
        self.join_leader(rt);
        self.tell_last_leader();
        for _ in 0..u64::MAX {
            let Some((_, client)) = self.clients.pop_first() else {
                break;
            };
            let Client {
                handle,
                bell: _,
                address: _,
                watches: _,
            } = client;
            let _ = handle.join(rt);
        }
    }

    /// Ends all connections and joins their threads, once serving has ended and no connection is accepted any more.
    pub fn end<R: Threads + Wait + Sync + Clock>(
        &mut self,
        rt: &R,
        served: Result<(), Failure>,
    ) -> Result<(), Failure> {
        self.leading.stop_search();
        for _ in 0..u64::MAX {
            if self.from_acceptor.pop().is_err() {
                break;
            }
        }
        if served.is_err() || self.end_connections(rt).is_err() {
            self.abandon(rt);
            return Err(served.err().unwrap_or(Failure::NoMemory));
        }
        if let Some(over) = self.over.take() {
            over?;
        }
        if !self.record.is_whole() {
            return Err(Failure::RecordCut);
        }
        Ok(())
    }
}
