//! The requests of all connections.

ghost use Rattle.std.specs.Prelude.{◌≡◌, ◌++◌, ◌∷◌, ◌==◌, [], OnOk, OnErr, not, nat_lt, length};
ghost use Rattle.std.specs.FinMap as finmap;
ghost use Rattle.forwarding.specs.Queue.{pending_limit, found_write, OldestWriteIsAt, without_oldest_write, oldest_close, with_oldest_settled, ready_request, without_front_if, waiting_connect};
ghost use Rattle.forwarding.specs.Pending.{queue_in, with_queue, means_idle, means_full};
ghost use Rattle.forwarding.specs.Inner.{with_changed, without_empty, has_empty};

use crate::queue::Queue;
use crate::request::{AnsweredWrite, Occupancy, PendingConnect, PendingRequest, Ready};
use std::alloc::Global;
use std::collections::BTreeMap;
use std::marker::Model;
use values::NoMemory;

/// The requests that aren't answered yet, by connection. A connection without any isn't in the map.
#[derive(Drop)]
pub struct Queues {
    map: BTreeMap<u64, Queue>,
}

impl Model for Queues {
    ghost use Rattle.std.specs.FinMap as finmap;
    ghost use Rattle.forwarding.specs.State.{RequestQueues, queues_code};

    ghost Value = { RequestQueues };

    ghost coded = { queues_code };

    ghost view = { λ q. finmap.from_entries q.map.entries };
}

impl Queues {
    /// No request. Allocates nothing.
    pub fn new(alloc: Global) -> Queues
        ensures { result ≡ finmap.empty }
    {
        Queues {
            map: BTreeMap::new(alloc),
        }
    }

    /// Whether no connection has a request.
    pub fn is_empty(&self) -> bool
        ensures { result ≡ (finmap.len self.now == 0) }
    {
        self.map.is_empty()
    }

    /// Whether the connection has no request.
    pub fn is_idle(&self, number: u64) -> bool
        ensures { result ≡ not (finmap.contains_key self.now number) }
    {
        !self.map.contains_key(&number)
    }

    /// Whether the connection may have no further request.
    pub fn is_full(&self, number: u64) -> bool
        ensures { result ≡ not (nat_lt (length (queue_in (finmap.get self.now number))) pending_limit) }
    {
        match self.map.get(&number) {
            None => false,
            Some(queue) => queue.is_full(),
        }
    }

    /// How many of the connection's requests wait.
    pub fn occupancy(&self, number: u64) -> Occupancy
        ensures idle { means_idle result ≡ not (finmap.contains_key self.now number) }
        ensures full { means_full result
            ≡ not (nat_lt (length (queue_in (finmap.get self.now number))) pending_limit) }
    {
        match self.map.get(&number) {
            None => Occupancy::Idle,
            Some(queue) => {
                if queue.is_full() {
                    return Occupancy::Full;
                }
                Occupancy::Busy
            }
        }
    }

    /// The xid of the connection's oldest closeSession.
    pub fn pending_close(&self, number: u64) -> Option<i32>
        ensures { result ≡ oldest_close (queue_in (finmap.get self.now number)) }
    {
        match self.map.get(&number) {
            None => None,
            Some(queue) => queue.pending_close(),
        }
    }

    /// The connect in front of the connection's requests.
    pub fn connect(&self, number: u64) -> Option<PendingConnect>
        ensures { result ≡ waiting_connect (queue_in (finmap.get self.now number)) }
    {
        match self.map.get(&number) {
            None => None,
            Some(queue) => queue.connect(),
        }
    }

    /// The connection's oldest write, if a transaction of this xid and type answers it.
    pub fn answered_write(&self, number: u64, xid: i32, txn_kind: i32) -> Option<AnsweredWrite>
        ensures { result ≡ found_write (queue_in (finmap.get self.now number)) xid txn_kind }
    {
        match self.map.get(&number) {
            None => None,
            Some(queue) => queue.answered_write(xid, txn_kind),
        }
    }

    /// Adds a request after those of its connection. A refused allocation changes nothing.
    pub fn push(
        &mut self,
        alloc: Global,
        number: u64,
        request: PendingRequest,
    ) -> Result<(), NoMemory>
        ensures ok { OnOk result (self.new
            ≡ finmap.insert self.old number (queue_in (finmap.get self.old number) ++ request ∷ [])) }
        ensures err { OnErr result (self.new ≡ self.old) }
    {
        match self.map.get_mut(&number) {
            Some(queue) => queue.push(request),
            None => {
                let mut queue = Queue::new(alloc);
                queue.push(request)?;
                self.map.insert(number, queue)?;
                Ok(())
            }
        }
    }

    // Whether the connection has a queue, and it is empty.
    fn has_empty(&self, number: u64) -> bool
        ensures { result ≡ has_empty (finmap.get self.now number) }
    {
        match self.map.get(&number) {
            None => false,
            Some(queue) => queue.is_empty(),
        }
    }

    /// Removes the connection's requests and returns them.
    pub fn take(&mut self, number: u64) -> Option<Queue>
        ensures was { result ≡ finmap.get self.old number }
        ensures removed { self.new ≡ finmap.remove self.old number }
    {
        self.map.remove(&number)
    }

    fn remove(&mut self, number: u64)
        ensures { self.new ≡ finmap.remove self.old number }
    {
        self.take(number);
    }

    // Frees the connection's queue, if it is empty.
    fn forget_empty(&mut self, number: u64)
        ensures { self.new ≡ without_empty self.old number (finmap.get self.old number) }
    {
        if self.has_empty(number) {
            self.remove(number);
        }
    }

    // Removes from the connection's queue, which may be empty then.
    fn remove_write_in(&mut self, number: u64, place: usize)
        requires { OldestWriteIsAt (queue_in (finmap.get self.old number)) place }
        ensures { self.new ≡ with_changed self.old number without_oldest_write (finmap.get self.old number) }
    {
        match self.map.get_mut(&number) {
            None => return,
            Some(queue) => queue.remove_write(place),
        }
    }

    /// Removes the connection's oldest write, which stands at this place.
    pub fn remove_write(&mut self, number: u64, place: usize)
        requires { OldestWriteIsAt (queue_in (finmap.get self.old number)) place }
        ensures { let q = queue_in (finmap.get self.old number) in
            self.new ≡ with_queue self.old number (without_oldest_write q) }
    {
        self.remove_write_in(number, place);
        self.forget_empty(number);
    }

    // Settles in the connection's queue.
    fn settle_in(&mut self, number: u64)
        ensures { self.new ≡ with_changed self.old number with_oldest_settled (finmap.get self.old number) }
    {
        match self.map.get_mut(&number) {
            None => return,
            Some(queue) => queue.settle(),
        }
    }

    /// Settles the connection's oldest sync that isn't settled.
    pub fn settle(&mut self, number: u64)
        ensures { let q = queue_in (finmap.get self.old number) in
            self.new ≡ with_queue self.old number (with_oldest_settled q) }
    {
        self.settle_in(number);
        self.forget_empty(number);
    }

    // Takes from the connection's queue, which may be empty then.
    fn take_ready_in(&mut self, number: u64) -> Option<Ready>
        ensures ready { result ≡ ready_request (queue_in (finmap.get self.old number)) }
        ensures rest { self.new ≡ with_changed self.old number (λ q. without_front_if (ready_request q) q)
            (finmap.get self.old number) }
    {
        match self.map.get_mut(&number) {
            None => return None,
            Some(queue) => queue.take_ready(),
        }
    }

    /// Removes the request in front of the connection's, if it can be answered.
    pub fn take_ready(&mut self, number: u64) -> Option<Ready>
        ensures ready { result ≡ ready_request (queue_in (finmap.get self.old number)) }
        ensures rest { let q = queue_in (finmap.get self.old number) in
            self.new ≡ with_queue self.old number (without_front_if (ready_request q) q) }
    {
        let ready = self.take_ready_in(number);
        self.forget_empty(number);
        ready
    }
}
