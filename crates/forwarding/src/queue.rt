//! The requests of one connection.

ghost use Rattle.std.specs.Prelude.{◌≡◌, ◌++◌, ◌∷◌, ◌==◌, [], OnOk, OnErr, IfOk, IfSome, IfNone, None, not, nat_lt, length};
ghost use Rattle.std.specs.List.{position, list_any};
ghost use Rattle.forwarding.specs.Queue.{pending_limit, is_write, oldest_write, found_write, OldestWriteIsAt, without_oldest_write, oldest_close, is_unsettled, with_oldest_settled, ready_request, without_front_if, waiting_connect, held_frames};
ghost use Rattle.forwarding.specs.Inner.{is_close_request, is_ready, IsOldestWrite};

use crate::request::{AnsweredWrite, PendingConnect, PendingRequest, PendingWrite, Ready};
use std::alloc::Global;
use std::collections::VecDeque;
use std::marker::Model;
use values::{Blob, Listed, NoMemory};

/// The most requests of a connection that wait.
pub const PENDING_LIMIT: usize = 1024;

/// The requests of a connection that aren't answered yet, the oldest first.
#[derive(Drop)]
pub struct Queue {
    requests: VecDeque<PendingRequest>,
}

impl Model for Queue {
    ghost use Rattle.forwarding.specs.Queue.{RequestQueue};
    ghost use Rattle.forwarding.specs.State.{queue_code};

    ghost Value = { RequestQueue };

    ghost coded = { queue_code };

    ghost view = { λ q. q.requests.items };
}

impl Queue {
    /// No request. Allocates nothing.
    pub fn new(alloc: Global) -> Queue
        ensures { result ≡ [] }
    {
        Queue {
            requests: VecDeque::new(alloc),
        }
    }

    pub fn len(&self) -> usize
        ensures { result ≡ length self.now }
    {
        self.requests.len()
    }

    pub fn is_empty(&self) -> bool
        ensures { result ≡ (length self.now == 0) }
    {
        self.requests.is_empty()
    }

    /// Whether there may be no further request.
    pub fn is_full(&self) -> bool
        ensures { result ≡ not (nat_lt (length self.now) pending_limit) }
    {
        PENDING_LIMIT <= self.len()
    }

    /// Adds a request at the end. A refused allocation changes nothing.
    pub fn push(&mut self, request: PendingRequest) -> Result<(), NoMemory>
        ensures ok { OnOk result (self.new ≡ self.old ++ request ∷ []) }
        ensures err { OnErr result (self.new ≡ self.old) }
    {
        self.requests.push_back(request)?;
        Ok(())
    }

    // The place of the oldest write.
    fn write_place(&self) -> Option<usize>
        ensures { result ≡ position is_write self.now }
    {
        self.requests.iter().position(|request| request.is_write())
    }

    // The oldest write, with its place.
    fn oldest_write(&self) -> Option<(usize, PendingWrite)>
        ensures some { IfSome result (λ found. IsOldestWrite self.now found.0 found.1) }
        ensures none { IfNone result (oldest_write self.now ≡ None) }
    {
        let Some(place) = self.write_place() else {
            return None;
        };
        match self.requests[place].as_write() {
            None => None,
            Some(write) => Some((place, write)),
        }
    }

    /// The oldest write, if a transaction of this xid and type answers it.
    pub fn answered_write(&self, xid: i32, txn_kind: i32) -> Option<AnsweredWrite>
        ensures { result ≡ found_write self.now xid txn_kind }
    {
        let Some((place, write)) = self.oldest_write() else {
            return None;
        };
        if !write.is_answered_by(xid, txn_kind) {
            return None;
        }
        let kind = write.kind;
        Some(AnsweredWrite { place, kind })
    }

    /// Removes the oldest write, which stands at this place.
    pub fn remove_write(&mut self, place: usize)
        requires { OldestWriteIsAt self.old place }
        ensures { self.new ≡ without_oldest_write self.old }
    {
        self.requests.remove(place);
    }

    // The place of the oldest closeSession.
    fn close_place(&self) -> Option<usize>
        ensures { result ≡ position is_close_request self.now }
    {
        self.requests.iter().position(|request| request.is_close())
    }

    /// The xid of the oldest closeSession.
    pub fn pending_close(&self) -> Option<i32>
        ensures { result ≡ oldest_close self.now }
    {
        let Some(place) = self.close_place() else {
            return None;
        };
        match self.requests[place].as_write() {
            None => None,
            Some(write) => Some(write.xid),
        }
    }

    // The place of the oldest sync that isn't settled.
    fn unsettled_place(&self) -> Option<usize>
        ensures { result ≡ position is_unsettled self.now }
    {
        self.requests
            .iter()
            .position(|request| request.is_unsettled())
    }

    /// Whether a sync isn't settled.
    pub(crate) fn has_unsettled(&self) -> bool
        ensures { result ≡ list_any is_unsettled self.now }
    {
        self.requests.iter().any(|request| request.is_unsettled())
    }

    /// Settles the oldest sync that isn't settled.
    pub fn settle(&mut self)
        ensures { self.new ≡ with_oldest_settled self.old }
    {
        let Some(place) = self.unsettled_place() else {
            return;
        };
        self.requests[place].settle();
    }

    // Whether the request in front can be answered.
    fn is_ready(&self) -> bool
        ensures { result ≡ is_ready self.now }
    {
        match self.requests.front() {
            Some(PendingRequest::Sync(sync)) => sync.is_settled,
            Some(PendingRequest::Held(_)) => true,
            None | Some(PendingRequest::Connect(_) | PendingRequest::Write(_)) => false,
        }
    }

    /// Removes the request in front, if it can be answered.
    pub fn take_ready(&mut self) -> Option<Ready>
        ensures ready { result ≡ ready_request self.old }
        ensures rest { self.new ≡ without_front_if (ready_request self.old) self.old }
    {
        if !self.is_ready() {
            return None;
        }
        match self.requests.pop_front() {
            Some(PendingRequest::Sync(sync)) => Some(Ready::SettledSync {
                xid: sync.xid,
                path: sync.path,
            }),
            Some(PendingRequest::Held(frame)) => Some(Ready::HeldFrame(frame)),
            None | Some(PendingRequest::Connect(_) | PendingRequest::Write(_)) => None,
        }
    }

    /// The connect in front.
    pub fn connect(&self) -> Option<PendingConnect>
        ensures { result ≡ waiting_connect self.now }
    {
        match self.requests.front() {
            Some(PendingRequest::Connect(connect)) => Some(*connect),
            None
            | Some(PendingRequest::Write(_) | PendingRequest::Sync(_) | PendingRequest::Held(_)) =>
                None,
        }
    }

    /// The frames that are held, in order. Fails only if an allocation is refused.
    pub(crate) fn into_held(self, alloc: Global) -> Result<Listed<Blob>, NoMemory>
        ensures { IfOk result (λ frames. frames ≡ held_frames self) }
    {
        let mut frames = Vec::new(alloc);
        for request in self.requests {
            if let PendingRequest::Held(frame) = request {
                frames.push(frame)?;
            }
        }
        Ok(Listed::from_vec(frames))
    }
}
