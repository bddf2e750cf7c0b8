//! The end of a port that is with the thread of its connection.

ghost use Rattle.std.specs.Prelude.{◌≡◌, ◌≢◌, ◌↔◌, ◌++◌, [], ◌∷◌, OnOk, IfErr, IfSome, IfNone, IsSome, IsTrue};
ghost use Rattle.rtrb.specs.Ring.{producer_capacity};
ghost use Rattle.intake.specs.Ports.{sent_through, received_through, unread_through, IsFull, IsDrained, SamePort};

use crate::events::content_len;
use crate::message::{Full, Message};
use observer_core::Output;
use port_hints::Mark;
use rtrb::{Consumer, Producer, PushError};
use std::marker::Model;

/// The end of a port that sends no more.
pub struct PortEnd {
    pub(crate) number: usize,
    pub(crate) inbox: Producer<Message>,
    pub(crate) outbox: Consumer<Output>,
}

impl Drop for PortEnd {
    fn drop(self) {
        let PortEnd {
            number: _,
            inbox,
            outbox,
        } = self;
        drop(inbox);
        drop(outbox);
    }
}

/// A way to the hub for messages, and back for outputs. Port 0 is the leader's, and port n is connection n.
pub struct Port {
    end: PortEnd,
    mark: Mark,
    // The number of outputs received since the outbox was last empty.
    came: usize,
    // How many bytes were received.
    received: u64,
}

impl Model for Port {
    ghost use Rattle.intake.specs.declared.port.PortEnd.{PortEnd as ThePortEnd};
    ghost use Rattle.intake.specs.contracts.port.PortEnd as of_end;

    ghost Value = { ThePortEnd };

    ghost coded = { of_end.the_row.coded };

    ghost view = { λ p. p.end };
}

impl Drop for Port {
    fn drop(self) {
        let Port {
            end,
            mark,
            came: _,
            received: _,
        } = self;
        drop(end);
        drop(mark);
    }
}

impl PortEnd {
    pub fn number(&self) -> usize
        ensures { result ≡ self.now.number }
    {
        self.number
    }
}

impl Port {
    pub(crate) fn new(end: PortEnd, mark: Mark) -> Port
        ensures { result ≡ end }
    {
        Port {
            end,
            mark,
            came: 0,
            received: 0,
        }
    }

    pub fn number(&self) -> usize
        ensures { result ≡ self.now.number }
    {
        self.end.number
    }

    /// How many messages, and how many outputs, may wait.
    pub fn capacity(&self) -> usize
        ensures { result ≡ producer_capacity self.now.inbox }
    {
        self.end.inbox.capacity()
    }

    /// Sends a message to the hub and wakes it. Without room it returns the message in [`Full`]. It never waits.
    pub fn send(&mut self, message: Message) -> Result<(), Full>
        ensures ok { OnOk result (sent_through self.new ≡ sent_through self.old ++ message ∷ []) }
        ensures full { IfErr result (λ full. (full.0 ≡ message) × (sent_through self.new ≡ sent_through self.old)
            × IsFull self.new) }
        ensures received { received_through self.new ≡ received_through self.old }
        ensures port { SamePort self.old self.new }
    {
        match self.end.inbox.push(message) {
            Ok(()) => {
                self.mark.raise();
                Ok(())
            }
            Err(PushError::Full(message)) => Err(Full(message)),
        }
    }

    /// Tells the hub whether what is sent next may be costly. The hub finds out by itself what was; this is for what
    /// comes before it can, as the first message of a connection.
    pub fn set_heavy(&self, is_heavy: bool) {
        self.mark.set_heavy(is_heavy);
    }

    /// Receives the next output, if there is one. If there is none, after so many outputs that the outbox may have been
    /// full, it wakes the hub, which may keep more outputs.
    pub fn receive(&mut self) -> Option<Output>
        ensures some { IfSome result (λ o. received_through self.new ≡ received_through self.old ++ o ∷ []) }
        ensures none { IfNone result (received_through self.new ≡ received_through self.old) }
        ensures empty { IfNone result (unread_through self.new ≡ []) }
        ensures seen { unread_through self.old ≢ [] → IsSome result }
        ensures sent { sent_through self.new ≡ sent_through self.old }
        ensures port { SamePort self.old self.new }
    {
        match self.end.outbox.pop() {
            Ok(output) => {
                self.came = self.came.saturating_add(1);
                self.received = self.received.saturating_add(content_len(&output) as u64);
                Some(output)
            }
            Err(_) => {
                if self.came >= self.end.outbox.capacity() {
                    self.mark.wake();
                }
                self.came = 0;
                None
            }
        }
    }

    /// Tells the hub that so many bytes of the outputs received were written, and wakes it if it waits for that. What
    /// isn't told is under way, and while that is much the hub takes no message of the port.
    pub fn written(&self, bytes: usize) {
        self.mark.wrote(bytes as u64);
    }

    /// Tells the hub that nothing of the outputs received is under way: what wasn't written is dropped.
    pub fn written_all(&self) {
        self.mark
            .wrote(self.received.saturating_sub(self.mark.written()));
    }

    /// Whether the hub has taken all messages sent.
    pub fn is_drained(&mut self) -> bool
        ensures drained { IsTrue result ↔ IsDrained self.new }
        ensures sent { sent_through self.new ≡ sent_through self.old }
        ensures received { received_through self.new ≡ received_through self.old }
        ensures port { SamePort self.old self.new }
    {
        self.end.inbox.slots() == self.end.inbox.capacity()
    }

    /// Ends sending, and returns the port's end.
    pub fn finish(self) -> PortEnd
        ensures { result ≡ self }
    {
        let Port {
            end,
            mark,
            came: _,
            received: _,
        } = self;
        drop(mark);
        end
    }
}
