//! The hub's ends of a port.

ghost use Rattle.std.specs.Prelude.{◌≡◌, ◌≢◌, ◌↔◌, ◌++◌, [], ◌∷◌, length, false, IsTrue, IfOk, OnOk, Some};
ghost use Rattle.rtrb.specs.Ring.{sent, received, known_items, IsPair, SameProducer, SameConsumer, ConsumerLooked};
ghost use Rattle.intake.specs.Messages.{messages_of_port};
ghost use Rattle.intake.specs.Links.{outputs_owed, KeepsIfFull, IsEndBy, IsSameLink};
ghost use Rattle.intake.specs.Ports.{sent_through, received_through, unread_through, SamePort};

use crate::events::content_len;
use crate::message::Message;
use crate::port::PortEnd;
use observer_core::Output;
use port_hints::Notes;
use rtrb::{Consumer, Producer};
use std::alloc::Global;
use std::collections::VecDeque;
use values::NoMemory;

/// The hub's ends of a port.
pub struct Link {
    pub inbox: Consumer<Message>,
    pub outbox: Producer<Output>,
    /// The outputs for which the outbox has no room, in order.
    pub kept: VecDeque<Output>,
    /// How many bytes were put to the port.
    pub put_bytes: u64,
    pub slot: usize,
    /// The port sends no more, so everything that it sent is taken.
    pub is_finished: bool,
    /// The last turn in which its thread was noted to be told.
    pub told_in: u64,
}

impl Drop for Link {
    fn drop(self) {
        let Link {
            inbox,
            outbox,
            kept,
            put_bytes: _,
            slot: _,
            is_finished: _,
            told_in: _,
        } = self;
        drop(inbox);
        drop(outbox);
        drop(kept);
    }
}

impl Link {
    /// The hub's ends of a new port.
    pub fn new(
        alloc: Global,
        inbox: Consumer<Message>,
        outbox: Producer<Output>,
        slot: usize,
        turn: u64,
    ) -> Link
        ensures ends { (result.inbox ≡ inbox) × (result.outbox ≡ outbox) × (result.kept.items ≡ []) }
        ensures slot { result.slot ≡ slot }
    {
        Link {
            inbox,
            outbox,
            kept: VecDeque::new(alloc),
            put_bytes: 0,
            slot,
            is_finished: false,
            told_in: turn,
        }
    }

    // Notes that the port's thread is to be told, once a turn.
    fn tell(&mut self, number: usize, notes: &mut Notes) -> Result<(), NoMemory>
        ensures ends { (self.new.inbox ≡ self.old.inbox) × (self.new.outbox ≡ self.old.outbox)
            × (self.new.kept ≡ self.old.kept) }
        ensures slot { self.new.slot ≡ self.old.slot }
    {
        if self.told_in != notes.turn {
            self.told_in = notes.turn;
            notes.told.push(number)?;
        }
        Ok(())
    }

    /// Whether outputs are kept.
    pub(crate) fn keeps(&self) -> bool
        ensures { IsTrue result ↔ (self.now.kept.items ≢ []) }
    {
        !self.kept.is_empty()
    }

    // Puts kept outputs until the outbox is full or none is kept.
    fn move_kept(&mut self)
        ensures owes { outputs_owed self.new ≡ outputs_owed self.old }
        ensures full { KeepsIfFull (Some self.new) }
        ensures none { self.old.kept.items ≡ [] → self.new.kept.items ≡ [] }
        ensures outbox { SameProducer self.old.outbox self.new.outbox }
        ensures inbox { self.new.inbox ≡ self.old.inbox }
        ensures slot { self.new.slot ≡ self.old.slot }
    {
        while self.keeps() && !self.outbox.is_full() {
            let Some(output) = self.kept.pop_front() else {
                break;
            };
            self.outbox.push_reserved(output);
        }
    }

    /// Puts kept outputs until the outbox is full or none is kept, and notes that the thread is to be told. Returns
    /// whether some are kept still.
    pub(crate) fn put_kept(&mut self, number: usize, notes: &mut Notes) -> Result<bool, NoMemory>
        ensures keeps { IfOk result (λ keeps. keeps ≡ false → self.new.kept.items ≡ []) }
        ensures owes { outputs_owed self.new ≡ outputs_owed self.old }
        ensures full { KeepsIfFull (Some self.new) }
        ensures none { self.old.kept.items ≡ [] → self.new.kept.items ≡ [] }
        ensures outbox { SameProducer self.old.outbox self.new.outbox }
        ensures inbox { self.new.inbox ≡ self.old.inbox }
        ensures slot { self.new.slot ≡ self.old.slot }
    {
        let before = self.kept.len();
        self.move_kept();
        if self.kept.len() < before {
            self.tell(number, notes)?;
        }
        Ok(self.keeps())
    }

    // Puts an output, after those that are kept; without room it is kept, too.
    fn add_output(&mut self, output: Output) -> Result<(), NoMemory>
        ensures owes { OnOk result (outputs_owed self.new ≡ outputs_owed self.old ++ output ∷ []) }
        ensures full { KeepsIfFull (Some self.old) → KeepsIfFull (Some self.new) }
        ensures outbox { SameProducer self.old.outbox self.new.outbox }
        ensures inbox { self.new.inbox ≡ self.old.inbox }
        ensures slot { self.new.slot ≡ self.old.slot }
    {
        if self.kept.is_empty() && !self.outbox.is_full() {
            self.outbox.push_reserved(output);
            return Ok(());
        }
        self.kept.push_back(output)?;
        Ok(())
    }

    // Counts the bytes of an output, and notes whether it closes the connection.
    fn note_output(
        &mut self,
        number: usize,
        output: &Output,
        notes: &mut Notes,
    ) -> Result<(), NoMemory>
        ensures ends { (self.new.inbox ≡ self.old.inbox) × (self.new.outbox ≡ self.old.outbox)
            × (self.new.kept ≡ self.old.kept) }
        ensures slot { self.new.slot ≡ self.old.slot }
    {
        let bytes = content_len(output);
        self.put_bytes = self.put_bytes.saturating_add(bytes as u64);
        if number != 0 {
            notes.answered = notes.answered.saturating_add(bytes);
        }
        if matches!(output, Output::CloseLeader(_) | Output::CloseClient(_)) {
            notes.closing.push(number)?;
        }
        Ok(())
    }

    /// Puts an output, after those that are kept, and notes that the thread is to be told.
    pub fn put(&mut self, number: usize, output: Output, notes: &mut Notes) -> Result<(), NoMemory>
        ensures owes { OnOk result (outputs_owed self.new ≡ outputs_owed self.old ++ output ∷ []) }
        ensures full { KeepsIfFull (Some self.old) → KeepsIfFull (Some self.new) }
        ensures outbox { SameProducer self.old.outbox self.new.outbox }
        ensures inbox { self.new.inbox ≡ self.old.inbox }
        ensures slot { self.new.slot ≡ self.old.slot }
    {
        self.note_output(number, &output, notes)?;
        self.add_output(output)?;
        self.tell(number, notes)
    }

    /// Looks up the number of messages to take.
    pub fn look(&mut self) -> usize
        ensures inbox { ConsumerLooked self.old.inbox self.new.inbox }
        ensures outbox { (self.new.outbox ≡ self.old.outbox) × (self.new.kept ≡ self.old.kept) }
        ensures slot { self.new.slot ≡ self.old.slot }
    {
        self.inbox.slots()
    }

    // Takes the messages that were seen, and returns whether the `End` is among them.
    fn take_seen(
        &mut self,
        number: usize,
        fresh: &mut Vec<(usize, Message)>,
    ) -> Result<bool, NoMemory>
        ensures list { OnOk result (fresh.new.items
            ≡ fresh.old.items ++ messages_of_port number (known_items self.old.inbox)) }
        ensures took { OnOk result (received self.new.inbox
            ≡ received self.old.inbox ++ known_items self.old.inbox) }
        ensures waits { OnOk result (known_items self.new.inbox ≡ []) }
        ensures inbox { SameConsumer self.old.inbox self.new.inbox }
        ensures outbox { (self.new.outbox ≡ self.old.outbox) × (self.new.kept ≡ self.old.kept) }
        ensures slot { self.new.slot ≡ self.old.slot }
    {
        let mut ended = false;
        while self.inbox.cached_slots() > 0 {
            let message = self.inbox.pop_known();
            if matches!(&message, Message::End) {
                ended = true;
            }
            fresh.push((number, message))?;
        }
        Ok(ended)
    }

    /// Takes the messages that were seen, and notes that the thread is to be told.
    pub fn take(
        &mut self,
        number: usize,
        fresh: &mut Vec<(usize, Message)>,
        notes: &mut Notes,
    ) -> Result<(), NoMemory>
        ensures list { OnOk result (fresh.new.items
            ≡ fresh.old.items ++ messages_of_port number (known_items self.old.inbox)) }
        ensures took { OnOk result (received self.new.inbox
            ≡ received self.old.inbox ++ known_items self.old.inbox) }
        ensures waits { OnOk result (known_items self.new.inbox ≡ []) }
        ensures inbox { SameConsumer self.old.inbox self.new.inbox }
        ensures outbox { (self.new.outbox ≡ self.old.outbox) × (self.new.kept ≡ self.old.kept) }
        ensures slot { self.new.slot ≡ self.old.slot }
    {
        let ended = self.take_seen(number, fresh)?;
        if ended {
            notes.ended.push(number)?;
        }
        // What was taken may bring no output, and the thread waits to send on more.
        self.tell(number, notes)
    }

    /// The number of messages of a finished port that weren't taken yet.
    pub fn left(&mut self, end: &mut PortEnd) -> usize
        requires { IsEndBy end.old (Some self.old) }
        ensures count { result ≡ length (known_items self.new.inbox) }
        ensures sent { received self.new.inbox ++ known_items self.new.inbox ≡ sent_through end.new }
        ensures received { received_through end.new ++ unread_through end.new ≡ sent self.new.outbox }
        ensures took { received self.new.inbox ≡ received self.old.inbox }
        ensures owes { outputs_owed self.new ≡ outputs_owed self.old }
        ensures kept { self.new.kept ≡ self.old.kept }
        ensures link { IsSameLink self.old self.new }
        ensures end { SamePort end.old end.new }
    {
        self.is_finished = true;
        end.outbox.slots_beside(&mut self.outbox);
        self.inbox.slots_beside(&mut end.inbox)
    }
}
