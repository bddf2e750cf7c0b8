//! The desk: an engine, and the ports whose messages it takes.

ghost use Rattle.std.specs.Prelude.{◌≡◌, ◌⊎◌, ◌++◌, ◌<◌, ◌≤◌, ◌∷◌, length, IfOk, IfErr, OnErr, OnOk, IsSome, Some, None, Ok, Err, []};
ghost use Rattle.std.specs.List.Sorted.{IsPermutation, IsStrictlyIncreasing};
ghost use Rattle.std.specs.FinMap as finmap;
ghost use Rattle.observer_core.specs.Machine.{Machine as TheMachine};
ghost use Rattle.observer_core.specs.Play.{new_machine, primed_machine};
ghost use Rattle.observer_core.specs.Plays.{PlaysEvents};
ghost use Rattle.intake.specs.declared.message.AddPortError.TheVariants as errors;
ghost use Rattle.intake.specs.Messages.{events_of, ComeByNumber};
ghost use Rattle.intake.specs.Ports.{sent_through, received_through, unread_through, HasRoom, SamePort};
ghost use Rattle.intake.specs.Links.{taken_at, waiting_at, outbox_at, IsEnd, KeepOnlyIfFull};
ghost use Rattle.intake.specs.Desk.{new_desk, AddsPort, ForgetsNone, KeepsPorts, TakesTurn, TakesNothing, AnswersTurn};
ghost use Rattle.intake.specs.Steps.{BeginsTurn, AreOfPorts, FeedsPort, ServesPorts};

use crate::events::{bytes_of, events_of};
use crate::link::Link;
use crate::links::Links;
use crate::message::{AddPortError, Message};
use crate::port::{Port, PortEnd};
use apply_workers::Gate;
use observer_core::{Config, Engine, Output, Stop};
use port_hints::{Budget, Marks, Notes, Round, Unlimited, Waker, reserve};
use rtrb::RingBuffer;
use std::alloc::Global;
use std::marker::Model;
use std::mem;
use std::sync::{Arc, Wait};
use std::thread::Threads;
use std::time::Duration;
use values::NoMemory;

const MAX_CAPACITY: usize = 1024;

// While more bytes than this are under way to a client, none of its messages is taken, so its inbox fills up and its
// thread stops reading.
const CLIENT_LIMIT: u64 = 1 << 20;

// How many outputs there mostly are for the messages of a port, at most: a client sends up to 16 frames at once.
const USUAL_OUTPUTS: usize = 16;

// While more bytes than this are under way to the leader, no message of a client is taken: what the leader is to be
// told next, a PING's answer among it, waits for these bytes.
const LEADER_LIMIT: u64 = 1 << 16;

/// What a desk keeps within bounds.
#[derive(Clone, Copy, Debug, PartialEq, Eq)]
pub struct Limits {
    /// How many bytes may be under way to all clients. From half of it on, no messages are taken of a client that has
    /// some of them to read.
    pub under_way: u64,
}

impl Default for Limits {
    fn default() -> Limits {
        Limits {
            under_way: 64 << 20,
        }
    }
}

/// Feeds the messages of its ports to an engine, and the outputs to the ports. It keeps no list of what it took.
pub struct Desk {
    alloc: Global,
    engine: Engine,
    // An allocation was refused where a turn couldn't be undone.
    closed: bool,
    links: Links,
    // The number of the next port.
    next: usize,
    // The messages of the last turn.
    fresh: Vec<(usize, Message)>,
    // The ports that the next turn looks at, besides those that are marked.
    later: Vec<usize>,
    limits: Limits,
    marks: Marks,
    notes: Notes,
    round: Round,
    // A port in `later` isn't blocked.
    is_behind: bool,
    // A list for the next `later`. Both have capacity for all open ports.
    spare: Vec<usize>,
}

impl Model for Desk {
    ghost use Rattle.std.specs.Prelude.{None, if◌then◌else◌};
    ghost use Rattle.std.specs.Coded.{coded_list, coded×, coded_ℕ};
    ghost use Rattle.observer_core.specs.contracts.engine.Engine as of_engine;
    ghost use Rattle.intake.specs.contracts.links.Links as of_links;
    ghost use Rattle.intake.specs.contracts.message.Message as of_message;
    ghost use Rattle.intake.specs.Desk.{Desk as TheDesk, desk_code, IsSoundDesk};

    ghost Value = { TheDesk };

    ghost coded = { desk_code of_engine.the_row.coded of_links.the_row.coded
        (coded_list (coded× coded_ℕ of_message.the_row.coded)) };

    ghost view = { λ d. record {
      machine = if d.closed then None else d.engine;
      links = d.links;
      next = d.next;
      fresh = d.fresh.items;
      later = d.later.items;
    } };

    ghost invariant = { λ d. IsSoundDesk d.closed d.engine d.links d.next d.marks.slots };
}

impl Drop for Desk {
    fn drop(self) {
        let Desk {
            alloc: _,
            engine,
            closed: _,
            links,
            next: _,
            fresh,
            later,
            limits: _,
            marks,
            notes,
            round: _,
            is_behind: _,
            spare,
        } = self;
        drop(engine);
        drop(links);
        drop(fresh);
        drop(later);
        drop(marks);
        drop(notes);
        drop(spare);
    }
}

impl Desk {
    /// A desk whose observer hasn't followed a leader yet. Fails only if an allocation is refused.
    pub fn new(alloc: Global, config: Config) -> Result<Desk, NoMemory>
        ensures { IfOk result (λ d. d ≡ new_desk (new_machine config.settings)) }
    {
        let engine = Engine::new(alloc, config)?;
        Desk::with_engine(alloc, engine)
    }

    /// A desk whose observer follows a leader in epoch 1, with connection 1 open. Fails only if an allocation is
    /// refused.
    pub fn primed(alloc: Global, config: Config) -> Result<Desk, NoMemory>
        ensures { IfOk result (λ d. d ≡ new_desk (primed_machine config.settings)) }
    {
        let engine = Engine::primed(alloc, config)?;
        Desk::with_engine(alloc, engine)
    }

    fn with_engine(alloc: Global, engine: Engine) -> Result<Desk, NoMemory>
        requires { IsSome engine }
        ensures { (m : TheMachine) → engine ≡ Some m → IfOk result (λ d. d ≡ new_desk m) }
    {
        let marks = Marks::new(alloc)?;
        Ok(Desk {
            alloc,
            engine,
            closed: false,
            links: Links::new(alloc),
            next: 0,
            fresh: Vec::new(alloc),
            later: Vec::new(alloc),
            limits: Limits::default(),
            marks,
            notes: Notes::new(alloc),
            round: Round::new(),
            is_behind: false,
            spare: Vec::new(alloc),
        })
    }

    /// Adds the next port, with room for `capacity` messages (1 to 1024) and as many outputs. Numbers count from 0, and
    /// none is used again.
    pub fn add_port(&mut self, capacity: usize) -> Result<Port, AddPortError>
        ensures ok { IfOk result (λ port. AddsPort self.old port self.new) }
        ensures room { IfOk result (HasRoom capacity) }
        ensures err { OnErr result (self.new ≡ self.old) }
        ensures bounds { OnOk result ((0 < capacity) × (capacity ≤ 1024)) }
        ensures out_of_bounds { result ≡ Err errors.BadCapacity → (capacity ≡ 0) ⊎ (1024 < capacity) }
    {
        if capacity < 1 || capacity > MAX_CAPACITY {
            return Err(AddPortError::BadCapacity);
        }
        match self.open_port(capacity) {
            Ok(port) => return Ok(port),
            Err(NoMemory) => Err(AddPortError::NoMemory),
        }
    }

    fn open_port(&mut self, capacity: usize) -> Result<Port, NoMemory>
        requires { capacity ≤ 1024 }
        ensures ok { IfOk result (λ port. AddsPort self.old port self.new) }
        ensures room { IfOk result (HasRoom capacity) }
        ensures err { OnErr result (self.new ≡ self.old) }
    {
        let number = self.next;
        let Some(next) = number.checked_add(1) else {
            return Err(NoMemory);
        };
        let ports = self.links.len().saturating_add(1);
        self.notes.reserve(ports)?;
        reserve(&mut self.later, ports)?;
        reserve(&mut self.spare, ports)?;
        let (to_hub, inbox) = RingBuffer::new(self.alloc, capacity)?;
        let (outbox, from_hub) = RingBuffer::new(self.alloc, capacity)?;
        let (slot, mark) = self.marks.add(number)?;
        let link = Link::new(self.alloc, inbox, outbox, slot, self.notes.turn);
        let Ok(()) = self.links.add(number, link) else {
            self.marks.remove(slot, 0);
            return Err(NoMemory);
        };
        self.next = next;
        let end = PortEnd {
            number,
            inbox: to_hub,
            outbox: from_hub,
        };
        Ok(Port::new(end, mark))
    }

    /// The messages of the last turn, in order, each with its port's number.
    pub fn fresh(&self) -> &[(usize, Message)]
        ensures { result.now ≡ self.now.fresh }
    {
        self.fresh.as_slice()
    }

    /// The ports that got outputs in the last turn, or of which it took messages.
    pub fn told(&self) -> &[usize] {
        self.notes.told.as_slice()
    }

    /// The ports whose `End` the last turn took.
    pub fn ended(&self) -> &[usize] {
        self.notes.ended.as_slice()
    }

    /// The waker of the hub's thread, which a message wakes, too. Fails only if an allocation is refused.
    pub fn waker(&self) -> Result<Arc<Waker, Global>, NoMemory> {
        Ok(Arc::try_clone(self.marks.waker())?)
    }

    /// Waits up to `at_most` until a port sends something, or has room again for outputs that are kept.
    pub fn wait<R: Wait>(&self, rt: &R, at_most: Duration) {
        self.marks.waker().wait(rt, at_most);
    }

    /// The observer. The engine of a closed desk is unspecified.
    pub fn engine(&self) -> &Engine
        ensures { (m : TheMachine) → self.now.machine ≡ Some m → result.now ≡ Some m }
    {
        &self.engine
    }

    /// The number of messages of a finished port that weren't taken yet. The next turn takes them.
    pub fn left(&mut self, end: &mut PortEnd) -> usize
        requires { IsEnd end.old self.old.links }
        ensures count { result ≡ length (waiting_at self.new.links end.old.number) }
        ensures sent { taken_at self.new.links end.old.number ++ waiting_at self.new.links end.old.number
            ≡ sent_through end.new }
        ensures received { received_through end.new ++ unread_through end.new
            ≡ outbox_at self.new.links end.old.number }
        ensures desk { TakesNothing self.old self.new }
        ensures later { self.new.later ≡ self.old.later }
        ensures end { SamePort end.old end.new }
    {
        let count = self.links.left(end);
        self.links.mark(end.number, &self.marks);
        count
    }

    // Moves the messages of the last turn to the end of a list, which was given room for them. A refused allocation
    // closes the desk.
    pub(crate) fn hand_over(&mut self, taken: &mut Vec<(usize, Message)>) -> Result<(), NoMemory>
        ensures taken { OnOk result (taken.new.items ≡ taken.old.items ++ self.old.fresh) }
        ensures desk { OnOk result (self.new ≡ record self.old { fresh = [] }) }
        ensures closed { OnErr result (self.new.machine ≡ None) }
        ensures keeps { KeepsPorts self.old self.new }
        ensures kept { OnErr result (taken.new.items ≡ taken.old.items) }
    {
        if taken.append(&mut self.fresh).is_err() {
            self.closed = true;
            return Err(NoMemory);
        }
        Ok(())
    }

    /// Removes a finished port, with the outputs kept for it and the messages that weren't taken.
    pub fn close(&mut self, end: PortEnd)
        ensures { self.new ≡ record self.old { links = finmap.remove self.old.links end.number } }
    {
        if let Some(link) = self.links.remove(end.number) {
            self.marks.remove(link.slot, link.put_bytes);
        }
        drop(end);
    }

    /// Sets the bounds.
    pub fn set_limits(&mut self, limits: Limits)
        ensures { self.new ≡ self.old }
    {
        self.limits = limits;
    }

    /// The ports to which the last turn put an output that closes the connection.
    pub fn closing(&self) -> &[usize] {
        self.notes.closing.as_slice()
    }

    /// Whether the last turn left a port for the next one only because its budget was spent, so that the hub isn't to
    /// wait.
    pub fn is_behind(&self) -> bool {
        self.is_behind
    }

    /// How many bytes are under way to all clients: they were put to their ports, and their threads haven't written
    /// them yet.
    pub fn under_way(&self) -> u64 {
        self.marks.under_way()
    }

    /// The client's port with the most bytes under way, if there are any. Takes time linear in the number of ports.
    pub fn slowest(&self) -> Option<usize> {
        self.links.slowest(&self.marks)
    }

    /// Makes a turn: puts the outputs that were kept, takes messages and feeds them to the engine. Returns the number
    /// of messages taken. It takes the leader's messages first, then goes through the other ports by number, and takes
    /// no more messages of a port than its capacity.
    ///
    /// If the list of messages can't grow, the messages stay where they are; any other refused allocation closes the
    /// desk. Fails with [`Stop::Closed`] if the desk was closed before.
    pub fn turn<R: Threads + Sync, G: Gate + Sync>(
        &mut self,
        rt: &R,
        gate: &G,
    ) -> Result<usize, Stop>
        ensures turn { AnswersTurn result self.old.machine self.old self.new }
        ensures order { OnOk result (ComeByNumber self.new.fresh) }
    {
        self.prepare()?;
        match self.serve(rt, gate, &mut Unlimited) {
            Ok(count) => Ok(count),
            Err(NoMemory) => Err(Stop::NoMemory),
        }
    }

    /// Makes a turn within a budget. The leader's messages come first, and all of them are taken. Then it comes to the
    /// ports of clients, until the budget is spent: first to those whose last messages were cheap, then to those whose
    /// last messages were costly, of which it comes to one at least if the budget takes them. Each kind goes round by
    /// number. The next turn looks at the ports that this one doesn't come to, and at those of which nothing is to be
    /// taken for now.
    ///
    /// Apart from that it does what `turn` does.
    pub fn turn_within<R: Threads + Sync, G: Gate + Sync, B: Budget>(
        &mut self,
        rt: &R,
        gate: &G,
        budget: &mut B,
    ) -> Result<usize, Stop>
        ensures { AnswersTurn result self.old.machine self.old self.new }
    {
        self.prepare()?;
        self.order();
        match self.serve(rt, gate, budget) {
            Ok(count) => Ok(count),
            Err(NoMemory) => Err(Stop::NoMemory),
        }
    }

    // Begins a turn, and puts the outputs that were kept. Returns the number of messages that there are to take.
    pub(crate) fn prepare(&mut self) -> Result<usize, Stop>
        ensures ok { OnOk result (BeginsTurn self.old self.new) }
        ensures err { IfErr result (λ stop. AnswersTurn (Err stop) self.old.machine self.old self.new) }
        ensures machine { self.new.machine ≡ self.old.machine }
    {
        self.fresh.clear();
        self.notes.begin();
        self.round.begin();
        self.is_behind = false;
        if self.closed {
            return Err(Stop::Closed);
        }
        if self.links.put_all_kept(&mut self.notes).is_err() {
            return Err(Stop::NoMemory);
        }
        match self.look() {
            Ok(seen) => Ok(seen),
            Err(NoMemory) => Err(Stop::NoMemory),
        }
    }

    // Looks at the leader's port, at those that the last turn left and at those that are marked, and makes room for
    // their messages. Returns the number of these.
    fn look(&mut self) -> Result<usize, NoMemory>
        ensures desk { TakesNothing self.old self.new }
        ensures fresh { self.new.fresh ≡ self.old.fresh }
        ensures forgets_none { ForgetsNone self.old self.new }
        ensures sorted { IsStrictlyIncreasing self.new.later }
        ensures full { KeepOnlyIfFull self.old.links → KeepOnlyIfFull self.new.links }
    {
        let found = self.marks.add_to(&mut self.later);
        let leaders = self.links.look(0);
        let others = self.links.look_all(self.later.as_slice());
        found?;
        let seen = leaders.saturating_add(others);
        self.fresh.reserve(seen)?;
        Ok(seen)
    }

    // Takes the ports that this turn comes to out of `later`, which is then the list for the next turn.
    fn queue(&mut self) -> Vec<usize>
        ensures queue { result.items ≡ self.old.later }
        ensures desk { self.new ≡ record self.old { later = self.new.later } }
    {
        let next = mem::replace(&mut self.spare, Vec::new(self.alloc));
        mem::replace(&mut self.later, next)
    }

    // Puts the ports that this turn comes to in the order in which a turn within a budget comes to them.
    fn order(&mut self)
        ensures permutation { IsPermutation self.old.later self.new.later }
        ensures desk { self.new ≡ record self.old { later = self.new.later } }
    {
        let mut queue = mem::replace(&mut self.later, Vec::new(self.alloc));
        queue.sort_unstable_by_key(|number| self.round.place(*number, self.is_costly(*number)));
        self.later = queue;
    }

    // Whether the port's last messages were costly.
    fn is_costly(&self, number: usize) -> bool {
        match self.links.slot(number) {
            None => true,
            Some(slot) => self.marks.is_costly(slot),
        }
    }

    // Whether no message of a client's port is to be taken for now.
    fn is_blocked(&self, number: usize) -> bool {
        if self.links.is_finished(number) {
            return false;
        }
        let bytes = self.links.under_way(number, &self.marks);
        bytes > CLIENT_LIMIT
            || (bytes > 0 && self.under_way() > self.limits.under_way / 2)
            || self.links.under_way(0, &self.marks) > LEADER_LIMIT
    }

    // Whether a port is blocked, and stays so until a thread that writes wakes the hub's.
    fn stays_blocked(&self, number: usize) -> bool {
        if !self.is_blocked(number) {
            return false;
        }
        self.marks.await_writes();
        self.is_blocked(number)
    }

    // Serves the leader's port, and then those in `later`. A refused allocation closes the desk.
    pub(crate) fn serve<R: Threads + Sync, G: Gate + Sync, B: Budget>(
        &mut self,
        rt: &R,
        gate: &G,
        budget: &mut B,
    ) -> Result<usize, NoMemory>
        ensures turn { (m : TheMachine) → self.old.machine ≡ Some m → self.old.fresh ≡ []
            → KeepOnlyIfFull self.old.links → OnOk result (TakesTurn m self.old self.new) }
        ensures order { self.old.fresh ≡ [] → IsStrictlyIncreasing self.old.later
            → OnOk result (ComeByNumber self.new.fresh) }
        ensures count { IfOk result (λ count. count ≡ length self.new.fresh) }
        ensures err { OnErr result (self.new.machine ≡ None) }
        ensures keeps { KeepsPorts self.old self.new }
    {
        let mut queue = self.queue();
        self.serve_leader(rt, gate)?;
        budget.begin();
        self.serve_clients(rt, gate, queue.as_slice(), budget)?;
        queue.clear();
        self.spare = queue;
        Ok(self.fresh.len())
    }

    fn serve_leader<R: Threads + Sync, G: Gate + Sync>(
        &mut self,
        rt: &R,
        gate: &G,
    ) -> Result<(), NoMemory>
        ensures ok { (m : TheMachine) → self.old.machine ≡ Some m → self.old.fresh ≡ []
            → KeepOnlyIfFull self.old.links → OnOk result (TakesTurn m self.old self.new) }
        ensures own { self.old.fresh ≡ [] → OnOk result (AreOfPorts (0 ∷ []) self.new.fresh) }
        ensures err { OnErr result (self.new.machine ≡ None) }
        ensures keeps { KeepsPorts self.old self.new }
    {
        if self.links.seen(0) == 0 {
            return Ok(());
        }
        self.feed(rt, gate, 0)?;
        Ok(())
    }

    fn serve_clients<R: Threads + Sync, G: Gate + Sync, B: Budget>(
        &mut self,
        rt: &R,
        gate: &G,
        numbers: &[usize],
        budget: &mut B,
    ) -> Result<(), NoMemory>
        ensures ok { OnOk result (ServesPorts numbers.now self.old self.new) }
        ensures err { OnErr result (self.new.machine ≡ None) }
        ensures keeps { KeepsPorts self.old self.new }
    {
        for number in numbers {
            self.serve_client(rt, gate, *number, budget)?;
        }
        Ok(())
    }

    // Serves a client's port, or leaves it for the next turn.
    fn serve_client<R: Threads + Sync, G: Gate + Sync, B: Budget>(
        &mut self,
        rt: &R,
        gate: &G,
        number: usize,
        budget: &mut B,
    ) -> Result<(), NoMemory>
        ensures ok { OnOk result (ServesPorts (number ∷ []) self.old self.new) }
        ensures err { OnErr result (self.new.machine ≡ None) }
        ensures keeps { KeepsPorts self.old self.new }
    {
        if number == 0 {
            return Ok(());
        }
        if self.links.seen(number) == 0 {
            return Ok(());
        }
        let is_costly = self.is_costly(number);
        if self.stays_blocked(number) || (is_costly && !budget.takes_costly()) {
            return self.leave(number);
        }
        if budget.is_spent() && !self.round.reaches(is_costly) {
            self.is_behind = true;
            return self.leave(number);
        }
        self.round.came(number, is_costly);
        let taken = self.feed(rt, gate, number)?;
        let is_costly = budget.spend(taken, self.notes.answered);
        if let Some(slot) = self.links.slot(number) {
            self.marks.set_costly(slot, is_costly);
        }
        Ok(())
    }

    // Leaves a port for the next turn.
    fn leave(&mut self, number: usize) -> Result<(), NoMemory>
        ensures ok { OnOk result (self.new ≡ record self.old { later = self.old.later ++ number ∷ [] }) }
        ensures err { OnErr result (self.new.machine ≡ None) }
        ensures keeps { KeepsPorts self.old self.new }
    {
        if self.later.push(number).is_err() {
            self.closed = true;
            return Err(NoMemory);
        }
        Ok(())
    }

    // Feeds the messages of a port that were seen to the engine, and puts the outputs. Returns the number of bytes of
    // the messages. A refused allocation closes the desk.
    fn feed<R: Threads + Sync, G: Gate + Sync>(
        &mut self,
        rt: &R,
        gate: &G,
        number: usize,
    ) -> Result<usize, NoMemory>
        ensures ok { OnOk result (FeedsPort number self.old self.new) }
        ensures err { OnErr result (self.new.machine ≡ None) }
        ensures keeps { KeepsPorts self.old self.new }
    {
        self.closed = true;
        self.notes.answered = 0;
        let before = self.fresh.len();
        self.links.take(number, &mut self.fresh, &mut self.notes)?;
        let messages = &self.fresh[before..];
        let taken = bytes_of(messages);
        let mut outputs = Vec::with_capacity(self.alloc, USUAL_OUTPUTS)?;
        play(
            rt,
            self.alloc,
            &mut self.engine,
            messages,
            gate,
            &mut outputs,
        )?;
        self.links.put_all(outputs, &mut self.notes)?;
        self.marks.add_put(self.notes.answered);
        self.closed = false;
        Ok(taken)
    }
}

// Feeds the messages to the engine.
fn play<R: Threads + Sync, G: Gate + Sync>(
    rt: &R,
    alloc: Global,
    engine: &mut Engine,
    messages: &[(usize, Message)],
    gate: &G,
    outputs: &mut Vec<Output>,
) -> Result<(), NoMemory>
    ensures { OnOk result (PlaysEvents (Ok tt) engine.old (events_of messages.now) outputs.old.items outputs.new.items
        engine.new) }
{
    let events = events_of(alloc, messages)?;
    match engine.feed(rt, alloc, events.as_slice(), gate, outputs) {
        Ok(()) => Ok(()),
        Err(_) => Err(NoMemory),
    }
}
