//! The loop of a connection's thread.

ghost use Rattle.std.specs.Prelude.{◌≡◌, ◌≤◌, ◌++◌, [], ◌∷◌, true, false, None, List, ℕ, Option, IfSome, IsSome, IsTrue, OnOk, length};
ghost use Rattle.std.specs.Io.KnownBytes.{Appends, Keeps};
ghost use Rattle.four_letter.specs.Words.{word_of};
ghost use Rattle.intake.specs.Ports.{SamePort};
ghost use Rattle.connection_loop.specs.Conversations.{IsFront, SendsOn, WritesBack, IsNothing, IsRefusal, refusal_of};
ghost use Rattle.connection_loop.specs.Inner.{talk_of, new_talk, messages_given, Gives, GivesLast, Drops, PassesOn, Runs, Ends, ClosesIfRefused};
ghost use Rattle.connection_loop.specs.Limits.{allows_word};
ghost use Rattle.connection_loop.specs.Windows.{room_in};

use crate::ahead::{OwnReadsAhead, ReadsAhead};
use crate::frames::ends_heavy;
use crate::incoming::{Cutting, Incoming, Piece};
use crate::kind::Gate;
use crate::limits::SessionLimits;
use crate::outgoing::Outgoing;
use crate::patience::Waits;
use crate::rest::{Close, Rest};
use crate::window::Window;
use four_letter::Word;
use intake::{Full, Message, Port, PortEnd};
use observer_core::Output;
use std::alloc::Global;
use std::io::{ErrorKind, Write};
use std::sync::{Arc, Wait};
use std::time::{Clock, Duration, Instant};
use std::{io, thread};
use values::{Fault, NoMemory, Text};

/// How the leader's connection ended.
#[derive(Drop)]
pub struct LeaderGone {
    /// The leader's port, by which the next leader may be followed.
    pub port: Port,
    /// The fault for which the engine refused its bytes, if it did. An end inside a packet is none.
    pub fault: Option<Fault>,
    /// Whether it ended because an allocation was refused.
    pub wants_memory: bool,
}

// The result of a step of a session.
#[derive(Clone, Copy, PartialEq, Eq)]
enum Step {
    /// There was something to do.
    Done,
    /// There was nothing to do.
    Idle,
    /// The connection has ended.
    Over,
}

// What comes after the word in the answer to one that isn't allowed.
const NOT_ALLOWED: &[u8] = b" is not executed because it is not in the whitelist.\n";

/// The longest wait for bytes, in milliseconds. A wake that is lost costs no more than this, and an idle thread wakes
/// no more often.
const LONGEST_WAIT: u64 = 10_000;

/// The longest wait for the hub or for room to write, in milliseconds.
const LONGEST_REST: u64 = 1000;

/// A session that rests no more often than this, in milliseconds, keeps no long buffer meanwhile.
const QUIET: u64 = 1000;

// A connection with its streams and its port.
#[derive(Drop)]
struct Session {
    alloc: Global,
    limits: SessionLimits,
    start: Option<Instant>,
    port: Port,
    incoming: Incoming,
    outgoing: Outgoing,
    // The client's frames that wait for their answers.
    window: Window,
    // The places of those that were sent on ahead.
    places: OwnReadsAhead,
    // A message for which there was no room.
    held: Option<Message>,
    // Frames were sent on, and no others are sent before these are taken.
    untaken: bool,
    // What is written is the session's own, and no output.
    refuses: bool,
    // The stream brings no more.
    ended: bool,
    // Since when there is nothing to do, in milliseconds since the start.
    idle_since: Option<u64>,
    // When it last began to rest, in milliseconds since the start.
    last_rest: u64,
    // The fault for which the engine refused the last bytes of a connection that has ended.
    late_fault: Option<Fault>,
    wants_memory: bool,
}

// Whether the call is only to be made again.
fn is_passing(error: &io::Error) -> bool {
    matches!(
        error.kind(),
        ErrorKind::WouldBlock | ErrorKind::TimedOut | ErrorKind::Interrupted
    )
}

impl Session {
    fn new<T: Clock>(
        rt: &T,
        alloc: Global,
        cutting: Cutting,
        limits: SessionLimits,
        places: OwnReadsAhead,
        port: Port,
    ) -> Session
        ensures { talk_of result ≡ new_talk port limits.words }
    {
        Session {
            alloc,
            limits,
            start: Instant::now(rt).ok(),
            port,
            incoming: Incoming::new(alloc, cutting),
            outgoing: Outgoing::new(alloc),
            window: Window::new(),
            places,
            held: None,
            untaken: false,
            refuses: false,
            ended: false,
            idle_since: None,
            last_rest: 0,
            late_fault: None,
            wants_memory: false,
        }
    }

    // The milliseconds since the start. While the clock can't be read, time stands still.
    fn now<T: Clock>(&self, rt: &T) -> u64 {
        match (self.start, Instant::now(rt)) {
            (Some(start), Ok(now)) => {
                u64::try_from(now.duration_since(start).as_millis()).unwrap_or(u64::MAX)
            }
            _ => self.idle_since.unwrap_or(0),
        }
    }

    // After a refused allocation the connection can't go on.
    fn want_memory(&mut self) -> Step
        ensures over { result ≡ Step.Over }
        ensures talk { talk_of self.new ≡ talk_of self.old }
    {
        self.wants_memory = true;
        Step::Over
    }

    // Sends a message, or holds it if there is no room.
    fn send(&mut self, message: Message)
        requires { self.old.held ≡ None }
        ensures { Gives (talk_of self.old) (talk_of self.new) (message ∷ []) }
    {
        if let Err(Full(message)) = self.port.send(message) {
            self.held = Some(message);
        }
    }

    // Sends the message that is held. Returns whether none is left.
    fn send_held(&mut self) -> bool
        ensures gives { Gives (talk_of self.old) (talk_of self.new) [] }
        ensures none { IsTrue result → self.new.held ≡ None }
    {
        if let Some(message) = self.held.take() {
            self.send(message);
        }
        self.held.is_none()
    }

    // Gathers outputs if all before are written. It ends the connection only if an allocation is refused.
    fn gather(&mut self) -> Step
        requires { ClosesIfRefused (talk_of self.old) }
        ensures { (unread written : Option (List ℕ)) → PassesOn result (talk_of self.old) (talk_of self.new)
            unread unread written written }
    {
        if !self.outgoing.is_written() {
            return Step::Idle;
        }
        match self.outgoing.gather(&mut self.port, &mut self.window) {
            Ok(true) => {
                self.idle_since = None;
                Step::Idle
            }
            Ok(false) => Step::Idle,
            Err(NoMemory) => self.want_memory(),
        }
    }

    // Writes as much of what is gathered as the stream takes.
    fn write_gathered<W: Write>(&mut self, writer: &mut W) -> Step
        requires { ClosesIfRefused (talk_of self.old) }
        ensures passes { (unread : Option (List ℕ)) → PassesOn result (talk_of self.old) (talk_of self.new)
            unread unread (W.contents writer.old) (W.contents writer.new) }
        ensures stays { result ≡ Step.Idle → self.new.outgoing.bytes ≡ [] → self.new.outgoing.closing ≡ false }
    {
        if self.outgoing.is_written() {
            return if self.outgoing.is_closing() {
                Step::Over
            } else {
                Step::Idle
            };
        }
        match self.outgoing.write_to(writer) {
            Ok(0) => Step::Over,
            Ok(count) => {
                if !self.refuses {
                    self.port.written(count);
                }
                Step::Done
            }
            Err(error) if is_passing(&error) => Step::Idle,
            Err(_) => Step::Over,
        }
    }

    // Gathers outputs, and writes as much as the stream takes.
    fn write<W: Write>(&mut self, writer: &mut W) -> Step
        requires { ClosesIfRefused (talk_of self.old) }
        ensures passes { (unread : Option (List ℕ)) → PassesOn result (talk_of self.old) (talk_of self.new)
            unread unread (W.contents writer.old) (W.contents writer.new) }
        ensures stays { result ≡ Step.Idle → self.new.outgoing.bytes ≡ [] → self.new.outgoing.closing ≡ false }
    {
        match self.gather() {
            Step::Idle => self.write_gathered(writer),
            ended => ended,
        }
    }

    // The word that the connection begins with, if it isn't allowed.
    fn refused_word(&self) -> Option<[u8; 4]>
        ensures word { IfSome result (λ word. IsSome (word_of word)) }
        ensures refused { IfSome result (λ word. allows_word self.now.limits.words (word_of word) ≡ false) }
    {
        if !self.window.is_new() {
            return None;
        }
        match self.incoming.waiting().first_chunk::<4>() {
            Some(word) if Word::from_bytes(*word).is_some() && !self.limits.words.allows(*word) => {
                Some(*word)
            }
            _ => None,
        }
    }

    // Adds the text that refuses the word, after which the connection closes. A refused allocation leaves a front of it.
    fn put_refusal(&mut self, word: [u8; 4]) -> Result<(), NoMemory>
        ensures text { (text : List ℕ) × IsFront text (refusal_of word)
            × (self.new.outgoing.bytes ≡ self.old.outgoing.bytes ++ text) }
        ensures rest { talk_of self.new ≡ record (talk_of self.old) {
          unwritten = self.new.outgoing.bytes;
          closing = self.new.outgoing.closing;
        } }
        ensures closing { OnOk result (self.new.outgoing.closing ≡ true) }
    {
        self.outgoing.put_last(&word)?;
        self.outgoing.put_last(NOT_ALLOWED)
    }

    // Says that the word isn't allowed, and closes the connection.
    fn refuse(&mut self, word: [u8; 4]) -> Step
        requires word { IsSome (word_of word) }
        requires refused { allows_word self.old.limits.words (word_of word) ≡ false }
        requires new { self.old.refuses ≡ false }
        ensures { (unread written : Option (List ℕ)) → PassesOn result (talk_of self.old) (talk_of self.new)
            unread unread written written }
    {
        self.refuses = true;
        match self.put_refusal(word) {
            Ok(()) => Step::Done,
            Err(NoMemory) => self.want_memory(),
        }
    }

    // The next piece that may be sent on. A read behind a write needs a place.
    fn next_piece(&mut self) -> Option<Piece>
        ensures within { IfSome result (λ p. p.len ≤ length self.old.incoming.bytes) }
        ensures room { IfSome result (λ p. p.frames ≤ room_in self.old.window) }
        ensures kept { (self.new.incoming ≡ self.old.incoming) × (self.new.window ≡ self.old.window) }
        ensures talk { talk_of self.new ≡ talk_of self.old }
    {
        let room = self.window.room();
        let owed = self.window.owed();
        self.places.give_back(owed);
        if owed == 0 {
            return self.incoming.next(room, Gate::Open);
        }
        let next = self.incoming.next(room, Gate::Narrow);
        if next.is_some() || room == 0 || !self.incoming.is_ready() {
            return next;
        }
        let ahead = self
            .incoming
            .next(room.min(self.places.left()), Gate::Ahead)?;
        self.places.fill(ahead.frames);
        Some(ahead)
    }

    // Tells the hub where a piece may be costly: a word, or one that ends with a frame of unbounded cost. The further
    // parts of a frame are as its first part.
    fn tell_cost(&self, piece: Piece)
        requires { piece.len ≤ length self.now.incoming.bytes }
    {
        let bytes = &self.incoming.waiting()[..piece.len];
        if self.window.is_new() {
            // A connect begins with a zero.
            self.port.set_heavy(bytes.first() != Some(&0));
        } else if piece.frames > 0 {
            self.port.set_heavy(ends_heavy(self.limits.dialect, bytes));
        }
    }

    // Whether the hub hasn't taken the frames that were sent on last.
    fn is_untaken(&mut self) -> bool
        ensures gives { Gives (talk_of self.old) (talk_of self.new) [] }
        ensures kept { self.new ≡ record self.old { port = self.new.port } }
    {
        if !self.untaken {
            return false;
        }
        !self.port.is_drained()
    }

    // Sends on the next piece of the waiting bytes.
    fn send_next(&mut self) -> Step
        requires none { self.old.held ≡ None }
        requires new { self.old.refuses ≡ false }
        ensures { (unread written : Option (List ℕ)) → PassesOn result (talk_of self.old) (talk_of self.new)
            unread unread written written }
    {
        if self.is_untaken() {
            return Step::Idle;
        }
        self.untaken = false;
        let mut next = self.next_piece();
        if next.is_none() && self.ended && !self.incoming.is_ready() {
            next = self.incoming.last();
        }
        let Some(piece) = next else {
            return Step::Idle;
        };
        if let Some(word) = self.refused_word() {
            return self.refuse(word);
        }
        self.tell_cost(piece);
        let Ok(bytes) = self.incoming.take(self.alloc, piece) else {
            return self.want_memory();
        };
        self.window.send(piece.frames);
        self.untaken = piece.ends_frame;
        self.send(Message::Bytes(bytes));
        Step::Done
    }

    // Waits until there may be something to do, but not past the nearest limit.
    fn rest<T: Clock, R: Rest>(&mut self, rt: &T, reader: &mut R, longest: u64) -> Step
        ensures talk { talk_of self.new ≡ talk_of self.old }
        ensures kept { Keeps (R.remaining reader.old) (R.remaining reader.new) }
    {
        let now = self.now(rt);
        if now.saturating_sub(self.last_rest) >= QUIET {
            self.incoming.free_if_empty(self.alloc);
        }
        self.last_rest = now;
        let since = self.idle_since.unwrap_or(now);
        self.idle_since = Some(since);
        let waits = Waits {
            since,
            connecting: self.window.is_connecting(),
            unread: !self.outgoing.is_written(),
            closing: self.outgoing.is_closing() || reader.is_hurried(),
            ended: self.ended && !self.untaken,
        };
        let left = match waits.deadline(self.limits) {
            None => longest,
            Some(deadline) if deadline <= now => return Step::Over,
            Some(deadline) => deadline.saturating_sub(now).min(longest),
        };
        match reader.rest(left) {
            Ok(()) => Step::Idle,
            Err(error) if is_passing(&error) => Step::Idle,
            Err(_) => Step::Over,
        }
    }

    // Reads, or rests if there is no room or the stream has ended.
    fn read<T: Clock, R: Rest>(&mut self, rt: &T, reader: &mut R) -> Step
        requires { ClosesIfRefused (talk_of self.old) }
        ensures { (written : Option (List ℕ)) → PassesOn result (talk_of self.old) (talk_of self.new)
            (R.remaining reader.old) (R.remaining reader.new) written written }
    {
        if self.ended && !self.untaken && self.window.owed() == 0 {
            return Step::Over;
        }
        if self.ended || self.incoming.is_full() {
            return self.rest(rt, reader, LONGEST_REST);
        }
        match self.incoming.read_from(reader) {
            Ok(0) => {
                self.ended = true;
                Step::Done
            }
            Ok(_) => Step::Done,
            Err(error) if is_passing(&error) => self.rest(rt, reader, LONGEST_WAIT),
            Err(error) => {
                if error.kind() == ErrorKind::OutOfMemory {
                    return self.want_memory();
                }
                Step::Over
            }
        }
    }

    // One step: writing comes first, then sending on, then reading.
    fn step<T: Clock, R: Rest, W: Write>(&mut self, rt: &T, reader: &mut R, writer: &mut W) -> Step
        requires { ClosesIfRefused (talk_of self.old) }
        ensures { PassesOn result (talk_of self.old) (talk_of self.new) (R.remaining reader.old)
            (R.remaining reader.new) (W.contents writer.old) (W.contents writer.new) }
    {
        match self.write(writer) {
            Step::Idle => {}
            written => return written,
        }
        // Nothing is sent on or read while a message is held, or bytes are left to write.
        let is_sent = self.send_held();
        if !is_sent || !self.outgoing.is_written() {
            return self.rest(rt, reader, LONGEST_REST);
        }
        match self.send_next() {
            Step::Idle => {}
            sent => return sent,
        }
        self.read(rt, reader)
    }

    // Makes steps until the connection ends.
    fn run<T: Wait + Clock, R: Rest, W: Write>(
        &mut self,
        rt: &T,
        address: Option<Text>,
        reader: &mut R,
        writer: &mut W,
    )
        requires none { self.old.held ≡ None }
        requires once { ClosesIfRefused (talk_of self.old) }
        ensures { Runs address (talk_of self.old) (talk_of self.new) (R.remaining reader.old)
            (R.remaining reader.new) (W.contents writer.old) (W.contents writer.new) }
    {
        self.send(Message::Up(address));
        for _ in rt.forever() {
            match self.step(rt, reader, writer) {
                Step::Done => self.idle_since = None,
                Step::Idle => {}
                Step::Over => return,
            }
        }
    }

    // A leader may end right after bytes that are refused, so the fault is kept. An end inside a packet is none: it says
    // only that the rest is missing.
    fn keep_fault(&mut self, output: Output)
        ensures { talk_of self.new ≡ talk_of self.old }
    {
        match output {
            Output::CloseLeader(Fault::Short) => {}
            Output::CloseLeader(fault) => self.late_fault = Some(fault),
            _ => {}
        }
    }

    // Takes the outputs for a connection that has ended, and drops them, but for a fault.
    fn drop_outputs(&mut self)
        ensures { Drops (talk_of self.old) (talk_of self.new) }
    {
        for _ in 0..u64::MAX {
            match self.port.receive() {
                None => break,
                Some(output) => self.keep_fault(output),
            }
        }
        self.port.written_all();
    }

    // Sends what is held, and then the last message. Returns whether nothing is left to send.
    fn send_last(&mut self, last: &mut Option<Message>) -> bool
        ensures { GivesLast (talk_of self.old) (talk_of self.new) last.old last.new result }
    {
        if !self.send_held() {
            return false;
        }
        let Some(message) = last.take() else {
            return true;
        };
        self.send(message);
        self.held.is_none()
    }

    // Sends the `End`, and waits until it is taken. Meanwhile it takes outputs, too: while much is under way for a port,
    // none of its messages is taken.
    fn end<T: Wait + Clock, R: Rest>(&mut self, rt: &T, reader: &mut R)
        ensures { Ends (R.abandoned reader.new) (talk_of self.old) (talk_of self.new) }
    {
        self.places.give_back(0);
        let mut last = Some(Message::End);
        for _ in rt.forever() {
            self.drop_outputs();
            if self.send_last(&mut last) && self.port.is_drained() {
                return;
            }
            if let Err(error) = reader.rest(LONGEST_REST) {
                match error.kind() {
                    // No thread is left that would take it.
                    ErrorKind::ConnectionAborted => return,
                    _ => thread::sleep(rt, Duration::from_millis(1)),
                }
            }
        }
    }

    fn finish(self) -> LeaderGone
        ensures { result.port ≡ self.port }
    {
        let Session {
            alloc: _,
            limits: _,
            start: _,
            port,
            incoming,
            outgoing,
            window: _,
            places,
            held,
            untaken: _,
            refuses: _,
            ended: _,
            idle_since: _,
            last_rest: _,
            late_fault,
            wants_memory,
        } = self;
        drop(incoming);
        drop(places);
        drop(held);
        let fault = outgoing.fault().or(late_fault);
        drop(outgoing);
        LeaderGone {
            port,
            fault,
            wants_memory,
        }
    }
}

// Passes on what the reader brings and writes the answers, until the connection ends. The writer is closed before the
// `End` is sent.
fn converse<T: Wait + Clock, R: Rest + Drop, W: Close>(
    rt: &T,
    session: Session,
    address: Option<Text>,
    reader: R,
    writer: W,
) -> LeaderGone
    requires none { session.held ≡ None }
    requires once { ClosesIfRefused (talk_of session) }
    requires new { session.incoming.bytes ≡ [] }
    requires unwritten { session.outgoing.bytes ≡ [] }
    ensures port { SamePort session.port result.port }
    ensures sent { SendsOn address (R.remaining reader) ((r : R) × R.abandoned r) session.port result.port }
    ensures written { WritesBack (IsRefusal session.limits.words)
        (λ bytes. (w : W) × W.closed w × Appends (W.contents writer) (W.contents w) bytes)
        session.port result.port }
{
    let mut session = session;
    let mut reader = reader;
    let mut writer = writer;
    session.run(rt, address, &mut reader, &mut writer);
    writer.close();
    session.end(rt, &mut reader);
    drop(reader);
    session.finish()
}

/// Serves a client, from its connection's first byte to its end.
///
/// It sends `Up` with the client's address, and then what the reader brings: at most 16 whole frames at once, and the
/// next ones when these are taken and the answers are written. What the engine would hold until the leader answers is
/// sent on when all frames before it are answered, or where it has a place among those that all sessions share. A
/// four-letter word that isn't allowed is refused. It ends if a read or a write fails, if the reader is at its end, if a
/// limit has passed, or if the engine closes the connection; then it closes the writer, sends `End`, and finishes its
/// port when that is taken. No message is dropped: one that finds the port full is sent again.
///
/// A reader that has nothing returns `WouldBlock`, and is then asked to rest until that may have changed, or there is
/// room to write, or the hub has something.
pub fn session_loop<T: Wait + Clock, R: Rest + Drop, W: Close>(
    rt: &T,
    alloc: Global,
    reader: R,
    writer: W,
    port: Port,
    address: Option<Text>,
    limits: SessionLimits,
    ahead: Arc<ReadsAhead, Global>,
) -> PortEnd
    ensures port { SamePort port result }
    ensures sent { SendsOn address (R.remaining reader) ((r : R) × R.abandoned r) port result }
    ensures written { WritesBack (IsRefusal limits.words)
        (λ bytes. (w : W) × W.closed w × Appends (W.contents writer) (W.contents w) bytes) port result }
{
    let places = OwnReadsAhead::new(Some(ahead));
    let cutting = Cutting::Frames(limits.dialect);
    let session = Session::new(rt, alloc, cutting, limits, places, port);
    let LeaderGone {
        port,
        fault: _,
        wants_memory: _,
    } = converse(rt, session, address, reader, writer);
    port.finish()
}

/// Follows the leader: like `session_loop`, but without limits. It sends on whatever a read brings, and gives the port
/// back.
pub fn leader_loop<T: Wait + Clock, R: Rest + Drop, W: Close>(
    rt: &T,
    alloc: Global,
    reader: R,
    writer: W,
    port: Port,
) -> LeaderGone
    ensures port { SamePort port result.port }
    ensures sent { SendsOn None (R.remaining reader) ((r : R) × R.abandoned r) port result.port }
    ensures written { WritesBack IsNothing
        (λ bytes. (w : W) × W.closed w × Appends (W.contents writer) (W.contents w) bytes) port result.port }
{
    let places = OwnReadsAhead::new(None);
    let limits = SessionLimits::none();
    let session = Session::new(rt, alloc, Cutting::Reads, limits, places, port);
    converse(rt, session, None, reader, writer)
}
