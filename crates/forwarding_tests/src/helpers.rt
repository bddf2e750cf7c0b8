//! The steps of a test, and what each tells, in words.
//!
//! The calls are in functions without contracts, so no proof computes what a step tells. A test is a table of steps:
//! one loop asserts for all of them, and is proved once.

ghost use Rattle.std.specs.Prelude.{Some, None, if◌then◌else◌};
ghost use Rattle.std.specs.Ordering.{int_eq};

use forwarding::{
    ConnectKind, Occupancy, Pending, PendingConnect, Ready, SessionTimeouts, Settled, WriteKind,
};
use std::alloc::Global;
use std::process::Abort;
use std::test::Fail;
use values::{Blob, NoMemory, Text};

/// What a client asks. A request of a connection that is full is dropped.
#[derive(Clone, Copy)]
pub enum Asked<'a> {
    Connect(ConnectKind, i64),
    Write(i32, WriteKind),
    Sync(i32, &'a str),
    Frame(&'a [u8]),
}

/// What is done to the pending requests, or asked of them. The first number is most often a connection's.
#[derive(Clone, Copy)]
pub enum Step<'a> {
    Ask(u64, Asked<'a>),
    Leave(u64),
    Touch(i64),
    Clear,
    /// Holds so many empty frames, and tells in a word how many requests wait.
    Hold(u64, usize),
    /// The touched sessions that are among these, with their timeouts.
    Touched(Live),
    /// The connections whose syncs the next SYNCs settle: "-" where none waits, and "x" where it has gone.
    Settle(usize),
    /// What is ready, in order.
    Take(u64),
    /// The session for which the connect waits, "-" if it has none, and the frames that leave with it.
    TakeConnect(u64),
    /// The type of the write that a transaction of this xid and type answers; 0 if it answers none.
    Answer(u64, i32, i32),
    /// The same, but the write stays.
    WouldAnswer(u64, i32, i32),
    /// The connection that waits for the session; 0 if there is none.
    Connecting(i64),
    /// The connection that waits for the session as a new one, and that which claims it.
    Awaiting(i64),
    /// The xid of the closeSession that waits; 0 if there is none.
    Close(u64),
    IsIdle(u64),
    IsFull(u64),
    IsEmpty,
}

/// Takes the steps from the start. Each has to tell the text beside it.
pub fn play<R: Abort>(rt: &R, alloc: Global, steps: &[(Step<'_>, &str)]) -> Result<(), Fail> {
    let mut pending = Pending::new(alloc);
    for (number, (step, expected)) in steps.iter().enumerate() {
        let told = take_step(alloc, &mut pending, step)?;
        assert_eq!(rt; told.as_str(), *expected, "at step {number}");
    }
    Ok(())
}

fn take_step(alloc: Global, pending: &mut Pending, step: &Step<'_>) -> Result<String, NoMemory> {
    match step {
        Step::Touched(live) => touched(alloc, pending, live),
        Step::Settle(count) => settle(alloc, pending, *count),
        Step::Take(number) => take_all(alloc, pending, *number),
        Step::TakeConnect(number) => take_connect(alloc, pending, *number),
        Step::Answer(number, xid, kind) => answer(alloc, pending, *number, *xid, *kind),
        _ => {
            change(alloc, pending, step)?;
            look(alloc, pending, step)
        }
    }
}

// What a step that changes nothing tells.
fn look(alloc: Global, pending: &Pending, step: &Step<'_>) -> Result<String, NoMemory> {
    match step {
        Step::Hold(number, _) => text(alloc, occupancy(pending, *number)),
        Step::WouldAnswer(number, xid, kind) => would_answer(alloc, pending, *number, *xid, *kind),
        Step::Connecting(session) => or_zero(alloc, pending.connecting(*session)),
        Step::Awaiting(session) => awaiting(alloc, pending, *session),
        Step::Close(number) => close(alloc, pending, *number),
        Step::IsIdle(number) => text(alloc, yes_or_no(pending.is_idle(*number))),
        Step::IsFull(number) => text(alloc, yes_or_no(pending.is_full(*number))),
        Step::IsEmpty => text(alloc, yes_or_no(pending.is_empty())),
        _ => text(alloc, ""),
    }
}

fn change(alloc: Global, pending: &mut Pending, step: &Step<'_>) -> Result<(), NoMemory> {
    match step {
        Step::Ask(number, asked) => ask(alloc, pending, *number, asked),
        Step::Hold(number, count) => hold(alloc, pending, *number, *count),
        Step::Touch(session) => pending.touch(*session),
        Step::Leave(number) => {
            pending.drop_connection(*number);
            Ok(())
        }
        Step::Clear => {
            pending.clear(alloc);
            Ok(())
        }
        _ => Ok(()),
    }
}

fn text(alloc: Global, word: &str) -> Result<String, NoMemory> {
    Ok(String::from_str(alloc, word)?)
}

fn yes_or_no(is_so: bool) -> &'static str {
    if is_so { "yes" } else { "no" }
}

fn or_zero(alloc: Global, number: Option<u64>) -> Result<String, NoMemory> {
    Ok(number.unwrap_or(0).to_string(alloc)?)
}

fn close(alloc: Global, pending: &Pending, number: u64) -> Result<String, NoMemory> {
    Ok(pending.pending_close(number).unwrap_or(0).to_string(alloc)?)
}

fn awaiting(alloc: Global, pending: &Pending, session: i64) -> Result<String, NoMemory> {
    let new = pending.awaiting(session, ConnectKind::New).unwrap_or(0);
    let claimed = pending.awaiting(session, ConnectKind::Claimed).unwrap_or(0);
    Ok(format!(in alloc; "{new} {claimed}")?)
}

fn occupancy(pending: &Pending, number: u64) -> &'static str {
    match pending.occupancy(number) {
        Occupancy::Idle => "idle",
        Occupancy::Busy => "busy",
        Occupancy::Full => "full",
    }
}

fn hold(alloc: Global, pending: &mut Pending, number: u64, count: usize) -> Result<(), NoMemory> {
    for _ in 0..count {
        ask(alloc, pending, number, &Asked::Frame(&[]))?;
    }
    Ok(())
}

fn ask(
    alloc: Global,
    pending: &mut Pending,
    number: u64,
    asked: &Asked<'_>,
) -> Result<(), NoMemory> {
    if pending.is_full(number) {
        return Ok(());
    }
    match asked {
        Asked::Connect(kind, session) => connect(alloc, pending, number, *kind, *session),
        Asked::Write(xid, kind) => pending.push_write(alloc, number, *xid, *kind),
        Asked::Sync(xid, path) => pending.push_sync(alloc, number, *xid, Text::new(alloc, path)?),
        Asked::Frame(bytes) => pending.hold(alloc, number, Blob::new(alloc, bytes)?),
    }
}

// A connect of a connection that waits for something, or for a session that another waits for, is dropped.
fn connect(
    alloc: Global,
    pending: &mut Pending,
    number: u64,
    kind: ConnectKind,
    session: i64,
) -> Result<(), NoMemory> {
    if !pending.is_idle(number) {
        return Ok(());
    }
    match pending.connecting(session) {
        Some(_) => Ok(()),
        None => {
            let connect = PendingConnect {
                kind,
                session,
                time_out: 10_000,
                has_read_only: true,
            };
            pending.push_connect(alloc, number, connect)
        }
    }
}

fn add_ready(alloc: Global, text: &mut String, ready: &Ready) -> Result<(), NoMemory> {
    match ready {
        Ready::SettledSync { xid, path } => {
            let path = path.as_str();
            text.push_str(format!(in alloc; "sync {xid} {path}; ")?.as_str())?;
        }
        Ready::HeldFrame(frame) => add_frame(alloc, text, frame.as_slice())?,
    }
    Ok(())
}

fn add_frame(alloc: Global, text: &mut String, bytes: &[u8]) -> Result<(), NoMemory> {
    text.push_str(format!(in alloc; "frame {bytes:?}; ")?.as_str())?;
    Ok(())
}

// Adds what is ready in front of the connection's requests. Returns false if nothing is.
fn take_one(
    alloc: Global,
    pending: &mut Pending,
    number: u64,
    text: &mut String,
) -> Result<bool, NoMemory> {
    match pending.take_ready(number) {
        None => Ok(false),
        Some(ready) => {
            add_ready(alloc, text, &ready)?;
            Ok(true)
        }
    }
}

fn take_all(alloc: Global, pending: &mut Pending, number: u64) -> Result<String, NoMemory> {
    let mut text = String::new(alloc);
    for _ in 0..8 {
        if !take_one(alloc, pending, number, &mut text)? {
            break;
        }
    }
    Ok(text)
}

fn take_connect(alloc: Global, pending: &mut Pending, number: u64) -> Result<String, NoMemory> {
    let taken = pending.take_connect(alloc, number)?;
    let mut text = match taken.connect {
        None => String::from_str(alloc, "-; ")?,
        Some(PendingConnect { session, .. }) => format!(in alloc; "{session}; ")?,
    };
    for frame in taken.frames.as_slice() {
        add_frame(alloc, &mut text, frame.as_slice())?;
    }
    Ok(text)
}

fn would_answer(
    alloc: Global,
    pending: &Pending,
    number: u64,
    xid: i32,
    txn_kind: i32,
) -> Result<String, NoMemory> {
    let kind = match pending.answered_write(number, xid, txn_kind) {
        None => 0,
        Some(write) => write.kind.number(),
    };
    Ok(kind.to_string(alloc)?)
}

fn answer(
    alloc: Global,
    pending: &mut Pending,
    number: u64,
    xid: i32,
    txn_kind: i32,
) -> Result<String, NoMemory> {
    let kind = match pending.answered_write(number, xid, txn_kind) {
        None => 0,
        Some(write) => {
            pending.remove_write(number, write.place);
            write.kind.number()
        }
    };
    Ok(kind.to_string(alloc)?)
}

fn settle(alloc: Global, pending: &mut Pending, count: usize) -> Result<String, NoMemory> {
    let mut text = String::new(alloc);
    for _ in 0..count {
        match pending.settle_sync() {
            Settled::NoSync => text.push_str("-")?,
            Settled::Gone => text.push_str("x")?,
            Settled::Of(number) => text.push_str(format!(in alloc; "{number}")?.as_str())?,
        }
    }
    Ok(text)
}

/// Two sessions with their timeouts.
#[derive(Clone, Copy)]
pub struct Live {
    pub one: (i64, i32),
    pub other: (i64, i32),
}

impl SessionTimeouts for Live {
    ghost timeout = { λ live session. if int_eq session live.one.0 then Some live.one.1
        else if int_eq session live.other.0 then Some live.other.1
        else None };

    fn timeout_of(&self, session: i64) -> Option<i32> {
        if session == self.one.0 {
            return Some(self.one.1);
        }
        if session == self.other.0 {
            return Some(self.other.1);
        }
        None
    }
}

fn touched(alloc: Global, pending: &mut Pending, live: &Live) -> Result<String, NoMemory> {
    let rows = pending.take_touched(alloc, live)?;
    let mut text = String::new(alloc);
    for (session, timeout) in rows.as_slice() {
        text.push_str(format!(in alloc; "{session} {timeout}; ")?.as_str())?;
    }
    Ok(text)
}
