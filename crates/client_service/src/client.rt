//! What a client's bytes do: frames and four-letter words.

ghost use Rattle.std.specs.Prelude.{◌≡◌, ◌≤◌, [], length, true, false, OnOk, IfOk};
ghost use Rattle.jute.specs.Stream.{items_in, place_at};
ghost use Rattle.forwarding.specs.Pending.{is_idle, is_full};
ghost use Rattle.read_processor.specs.Asking.{LooksAtAsks};
ghost use Rattle.world.specs.Clients.{heard_connection, is_heard, rest_at};
ghost use Rattle.client_service.specs.Serve.{call_of, serve_as, serve_frame, serve_all, frames_of_client, client_frame_limit, take_client_bytes, address_for, open_client, end_client};
ghost use Rattle.client_service.specs.Runs.{MakesOwing, serve_if_heard};
ghost use Rattle.client_service.specs.Inner.{session_call, IsFirstFrame, waiting_bytes, stage_with_rest, close_if_heard, tell_if_heard};
ghost use Rattle.world.specs.Results.{MakesStep};

use crate::asked::AskedRead;
use crate::calls::answer_call;
use crate::joining::connect_or_hold;
use crate::reading::gathered_read;
use crate::request::{SessionCall, session_call};
use crate::settling::settle_reads;
use crate::word::{tell_word, word_at};
use client_frames::{Call, call_in};
use data_tree::Tree;
use forwarding::Occupancy;
use four_letter::Word;
use jute::{Reader, read_frame};
use read_processor::{Ask, Look};
use settings::Dialect;
use std::alloc::Global;
use values::{ByteQueue, Fault, NoMemory, Str, Text};
use world::{Stage, World};

/// The longest frame that a client may send, in bytes.
pub const CLIENT_FRAME_LIMIT: u32 = 1_048_575;

// The bytes of a request's header.
const HEADER_LEN: usize = 8;

// Serves a call of a session, which was read from the frame. A frame whose header can't be read closes the connection.
// `idle` says whether the connection has no request that waits.
fn serve_read_call(
    alloc: Global,
    number: u64,
    idle: bool,
    session: i64,
    stage: &mut Stage,
    frame: &[u8],
    read: &Result<Call<'_>, Fault>,
) -> Result<(), NoMemory>
    requires fits { length frame.now ≤ client_frame_limit }
    requires idle { idle ≡ is_idle stage.old.after.clients.pending number }
    requires room { is_full stage.old.after.clients.pending number ≡ false }
    ensures { MakesStep result stage.old (λ w. serve_as number session w frame.now read.now) stage.new }
{
    match read {
        Ok(call) => answer_call(alloc, number, idle, session, stage, frame, call),
        Err(_) => stage.close_client(number),
    }
}

/// Serves a frame of a connection that has a session. A frame whose header can't be read closes the connection.
///
/// Fails only if an allocation is refused; then a prefix of the outputs has been appended.
pub fn serve_call(
    alloc: Global,
    number: u64,
    session: i64,
    stage: &mut Stage,
    frame: &[u8],
) -> Result<(), NoMemory>
    requires fits { length frame.now ≤ client_frame_limit }
    requires room { is_full stage.old.after.clients.pending number ≡ false }
    ensures { MakesStep result stage.old (λ w. serve_as number session w frame.now (call_of w frame.now)) stage.new }
{
    let read = call_in(alloc, stage.world.settings.dialect, frame)?;
    let idle = stage.world.clients.pending.is_idle(number);
    serve_read_call(alloc, number, idle, session, stage, frame, &read)
}

// Serves one frame, which asks `request` if its connection has a session, and touches the session. It is refused if it
// is too short for a header, or if as many requests wait as may.
fn serve(
    alloc: Global,
    serving: bool,
    number: u64,
    stage: &mut Stage,
    frame: &[u8],
    request: &Option<SessionCall<'_>>,
) -> Result<(), NoMemory>
    requires fits { length frame.now ≤ client_frame_limit }
    requires asks { request.now ≡ session_call number stage.old.after frame.now }
    ensures { MakesStep result stage.old (λ w. serve_frame serving number w frame.now) stage.new }
{
    if let Some(asked) = request {
        stage.world.clients.pending.touch(asked.session)?;
    }
    let occupancy = stage.world.clients.pending.occupancy(number);
    if matches!(occupancy, Occupancy::Full) || frame.len() < HEADER_LEN {
        return stage.close_client(number);
    }
    let idle = matches!(occupancy, Occupancy::Idle);
    match request {
        None => connect_or_hold(alloc, serving, number, idle, stage, frame),
        Some(asked) => serve_read_call(
            alloc,
            number,
            idle,
            asked.session,
            stage,
            frame,
            &asked.read,
        ),
    }
}

// Whether the connection is open and not leaving.
fn is_heard(number: u64, stage: &Stage) -> bool
    ensures { result ≡ is_heard number stage.now.after.clients }
{
    stage.world.clients.is_heard(number)
}

fn serve_if_heard(
    alloc: Global,
    serving: bool,
    number: u64,
    stage: &mut Stage,
    frame: &[u8],
    request: &Option<SessionCall<'_>>,
) -> Result<(), NoMemory>
    requires fits { length frame.now ≤ client_frame_limit }
    requires asks { is_heard number stage.old.after.clients ≡ true
        → request.now ≡ session_call number stage.old.after frame.now }
    ensures { MakesStep result stage.old (serve_if_heard serving number frame.now) stage.new }
{
    if !is_heard(number, stage) {
        return Ok(());
    }
    serve(alloc, serving, number, stage, frame, request)
}

// Takes one frame of a connection that is heard, and reads it once. While reads are gathered, a read waits for its
// answer if its connection has a session and no request that waits for the leader. Before any other frame is served,
// the reads that wait are answered, which may close its connection; what was read of the frame stays. No frame leaves
// bytes with its connection.
#[tactic(auto, using(values::proofs::Gaining::gains_nothing))]
fn take_frame<L: Fn(&Tree, &[Ask<'_>]) -> Result<Vec<Look>, NoMemory>>(
    alloc: Global,
    looker: &L,
    serving: bool,
    gathers: bool,
    number: u64,
    stage: &mut Stage,
    asked: &mut Vec<AskedRead>,
    frame: &[u8],
) -> Result<(), NoMemory>
    requires heard { is_heard number stage.old.after.clients ≡ true }
    requires taken { waiting_bytes number stage.old.after ≡ [] }
    requires fits { length frame.now ≤ client_frame_limit }
    requires looks { LooksAtAsks (L.pre looker.now) (L.post looker.now) }
    ensures made { MakesOwing result stage.old asked.old.items
        (serve_if_heard serving number frame.now)
        stage.new asked.new.items }
    ensures taken { OnOk result (waiting_bytes number stage.new.after ≡ []) }
{
    sessions::others_stay();
    let request = session_call(alloc, number, &stage.world, frame)?;
    if gathers {
        if let Some(read) = gathered_read(alloc, number, &stage.world, &request)? {
            asked.push(read)?;
            return Ok(());
        }
    }
    if asked.is_empty() {
        // Nothing is settled first, so the connection is still heard.
        return serve(alloc, serving, number, stage, frame, &request);
    }
    settle_reads(alloc, looker, asked, stage)?;
    serve_if_heard(alloc, serving, number, stage, frame, &request)
}

// Returns the first frame and the bytes that it takes with its length; None while it is incomplete.
fn first_frame(bytes: &[u8]) -> Result<Option<(&[u8], usize)>, Fault>
    ensures { IsFirstFrame result bytes.now }
{
    let mut ahead = Reader::new(bytes);
    match read_frame(&mut ahead, CLIENT_FRAME_LIMIT) {
        Ok(frame) => {
            let left = ahead.rest().len();
            Ok(Some((frame, bytes.len() - left)))
        }
        Err(fault) => match fault {
            Fault::Short => Ok(None),
            _ => Err(fault),
        },
    }
}

fn close_if_heard(number: u64, stage: &mut Stage) -> Result<(), NoMemory>
    ensures { MakesStep result stage.old (close_if_heard number) stage.new }
{
    if !is_heard(number, stage) {
        return Ok(());
    }
    stage.close_client(number)
}

// Replaces the waiting bytes of a connection and returns the old ones; None if it isn't open or is leaving.
fn replace_rest(number: u64, stage: &mut Stage, rest: ByteQueue) -> Option<ByteQueue>
    ensures old { result ≡ rest_at (heard_connection number stage.old.after.clients) }
    ensures new { stage.new ≡ stage_with_rest number rest stage.old }
{
    stage.world.clients.connections.replace_rest(number, rest)
}

// Answers the reads that wait, and closes the connection if they haven't.
#[tactic(auto, using(crate::proofs::Running::settled_first))]
fn settle_and_close<L: Fn(&Tree, &[Ask<'_>]) -> Result<Vec<Look>, NoMemory>>(
    alloc: Global,
    looker: &L,
    number: u64,
    stage: &mut Stage,
    asked: &mut Vec<AskedRead>,
) -> Result<(), NoMemory>
    requires { LooksAtAsks (L.pre looker.now) (L.post looker.now) }
    ensures { MakesOwing result stage.old asked.old.items (close_if_heard number) stage.new asked.new.items }
{
    settle_reads(alloc, looker, asked, stage)?;
    close_if_heard(number, stage)
}

// Takes the complete frames of a connection that is heard, as long as it is. Its waiting bytes were taken out of it,
// and what is left of them waits for more.
fn serve_all<L: Fn(&Tree, &[Ask<'_>]) -> Result<Vec<Look>, NoMemory>>(
    alloc: Global,
    looker: &L,
    serving: bool,
    gathers: bool,
    number: u64,
    stage: &mut Stage,
    asked: &mut Vec<AskedRead>,
    mut waiting: ByteQueue,
) -> Result<(), NoMemory>
    requires heard { is_heard number stage.old.after.clients ≡ true }
    requires taken { waiting_bytes number stage.old.after ≡ [] }
    requires looks { LooksAtAsks (L.pre looker.now) (L.post looker.now) }
    ensures { MakesOwing result stage.old asked.old.items
        (λ w. serve_all serving number w (items_in frames_of_client (place_at tt waiting)))
        stage.new asked.new.items }
{
    'frame: loop {
        match first_frame(waiting.as_slice()) {
            Ok(Some((frame, used))) => {
                take_frame(alloc, looker, serving, gathers, number, stage, asked, frame)?;
                waiting.drop_front(used);
                if waiting.is_empty() {
                    return Ok(());
                }
                if !is_heard(number, stage) {
                    return Ok(());
                }
            }
            Ok(None) => {
                replace_rest(number, stage, waiting);
                return Ok(());
            }
            Err(_) => return settle_and_close(alloc, looker, number, stage, asked),
        }
    }
}

fn tell_if_heard(
    alloc: Global,
    serving: bool,
    number: u64,
    stage: &mut Stage,
    word: Word,
) -> Result<(), NoMemory>
    ensures { MakesStep result stage.old (tell_if_heard serving number word) stage.new }
{
    if !is_heard(number, stage) {
        return Ok(());
    }
    tell_word(alloc, serving, number, stage, word)
}

// Answers the reads that wait, and then a four-letter word.
#[tactic(auto, using(crate::proofs::Running::settled_first))]
fn settle_and_tell<L: Fn(&Tree, &[Ask<'_>]) -> Result<Vec<Look>, NoMemory>>(
    alloc: Global,
    looker: &L,
    serving: bool,
    number: u64,
    stage: &mut Stage,
    asked: &mut Vec<AskedRead>,
    word: Word,
) -> Result<(), NoMemory>
    requires { LooksAtAsks (L.pre looker.now) (L.post looker.now) }
    ensures { MakesOwing result stage.old asked.old.items
        (tell_if_heard serving number word)
        stage.new asked.new.items }
{
    settle_reads(alloc, looker, asked, stage)?;
    tell_if_heard(alloc, serving, number, stage, word)
}

/// Takes a piece of a client's stream: a four-letter word, if the connection begins with one and has no session and
/// waits for none, or frames. `serving` says whether clients are served. The bytes of a connection that isn't open, or
/// whose client has asked for the end of its session, are ignored.
///
/// If `gathers` is set, a read waits in `asked`: its reply and its watch are still owed. Anything else is done after
/// the reads that wait are answered, by one call of `looker`; so the caller answers what waits by [`settle_reads`]
/// before it does anything else to the world. Otherwise a read is answered at once.
///
/// Fails only if an allocation is refused; then a prefix of the outputs has been appended.
pub fn take_client_bytes<L: Fn(&Tree, &[Ask<'_>]) -> Result<Vec<Look>, NoMemory>>(
    alloc: Global,
    looker: &L,
    serving: bool,
    gathers: bool,
    number: u64,
    stage: &mut Stage,
    asked: &mut Vec<AskedRead>,
    bytes: &[u8],
) -> Result<(), NoMemory>
    requires { LooksAtAsks (L.pre looker.now) (L.post looker.now) }
    ensures { MakesOwing result stage.old asked.old.items
        (λ w. take_client_bytes serving number w (heard_connection number w.clients) bytes.now)
        stage.new asked.new.items }
{
    let none = ByteQueue::new(alloc);
    let Some(mut waiting) = replace_rest(number, stage, none) else {
        return Ok(());
    };
    waiting.add(bytes)?;
    sessions::others_stay();
    match word_at(number, &stage.world, waiting.as_slice()) {
        Some(word) => settle_and_tell(alloc, looker, serving, number, stage, asked, word),
        None => serve_all(
            alloc, looker, serving, gathers, number, stage, asked, waiting,
        ),
    }
}

// The address of a client, if it counts in the dialect.
fn address_for(
    alloc: Global,
    address: &Option<Str<'_>>,
    dialect: Dialect,
) -> Result<Option<Text>, NoMemory>
    ensures { IfOk result (λ counted. counted ≡ address_for address.now dialect) }
{
    let Some(address) = address else {
        return Ok(None);
    };
    match dialect {
        Dialect::Zk34 => return Ok(None),
        Dialect::Zk38 => {
            let text = Text::new(alloc, address.as_str())?;
            Ok(Some(text))
        }
    }
}

/// Opens a connection, of a client with this address; one that is already open stays as it is. In the dialect of later
/// ensembles the address, where it is known, is an id of the connection as soon as that has a session.
///
/// Fails only if an allocation is refused.
pub fn open_client(
    alloc: Global,
    number: u64,
    address: &Option<Str<'_>>,
    world: &mut World,
) -> Result<(), NoMemory>
    ensures { OnOk result (world.new ≡ open_client number address.now world.old) }
{
    if world.clients.is_open(number) {
        return Ok(());
    }
    let address = address_for(alloc, address, world.settings.dialect)?;
    world.clients.open(alloc, number, address)
}

/// Closes a connection whose client is gone, and sends nothing. A number that isn't open is ignored.
pub fn end_client(number: u64, world: &mut World)
    ensures { world.new ≡ end_client number world.old }
{
    if world.clients.is_open(number) {
        world.clients.close(number);
    }
}
