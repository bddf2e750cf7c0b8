//! A script that is fed to an observer.

ghost use Rattle.std.specs.Prelude.{◌≡◌, ◌++◌, ◌⊎◌, Some, Err, IsOk, IfOk, IfSome, OnOk, map, if◌then◌else◌};
ghost use Rattle.std.specs.List.{flat_map};
ghost use Rattle.std.specs.Io.KnownBytes.{Appends};
ghost use Rattle.observer_core.specs.Machine.{Machine as TheMachine};
ghost use Rattle.observer_core.specs.Play.{play, primed_machine, new_machine};
ghost use Rattle.replay.specs.Lines.{output_line};
ghost use Rattle.replay.specs.Replay.{event_of_script, end_line_of, replay_of, printed_lines, WritesFront, PrintsAll, PrintsFront, EndsReplay, EndsReplayWith};
ghost use Rattle.replay.specs.Writing.{WritesPart};
ghost use Rattle.replay.specs.declared.replaying.PrintError.TheVariants as print_errors;

use crate::ending::Ending;
use crate::print::{put_end, put_output};
use crate::writing::write_whole;
use apply_workers::OpenGate;
use batcher::Limits;
use observer_core::{Config, Engine, Event, Output, Settings, Stop};
use replay_script::{Script, ScriptError, ScriptEvent, parse};
use std::alloc::Global;
use std::io::{ErrorKind, Read, Write};
use std::thread::Threads;
use values::{Bytes, NoMemory};

/// The reason why a replay couldn't be printed to its end.
#[derive(Clone, Copy, Debug, PartialEq, Eq)]
pub enum PrintError {
    /// The output couldn't be written.
    Unwritable,
    /// An allocation was refused.
    NoMemory,
}

impl From<NoMemory> for PrintError {
    ghost from_gives = { λ _ e. e ≡ print_errors.NoMemory };

    fn from(_e: NoMemory) -> PrintError {
        PrintError::NoMemory
    }
}

/// The event of a script's line.
pub fn event_of(event: &ScriptEvent) -> Event<'_>
    ensures { result ≡ event_of_script event.now }
{
    match event {
        ScriptEvent::LeaderUp => Event::LeaderUp,
        ScriptEvent::LeaderBytes(bytes) => Event::LeaderBytes(Bytes::new(bytes.as_slice())),
        ScriptEvent::LeaderEnd => Event::LeaderEnd,
        ScriptEvent::ClientUp(client, address) => Event::client_up(*client, address),
        ScriptEvent::ClientBytes(client, bytes) => Event::ClientBytes(
            *client,
            Bytes::new(bytes.as_slice()),
        ),
        ScriptEvent::ClientEnd(client) => Event::ClientEnd(*client),
        ScriptEvent::Expire(session) => Event::Expire(*session),
        ScriptEvent::Checkpoint => Event::Checkpoint,
    }
}

fn events_of(alloc: Global, script: &[ScriptEvent]) -> Result<Vec<Event<'_>>, NoMemory>
    ensures { IfOk result (λ events. events.items ≡ map event_of_script script.now) }
{
    let mut events = Vec::with_capacity(alloc, script.len())?;
    for event in script {
        events.push(event_of(event))?;
    }
    Ok(events)
}

/// The observer that a script sets up. Fails only if an allocation is refused.
pub fn engine_of(
    alloc: Global,
    primed: bool,
    settings: Settings,
    limits: Limits,
) -> Result<Engine, NoMemory>
    ensures { IfOk result
        (λ e. e ≡ Some (if primed then primed_machine settings else new_machine settings)) }
{
    let config = Config::from_settings(settings, limits);
    if primed {
        Engine::primed(alloc, config)
    } else {
        Engine::new(alloc, config)
    }
}

// Prints the line of an output. `line` is a buffer for it.
fn print_output<W: Write>(
    line: &mut Vec<u8>,
    output: &Output,
    writer: &mut W,
) -> Result<(), PrintError>
    ensures ok { OnOk result
        (Appends (W.contents writer.old) (W.contents writer.new) (output_line output.now)) }
    ensures no_memory { result ≡ Err print_errors.NoMemory → writer.new ≡ writer.old }
    ensures unwritable { result ≡ Err print_errors.Unwritable
        → WritesPart (W.contents writer.old) (W.contents writer.new) (output_line output.now) }
{
    line.clear();
    put_output(line, output)?;
    match write_whole(writer, line.as_slice()) {
        Ok(()) => Ok(()),
        Err(_) => Err(PrintError::Unwritable),
    }
}

// Prints the lines of the outputs, in order.
fn print_outputs<W: Write>(
    line: &mut Vec<u8>,
    outputs: &[Output],
    writer: &mut W,
) -> Result<(), PrintError>
    ensures ok { let lines = flat_map output_line outputs.now in
        OnOk result (Appends (W.contents writer.old) (W.contents writer.new) lines) }
    ensures no_memory { result ≡ Err print_errors.NoMemory
        → WritesFront (W.contents writer.old) (W.contents writer.new) outputs.now }
    ensures unwritable { result ≡ Err print_errors.Unwritable
        → WritesPart (W.contents writer.old) (W.contents writer.new) (flat_map output_line outputs.now) }
{
    for output in outputs {
        print_output(line, output, writer)?;
    }
    Ok(())
}

fn print_end<W: Write>(
    line: &mut Vec<u8>,
    engine: &Engine,
    writer: &mut W,
) -> Result<(), PrintError>
    ensures ok { OnOk result ((m : TheMachine) → engine.now ≡ Some m
        → Appends (W.contents writer.old) (W.contents writer.new) (end_line_of m)) }
    ensures no_memory { result ≡ Err print_errors.NoMemory → writer.new ≡ writer.old }
    ensures unwritable { result ≡ Err print_errors.Unwritable → (m : TheMachine) → engine.now ≡ Some m
        → WritesPart (W.contents writer.old) (W.contents writer.new) (end_line_of m) }
{
    line.clear();
    put_end(line, engine.learner().last_zxid(), engine.tree().paths())?;
    match write_whole(writer, line.as_slice()) {
        Ok(()) => Ok(()),
        Err(_) => Err(PrintError::Unwritable),
    }
}

// Prints the lines of the outputs and, if everything was fed, the last line.
fn print_fed<W: Write>(
    alloc: Global,
    engine: &Engine,
    fed: Result<(), Stop>,
    outputs: &[Output],
    writer: &mut W,
) -> Result<(), PrintError>
    ensures fed { OnOk result (IsOk fed) }
    ensures ok { let lines = flat_map output_line outputs.now in
        OnOk result ((m : TheMachine) → engine.now ≡ Some m
        → Appends (W.contents writer.old) (W.contents writer.new) (lines ++ end_line_of m)) }
    ensures no_memory { result ≡ Err print_errors.NoMemory
        → WritesFront (W.contents writer.old) (W.contents writer.new) outputs.now }
    ensures unwritable { let lines = flat_map output_line outputs.now in
        result ≡ Err print_errors.Unwritable → WritesPart (W.contents writer.old) (W.contents writer.new) lines
        ⊎ (IsOk fed × ((m : TheMachine) → engine.now ≡ Some m
        → WritesPart (W.contents writer.old) (W.contents writer.new) (lines ++ end_line_of m))) }
{
    let mut line = Vec::new(alloc);
    print_outputs(&mut line, outputs, writer)?;
    match fed {
        Ok(()) => print_end(&mut line, engine, writer),
        Err(_) => Err(PrintError::NoMemory),
    }
}

// Feeds the events to an observer, and prints the outputs. The observer is dropped at the single end of this function,
// and nowhere else: each drop of it is proved anew.
fn feed<T: Threads + Sync, W: Write>(
    rt: &T,
    alloc: Global,
    mut engine: Engine,
    events: &[Event<'_>],
    writer: &mut W,
) -> Result<(), PrintError>
    ensures ok { OnOk result ((m : TheMachine) → engine ≡ Some m
        → Appends (W.contents writer.old) (W.contents writer.new) (printed_lines (play m events.now))) }
    ensures no_memory { result ≡ Err print_errors.NoMemory → (m : TheMachine) → engine ≡ Some m
        → WritesFront (W.contents writer.old) (W.contents writer.new) (play m events.now).outputs }
    ensures unwritable { result ≡ Err print_errors.Unwritable → (m : TheMachine) → engine ≡ Some m
        → WritesPart (W.contents writer.old) (W.contents writer.new) (printed_lines (play m events.now)) }
{
    let mut outputs = Vec::new(alloc);
    let fed = engine.feed(rt, alloc, events, &OpenGate, &mut outputs);
    print_fed(alloc, &engine, fed, outputs.as_slice(), writer)
}

// Feeds a script's events to its observer, and prints the outputs.
fn play_script<T: Threads + Sync, W: Write>(
    rt: &T,
    alloc: Global,
    limits: Limits,
    script: Script,
    writer: &mut W,
) -> Result<(), PrintError>
    ensures ok { OnOk result (PrintsAll script (W.contents writer.old) (W.contents writer.new)) }
    ensures no_memory { result ≡ Err print_errors.NoMemory
        → PrintsFront script (W.contents writer.old) (W.contents writer.new) }
    ensures unwritable { result ≡ Err print_errors.Unwritable
        → WritesPart (W.contents writer.old) (W.contents writer.new) (printed_lines (replay_of script)) }
{
    let Script {
        server_id,
        first_counter,
        epochs,
        timeouts,
        secret,
        dialect,
        super_digest,
        primed,
        events,
    } = script;
    let events = events_of(alloc, events.as_slice())?;
    let settings = Settings {
        server_id,
        epochs,
        timeouts,
        secret,
        first_counter,
        dialect,
        super_digest,
    };
    let engine = engine_of(alloc, primed, settings, limits)?;
    feed(rt, alloc, engine, events.as_slice(), writer)
}

/// Replays a text, and prints the outputs.
pub(crate) fn replay_text<T: Threads + Sync, W: Write>(
    rt: &T,
    alloc: Global,
    limits: Limits,
    text: &[u8],
    writer: &mut W,
) -> Ending
    ensures { EndsReplay result text.now (W.contents writer.old) (W.contents writer.new) }
{
    let script = match parse(alloc, text) {
        Ok(script) => script,
        Err(ScriptError::NoMemory) => return Ending::NoMemory,
        Err(ScriptError::BadLine(number)) => return Ending::BadLine(number),
    };
    match play_script(rt, alloc, limits, script, writer) {
        Ok(()) => Ending::Done,
        Err(PrintError::NoMemory) => Ending::NoMemory,
        Err(PrintError::Unwritable) => Ending::Failed,
    }
}

/// Reads a script to its end, replays it, and prints the outputs. A script that is read only in part isn't replayed.
pub fn replay<T: Threads + Sync, R: Read, W: Write>(
    rt: &T,
    alloc: Global,
    limits: Limits,
    reader: &mut R,
    writer: &mut W,
) -> Ending
    ensures { IfSome (R.remaining reader.old)
        (λ text. EndsReplay result text (W.contents writer.old) (W.contents writer.new)) }
{
    let mut text = Vec::new(alloc);
    if let Err(error) = reader.read_to_end(&mut text) {
        return if error.kind() == ErrorKind::OutOfMemory {
            Ending::NoMemory
        } else {
            Ending::Failed
        };
    }
    let ending = replay_text(rt, alloc, limits, text.as_slice(), writer);
    match writer.flush() {
        Ok(()) => ending,
        Err(_) => Ending::Failed,
    }
}

/// Replays a script: prints the outputs, and writes what went wrong to standard error. Returns the exit status.
///
/// What is printed doesn't depend on `limits`, which say how many threads share the work, and how much of it at a time.
pub fn replay_on<T: Threads + Sync, R: Read, W: Write, E: Write>(
    rt: &T,
    alloc: Global,
    limits: Limits,
    reader: &mut R,
    writer: &mut W,
    errors: &mut E,
) -> u8
    ensures ends { IfSome (R.remaining reader.old)
        (λ text. EndsReplayWith result text (W.contents writer.old) (W.contents writer.new)) }
    ensures quiet { result ≡ 0 → errors.new ≡ errors.old }
{
    let ending = replay(rt, alloc, limits, reader, writer);
    if ending != Ending::Done {
        // If standard error can't be written, only the status tells the failure.
        let _ = ending.tell(errors);
    }
    ending.status()
}
