//! A script that is fed to an observer whose log is audited.

ghost use Rattle.std.specs.Prelude.{◌≡◌, ◌≢◌, Some, Err, IsOk, IfOk, IfSome};
ghost use Rattle.learner_sync.specs.Learn.{whole_log};
ghost use Rattle.observer_core.specs.Machine.{Machine as TheMachine};
ghost use Rattle.auditing.specs.Auditing.{is_checkpoint, fed_events, log_after, log_of, AuditsLog, PrintsCount, EndsAudit, EndsAuditWith};
ghost use Rattle.auditing.specs.declared.auditing.Uncounted.TheVariants as uncounted;

use audit::{AuditError, audit_stat};
use observer_core::{Engine, Event, Settings, Stop, default_limits};
use replay::{Ending, engine_of, event_of, put_count, write_whole};
use replay_script::{Script, ScriptError, ScriptEvent, parse};
use std::alloc::Global;
use std::io::{ErrorKind, Read, Write};
use values::NoMemory;

/// The reason why a script has no count.
#[derive(Clone, Copy, Debug, PartialEq, Eq)]
pub enum Uncounted {
    /// The log isn't clean, or an image or a TRUNC took effect.
    NotClean,
    /// An allocation was refused.
    NoMemory,
}

impl From<NoMemory> for Uncounted {
    ghost from_gives = { λ _ e. e ≡ uncounted.NoMemory };

    fn from(_e: NoMemory) -> Uncounted {
        Uncounted::NoMemory
    }
}

fn is_checkpoint(event: &ScriptEvent) -> bool
    ensures { result ≡ is_checkpoint event.now }
{
    match event {
        ScriptEvent::Checkpoint => true,
        ScriptEvent::LeaderUp
        | ScriptEvent::LeaderBytes(_)
        | ScriptEvent::LeaderEnd
        | ScriptEvent::ClientUp(_, _)
        | ScriptEvent::ClientBytes(_, _)
        | ScriptEvent::ClientEnd(_)
        | ScriptEvent::Expire(_) => false,
    }
}

fn fed_events(alloc: Global, script: &[ScriptEvent]) -> Result<Vec<Event<'_>>, NoMemory>
    ensures { IfOk result (λ events. events.items ≡ fed_events script.now) }
{
    let mut events = Vec::new(alloc);
    for event in script {
        if !is_checkpoint(event) {
            events.push(event_of(event))?;
        }
    }
    Ok(events)
}

// Audits the log of an engine that was fed.
fn audit_fed(
    alloc: Global,
    engine: &Engine,
    fed: Result<(), Stop>,
    path: &str,
) -> Result<Option<(i32, i64)>, Uncounted>
    ensures fed { result ≢ Err uncounted.NoMemory → IsOk fed }
    ensures audited { (m : TheMachine) → engine.now ≡ Some m
        → AuditsLog (whole_log m.world.replica.learner) path.now result }
{
    if fed.is_err() {
        return Err(Uncounted::NoMemory);
    }
    let Some(log) = engine.learner().log() else {
        return Err(Uncounted::NotClean);
    };
    match audit_stat(alloc, log, path) {
        Ok(found) => Ok(found),
        Err(AuditError::NotClean(_)) => Err(Uncounted::NotClean),
        Err(AuditError::NoMemory) => Err(Uncounted::NoMemory),
    }
}

// Feeds the events to an observer, and audits its log. The observer is dropped at the single end of this function, and
// nowhere else: each drop of it is proved anew.
fn feed(
    alloc: Global,
    mut engine: Engine,
    events: &[Event<'_>],
    path: &str,
) -> Result<Option<(i32, i64)>, Uncounted>
    ensures { (m : TheMachine) → engine ≡ Some m → AuditsLog (log_after m events.now) path.now result }
{
    let mut outputs = Vec::new(alloc);
    let fed = engine.feed_inline(alloc, events, &mut outputs);
    audit_fed(alloc, &engine, fed, path)
}

// Feeds a script's events except its checkpoints to its observer, and audits the log.
fn audit_script(alloc: Global, script: Script, path: &str) -> Result<Option<(i32, i64)>, Uncounted>
    ensures { AuditsLog (log_of script) path.now result }
{
    let Script {
        server_id,
        first_counter,
        epochs,
        timeouts,
        secret,
        dialect,
        super_digest,
        primed,
        events,
    } = script;
    let events = fed_events(alloc, events.as_slice())?;
    let settings = Settings {
        server_id,
        epochs,
        timeouts,
        secret,
        first_counter,
        dialect,
        super_digest,
    };
    let engine = engine_of(alloc, primed, settings, default_limits())?;
    feed(alloc, engine, events.as_slice(), path)
}

fn print_count<W: Write>(alloc: Global, cversion: i32, pzxid: i64, writer: &mut W) -> Ending
    ensures { PrintsCount result cversion pzxid (W.contents writer.old) (W.contents writer.new) }
{
    let mut line = Vec::new(alloc);
    if put_count(&mut line, cversion, pzxid).is_err() {
        return Ending::NoMemory;
    }
    match write_whole(writer, line.as_slice()) {
        Ok(()) => Ending::Done,
        Err(_) => Ending::Failed,
    }
}

// Audits a text, and prints the count.
fn audit_text<W: Write>(alloc: Global, text: &[u8], path: &str, writer: &mut W) -> Ending
    ensures { EndsAudit result text.now path.now (W.contents writer.old) (W.contents writer.new) }
{
    let script = match parse(alloc, text) {
        Ok(script) => script,
        Err(ScriptError::NoMemory) => return Ending::NoMemory,
        Err(ScriptError::BadLine(number)) => return Ending::BadLine(number),
    };
    match audit_script(alloc, script, path) {
        Ok(Some((cversion, pzxid))) => print_count(alloc, cversion, pzxid, writer),
        Ok(None) => Ending::NoNode,
        Err(Uncounted::NotClean) => Ending::NotClean,
        Err(Uncounted::NoMemory) => Ending::NoMemory,
    }
}

// Reads a script to its end, audits it, and prints the count. A script that is read only in part isn't audited.
fn audit<R: Read, W: Write>(alloc: Global, reader: &mut R, path: &str, writer: &mut W) -> Ending
    ensures { IfSome (R.remaining reader.old)
        (λ text. EndsAudit result text path.now (W.contents writer.old) (W.contents writer.new)) }
{
    let mut text = Vec::new(alloc);
    if let Err(error) = reader.read_to_end(&mut text) {
        return if error.kind() == ErrorKind::OutOfMemory {
            Ending::NoMemory
        } else {
            Ending::Failed
        };
    }
    let ending = audit_text(alloc, text.as_slice(), path, writer);
    match writer.flush() {
        Ok(()) => ending,
        Err(_) => Ending::Failed,
    }
}

/// Audits a script: prints the count of the node at the path, and writes what went wrong to standard error. Returns the
/// exit status.
pub fn audit_on<R: Read, W: Write, E: Write>(
    alloc: Global,
    reader: &mut R,
    path: &str,
    writer: &mut W,
    errors: &mut E,
) -> u8
    ensures ends { IfSome (R.remaining reader.old)
        (λ text. EndsAuditWith result text path.now (W.contents writer.old) (W.contents writer.new)) }
    ensures quiet { result ≡ 0 → errors.new ≡ errors.old }
{
    let ending = audit(alloc, reader, path, writer);
    if ending != Ending::Done {
        // If standard error can't be written, only the status tells the failure.
        let _ = ending.tell(errors);
    }
    ending.status()
}
