//! The observer's program: it replays and audits scripts, serves, and waits for a server.
//!
//! A replay feeds a script's events to an observer and prints the outputs; an audit prints the count of a node's
//! children from the observer's log. `serve` follows a leader and serves clients over sockets, and `wait` waits until a
//! server does.
#![tactic(auto)]

ghost use Rattle.std.specs.Prelude.{◌≡◌, ◌≢◌, IfSome, None};
ghost use Rattle.std.specs.IoError.{error_kind};
ghost use Rattle.replay.specs.Ending.{status_of};
ghost use Rattle.replay.specs.Replay.{EndsReplayWith};
ghost use Rattle.auditing.specs.Auditing.{EndsAuditWith as AuditEndsWith};

use auditing::audit_on;
use batcher::Limits;
use replay::{Command, Ending, Source, command_of, replay_on};
use serve::serve;
use serve_wait::wait;
use std::alloc::AllocError;
use std::io::{BufWriter, Error, ErrorKind, Read};
use std::process::ExitCode;
use std::thread::Threads;
use std::{env, fs};

// Ends the program when no script was read.
fn fail(rt: &HostRuntime, ending: Ending) -> u8
    ensures { result ≡ status_of ending }
{
    let _ = ending.tell(&mut rt.stderr());
    ending.status()
}

fn usage(rt: &HostRuntime) -> u8
    ensures { result ≡ 2 }
{
    let _ = eprintln!(rt; "usage");
    2
}

// The ending after a failed system call.
fn ending_of(error: &Error) -> Ending
    ensures no_memory { error_kind error.now ≡ ErrorKind.OutOfMemory → result ≡ Ending.NoMemory }
    ensures failed { error_kind error.now ≢ ErrorKind.OutOfMemory → result ≡ Ending.Failed }
{
    if error.kind() == ErrorKind::OutOfMemory {
        Ending::NoMemory
    } else {
        Ending::Failed
    }
}

// Returns the exit status; no contract is about the bytes on standard output. `threads` starts the workers.
fn replay_from<T: Threads + Sync, R: Read>(
    rt: &HostRuntime,
    threads: &T,
    limits: Limits,
    reader: &mut R,
) -> u8
    ensures { IfSome (R.remaining reader.old) (λ text. EndsReplayWith result text None None) }
{
    match BufWriter::new(rt.alloc(), rt.stdout()) {
        Ok(mut writer) => replay_on(
            threads,
            rt.alloc(),
            limits,
            reader,
            &mut writer,
            &mut rt.stderr(),
        ),
        Err(_) => fail(rt, Ending::NoMemory),
    }
}

// The same for an audit.
fn audit_from<R: Read>(rt: &HostRuntime, reader: &mut R, path: &str) -> u8
    ensures { IfSome (R.remaining reader.old) (λ text. AuditEndsWith result text path.now None None) }
{
    match BufWriter::new(rt.alloc(), rt.stdout()) {
        Ok(mut writer) => audit_on(rt.alloc(), reader, path, &mut writer, &mut rt.stderr()),
        Err(_) => fail(rt, Ending::NoMemory),
    }
}

fn replay_source<T: Threads + Sync>(
    rt: &HostRuntime,
    threads: &T,
    source: Source<'_>,
    limits: Limits,
) -> u8 {
    match source {
        Source::Input => replay_from(rt, threads, limits, &mut rt.stdin()),
        Source::File(name) => match fs::File::open(rt, name.as_str()) {
            Ok(mut file) => replay_from(rt, threads, limits, &mut file),
            Err(error) => fail(rt, ending_of(&error)),
        },
    }
}

fn audit_source(rt: &HostRuntime, source: Source<'_>, path: &str) -> u8 {
    match source {
        Source::Input => audit_from(rt, &mut rt.stdin(), path),
        Source::File(name) => match fs::File::open(rt, name.as_str()) {
            Ok(mut file) => audit_from(rt, &mut file, path),
            Err(error) => fail(rt, ending_of(&error)),
        },
    }
}

// The words after the program's name.
fn words(rt: &HostRuntime) -> Result<Vec<String>, Error> {
    let mut words = Vec::new(rt.alloc());
    for word in env::args(rt)?.skip(1) {
        words.push(word).map_err(AllocError::from)?;
    }
    Ok(words)
}

// Ends the program when the words can't be read.
fn wordless(rt: &HostRuntime, error: &Error) -> u8 {
    match ending_of(error) {
        Ending::NoMemory => fail(rt, Ending::NoMemory),
        Ending::Done | Ending::BadLine(_) | Ending::Failed | Ending::NotClean | Ending::NoNode =>
            usage(rt),
    }
}

// Runs a command that needs no sockets.
fn run<T: Threads + Sync>(rt: &HostRuntime, threads: &T, words: &[String]) -> u8 {
    match command_of(words) {
        Some(Command::Replay { source, limits }) => replay_source(rt, threads, source, limits),
        Some(Command::Audit(source, path)) => audit_source(rt, source, path.as_str()),
        None => usage(rt),
    }
}

fn main(rt: HostRuntime) -> ExitCode {
    let words = match words(&rt) {
        Ok(words) => words,
        Err(error) => return ExitCode::from(wordless(&rt, &error)),
    };
    if let [command, options @ ..] = words.as_slice() {
        if command.as_str() == "serve" {
            return ExitCode::from(serve(&rt, rt.alloc(), options));
        }
        if command.as_str() == "wait" {
            return ExitCode::from(wait(&rt, options, &mut rt.stderr()));
        }
    }
    ExitCode::from(run(&rt, &rt, words.as_slice()))
}
