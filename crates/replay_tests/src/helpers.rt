//! Helpers of the tests.

use auditing::audit_on;
use observer_core::{Output, default_limits};
use replay::{Command, Source, command_of, put_end, put_output, replay_on};
use replay_script::{Script, ScriptError, parse, put_hex};
use std::alloc::Global;
use std::io::{Read, Write};
use std::thread::Threads;
use values::NoMemory;

/// Reads a script.
pub fn read(alloc: Global, text: &[u8]) -> Result<Script, ScriptError> {
    parse(alloc, text)
}

/// Appends digits.
pub fn put_digits(out: &mut Vec<u8>, bytes: &[u8]) -> Result<(), NoMemory> {
    put_hex(out, bytes)
}

/// Replays a script.
pub fn replayed<T: Threads + Sync, R: Read, W: Write, E: Write>(
    rt: &T,
    alloc: Global,
    reader: &mut R,
    writer: &mut W,
    errors: &mut E,
) -> u8 {
    replay_on(rt, alloc, default_limits(), reader, writer, errors)
}

/// Appends the lines of outputs, and the end line.
pub fn put_lines(
    out: &mut Vec<u8>,
    outputs: &[Output],
    zxid: i64,
    paths: usize,
) -> Result<(), NoMemory> {
    for output in outputs {
        put_output(out, output)?;
    }
    put_end(out, zxid, paths)
}

/// Audits a script.
pub fn audited<R: Read, W: Write, E: Write>(
    alloc: Global,
    reader: &mut R,
    path: &str,
    writer: &mut W,
    errors: &mut E,
) -> u8 {
    audit_on(alloc, reader, path, writer, errors)
}

/// The name of a source: a file's, and `-` for standard input.
pub fn file_of(source: Source<'_>) -> &str {
    match source {
        Source::Input => "-",
        Source::File(name) => name.as_str(),
    }
}

/// The script of a command line, replayed or audited, and the path of an audit. Each is empty if there is none.
pub fn named(words: &[String]) -> (&str, &str) {
    match command_of(words) {
        None => ("", ""),
        Some(Command::Replay { source, .. }) => (file_of(source), ""),
        Some(Command::Audit(source, path)) => (file_of(source), path.as_str()),
    }
}

/// The number of workers and the most transactions of a batch, of a command line that replays.
pub fn limited(words: &[String]) -> Option<(usize, usize)> {
    match command_of(words)? {
        Command::Replay { limits, .. } => Some((limits.workers(), limits.batch())),
        Command::Audit(..) => None,
    }
}
