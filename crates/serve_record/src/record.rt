//! A record of what comes, as a script for `replay`.

ghost use Rattle.std.specs.Prelude.{◌≡◌, ◌++◌, ℕ, List, Some, true, IfSome, IsOk, OnOk};
ghost use Rattle.std.specs.Io.KnownBytes.{Appends};
ghost use Rattle.serve_options.specs.Values.{dialect_of};
ghost use Rattle.serve_record.specs.Lines.{port_words, address_words, session_digits, message_line, message_lines, number_lines, timeouts_line, bounded_lines, secret_line, super_line, AreLinesOf};
ghost use Rattle.serve_record.specs.Records.{GainsLines};

use intake::Message;
use observer_core::Settings;
use replay_script::put_hex;
use serve_options::release_of;
use settings::TimeoutBounds;
use std::alloc::Global;
use std::io::Write;
use std::marker::Model;
use values::{NoMemory, Text};

fn put(out: &mut Vec<u8>, text: &[u8]) -> Result<(), NoMemory>
    ensures { OnOk result (out.new.items ≡ out.old.items ++ text.now) }
{
    out.extend_from_slice(text)?;
    Ok(())
}

// Appends the sender: the leader, or a client by its number.
fn put_port(out: &mut Vec<u8>, port: usize) -> Result<(), NoMemory>
    ensures { OnOk result (out.new.items ≡ out.old.items ++ port_words port) }
{
    if port == 0 {
        return put(out, b"leader ");
    }
    match write!(out, "client {port} ") {
        Ok(()) => Ok(()),
        Err(_) => Err(NoMemory),
    }
}

// Appends the address of a client whose connection is open, if it is known.
fn put_address(out: &mut Vec<u8>, port: usize, address: &Option<Text>) -> Result<(), NoMemory>
    ensures { OnOk result (out.new.items ≡ out.old.items ++ address_words port address.now) }
{
    let Some(address) = address else {
        return Ok(());
    };
    if port > 0 {
        put(out, b" ")?;
        return put(out, address.as_str().as_bytes());
    }
    Ok(())
}

#[tactic(auto, unfolding(crate::specs::Lines::session_digits))]
fn put_session(out: &mut Vec<u8>, session: i64) -> Result<(), NoMemory>
    ensures { OnOk result (out.new.items ≡ out.old.items ++ session_digits session) }
{
    put_hex(out, &session.to_be_bytes())
}

/// Appends the line of a message. A refused allocation leaves a part of it appended.
pub fn put_message(out: &mut Vec<u8>, port: usize, message: &Message) -> Result<(), NoMemory>
    ensures { OnOk result (out.new.items ≡ out.old.items ++ message_line port message.now) }
{
    match message {
        Message::Up(address) => {
            put_port(out, port)?;
            put(out, b"up")?;
            put_address(out, port, address)?;
            put(out, b"\n")
        }
        Message::Bytes(bytes) => {
            put_port(out, port)?;
            put_hex(out, bytes.as_slice())?;
            put(out, b"\n")
        }
        Message::End => {
            put_port(out, port)?;
            put(out, b"end\n")
        }
        Message::Checkpoint => put(out, b"checkpoint\n"),
        Message::Expire(session) => {
            put(out, b"expire ")?;
            put_session(out, *session)?;
            put(out, b"\n")
        }
    }
}

// Appends the lines of the settings that every observer has.
fn put_numbers(out: &mut Vec<u8>, settings: &Settings) -> Result<(), NoMemory>
    ensures { OnOk result ((release : List ℕ) × (dialect_of release ≡ Some settings.now.dialect)
        × (out.new.items ≡ out.old.items ++ number_lines settings.now release)) }
{
    let number = settings.server_id.number();
    let release = release_of(settings.dialect);
    let first_counter = settings.first_counter.number();
    match write!(
        out,
        "server {number}\ndialect {release}\ncounter {first_counter}\n"
    ) {
        Ok(()) => Ok(()),
        Err(_) => Err(NoMemory),
    }
}

// Appends the line of the bounds of timeouts, if they aren't those of every script.
fn put_timeouts(out: &mut Vec<u8>, timeouts: TimeoutBounds) -> Result<(), NoMemory>
    ensures { OnOk result (out.new.items ≡ out.old.items ++ timeouts_line timeouts) }
{
    let least = timeouts.least();
    let greatest = timeouts.greatest();
    let usual = TimeoutBounds::default();
    if least == usual.least() && greatest == usual.greatest() {
        return Ok(());
    }
    match write!(out, "timeouts {least} {greatest}\n") {
        Ok(()) => Ok(()),
        Err(_) => Err(NoMemory),
    }
}

fn put_secret(out: &mut Vec<u8>, secret: &[u8]) -> Result<(), NoMemory>
    ensures { OnOk result (out.new.items ≡ out.old.items ++ secret_line secret.now) }
{
    if secret.is_empty() {
        return Ok(());
    }
    put(out, b"secret ")?;
    put_hex(out, secret)?;
    put(out, b"\n")
}

// Appends the lines of the settings that every observer has, and of the bounds of timeouts.
#[tactic(auto, unfolding(crate::specs::Lines::bounded_lines))]
fn put_bounded(out: &mut Vec<u8>, settings: &Settings) -> Result<(), NoMemory>
    ensures { OnOk result ((release : List ℕ) × (dialect_of release ≡ Some settings.now.dialect)
        × (out.new.items ≡ out.old.items ++ bounded_lines settings.now release)) }
{
    put_numbers(out, settings)?;
    put_timeouts(out, settings.timeouts)
}

// Appends the lines of settings.
fn put_settings(out: &mut Vec<u8>, settings: &Settings) -> Result<(), NoMemory>
    ensures { OnOk result ((lines : List ℕ) × AreLinesOf settings.now lines
        × (out.new.items ≡ out.old.items ++ lines)) }
{
    put_bounded(out, settings)?;
    put_secret(out, settings.secret.as_slice())?;
    put_super(out, settings)
}

// Appends the line of the super user's digest, if there is one.
fn put_super(out: &mut Vec<u8>, settings: &Settings) -> Result<(), NoMemory>
    ensures { OnOk result (out.new.items ≡ out.old.items ++ super_line settings.now.super_digest) }
{
    let Some(digest) = &settings.super_digest else {
        return Ok(());
    };
    put(out, b"super ")?;
    put(out, digest.as_str().as_bytes())?;
    put(out, b"\n")
}

// Appends the lines of messages.
fn put_all(out: &mut Vec<u8>, messages: &[(usize, Message)]) -> Result<(), NoMemory>
    ensures { OnOk result (out.new.items ≡ out.old.items ++ message_lines messages.now) }
{
    for (port, message) in messages {
        put_message(out, *port, message)?;
    }
    Ok(())
}

// Writes the lines, and returns the writer if they were made and could be written.
fn written<W: Write + Drop>(writer: W, lines: &[u8], made: Result<(), NoMemory>) -> Option<W>
    ensures { IfSome result (λ after. IsOk made × Appends (W.contents writer) (W.contents after) lines.now) }
{
    let mut writer = writer;
    if made.is_err() || writer.write_all(lines).is_err() {
        return None;
    }
    Some(writer)
}

/// The record, as long as it can be written.
#[derive(Drop)]
pub struct Record<W> {
    // The lines of one call. Between calls there are none.
    lines: Vec<u8>,
    writer: Option<W>,
    is_whole: bool,
}

impl<W> Model for Record<W> {
    ghost use Rattle.std.specs.Prelude.{◌≡◌, []};
    ghost use Rattle.serve_record.specs.Records.{Recorded};

    ghost Value = { Recorded W };

    ghost view = { λ r. record { writer = r.writer; is_whole = r.is_whole } };

    ghost invariant = { λ r. r.lines.items ≡ [] };
}

impl<W: Write + Drop> Record<W> {
    /// A record, or none if there is no writer.
    pub fn new(alloc: Global, writer: Option<W>) -> Record<W>
        ensures { result ≡ record { writer = writer; is_whole = true } }
    {
        Record {
            lines: Vec::new(alloc),
            writer,
            is_whole: true,
        }
    }

    /// Whether everything was recorded.
    pub fn is_whole(&self) -> bool
        ensures { result ≡ self.now.is_whole }
    {
        self.is_whole
    }

    /// Records the observer's settings that aren't those of every script: its id, the dialect, the counter after which
    /// its session ids begin, the bounds of timeouts if they are others, and the secret of passwords and the super
    /// user's digest, if there are any. If they can't be made or written, the record has ended.
    pub fn begin(&mut self, settings: &Settings)
        ensures { GainsLines W.contents (AreLinesOf settings.now) self.old self.new }
    {
        let Some(writer) = self.writer.take() else {
            return;
        };
        let made = put_settings(&mut self.lines, settings);
        self.writer = written(writer, self.lines.as_slice(), made);
        self.lines.clear();
        if self.writer.is_none() {
            self.is_whole = false;
        }
    }

    /// Records messages. If they can't be made or written, the record has ended.
    pub fn add(&mut self, messages: &[(usize, Message)])
        ensures { GainsLines W.contents (λ lines. lines ≡ message_lines messages.now) self.old self.new }
    {
        if messages.is_empty() {
            return;
        }
        let Some(writer) = self.writer.take() else {
            return;
        };
        let made = put_all(&mut self.lines, messages);
        self.writer = written(writer, self.lines.as_slice(), made);
        self.lines.clear();
        if self.writer.is_none() {
            self.is_whole = false;
        }
    }
}
