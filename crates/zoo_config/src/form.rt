//! The form of a configuration file, which is that of Java's properties.

ghost use Rattle.std.specs.Prelude.{◌≡◌, ◌++◌, None, map, option_map, position, string_bytes, IfOk, OnOk};
ghost use Rattle.std.specs.List.{position_or_len, flat_map};
ghost use Rattle.std.specs.Str.{IsUtf8};
ghost use Rattle.std.specs.Str.{trim_start};
ghost use Rattle.std.specs.Str.Lines.{lines};
ghost use Rattle.zoo_config.specs.Form.{ends_key, begins_with_sign, without_sign, entry_value, is_remark, line_front, joined_line, part_of, entry_of, line_after, ended_entries, entries_after, entries_of, short_lines, all_lines, latin_text};

use crate::joined::Joined;
use std::alloc::{AllocError, Global};
use values::{NoMemory, Text};

/// A key and its value, and the number of the line that they begin at.
#[derive(Debug, Drop)]
pub struct Entry {
    /// Every line counts, from 1.
    pub line: u64,
    pub key: Text,
    pub value: Text,
}

/// What a line is to the lines around it.
#[derive(Drop)]
pub enum Part {
    /// A comment, or nothing.
    Remark,
    /// The next line is joined to it.
    GoesOn(Joined),
    /// An entry ends with it.
    Ends(Joined),
}

fn ends_key(byte: u8) -> bool
    ensures { result ≡ ends_key byte }
{
    byte == b'=' || byte == b':' || byte.is_ascii_whitespace()
}

fn key_end(text: &[u8]) -> Option<usize>
    ensures { result ≡ position ends_key text.now }
{
    text.iter().position(|byte| ends_key(*byte))
}

// Where the key of a line ends.
fn key_length(text: &str) -> usize
    ensures { result ≡ position_or_len ends_key text.now }
{
    match key_end(text.as_bytes()) {
        Some(place) => place,
        None => text.len(),
    }
}

fn begins_with_sign(text: &str) -> bool
    ensures { result ≡ begins_with_sign text.now }
{
    matches!(text.as_bytes().first(), Some(b'=' | b':'))
}

// The text without a sign in front.
fn without_sign(text: &str) -> &str
    ensures { result.now ≡ without_sign text.now }
{
    if begins_with_sign(text) {
        return &text[1..];
    }
    text
}

// The value after a key: a sign between them, and the blanks around it and at the end are dropped.
fn value_in(text: &str) -> &str
    ensures { result.now ≡ entry_value text.now }
{
    without_sign(text.trim_start()).trim()
}

fn entry_of(alloc: Global, line: &Joined) -> Result<Entry, NoMemory>
    ensures { IfOk result (λ entry. entry ≡ entry_of line.now) }
{
    let text = line.text.as_str();
    let length = key_length(text);
    Ok(Entry {
        line: line.number,
        key: Text::new(alloc, &text[..length])?,
        value: Text::new(alloc, value_in(&text[length..]))?,
    })
}

// Whether a line is blank or a comment.
fn is_remark(text: &str) -> bool
    ensures { result ≡ is_remark text.now }
{
    match text.as_bytes().first() {
        None | Some(b'#' | b'!') => true,
        Some(_) => false,
    }
}

// The line without the backslash at its end, if it has one.
fn line_front(text: &str) -> Option<&str>
    ensures { option_map (λ front. front.now) result ≡ line_front text.now }
{
    text.strip_suffix('\\')
}

// The line with what stands before it, if it is joined to that.
fn joined_line(
    alloc: Global,
    before: Option<Joined>,
    number: u64,
    text: &str,
) -> Result<Joined, NoMemory>
    ensures { IfOk result (λ line. line ≡ joined_line before number text.now) }
{
    match before {
        None => Ok(Joined {
            number,
            text: String::from_str(alloc, text)?,
        }),
        Some(mut line) => {
            line.text.push_str(text)?;
            Ok(line)
        }
    }
}

// What the line of this number is, after a line that goes on or none. It has no blanks in front.
fn part_of(alloc: Global, before: Option<Joined>, number: u64, text: &str) -> Result<Part, NoMemory>
    ensures { IfOk result (λ part. part ≡ part_of before number text.now) }
{
    if before.is_none() && is_remark(text) {
        return Ok(Part::Remark);
    }
    match line_front(text) {
        Some(front) => Ok(Part::GoesOn(joined_line(alloc, before, number, front)?)),
        None => Ok(Part::Ends(joined_line(alloc, before, number, text)?)),
    }
}

// The lines that end with LF, or CR and LF.
fn long_lines_of(alloc: Global, text: &str) -> Result<Vec<&str>, AllocError>
    ensures { IfOk result (λ found. map (λ line. line.now) found.items ≡ lines text.now) }
{
    text.lines().collect(alloc)
}

// The lines of one of these, which ends with CR, too.
fn short_lines_of(alloc: Global, line: &str) -> Result<Vec<&str>, AllocError>
    ensures { IfOk result (λ found. map (λ line. line.now) found.items ≡ short_lines line.now) }
{
    line.split('\r').collect(alloc)
}

fn lines_of(alloc: Global, text: &str) -> Result<Vec<&str>, AllocError>
    ensures { IfOk result (λ found. map (λ line. line.now) found.items ≡ all_lines text.now) }
{
    let long = long_lines_of(alloc, text)?;
    let mut all = Vec::new(alloc);
    for line in long.as_slice() {
        let mut short = short_lines_of(alloc, line)?;
        all.append(&mut short)?;
    }
    Ok(all)
}

// Takes the line of this number: an entry may end with it. Returns what goes on.
fn take_line(
    alloc: Global,
    entries: &mut Vec<Entry>,
    before: Option<Joined>,
    number: u64,
    line: &str,
) -> Result<Option<Joined>, NoMemory>
    ensures after { IfOk result (λ after. after ≡ line_after (part_of before number (trim_start line.now))) }
    ensures entries { OnOk result (
        entries.new.items ≡ entries.old.items ++ ended_entries (part_of before number (trim_start line.now))) }
{
    match part_of(alloc, before, number, line.trim_start())? {
        Part::Remark => Ok(None),
        Part::GoesOn(line) => Ok(Some(line)),
        Part::Ends(line) => {
            entries.push(entry_of(alloc, &line)?)?;
            Ok(None)
        }
    }
}

// The entries of lines.
fn entries_in(alloc: Global, lines: &[&str]) -> Result<Vec<Entry>, NoMemory>
    ensures { IfOk result (λ entries. entries.items ≡ entries_after 0 None (map (λ line. line.now) lines.now)) }
{
    let mut entries = Vec::new(alloc);
    let mut before = None;
    let mut number = 0u64;
    for line in lines {
        number += 1;
        before = take_line(alloc, &mut entries, before, number, line)?;
    }
    if let Some(line) = before {
        entries.push(entry_of(alloc, &line)?)?;
    }
    Ok(entries)
}

/// The entries of a file, in their order. Fails only if an allocation is refused.
pub fn entries_of(alloc: Global, text: &str) -> Result<Vec<Entry>, NoMemory>
    ensures { IfOk result (λ entries. entries.items ≡ entries_of text.now) }
{
    let lines = lines_of(alloc, text)?;
    entries_in(alloc, lines.as_slice())
}

// The text of bytes that are letters of Latin-1.
fn latin_text(alloc: Global, bytes: &[u8]) -> Result<String, AllocError>
    ensures { IfOk result (λ text. string_bytes text ≡ latin_text bytes.now) }
{
    let mut text = String::new(alloc);
    for byte in bytes {
        text.push(char::from(*byte))?;
    }
    Ok(text)
}

/// The text of a file. Java takes each byte for a letter of Latin-1; here a file whose bytes are UTF-8 is read so.
pub fn text_of(alloc: Global, bytes: &[u8]) -> Result<String, AllocError>
    ensures utf8 { IfOk result (λ text. IsUtf8 bytes.now → string_bytes text ≡ bytes.now) }
    ensures latin { IfOk result (λ text. ¬ (IsUtf8 bytes.now) → string_bytes text ≡ latin_text bytes.now) }
{
    match str::from_utf8(bytes) {
        Ok(text) => String::from_str(alloc, text),
        Err(_) => latin_text(alloc, bytes),
    }
}
