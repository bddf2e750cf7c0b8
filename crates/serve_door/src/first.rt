//! What a connection begins with.

ghost use Rattle.std.specs.Prelude.{◌≡◌, ◌≢◌, ◌↔◌, ◌++◌, [], IsTrue, true, false, Some, OnOk, OnErr, length, take, drop, min};
ghost use Rattle.std.specs.Io.KnownBytes.{Keeps};
ghost use Rattle.serve_door.specs.Beginnings.{begins_with_nothing, word_begun, HasRead};

use server_words::ServerWord;
use std::io;
use std::io::{ErrorKind, Read};
use std::marker::Model;

/// How many bytes are read at first: a word, or a connect.
const FIRST: usize = 64;

/// How many letters a word has.
const WORD_LEN: usize = 4;

/// The first bytes of a connection, and how many of them were given on. Its model has those that weren't, in order.
#[derive(Drop)]
pub struct First {
    bytes: [u8; FIRST],
    at: usize,
    len: usize,
    // No more come.
    is_last: bool,
}

impl Model for First {
    ghost use Rattle.std.specs.Prelude.{◌≤◌, slice_range};
    ghost use Rattle.serve_door.specs.Beginnings.{Beginning};

    ghost Value = { Beginning };

    ghost view = { λ f. record { bytes = slice_range f.bytes f.at f.len; is_last = f.is_last } };

    ghost invariant = { λ f. (f.at ≤ f.len) × (f.len ≤ 64) };
}

/// What a connection has said so far.
#[derive(Clone, Copy, Debug, PartialEq, Eq)]
pub(crate) enum Said {
    /// Fewer bytes than a word has.
    TooLittle,
    /// It has ended, or can't be read.
    Nothing,
    /// A word of the server's own that lists no clients.
    Word(ServerWord),
    /// The beginning of anything else.
    More,
}

impl First {
    /// None has come.
    pub fn new() -> First
        ensures { result ≡ begins_with_nothing false }
    {
        First {
            bytes: [0; FIRST],
            at: 0,
            len: 0,
            is_last: false,
        }
    }

    /// Whether no more bytes come.
    pub fn is_last(&self) -> bool
        ensures { result ≡ self.now.is_last }
    {
        self.is_last
    }

    /// A stream that is at its end.
    pub fn nothing() -> First
        ensures { result ≡ begins_with_nothing true }
    {
        First {
            is_last: true,
            ..First::new()
        }
    }

    fn waiting(&self) -> &[u8]
        ensures { result.now ≡ self.now.bytes }
    {
        &self.bytes[self.at..self.len]
    }

    /// Whether bytes wait to be given on.
    pub fn is_waiting(&self) -> bool
        ensures { IsTrue result ↔ (self.now.bytes ≢ []) }
    {
        self.at < self.len
    }

    /// Gives as many bytes on as there is room for, and returns how many.
    pub fn give(&mut self, buf: &mut [u8]) -> usize
        ensures count { result ≡ min (length self.old.bytes) (length buf.old) }
        ensures given { buf.new ≡ take result self.old.bytes ++ drop result buf.old }
        ensures rest { self.new ≡ record self.old { bytes = drop result self.old.bytes } }
    {
        let count = self.waiting().len().min(buf.len());
        buf[..count].copy_from_slice(&self.waiting()[..count]);
        self.at += count;
        count
    }

    // Reads more of them. Returns how many came.
    fn read_from<R: Read>(&mut self, reader: &mut R) -> io::Result<usize>
        ensures read { OnOk result (HasRead self.old self.new (R.remaining reader.old) (R.remaining reader.new)) }
        ensures err { OnErr result (self.new ≡ self.old) }
        ensures unread { OnErr result (Keeps (R.remaining reader.old) (R.remaining reader.new)) }
    {
        let count = reader.read(&mut self.bytes[self.len..])?;
        self.len += count;
        Ok(count)
    }

    /// The word of the server's own with which they begin.
    pub fn word(&self) -> Option<ServerWord>
        ensures { result ≡ word_begun self.now.bytes }
    {
        let letters = self.waiting().first_chunk::<WORD_LEN>()?;
        ServerWord::from_bytes(*letters)
    }

    // What they are the beginning of, once a word could be told.
    fn said(&self) -> Said
        ensures { (word : ServerWord) → result ≡ Said.Word word → word_begun self.now.bytes ≡ Some word }
    {
        match self.word() {
            Some(word) if !word.lists_clients() => Said::Word(word),
            _ => Said::More,
        }
    }

    /// Reads what has come, until a word could be told.
    pub(crate) fn hear<R: Read>(&mut self, reader: &mut R) -> Said
        ensures read { HasRead self.old self.new (R.remaining reader.old) (R.remaining reader.new) }
        ensures word { (word : ServerWord) → result ≡ Said.Word word → word_begun self.new.bytes ≡ Some word }
    {
        // Each step but the last takes a byte, or is one that the system interrupted.
        for _ in 0..2 * WORD_LEN {
            if self.waiting().len() >= WORD_LEN {
                return self.said();
            }
            match self.read_from(reader) {
                Ok(0) => return Said::Nothing,
                Ok(_) => {}
                Err(error) => match error.kind() {
                    ErrorKind::Interrupted => {}
                    ErrorKind::WouldBlock | ErrorKind::TimedOut => return Said::TooLittle,
                    _ => return Said::Nothing,
                },
            }
        }
        self.said()
    }
}
