//! How a wait ends.

ghost use Rattle.std.specs.Prelude.{◌≡◌, IsOk, OnOk};
ghost use Rattle.std.specs.Io.KnownBytes.{Appends};
ghost use Rattle.serve_wait.specs.Ending.{late_line, obstacle_word, wait_status_of, wait_message_of};

use std::io;
use std::io::Write;
use values::Str;

/// Why a server wasn't found to serve.
#[derive(Clone, Copy, Debug, PartialEq, Eq)]
pub enum Obstacle {
    /// Its name can't be resolved.
    UnknownName,
    /// It didn't accept a connection in time.
    NoConnection,
    /// It didn't answer in time, or its connection ended.
    NoAnswer,
    /// It answered that it doesn't serve clients.
    NotServing,
}

impl Obstacle {
    /// What the line on standard error calls it.
    pub fn word(self) -> &'static str
        ensures { result.now ≡ obstacle_word self }
    {
        match self {
            Obstacle::UnknownName => "unknown name",
            Obstacle::NoConnection => "no connection",
            Obstacle::NoAnswer => "no answer",
            Obstacle::NotServing => "not serving",
        }
    }
}

// Writes the line of a wait whose time is over.
fn tell_late<E: Write>(writer: &mut E, address: &str, seconds: u64, why: &str) -> io::Result<()>
    ensures { OnOk result
        (Appends (E.contents writer.old) (E.contents writer.new) (late_line address.now seconds why.now)) }
{
    writeln!(
        writer,
        "observer: {address} isn't serving after {seconds} s ({why})"
    )
}

/// How a wait ended.
#[derive(Drop)]
pub enum WaitEnding<'a> {
    /// The server serves clients.
    Serving,
    /// The words aren't a command line.
    Usage,
    /// An allocation was refused.
    NoMemory,
    /// The time is over.
    Late {
        address: Str<'a>,
        seconds: u64,
        obstacle: Obstacle,
    },
}

impl<'a> WaitEnding<'a> {
    /// The exit status.
    pub fn status(&self) -> u8
        ensures { result ≡ wait_status_of self.now }
    {
        match self {
            WaitEnding::Serving => 0,
            WaitEnding::Usage => 2,
            WaitEnding::NoMemory => 4,
            WaitEnding::Late { .. } => 8,
        }
    }

    /// Writes the message for standard error: nothing if the server serves, and one line otherwise.
    pub fn tell<E: Write>(&self, writer: &mut E) -> io::Result<()>
        ensures written { OnOk result
            (Appends (E.contents writer.old) (E.contents writer.new) (wait_message_of self.now)) }
        ensures serving { self.now ≡ WaitEnding.Serving → IsOk result }
    {
        match self {
            WaitEnding::Serving => Ok(()),
            WaitEnding::Usage => writeln!(writer, "usage: wait HOST:PORT [--seconds N]"),
            WaitEnding::NoMemory => writeln!(writer, "no memory"),
            WaitEnding::Late {
                address,
                seconds,
                obstacle,
            } => tell_late(writer, address.as_str(), *seconds, obstacle.word()),
        }
    }
}
