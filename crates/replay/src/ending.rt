//! The end of a replay or an audit.

ghost use Rattle.std.specs.Prelude.{◌≡◌, IsOk, OnOk};
ghost use Rattle.std.specs.Io.KnownBytes.{Appends};
ghost use Rattle.replay.specs.Ending.{status_of, message_of};

use std::io;
use std::io::Write;

/// How a replay or an audit ended.
#[derive(Clone, Copy, Debug, PartialEq, Eq)]
pub enum Ending {
    /// Everything was fed and printed.
    Done,
    /// The text isn't a script; this is the number of its first bad line.
    BadLine(u64),
    /// A file couldn't be opened or read, or the output couldn't be written.
    Failed,
    /// An allocation was refused.
    NoMemory,
    /// The log isn't clean, or doesn't begin with the fresh tree: it has no count.
    NotClean,
    /// There is no node at the path.
    NoNode,
}

impl Ending {
    /// The exit status.
    pub fn status(self) -> u8
        ensures { result ≡ status_of self }
    {
        match self {
            Ending::Done => 0,
            Ending::BadLine(_) => 1,
            Ending::Failed => 3,
            Ending::NoMemory => 4,
            Ending::NotClean => 5,
            Ending::NoNode => 6,
        }
    }

    /// Writes the message for standard error: nothing after success, and one line otherwise.
    pub fn tell<E: Write>(self, writer: &mut E) -> io::Result<()>
        ensures written { OnOk result
            (Appends (E.contents writer.old) (E.contents writer.new) (message_of self)) }
        ensures done { self ≡ Ending.Done → IsOk result }
    {
        match self {
            Ending::Done => Ok(()),
            Ending::BadLine(number) => writeln!(writer, "line {number}: bad line"),
            Ending::Failed => writeln!(writer, "cannot open"),
            Ending::NoMemory => writeln!(writer, "no memory"),
            Ending::NotClean => writeln!(writer, "not clean"),
            Ending::NoNode => writeln!(writer, "no node"),
        }
    }
}
