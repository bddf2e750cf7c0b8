//! Readers that wait, and writers that are closed.

ghost use Rattle.std.specs.Prelude.{◌≡◌, ⊤, IfErr};
ghost use Rattle.std.specs.Io.KnownBytes.{Keeps};
ghost use Rattle.std.specs.IoError.{error_kind};

use std::io;
use std::io::{ErrorKind, Read, Write};

/// A reader that waits for what its thread can go on with.
pub trait Rest: Read {
    // Whether no thread is left that takes what the session sends, where a reader tells it.
    ghost abandoned: { Self → Type 0 } = { λ _. ⊤ };

    /// Waits up to this many milliseconds: for bytes, for room to write, or for the hub. It may return early. An error
    /// that isn't passing ends the session.
    fn rest(&mut self, longest: u64) -> io::Result<()>
        ensures kept { Keeps (Self.remaining self.old) (Self.remaining self.new) }
        ensures abandoned { IfErr result (λ e. error_kind e ≡ ErrorKind.ConnectionAborted → abandoned self.new) };

    /// Whether the hub has the session close soon.
    fn is_hurried(&self) -> bool;
}

/// A writer that is closed, so that its peer sees an end.
pub trait Close: Write {
    // Whether a writer was closed in this state, where that is told.
    ghost closed: { Self → Type 0 } = { λ _. ⊤ };

    /// Closes it.
    fn close(self)
        ensures { closed self };
}
