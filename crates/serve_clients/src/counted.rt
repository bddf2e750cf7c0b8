//! A reader and a writer that count packets.

ghost use Rattle.std.specs.Prelude.{◌≡◌};
ghost use Rattle.std.specs.Io.{ReadsAtMost};
ghost use Rattle.std.specs.Io.KnownBytes.{ReadConsumes};
ghost use Rattle.serve_door.specs.Beginnings.{brought_after};

use connection_loop::{Close, Rest};
use serve_door::First;
use server_tally::{ClientTally, Found, PacketCount};
use std::io;
use std::io::{Read, Write};
use std::time::Clock;

/// A reader that begins with bytes that were read before, and counts the packets that come. It gives what a connection
/// brought, in order.
#[derive(Drop)]
pub(crate) struct CountedReader<T, R> {
    pub rt: T,
    pub reader: R,
    pub first: First,
    pub tally: Option<ClientTally>,
    pub packets: PacketCount,
}

impl<T: Clock, R> CountedReader<T, R> {
    fn note(&mut self, bytes: &[u8])
        ensures { self.new ≡ record self.old { packets = self.new.packets } }
    {
        let Found {
            packets,
            notices: _,
        } = self.packets.count(bytes);
        if let (true, Some(tally)) = (packets > 0, &self.tally) {
            tally.receive(&self.rt, packets);
        }
    }
}

impl<T: Clock, R: Read> CountedReader<T, R> {
    // The bytes that were read before come first.
    fn read_next(&mut self, buf: &mut [u8]) -> io::Result<usize>
        ensures bound { ReadsAtMost result buf.new }
        ensures bytes { ReadConsumes (brought_after self.old.first (R.remaining self.old.reader))
            (brought_after self.new.first (R.remaining self.new.reader)) result buf.new }
    {
        if self.first.is_waiting() {
            return Ok(self.first.give(buf));
        }
        if self.first.is_last() {
            return Ok(0);
        }
        self.reader.read(buf)
    }
}

impl<T: Clock, R: Read> Read for CountedReader<T, R> {
    ghost remaining = { λ c. brought_after c.first (R.remaining c.reader) };

    fn read(&mut self, buf: &mut [u8]) -> io::Result<usize> {
        let count = self.read_next(buf)?;
        self.note(&buf[..count]);
        Ok(count)
    }
}

impl<T: Clock, R: Rest> Rest for CountedReader<T, R> {
    ghost abandoned = { λ c. R.abandoned c.reader };

    fn rest(&mut self, longest: u64) -> io::Result<()> {
        self.reader.rest(longest)
    }

    fn is_hurried(&self) -> bool {
        self.reader.is_hurried()
    }
}

/// A writer that counts the packets that go.
#[derive(Drop)]
pub(crate) struct CountedWriter<T, W> {
    pub rt: T,
    pub writer: W,
    pub tally: Option<ClientTally>,
    pub packets: PacketCount,
}

impl<T: Clock, W: Write> Write for CountedWriter<T, W> {
    ghost contents = { λ c. W.contents c.writer };

    fn write(&mut self, buf: &[u8]) -> io::Result<usize> {
        let count = self.writer.write(buf)?;
        let Found { packets, notices } = self.packets.count(&buf[..count]);
        if let (true, Some(tally)) = (packets > 0, &self.tally) {
            tally.send(&self.rt, packets, packets.saturating_sub(notices));
        }
        Ok(count)
    }

    fn flush(&mut self) -> io::Result<()> {
        self.writer.flush()
    }
}

impl<T: Clock + Copy, W: Close> Close for CountedWriter<T, W> {
    ghost closed = { λ c. W.closed c.writer };

    fn close(self) {
        let CountedWriter {
            rt: _,
            writer,
            tally,
            packets: _,
        } = self;
        drop(tally);
        writer.close();
    }
}
