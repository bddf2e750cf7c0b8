//! The bytes to send to a connection, until they are written.

ghost use Rattle.std.specs.Prelude.{◌≡◌, ◌↔◌, ◌≤◌, ◌++◌, [], true, false, IfOk, OnOk, OnErr, IsTrue, drop, length};
ghost use Rattle.std.specs.Io.KnownBytes.{WriteAppends};
ghost use Rattle.intake.specs.Ports.{unread_through};
ghost use Rattle.connection_loop.specs.Outgoing.{nothing_unwritten, with_output, HasGathered, LosesOutput};

use crate::window::Window;
use intake::Port;
use observer_core::Output;
use std::alloc::Global;
use std::io;
use std::io::Write;
use std::marker::Model;
use values::{Fault, NoMemory};

/// No more outputs are gathered once this many bytes are.
const ENOUGH: usize = 65_536;

/// A longer buffer is freed when all of it is written.
const KEPT: usize = 4096;

/// Outputs that are gathered in one buffer, and written from there.
#[derive(Drop)]
pub struct Outgoing {
    alloc: Global,
    bytes: Vec<u8>,
    // The number of bytes written.
    at: usize,
    closing: bool,
    fault: Option<Fault>,
}

impl Model for Outgoing {
    ghost use Rattle.std.specs.Prelude.{◌≤◌, drop, vec_len};
    ghost use Rattle.connection_loop.specs.Outgoing.{Unwritten};

    ghost Value = { Unwritten };

    ghost view = { λ o. record {
      bytes = drop o.at o.bytes.items;
      closing = o.closing;
      fault = o.fault;
    } };

    ghost invariant = { λ o. o.at ≤ vec_len o.bytes };
}

impl Outgoing {
    /// Nothing to write. The buffer is allocated for the first output.
    pub fn new(alloc: Global) -> Outgoing
        ensures { result ≡ nothing_unwritten }
    {
        Outgoing {
            alloc,
            bytes: Vec::new(alloc),
            at: 0,
            closing: false,
            fault: None,
        }
    }

    // The bytes that aren't written yet.
    fn unwritten(&self) -> &[u8]
        ensures { result.now ≡ self.now.bytes }
    {
        &self.bytes[self.at..]
    }

    /// Whether everything gathered is written.
    pub(crate) fn is_written(&self) -> bool
        ensures { IsTrue result ↔ (self.now.bytes ≡ []) }
    {
        self.unwritten().is_empty()
    }

    /// Whether the connection is to be closed after what was gathered.
    pub(crate) fn is_closing(&self) -> bool
        ensures { result ≡ self.now.closing }
    {
        self.closing
    }

    /// The fault for which the leader is closed.
    pub fn fault(&self) -> Option<Fault>
        ensures { result ≡ self.now.fault }
    {
        self.fault
    }

    // Empties the buffer for the next outputs.
    fn clear(&mut self)
        ensures { self.new ≡ record self.old { bytes = [] } }
    {
        if self.bytes.capacity() > KEPT {
            self.bytes = Vec::new(self.alloc);
        } else {
            self.bytes.clear();
        }
        self.at = 0;
    }

    // Adds an output. A refused allocation changes nothing.
    fn put(&mut self, output: Output) -> Result<(), NoMemory>
        ensures ok { OnOk result (self.new ≡ with_output self.old output) }
        ensures err { OnErr result (self.new ≡ self.old) }
    {
        match output {
            Output::ToLeader(bytes) | Output::ToClient(_, bytes) => {
                self.bytes.extend_from_slice(bytes.as_slice())?;
            }
            Output::CloseLeader(fault) => {
                self.closing = true;
                self.fault = Some(fault);
            }
            Output::CloseClient(_) => self.closing = true,
        }
        Ok(())
    }

    /// Gathers the port's outputs while they are few, up to one that closes the connection. All gathered before has to
    /// be written. The window counts the answers among them. Returns whether there was an output: where there was none,
    /// and the connection isn't to be closed, the port has none now. Fails only if an allocation is refused.
    pub fn gather(&mut self, port: &mut Port, window: &mut Window) -> Result<bool, NoMemory>
        requires { self.old.bytes ≡ [] }
        ensures ok { IfOk result (HasGathered self.old self.new window.old window.new port.old port.new) }
        ensures empty { IfOk result
            (λ found. found ≡ false → self.old.closing ≡ false → unread_through port.new ≡ []) }
        ensures err { OnErr result (LosesOutput self.old self.new window.old port.old port.new) }
    {
        self.clear();
        for gathered in 0..u64::MAX {
            if self.closing || self.unwritten().len() >= ENOUGH {
                return Ok(gathered > 0);
            }
            let Some(output) = port.receive() else {
                return Ok(gathered > 0);
            };
            window.note(&output);
            self.put(output)?;
        }
        Ok(true)
    }

    /// Adds the last bytes for the connection, which aren't an output's: it closes after them. Fails only if an
    /// allocation is refused, and changes nothing then.
    pub(crate) fn put_last(&mut self, bytes: &[u8]) -> Result<(), NoMemory>
        ensures ok { OnOk result (self.new ≡ record self.old { bytes = self.old.bytes ++ bytes.now; closing = true }) }
        ensures err { OnErr result (self.new ≡ self.old) }
    {
        self.bytes.extend_from_slice(bytes)?;
        self.closing = true;
        Ok(())
    }

    /// Writes the rest, as far as the writer takes it, and returns the number of bytes.
    pub(crate) fn write_to<W: Write>(&mut self, writer: &mut W) -> io::Result<usize>
        ensures written { WriteAppends (W.contents writer.old) (W.contents writer.new) result self.old.bytes }
        ensures rest { IfOk result (λ n. self.new ≡ record self.old { bytes = drop n self.old.bytes }) }
        ensures bound { IfOk result (λ n. n ≤ length self.old.bytes) }
        ensures err { OnErr result (self.new ≡ self.old) }
    {
        let count = writer.write(self.unwritten())?;
        self.at += count;
        Ok(count)
    }
}
