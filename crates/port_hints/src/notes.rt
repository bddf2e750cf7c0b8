//! What a turn notes about the ports.

ghost use Rattle.std.specs.Prelude.{◌≡◌, ◌+◌, ◌%◌, ◌^◌, []};

use std::alloc::Global;
use values::NoMemory;

/// Ports by number. Each list has capacity for all open ports, so a turn allocates nothing for them.
#[derive(Drop)]
pub struct Notes {
    /// The turn's number; it ensures that a port is noted once a turn.
    pub turn: u64,
    /// The ports whose threads are to be told: they got outputs, or messages of theirs were taken.
    pub told: Vec<usize>,
    /// The ports whose `End` was taken.
    pub ended: Vec<usize>,
    /// The ports to which an output was put that closes the connection.
    pub closing: Vec<usize>,
    /// The number of bytes put to clients since the last messages were taken.
    pub answered: usize,
}

impl Notes {
    pub fn new(alloc: Global) -> Notes
        ensures told { (result.told.items ≡ []) × (result.ended.items ≡ []) × (result.closing.items ≡ []) }
        ensures counts { (result.turn ≡ 0) × (result.answered ≡ 0) }
    {
        Notes {
            turn: 0,
            told: Vec::new(alloc),
            ended: Vec::new(alloc),
            closing: Vec::new(alloc),
            answered: 0,
        }
    }

    /// Makes room for this many ports.
    pub fn reserve(&mut self, ports: usize) -> Result<(), NoMemory>
        ensures told { self.new.told.items ≡ self.old.told.items }
        ensures ended { self.new.ended.items ≡ self.old.ended.items }
        ensures closing { self.new.closing.items ≡ self.old.closing.items }
        ensures counts { (self.new.turn ≡ self.old.turn) × (self.new.answered ≡ self.old.answered) }
    {
        reserve(&mut self.told, ports)?;
        reserve(&mut self.ended, ports)?;
        reserve(&mut self.closing, ports)
    }

    /// Begins another turn.
    pub fn begin(&mut self)
        ensures told { (self.new.told.items ≡ []) × (self.new.ended.items ≡ []) × (self.new.closing.items ≡ []) }
        ensures turn { self.new.turn ≡ (self.old.turn + 1) % 2 ^ 64 }
        ensures answered { self.new.answered ≡ self.old.answered }
    {
        self.turn = self.turn.wrapping_add(1);
        self.told.clear();
        self.ended.clear();
        self.closing.clear();
    }
}

/// Makes room for this many numbers in all.
pub fn reserve(numbers: &mut Vec<usize>, count: usize) -> Result<(), NoMemory>
    ensures { numbers.new.items ≡ numbers.old.items }
{
    Ok(numbers.reserve(count.saturating_sub(numbers.len()))?)
}
