//! The hub's ends of all ports.

ghost use Rattle.std.specs.Prelude.{◌≡◌, ◌++◌, [], ◌∷◌, length, false, IfOk, OnOk, OnErr};
ghost use Rattle.std.specs.FinMap as finmap;
ghost use Rattle.intake.specs.Ports.{sent_through, received_through, unread_through, SamePort};
ghost use Rattle.intake.specs.Links.{taken_at, waiting_at, outbox_at, slot_at, IsEnd, AllStay, SameWait, TakesNoMessage, LooksAt, TakesSeen, PutsShares, kept_at, KeepOnlyIfFull, PutsKept, links_of};

use crate::events::port_of;
use crate::link::Link;
use crate::message::Message;
use crate::port::PortEnd;
use observer_core::Output;
use port_hints::{Marks, Notes, reserve};
use std::alloc::Global;
use std::collections::BTreeMap;
use std::marker::Model;
use values::NoMemory;

/// The hub's ends of each open port, by number. A number without an open port is ignored.
pub struct Links {
    map: BTreeMap<usize, Link>,
    // The ports for which outputs are kept, and some for which none are kept any more. It has capacity for all open
    // ports.
    keeping: Vec<usize>,
}

impl Model for Links {
    ghost use Rattle.std.specs.Coded.{coded_ℕ};
    ghost use Rattle.std.specs.FinMap as finmap;
    ghost use Rattle.intake.specs.contracts.link.Link as of_link;
    ghost use Rattle.intake.specs.Links.{Links as TheLinks, links_of, KeepersAreAmong};

    ghost Value = { TheLinks };

    ghost coded = { finmap.code coded_ℕ of_link.the_row.coded };

    ghost view = { λ l. links_of l.map };

    ghost invariant = { λ l. KeepersAreAmong l.keeping.items (links_of l.map) };
}

impl Drop for Links {
    fn drop(self) {
        let Links { map, keeping } = self;
        drop(map);
        drop(keeping);
    }
}

impl Links {
    pub fn new(alloc: Global) -> Links
        ensures { result ≡ finmap.empty }
    {
        Links {
            map: BTreeMap::new(alloc),
            keeping: Vec::new(alloc),
        }
    }

    pub fn len(&self) -> usize {
        self.map.len()
    }

    pub fn add(&mut self, number: usize, link: Link) -> Result<(), NoMemory>
        requires { link.kept.items ≡ [] }
        ensures ok { OnOk result (self.new ≡ finmap.insert self.old number link) }
        ensures err { OnErr result (self.new ≡ self.old) }
    {
        reserve(&mut self.keeping, self.map.len().saturating_add(1))?;
        self.map.insert(number, link)?;
        Ok(())
    }

    pub fn remove(&mut self, number: usize) -> Option<Link>
        ensures link { result ≡ finmap.get self.old number }
        ensures links { self.new ≡ finmap.remove self.old number }
    {
        self.map.remove(&number)
    }

    /// Puts an output to its port.
    pub fn put(&mut self, output: Output, notes: &mut Notes) -> Result<(), NoMemory>
        ensures ok { OnOk result (PutsShares self.old (output ∷ []) self.new) }
        ensures stay { AllStay self.old self.new }
    {
        let number = port_of(&output);
        self.keeping.reserve(1)?;
        match self.map.get_mut(&number) {
            None => return Ok(()),
            Some(link) => {
                let kept_before = link.keeps();
                let put = link.put(number, output, notes);
                if link.keeps() && !kept_before {
                    self.keeping.push_reserved(number);
                }
                put
            }
        }
    }

    /// Looks up the number of messages to take of the port.
    pub fn look(&mut self, number: usize) -> usize
        ensures { LooksAt (number ∷ []) self.old self.new }
    {
        match self.map.get_mut(&number) {
            None => return 0,
            Some(link) => link.look(),
        }
    }

    /// Takes the messages of the port that were seen.
    pub fn take(
        &mut self,
        number: usize,
        fresh: &mut Vec<(usize, Message)>,
        notes: &mut Notes,
    ) -> Result<(), NoMemory>
        ensures ok { OnOk result (TakesSeen number self.old fresh.old.items self.new fresh.new.items) }
        ensures stay { AllStay self.old self.new }
    {
        match self.map.get_mut(&number) {
            None => return Ok(()),
            Some(link) => link.take(number, fresh, notes),
        }
    }

    /// The number of messages of the port that were seen.
    pub fn seen(&self, number: usize) -> usize
        ensures { result ≡ length (waiting_at self.now number) }
    {
        match self.map.get(&number) {
            None => return 0,
            Some(link) => link.inbox.cached_slots(),
        }
    }

    /// The slot of the port.
    pub fn slot(&self, number: usize) -> Option<usize>
        ensures { result ≡ slot_at self.now number }
    {
        match self.map.get(&number) {
            None => return None,
            Some(link) => Some(link.slot),
        }
    }

    /// How many bytes are under way to the port.
    pub fn under_way(&self, number: usize, marks: &Marks) -> u64 {
        match self.map.get(&number) {
            None => 0,
            Some(link) => marks.under_way_to(link.slot, link.put_bytes),
        }
    }

    /// Whether `left` was asked of the port.
    pub(crate) fn is_finished(&self, number: usize) -> bool {
        match self.map.get(&number) {
            None => false,
            Some(link) => link.is_finished,
        }
    }

    /// The client's port with the most bytes under way.
    pub fn slowest(&self, marks: &Marks) -> Option<usize> {
        let mut slowest = None;
        let mut most = 0;
        for (number, link) in self.map.iter() {
            let bytes = marks.under_way_to(link.slot, link.put_bytes);
            if *number != 0 && bytes > most {
                slowest = Some(*number);
                most = bytes;
            }
        }
        slowest
    }

    /// Has the port looked at again in the next turn.
    pub fn mark(&self, number: usize, marks: &Marks) {
        if let Some(link) = self.map.get(&number) {
            marks.raise(link.slot);
        }
    }

    /// The number of messages of a finished port that weren't taken yet.
    pub fn left(&mut self, end: &mut PortEnd) -> usize
        requires { IsEnd end.old self.old }
        ensures count { result ≡ length (waiting_at self.new end.old.number) }
        ensures sent { taken_at self.new end.old.number ++ waiting_at self.new end.old.number ≡ sent_through end.new }
        ensures received { received_through end.new ++ unread_through end.new ≡ outbox_at self.new end.old.number }
        ensures links { TakesNoMessage self.old self.new }
        ensures end { SamePort end.old end.new }
    {
        match self.map.get_mut(&end.number) {
            None => return 0,
            Some(link) => link.left(end),
        }
    }

    /// Puts the outputs that are kept, as far as there is room for them.
    pub(crate) fn put_all_kept(&mut self, notes: &mut Notes) -> Result<(), NoMemory>
        ensures rests { TakesNoMessage self.old self.new }
        ensures waits { SameWait self.old self.new }
        ensures full { OnOk result (KeepOnlyIfFull self.new) }
    {
        let mut left = self.keeping.len();
        while left > 0 {
            left -= 1;
            if !put_kept(&mut self.map, self.keeping[left], notes)? {
                self.keeping.swap_remove(left);
            }
        }
        Ok(())
    }

    /// Looks up the number of messages to take of these ports.
    pub fn look_all(&mut self, numbers: &[usize]) -> usize
        ensures { LooksAt numbers.now self.old self.new }
    {
        let mut count = 0usize;
        for number in numbers {
            count = count.saturating_add(self.look(*number));
        }
        count
    }

    /// Puts each output to its port.
    #[tactic(auto, using(crate::proofs::Keeping::puts_none, crate::proofs::Keeping::puts_on, crate::proofs::Keeping::all_stay_on))]
    pub fn put_all(&mut self, outputs: Vec<Output>, notes: &mut Notes) -> Result<(), NoMemory>
        ensures ok { OnOk result (PutsShares self.old outputs.items self.new) }
        ensures stay { AllStay self.old self.new }
    {
        for output in outputs {
            self.put(output, notes)?;
        }
        Ok(())
    }
}

// Puts outputs that are kept for the port, as far as there is room. Returns whether some are kept still.
fn put_kept(
    map: &mut BTreeMap<usize, Link>,
    number: usize,
    notes: &mut Notes,
) -> Result<bool, NoMemory>
    ensures puts { PutsKept number (links_of map.old) (links_of map.new) }
    ensures none { IfOk result (λ keeps. keeps ≡ false → kept_at (links_of map.new) number ≡ []) }
{
    match map.get_mut(&number) {
        None => return Ok(false),
        Some(link) => link.put_kept(number, notes),
    }
}
