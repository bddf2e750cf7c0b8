//! The forwarded syncs that the leader hasn't settled.

ghost use Rattle.std.specs.Prelude.{◌≡◌, ◌++◌, ◌∷◌, [], Some, OnOk, OnErr, map, drop};
ghost use Rattle.forwarding.specs.Pending.{without_owner};
ghost use Rattle.forwarding.specs.Inner.{first_sync, without_newest};

use std::alloc::Global;
use std::collections::VecDeque;
use std::marker::Model;
use values::NoMemory;

/// The syncs in the order in which they were forwarded, each by its connection; None where that has gone. The leader
/// answers by the order alone, so the place of a sync whose connection has gone stays.
#[derive(Drop)]
pub struct Syncs {
    places: VecDeque<Option<u64>>,
}

impl Model for Syncs {
    ghost use Rattle.std.specs.Prelude.{List, Option, ℕ};
    ghost use Rattle.std.specs.Coded.{coded_ℕ, coded_list, coded_option};

    ghost Value = { List (Option ℕ) };

    ghost coded = { coded_list (coded_option coded_ℕ) };

    ghost view = { λ s. s.places.items };
}

impl Syncs {
    /// No sync. Allocates nothing.
    pub fn new(alloc: Global) -> Syncs
        ensures { result ≡ [] }
    {
        Syncs {
            places: VecDeque::new(alloc),
        }
    }

    /// Adds a sync of the connection. A refused allocation changes nothing.
    pub fn push(&mut self, number: u64) -> Result<(), NoMemory>
        ensures ok { OnOk result (self.new ≡ self.old ++ Some number ∷ []) }
        ensures err { OnErr result (self.new ≡ self.old) }
    {
        self.places.push_back(Some(number))?;
        Ok(())
    }

    /// Removes the newest sync.
    pub(crate) fn pop_newest(&mut self)
        ensures { self.new ≡ without_newest self.old }
    {
        self.places.pop_back();
    }

    /// Removes the oldest sync and returns it. The outer None means that there was none.
    pub(crate) fn take_oldest(&mut self) -> Option<Option<u64>>
        ensures oldest { result ≡ first_sync self.old }
        ensures rest { self.new ≡ drop 1 self.old }
    {
        self.places.pop_front()
    }

    /// Makes the syncs of the connection nobody's.
    pub(crate) fn disown(&mut self, number: u64)
        ensures { self.new ≡ map (without_owner number) self.old }
    {
        for place in 0..self.places.len() {
            if self.places[place] == Some(number) {
                self.places[place] = None;
            }
        }
    }
}
