//! The timeouts of sessions.

ghost use Rattle.std.specs.Prelude.{◌≡◌, ℤ, OnOk, OnErr};
ghost use Rattle.std.specs.Map.Iter.{ShowsInOrder, deref_pair};
ghost use Rattle.std.specs.FinMap as finmap;

use std::alloc::{AllocError, Global};
use std::collections::BTreeMap;
use std::collections::btree_map::Iter;
use std::marker::Model;
use values::NoMemory;

/// The timeout of each session, in milliseconds.
#[derive(Drop)]
pub struct Timeouts {
    map: BTreeMap<i64, i32>,
}

impl Model for Timeouts {
    ghost use Rattle.std.specs.Coded.{coded_ℤ};
    ghost use Rattle.std.specs.FinMap as finmap;
    ghost use Rattle.data_tree.specs.Sessions.{SessionTimeouts};

    ghost Value = { SessionTimeouts };

    ghost coded = { finmap.code coded_ℤ coded_ℤ };

    ghost view = { λ s. finmap.from_entries s.map.entries };
}

impl Clone for Timeouts {
    ghost is_clone = { λ x y. y ≡ x };

    fn clone(&self) -> Result<Timeouts, AllocError> {
        Ok(Timeouts {
            map: self.map.clone()?,
        })
    }
}

impl Timeouts {
    // No session. Allocates nothing.
    pub(crate) fn new(alloc: Global) -> Timeouts
        ensures { result ≡ finmap.empty }
    {
        Timeouts {
            map: BTreeMap::new(alloc),
        }
    }

    /// The timeout of the session in milliseconds, or None if there is no such session.
    pub fn get(&self, session: i64) -> Option<i32>
        ensures { result ≡ finmap.get self.now session }
    {
        self.map.get(&session).copied()
    }

    /// The sessions with their timeouts, in ascending order of their ids.
    pub fn iter(&self) -> Iter<'_, i64, i32>
        ensures entries { result ≡ finmap.entries self.now }
        ensures runs { ShowsInOrder (deref_pair {K = ℤ} {X = ℤ}) }
    {
        self.map.iter()
    }

    // Sets a session's timeout. A refused allocation changes nothing.
    pub(crate) fn set(&mut self, session: i64, timeout: i32) -> Result<(), NoMemory>
        ensures ok { OnOk result (self.new ≡ finmap.insert self.old session timeout) }
        ensures err { OnErr result (self.new ≡ self.old) }
    {
        self.map.insert(session, timeout)?;
        Ok(())
    }

    pub(crate) fn remove(&mut self, session: i64)
        ensures { self.new ≡ finmap.remove self.old session }
    {
        self.map.remove(&session);
    }
}
