//! The owners of the ephemeral nodes.

ghost use Rattle.std.specs.Prelude.{◌≡◌, ◌≢◌, ◌↔◌, ◌&&◌, OnOk, OnErr, IfOk, IsTrue, true, not, pos};
ghost use Rattle.std.specs.List.{IsDistinct};
ghost use Rattle.std.specs.Ordering.{int_eq};
ghost use Rattle.std.specs.Str.{bytes_eq};
ghost use Rattle.std.specs.FinSet as set;
ghost use Rattle.ephemerals.specs.Pairs.{with_pair, without_pair, with_other_owner, paths_of_session, without_session};
ghost use Rattle.ephemerals.specs.Pairs.{pairs_at, without_paths, CopiesPath};
ghost use Rattle.ephemerals.specs.Inner.Steps.{without_path, pairs_on};

use crate::number_of_session::number_of_session;
use crate::text_set::TextSet;
use pairs::{HashKey, Pairs, TextKey};
use std::alloc::{AllocError, Global};
use std::marker::Model;
use values::NoMemory;

/// The owners of the ephemeral nodes: a set of pairs of a session and a path. Session 0 owns none.
#[derive(Drop)]
pub struct Ephemerals {
    // Of a path and its session's number.
    pairs: Pairs,
}

impl Model for Ephemerals {
    ghost use Rattle.ephemerals.specs.Orders.{OwnerPairs};
    ghost use Rattle.ephemerals.specs.Inner.OwnersView.{owners_in};
    ghost use Rattle.std.specs.FinSet as set;
    ghost use Rattle.std.specs.Coded.{coded_ℕ, coded_list, coded_ℤ, coded×};

    ghost Value = { OwnerPairs };

    ghost coded = { set.code (coded× coded_ℤ (coded_list coded_ℕ)) };

    ghost view = { λ e. owners_in e.pairs };
}

impl Ephemerals {
    /// No pair, and the default key of the hash. Allocates nothing.
    pub fn new(alloc: Global) -> Ephemerals
        ensures { result ≡ set.empty }
    {
        Ephemerals::keyed(alloc, HashKey::default())
    }

    /// No pair, and this key of the hash, by which the paths are found. Allocates nothing.
    pub fn keyed(alloc: Global, key: HashKey) -> Ephemerals
        ensures { result ≡ set.empty }
    {
        Ephemerals {
            pairs: Pairs::keyed(alloc, key),
        }
    }

    /// The number of pairs.
    pub fn count(&self) -> usize
        ensures { result ≡ set.len self.now }
    {
        self.pairs.len()
    }

    /// Whether the session owns the path.
    pub fn contains(&self, session: i64, path: &str) -> bool
        ensures { result ≡ set.contains self.now (session, path.now) }
    {
        self.pairs.contains(path, number_of_session(session))
    }

    /// Makes the session an owner of the path and returns whether it is new. Session 0 gains nothing. A refused
    /// allocation changes nothing.
    pub fn add(&mut self, alloc: Global, session: i64, path: &str) -> Result<bool, NoMemory>
        ensures ok { OnOk result (self.new ≡ with_pair self.old session path.now) }
        ensures added { let owns = set.contains self.old (session, path.now) in
            IfOk result (λ added. added ≡ (not (int_eq session (pos 0)) && not owns)) }
        ensures err { OnErr result (self.new ≡ self.old) }
    {
        if session == 0 {
            return Ok(false);
        }
        self.pairs.insert(alloc, path, number_of_session(session))
    }

    /// Removes the session as an owner of the path. Session 0 loses nothing.
    pub fn remove(&mut self, session: i64, path: &str)
        ensures { self.new ≡ without_pair self.old session path.now }
    {
        if session == 0 {
            return;
        }
        self.pairs.remove(path, number_of_session(session))
    }

    /// Gives the path of the old session to the new one. Session 0 loses and gains nothing. A refused allocation
    /// changes nothing.
    pub fn replace(&mut self, alloc: Global, path: &str, old: i64, new: i64) -> Result<(), NoMemory>
        ensures ok { OnOk result (self.new ≡ with_other_owner self.old path.now old new) }
        ensures err { OnErr result (self.new ≡ self.old) }
    {
        self.add(alloc, new, path)?;
        if old == new {
            return Ok(());
        }
        self.remove(old, path);
        Ok(())
    }

    /// Whether the session owns a path.
    pub fn owns_any(&self, session: i64) -> bool
        ensures { IsTrue result ↔ (paths_of_session session self.now ≢ set.empty) }
    {
        match self.pairs.texts_of(number_of_session(session)) {
            None => false,
            Some(_) => true,
        }
    }

    /// The paths of a session, each once, in no order that a caller may rely on.
    pub fn paths_of(&self, session: i64) -> &[TextKey]
        ensures paths { set.from_list result.now ≡ paths_of_session session self.now }
        ensures once { IsDistinct bytes_eq result.now }
    {
        match self.pairs.texts_of(number_of_session(session)) {
            None => return &[],
            Some(paths) => paths.as_slice(),
        }
    }

    /// A copy of the paths of a session, in ascending order of their bytes. Fails only if an allocation is refused.
    pub fn of(&self, alloc: Global, session: i64) -> Result<TextSet, NoMemory>
        ensures { IfOk result (λ paths. paths ≡ paths_of_session session self.now) }
    {
        TextSet::from_keys(alloc, self.paths_of(session))
    }

    /// Removes all paths of a session and returns them. A refused allocation changes nothing.
    pub fn take_session(&mut self, alloc: Global, session: i64) -> Result<TextSet, NoMemory>
        ensures paths { IfOk result (λ paths. paths ≡ paths_of_session session self.old) }
        ensures rest { OnOk result (self.new ≡ without_session session self.old) }
        ensures err { OnErr result (self.new ≡ self.old) }
    {
        let paths = self.of(alloc, session)?;
        self.pairs.take_number(number_of_session(session));
        Ok(paths)
    }

    // Adds the pairs that the others have at the path.
    fn add_on(&mut self, alloc: Global, path: &str, others: &Ephemerals) -> Result<(), NoMemory>
        ensures { OnOk result (self.new ≡ set.union self.old (pairs_on path.now others.now)) }
    {
        self.pairs.add_of_text(alloc, path, &others.pairs)
    }

    /// A copy of the pairs at these paths. Fails only if an allocation is refused.
    pub fn at(&self, alloc: Global, paths: &TextSet) -> Result<Ephemerals, NoMemory>
        ensures { IfOk result (λ found. found ≡ pairs_at paths.now self.now) }
    {
        let mut found = Ephemerals::keyed(alloc, self.pairs.hash_key());
        for path in paths.iter() {
            found.add_on(alloc, path.as_str(), self)?;
        }
        Ok(found)
    }

    // Removes the pairs at the path.
    fn drop_on(&mut self, path: &str)
        ensures { self.new ≡ without_path path.now self.old }
    {
        self.pairs.drop_text(path)
    }

    /// Replaces the pairs at the path by copies of those that the others have there. After a refused allocation some of
    /// these are missing.
    pub fn copy_path(
        &mut self,
        alloc: Global,
        path: &str,
        others: &Ephemerals,
    ) -> Result<(), NoMemory>
        ensures { OnOk result (CopiesPath path.now others.now self.old self.new) }
    {
        self.drop_on(path);
        self.add_on(alloc, path, others)
    }

    /// Removes the pairs at these paths. Allocates nothing.
    pub fn drop_at(&mut self, paths: &TextSet)
        ensures { self.new ≡ without_paths paths.now self.old }
    {
        for path in paths.iter() {
            self.drop_on(path.as_str());
        }
    }

    /// Adds all of the others' pairs. A refused allocation takes no pair away, and leaves some of the others' added.
    pub fn add_all(&mut self, alloc: Global, others: &Ephemerals) -> Result<(), NoMemory>
        ensures ok { OnOk result (self.new ≡ set.union self.old others.now) }
        ensures err_keeps { OnErr result (set.is_subset self.old self.new ≡ true) }
        ensures err_adds { OnErr result (set.is_subset self.new (set.union self.old others.now) ≡ true) }
    {
        self.pairs.add_all(alloc, &others.pairs)
    }
}

impl Clone for Ephemerals {
    ghost is_clone = { λ x y. y ≡ x };

    fn clone(&self) -> Result<Ephemerals, AllocError> {
        Ok(Ephemerals {
            pairs: self.pairs.clone()?,
        })
    }
}
