//! Tests of the data tree and of the sets below it, over public calls alone. They are a crate of their own, since a
//! crate with tests is proved twice. Most calls are in functions without contracts, so that a test's own proof is
//! short.
#![tactic(auto)]

#[cfg(test)]
mod acl_lists;
#[cfg(test)]
mod built_trees;
#[cfg(test)]
mod cells;
#[cfg(test)]
mod leader_owned;
#[cfg(test)]
mod mended;
#[cfg(test)]
mod owners;
#[cfg(test)]
mod texts;
#[cfg(test)]
mod transactions;

use paths_and_acls::Path;
use std::alloc::Global;

/// The text as a path, if it is one.
pub fn path_of(alloc: Global, text: &str) -> Option<Path> {
    Path::new(alloc, text).ok()
}
