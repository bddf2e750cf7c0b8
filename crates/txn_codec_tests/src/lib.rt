//! Tests of `txn_codec`: paths, transactions, and the records of their parts. They are a crate of their own, since a
//! crate with tests is proved twice.
#![tactic(auto)]

#[cfg(test)]
mod later_rows;
#[cfg(test)]
mod part_rows;
#[cfg(test)]
mod path_rows;
#[cfg(test)]
mod rows;
#[cfg(test)]
mod txn_rows;

use paths_and_acls::Path;
use std::alloc::Global;
use values::ReadError;

/// The text as a path.
pub fn path_of(alloc: Global, text: &str) -> Result<Path, ReadError> {
    Path::new(alloc, text)
}
