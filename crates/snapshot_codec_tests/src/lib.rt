//! Tests of `snapshot_codec`. They are a crate of their own, since a crate with tests is proved twice.
#![tactic(auto)]

#[cfg(test)]
mod feed_rows;
#[cfg(test)]
mod image_rows;
#[cfg(test)]
mod later_images;
#[cfg(test)]
mod part_rows;
#[cfg(test)]
mod pieces;
#[cfg(test)]
mod written_rows;

use std::alloc::Global;
use values::NoMemory;

/// The bytes of the pieces, one after the other.
pub fn joined(alloc: Global, pieces: &[&[u8]]) -> Result<Vec<u8>, NoMemory> {
    let mut bytes = Vec::new(alloc);
    for piece in pieces {
        bytes.extend_from_slice(piece)?;
    }
    Ok(bytes)
}
