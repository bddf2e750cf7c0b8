//! The footprint of a transaction, its paths listed in ascending order of their bytes.

ghost use Rattle.std.specs.Prelude.{◌≡◌, IfOk};
ghost use Rattle.std.specs.FinSet as set;
ghost use Rattle.ephemerals.specs.Orders.{sorted_names};
ghost use Rattle.data_tree.specs.Footprint as cells;
ghost use Rattle.footprint.specs.Footprints.{has_too_many, is_barrier, txn_footprint};

use crate::cover::Footprint;
use ephemerals::TextSet;
use std::alloc::Global;
use txn_codec::Txn;
use values::{Listed, NoMemory, Str, Text};

// A transaction with more paths is applied alone.
const MOST_PATHS: usize = 16;

fn gathered(alloc: Global, paths: &[Str<'_>]) -> Result<TextSet, NoMemory>
    ensures { IfOk result (λ names. names ≡ set.from_list paths.now) }
{
    let mut names = TextSet::new(alloc);
    for path in paths {
        names.insert(alloc, path.as_str())?;
    }
    Ok(names)
}

fn has_too_many(alloc: Global, paths: &[Str<'_>]) -> Result<bool, NoMemory>
    ensures { IfOk result (λ too_many. too_many ≡ has_too_many paths.now) }
{
    if paths.len() <= MOST_PATHS {
        return Ok(false);
    }
    Ok(gathered(alloc, paths)?.len() > MOST_PATHS)
}

/// Whether a transaction with these paths is a barrier. Fails only if an allocation is refused.
pub fn is_barrier(alloc: Global, txn: &Txn, paths: &[Str<'_>]) -> Result<bool, NoMemory>
    requires { paths.now ≡ cells.footprint txn.now }
    ensures { IfOk result (λ barrier. barrier ≡ is_barrier txn.now) }
{
    if txn.body.ends_session() {
        return Ok(true);
    }
    has_too_many(alloc, paths)
}

fn listed(alloc: Global, paths: TextSet) -> Result<Listed<Text>, NoMemory>
    ensures { IfOk result (λ list. list ≡ sorted_names paths) }
{
    let mut left = paths;
    let mut list = Vec::new(alloc);
    while let Some(path) = left.pop_first() {
        list.push(path)?;
    }
    Ok(Listed::from_vec(list))
}

/// The transaction's footprint. Its cost is the number of the transaction's own paths times a logarithm. Fails only if
/// an allocation is refused.
pub fn footprint(alloc: Global, txn: &Txn) -> Result<Footprint, NoMemory>
    ensures { IfOk result (λ footprint. footprint ≡ txn_footprint txn.now) }
{
    let mut paths = Vec::new(alloc);
    txn.body.borrow_paths(&mut paths)?;
    if is_barrier(alloc, txn, paths.as_slice())? {
        return Ok(Footprint::Barrier);
    }
    let names = gathered(alloc, paths.as_slice())?;
    Ok(Footprint::Paths(listed(alloc, names)?))
}
