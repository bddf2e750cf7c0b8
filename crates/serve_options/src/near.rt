//! A guess at the option that was meant.

ghost use Rattle.std.specs.Prelude.{◌≡◌, IfOk};
ghost use Rattle.serve_options.specs.Near.{edits_to, IsNearest};

use crate::row::{NAMES, Name};
use std::alloc::{AllocError, Global};
use strsim::levenshtein;

// The most edits by which a word is still taken for a misspelled option.
const MOST_EDITS: usize = 2;

// The edits that lead from a word to the name of an option.
#[tactic(auto, unfolding(crate::specs::Near::edits_to))]
fn edits_to(alloc: Global, word: &str, name: Name) -> Result<usize, AllocError>
    ensures { IfOk result (λ edits. edits ≡ edits_to word.now name) }
{
    levenshtein(alloc, word, name.row().word)
}

/// The option whose name is the nearest to a word, if it is at most two edits away: characters put in, left out or
/// changed. Of several that are as near it is the first.
pub fn nearest(alloc: Global, word: &str) -> Result<Option<Name>, AllocError>
    ensures { IfOk result (IsNearest word.now) }
{
    let mut found = None;
    let mut fewest = MOST_EDITS + 1;
    for name in NAMES {
        let edits = edits_to(alloc, word, name)?;
        if edits < fewest {
            fewest = edits;
            found = Some(name);
        }
    }
    Ok(found)
}
