//! The limits of an image.

ghost use Rattle.std.specs.Prelude.{◌↔◌, IsTrue, Some};
ghost use Rattle.jute.specs.Format.{buffer, text_in, text_format, vector_of};
ghost use Rattle.jute.specs.Owned.{acl_in};
ghost use Rattle.snapshot_codec.specs.Parts.{list_format};

use jute::{Acl, BUFFER_LIMIT, COUNT_LIMIT, is_text};
use settings::Dialect;
use values::Blob;

/// Whether a text is within the limit.
pub(crate) fn fits_text(text: &str) -> bool
    ensures { IsTrue result ↔ text_format.Fits (Some text.now) }
{
    text.as_bytes().len() <= BUFFER_LIMIT as usize
}

/// Whether a node's data is within the limit.
pub(crate) fn fits_bytes(bytes: &Option<Blob>) -> bool
    ensures { IsTrue result ↔ buffer.Fits bytes.now }
{
    match bytes {
        None => true,
        Some(bytes) => bytes.as_slice().len() <= BUFFER_LIMIT as usize,
    }
}

// Whether bytes are a text within the limit, in which surrogates may stand or not.
fn fits_text_in(surrogates: bool, text: &[u8]) -> bool
    ensures { IsTrue result ↔ (text_in surrogates).Fits (Some text.now) }
{
    text.len() <= BUFFER_LIMIT as usize && is_text(surrogates, text)
}

// Whether the texts of an entry of an ACL list are within the limit.
#[tactic(auto, unfolding(jute::specs::Owned::acl_in, jute::specs::Owned::id_in))]
fn fits_entry(surrogates: bool, entry: &Acl) -> bool
    ensures { IsTrue result ↔ (acl_in surrogates).Fits entry.now }
{
    let _perms = entry.perms;
    if !fits_text_in(surrogates, entry.id.scheme.as_slice()) {
        return false;
    }
    fits_text_in(surrogates, entry.id.id.as_slice())
}

/// Whether an ACL list is within the limits of an image of this dialect.
pub(crate) fn fits_list(dialect: Dialect, list: &[Acl]) -> bool
    ensures { IsTrue result ↔ (list_format dialect).Fits (Some list.now) }
{
    fits_entries(dialect.reads().surrogates, list)
}

// Whether entries are within the limits, with surrogates in their texts or without.
fn fits_entries(surrogates: bool, list: &[Acl]) -> bool
    ensures { IsTrue result ↔ (vector_of (acl_in surrogates)).Fits (Some list.now) }
{
    if list.len() > COUNT_LIMIT as usize {
        return false;
    }
    for entry in list {
        if !fits_entry(surrogates, entry) {
            return false;
        }
    }
    true
}
