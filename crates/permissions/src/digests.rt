//! The users of digest ids, whose hashes are masked.

ghost use Rattle.std.specs.Prelude.{◌≡◌, IfOk, IfSome, ◌≤◌, length, map};
ghost use Rattle.permissions.specs.Digests.{user_end, is_digest, masked_at, masked_id, masked_acl, user_at, client_info_of};

use client_records::ClientInfo;
use jute::{Acl, Id};
use std::alloc::Global;
use values::{Blob, Bytes, NoMemory};

// Where the user ends: at the first colon.
fn user_end(text: &[u8]) -> Option<usize>
    ensures end { result ≡ user_end text.now }
    ensures within { IfSome result (λ end. end ≤ length text.now) }
{
    text.iter().position(|b| *b == b':')
}

fn is_digest(id: &Id) -> bool
    ensures { result ≡ is_digest id.now }
{
    id.scheme.as_slice() == b"digest".as_slice()
}

// ---- in an access control list

fn masked_text(alloc: Global, text: &[u8]) -> Result<Blob, NoMemory>
    ensures { IfOk result (λ masked. masked ≡ masked_at text.now (user_end text.now)) }
{
    let Some(end) = user_end(text) else {
        return Blob::new(alloc, text);
    };
    let mut masked = Vec::from_slice(alloc, &text[..end])?;
    masked.extend_from_slice(b":x")?;
    Ok(Blob::from_vec(masked))
}

fn masked_id(alloc: Global, id: &Id) -> Result<Id, NoMemory>
    ensures { IfOk result (λ masked. masked ≡ masked_id id.now) }
{
    if !is_digest(id) {
        return Ok(id.clone()?);
    }
    Ok(Id {
        scheme: id.scheme.clone()?,
        id: masked_text(alloc, id.id.as_slice())?,
    })
}

/// The entries with an "x" in place of each hash. Fails only if an allocation is refused.
pub fn masked_acls(alloc: Global, acls: &[Acl]) -> Result<Vec<Acl>, NoMemory>
    ensures { IfOk result (λ masked. masked.items ≡ map masked_acl acls.now) }
{
    let mut masked = Vec::with_capacity(alloc, acls.len())?;
    for acl in acls {
        masked.push(Acl {
            perms: acl.perms,
            id: masked_id(alloc, &acl.id)?,
        })?;
    }
    Ok(masked)
}

// ---- for the client that has shown the id

fn user_of(text: &[u8]) -> &[u8]
    ensures { result.now ≡ user_at text.now (user_end text.now) }
{
    match user_end(text) {
        None => return text,
        Some(end) => &text[..end],
    }
}

/// An id as its client is shown it.
pub fn client_info_of(id: &Id) -> ClientInfo<'_>
    ensures { result ≡ client_info_of id.now }
{
    let text = id.id.as_slice();
    ClientInfo {
        auth_scheme: Bytes::new(id.scheme.as_slice()),
        user: Bytes::new(if is_digest(id) { user_of(text) } else { text }),
    }
}
