//! What is shown of ids and of the entries of a list.

use crate::calls::{id_of, list_of};
use permissions::{client_info_of, masked_acls};
use std::alloc::Global;
use std::test::Fail;
use values::NoMemory;

// Whether the text of the only entry of a list, with its hash masked, is this one.
fn is_masked(alloc: Global, scheme: &str, text: &str, wanted: &str) -> Result<bool, NoMemory> {
    let acls = list_of(alloc, 31, scheme, text)?;
    let masked = masked_acls(alloc, acls.as_slice())?;
    let [acl] = masked.as_slice() else {
        return Ok(false);
    };
    Ok(
        acl.perms == 31
            && acl.id.scheme.as_slice() == scheme.as_bytes()
            && acl.id.id.as_slice() == wanted.as_bytes(),
    )
}

#[test]
fn hashes_are_masked(rt: HostRuntime) -> Result<(), Fail> {
    let alloc = rt.alloc();
    assert!(rt; is_masked(alloc, "digest", "ann:QQ==", "ann:x")?);
    assert!(rt; is_masked(alloc, "digest", "ann", "ann")?);
    assert!(rt; is_masked(alloc, "ip", "::1", "::1")?);
    Ok(())
}

// Whether a client with this id is told that it is this user of the scheme.
fn is_told(alloc: Global, scheme: &str, text: &str, user: &str) -> Result<bool, NoMemory> {
    let id = id_of(alloc, scheme, text)?;
    let info = client_info_of(&id);
    let is_scheme = info.auth_scheme.as_slice() == scheme.as_bytes();
    Ok(is_scheme && info.user.as_slice() == user.as_bytes())
}

#[test]
fn a_client_is_told_its_user(rt: HostRuntime) -> Result<(), Fail> {
    let alloc = rt.alloc();
    assert!(rt; is_told(alloc, "digest", "ann:QQ==", "ann")?);
    assert!(rt; is_told(alloc, "ip", "::1", "::1")?);
    Ok(())
}
