//! The numbers of ZooKeeper's protocol, and its open ACL.

ghost use Rattle.std.specs.Prelude.{◌≡◌, IfOk};
ghost use Rattle.jute.specs.Codes.{open_acl};

use crate::owned::{Acl, Id};
use std::alloc::Global;
use values::{Blob, Listed, NoMemory};

/// The error of each part of a multi after the one that failed.
pub const RUNTIME_INCONSISTENCY: i32 = -2;

/// The error of a request that can't be read, or has an invalid field.
pub const BAD_ARGUMENTS: i32 = -8;

/// The error if the node doesn't exist.
pub const NO_NODE: i32 = -101;

/// The error if the node's ACL doesn't grant what is asked.
pub const NO_AUTH: i32 = -102;

/// The error if the node to create exists already.
pub const NODE_EXISTS: i32 = -110;

/// The operation getData.
pub const GET_DATA: i32 = 4;

/// The permission to read a node's data and to list its children.
pub const READ: u32 = 1;

/// All permissions: READ, WRITE, CREATE, DELETE and ADMIN.
pub const ALL: i32 = 31;

/// The list that grants every client everything. Fails only if an allocation is refused.
pub fn open_list(alloc: Global) -> Result<Listed<Acl>, NoMemory>
    ensures { IfOk result (λ acl. acl ≡ open_acl) }
{
    let scheme = Blob::new(alloc, b"world")?;
    let id = Blob::new(alloc, b"anyone")?;
    let mut list = Vec::new(alloc);
    list.push(Acl {
        perms: ALL,
        id: Id { scheme, id },
    })?;
    Ok(Listed::from_vec(list))
}
