//! What an access control list lets a client do.
//!
//! A client has ids, each a scheme and a text, such as a user with the hash of a password, or the address of its peer.
//! A list has entries, each an id with the permissions that it grants. An entry counts for a client that has the same
//! id; one of the scheme "ip" may count for all addresses of a network (`addresses`, specs/Addresses), and the one for
//! `world:anyone` counts for every client. A client with an id of the scheme "super" may do everything.
//! specs/Permissions defines all this.
//!
//! `masked_acls` hides the hashes of digest ids, and `client_info_of` tells a client whom it is taken for
//! (specs/Digests).
//!
//! ```text
//! let readable = may_read(rules, ids, &node.acl);
//! let listed = may_see_acl(ids, &node.acl);
//! let entries = if may_administrate(ids, entries) { entries } else { masked_acls(alloc, entries)?.as_slice() };
//! let info = client_info_of(&id);                      // of "digest" and "ann:QQ==": the user "ann"
//! ```
#![tactic(auto)]

mod addresses;
mod digests;
mod law;
mod permissions;

pub use digests::{client_info_of, masked_acls};
pub use law::worked_permissions;
pub use permissions::{ADMIN, may_administrate, may_read, may_see_acl};
