//! The rules by which the passwords of sessions are made.

use settings::Secret;

/// The rule by which the password of a session is made.
#[derive(Debug, Drop)]
pub enum Passwords {
    /// From the session's id and a secret, without which it can't be computed.
    Keyed(Secret),
    /// From the session's id alone, as each server of ZooKeeper makes it, so that a session can come from any of them.
    Java,
}
