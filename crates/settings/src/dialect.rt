//! The dialect that a leader and its clients speak.

ghost use Rattle.std.specs.Prelude.{◌≡◌};
ghost use Rattle.settings.specs.Dialects.{reads_of, default_dialect};

/// The dialect that a leader and its clients speak.
#[derive(Clone, Copy, Debug, PartialEq, Eq)]
pub enum Dialect {
    /// That of ZooKeeper 3.4.
    Zk34,
    /// That of ZooKeeper 3.5 to 3.9.
    Zk38,
}

/// What is read of a leader and of its clients that those of ZooKeeper 3.4 don't write.
#[derive(Clone, Copy, Debug)]
pub struct Reads {
    /// A digest of the leader's tree may follow a transaction.
    pub trailer: bool,
    /// The end of a session may list its ephemeral nodes.
    pub lists_paths: bool,
    /// Bytes may follow the number of an error in a multi.
    pub lenient_parts: bool,
    /// There are creates that ask for the Stat, containers, nodes with a time to live, and reconfigs.
    pub extended_types: bool,
    /// A client may bring its session from another server, and the leader is asked for it.
    pub moved_sessions: bool,
    /// In the ids of an access control list a surrogate may stand as three bytes, as Java writes the two halves of a
    /// character past U+FFFF.
    pub surrogates: bool,
    /// There are requests for creates that are answered with the Stat, for containers and for nodes with a time to live.
    pub later_requests: bool,
}

impl Dialect {
    /// What is read in it.
    pub fn reads(self) -> Reads
        ensures { result ≡ reads_of self }
    {
        let is_later = matches!(self, Dialect::Zk38);
        Reads {
            trailer: is_later,
            lists_paths: is_later,
            lenient_parts: is_later,
            extended_types: is_later,
            moved_sessions: is_later,
            surrogates: is_later,
            later_requests: is_later,
        }
    }
}

impl Default for Dialect {
    fn default() -> Dialect
        ensures { result ≡ default_dialect }
    {
        Dialect::Zk34
    }
}
