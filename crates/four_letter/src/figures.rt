//! The figures of an observer.

ghost use Rattle.std.specs.Prelude.{◌≡◌};

use data_tree::Timeouts;
use ephemerals::Ephemerals;
use std::marker::Model;
use values::{Listed, Str};
use watch_manager::{Table, WatchCounts};

/// A watch, and the session of its connection.
#[derive(Drop)]
pub struct WatchRow<'a> {
    pub path: Str<'a>,
    pub connection: u64,
    pub session: i64,
    pub table: Table,
}

/// A value that is lent. Its model is the value.
#[derive(Drop)]
pub struct Lent<'a, T> {
    value: &'a T,
}

impl<'a, T> Model for Lent<'a, T> {
    ghost Value = { T };

    ghost view = { λ l. l.value.now };
}

impl<'a, T> Lent<'a, T> {
    pub fn new(value: &'a T) -> Lent<'a, T>
        ensures { result ≡ value.now }
    {
        Lent { value }
    }

    pub fn get(&self) -> &'a T
        ensures { result.now ≡ self.now }
    {
        self.value
    }
}

/// The figures that the answers are made of.
#[derive(Drop)]
pub struct Figures<'a> {
    /// Whether clients are served.
    pub serving: bool,
    /// The last zxid.
    pub last: i64,
    /// The number of connections that have a session.
    pub connections: usize,
    /// The number of paths in the tree.
    pub paths: usize,
    /// The number of pairs of a session and an ephemeral node.
    pub pairs: usize,
    /// How much is watched. The answer of a word that doesn't need all counts is the same whatever paths and connections
    /// are counted.
    pub watched: WatchCounts,
    /// The watches of all tables. The answer of a word that doesn't need watches is the same without them.
    pub watches: Listed<WatchRow<'a>>,
    /// The sessions of the tree, with their timeouts.
    pub timeouts: Lent<'a, Timeouts>,
    /// Their ephemeral nodes.
    pub ephemerals: Lent<'a, Ephemerals>,
}
