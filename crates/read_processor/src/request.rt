//! The reads of the tree.

use client_records::ReadKind;
use settings::Dialect;
use values::Str;

/// A read. Its kind says what it shows.
#[derive(Drop)]
pub struct Request<'a> {
    pub kind: ReadKind,
    /// The path as the client wrote it; `None` is null.
    pub path: Option<Str<'a>>,
    /// Whether the client asks for a watch.
    pub watch: bool,
    /// The dialect by whose rules it is answered.
    pub rules: Dialect,
}
