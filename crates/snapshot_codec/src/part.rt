//! The parts of an image.

ghost use Rattle.std.specs.Prelude.{◌≡◌};
ghost use Rattle.snapshot_codec.specs.Parts.{Part, is_end};

use jute::{Acl, StatPersisted};
use paths_and_acls::Path;
use values::{Blob, Listed};

/// A session of an image, with its timeout in milliseconds.
#[derive(Clone, Copy, Debug)]
pub struct ImageSession {
    pub id: i64,
    pub timeout: i32,
}

/// An ACL list of an image, and the key by which nodes refer to it.
#[derive(Debug, Drop)]
pub struct ImageAcl {
    pub key: i64,
    /// `None` is null, which means the open list.
    pub list: Option<Listed<Acl>>,
}

/// A node of an image, without its children, which follow it.
#[derive(Debug, Drop)]
pub struct ImageNode {
    pub path: Path,
    /// `None` is null.
    pub bytes: Option<Blob>,
    /// The key of its ACL list; -1 is the open list's.
    pub acl: i64,
    pub stat: StatPersisted,
}

/// A part of an image.
#[derive(Debug, Drop)]
pub enum ImagePart {
    Session(ImageSession),
    Acl(ImageAcl),
    Node(ImageNode),
    End,
}

impl ImagePart {
    /// Whether it is the last part.
    pub fn is_end(&self) -> bool
        ensures { result ≡ is_end (Part self.now) }
    {
        matches!(self, ImagePart::End)
    }
}

/// What comes next in an image.
#[derive(Debug, Drop)]
pub enum PartPhase {
    /// The number of sessions.
    SessionCount,
    /// This many sessions, at least one.
    Sessions(u32),
    /// The number of ACL lists.
    AclCount,
    /// This many ACL lists, at least one.
    Acls(u32),
    /// The path of the first node, which is the root.
    Root,
    /// The path of a further node, or "/" after the last one.
    Nodes,
    /// The fields of the node with this path.
    Body(Path),
    /// The text that ends an image.
    Signature,
}
