//! The values that each phase of an image reads. The dialect matters to ACL lists alone, so the contracts of the other
//! functions name one.

ghost use Rattle.std.specs.Prelude.{◌≡◌};
ghost use Rattle.jute.specs.Reads.{ReadsOwned};
ghost use Rattle.settings.specs.declared.dialect.Dialect.TheVariants.{Zk34};
ghost use Rattle.snapshot_codec.specs.Parts.{Count, Path as PathValue, Part, node_body, part_format, sessions_from, acls_from};
ghost use Rattle.snapshot_codec.specs.Reads.{path_or_close};
ghost use Rattle.snapshot_codec.specs.declared.part.ImagePart.TheVariants as part;
ghost use Rattle.snapshot_codec.specs.declared.part.PartPhase.TheVariants.{SessionCount, Sessions, Acls, Root, Nodes, Signature};

use crate::part::{ImageAcl, ImageNode, ImageSession, PartPhase};
use jute::{ReadRecord, Reader, StatPersisted, read_acls};
use paths_and_acls::Path;
use settings::Dialect;
use std::alloc::Global;
use values::{Blob, Fault, ReadError};

/// The text that ends an image.
pub const SIGNATURE: &str = "BenWasHere";

/// Reads the number of sessions or ACL lists that follow; null is `BadLength`.
#[tactic(auto, unfolding(jute::specs::Format::judged_at))]
pub fn read_count(reader: &mut Reader<'_>) -> Result<u32, ReadError>
    ensures { ReadsOwned (part_format Zk34 SessionCount).read (λ n. Count n) result reader.old reader.new }
{
    let mut ahead = reader.ahead();
    match ahead.read_count()? {
        None => Err(ReadError::Fault(Fault::BadLength)),
        Some(count) => {
            *reader = ahead;
            Ok(count)
        }
    }
}

/// Reads a session.
#[tactic(auto, unfolding(jute::specs::Format::judged_at))]
pub(crate) fn read_session(reader: &mut Reader<'_>) -> Result<ImageSession, ReadError>
    ensures { ReadsOwned (part_format Zk34 (Sessions 0)).read (λ s. Part (part.Session s)) result
        reader.old reader.new }
{
    let mut ahead = reader.ahead();
    let id = ahead.read_long()?;
    let timeout = ahead.read_int()?;
    *reader = ahead;
    Ok(ImageSession { id, timeout })
}

/// Reads an ACL list of an image of this dialect, and its key.
#[tactic(auto, unfolding(jute::specs::Format::judged_at))]
pub(crate) fn read_acl(
    dialect: Dialect,
    alloc: Global,
    reader: &mut Reader<'_>,
) -> Result<ImageAcl, ReadError>
    ensures { ReadsOwned (part_format dialect (Acls 0)).read (λ a. Part (part.Acl a)) result reader.old reader.new }
{
    let mut ahead = reader.ahead();
    let key = ahead.read_long()?;
    let list = read_acls(dialect.reads().surrogates, alloc, &mut ahead)?;
    *reader = ahead;
    Ok(ImageAcl { key, list })
}

/// Reads the path of the first node, which is empty. A null path is `BadPath`, and "/" is `BadImage`.
#[tactic(auto, unfolding(jute::specs::Format::judged_at))]
pub(crate) fn read_root(alloc: Global, reader: &mut Reader<'_>) -> Result<Path, ReadError>
    ensures { ReadsOwned (part_format Zk34 Root).read (λ p. PathValue p) result reader.old reader.new }
{
    let mut ahead = reader.ahead();
    let Some(text) = ahead.read_string()? else {
        return Err(ReadError::Fault(Fault::BadPath));
    };
    if text == "/" {
        return Err(ReadError::Fault(Fault::BadImage));
    }
    let path = if text.is_empty() {
        Path::new(alloc, "/")?
    } else {
        Path::new(alloc, text)?
    };
    *reader = ahead;
    Ok(path)
}

/// Reads the path of a further node; `None` is the path "/", which comes after the last node. A null path is `BadPath`.
#[tactic(auto, unfolding(jute::specs::Format::judged_at))]
pub(crate) fn read_next(alloc: Global, reader: &mut Reader<'_>) -> Result<Option<Path>, ReadError>
    ensures { ReadsOwned (part_format Zk34 Nodes).read path_or_close result reader.old reader.new }
{
    let mut ahead = reader.ahead();
    let Some(text) = ahead.read_string()? else {
        return Err(ReadError::Fault(Fault::BadPath));
    };
    if text == "/" {
        *reader = ahead;
        return Ok(None);
    }
    let path = Path::new(alloc, text)?;
    *reader = ahead;
    Ok(Some(path))
}

/// The fields of a node after its path.
#[derive(Debug, Drop)]
pub struct NodeBody {
    pub bytes: Option<Blob>,
    pub acl: i64,
    pub stat: StatPersisted,
}

impl NodeBody {
    /// The node with these fields at the path.
    pub fn at(self, path: Path) -> ImageNode
        ensures { result ≡ record { path = path; bytes = self.bytes; acl = self.acl; stat = self.stat } }
    {
        ImageNode {
            path,
            bytes: self.bytes,
            acl: self.acl,
            stat: self.stat,
        }
    }
}

/// Reads the fields of a node after its path. The data is copied last, so an incomplete node costs no copy.
pub fn read_body(alloc: Global, reader: &mut Reader<'_>) -> Result<NodeBody, ReadError>
    ensures { ReadsOwned node_body.read (λ b. (b.bytes, (b.acl, b.stat))) result reader.old reader.new }
{
    let mut ahead = reader.ahead();
    let borrowed = ahead.read_buffer()?;
    let acl = ahead.read_long()?;
    let stat = StatPersisted::read(alloc, &mut ahead)?;
    let bytes = match borrowed {
        None => None,
        Some(bytes) => Some(Blob::new(alloc, bytes)?),
    };
    *reader = ahead;
    Ok(NodeBody { bytes, acl, stat })
}

/// Reads the text that ends an image; any other text, and null, is `BadImage`.
#[tactic(auto, unfolding(jute::specs::Format::judged_at))]
pub(crate) fn read_signature(reader: &mut Reader<'_>) -> Result<(), ReadError>
    ensures { ReadsOwned (part_format Zk34 Signature).read (λ u. Part part.End) result reader.old reader.new }
{
    let mut ahead = reader.ahead();
    let Some(text) = ahead.read_string()? else {
        return Err(ReadError::Fault(Fault::BadImage));
    };
    if text != SIGNATURE {
        return Err(ReadError::Fault(Fault::BadImage));
    }
    *reader = ahead;
    Ok(())
}

/// The phase in which this many sessions are left.
pub(crate) fn sessions_from(count: u32) -> PartPhase
    ensures { result ≡ sessions_from count }
{
    if count == 0 {
        return PartPhase::AclCount;
    }
    PartPhase::Sessions(count)
}

/// The phase in which this many ACL lists are left.
pub(crate) fn acls_from(count: u32) -> PartPhase
    ensures { result ≡ acls_from count }
{
    if count == 0 {
        return PartPhase::Root;
    }
    PartPhase::Acls(count)
}
