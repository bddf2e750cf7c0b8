//! Reading the parts of an image from the front of bytes.

ghost use Rattle.std.specs.Prelude.{◌≡◌};
ghost use Rattle.settings.specs.declared.dialect.Dialect.{Dialect as TheDialect};
ghost use Rattle.snapshot_codec.specs.Parts.{IsBody};
ghost use Rattle.snapshot_codec.specs.Reads.{ReadsPart};

use crate::fields::{
    acls_from, read_acl, read_body, read_count, read_next, read_root, read_session, read_signature,
    sessions_from,
};
use crate::part::{ImagePart, PartPhase};
use jute::Reader;
use settings::Dialect;
use std::alloc::Global;
use std::mem;
use values::ReadError;

/// Reads the next value of an image of this dialect, and moves the phase on. It returns a part, or `None` for a value
/// that only moves the phase on: a count, a path, and the "/" after the last node.
///
/// The faults are those of the fields, the first one first: `Short`, `BadLength`, `BadText`, `BadPath`, and `BadImage`
/// for a first path "/" and for a wrong signature. A refused read leaves the place and the phase.
pub fn read_part(
    dialect: Dialect,
    alloc: Global,
    phase: &mut PartPhase,
    reader: &mut Reader<'_>,
) -> Result<Option<ImagePart>, ReadError>
    ensures { ReadsPart dialect result phase.old phase.new reader.old reader.new }
{
    match phase {
        PartPhase::SessionCount => {
            let count = read_count(reader)?;
            *phase = sessions_from(count);
            Ok(None)
        }
        PartPhase::Sessions(left) => {
            let session = read_session(reader)?;
            *phase = sessions_from(left.saturating_sub(1));
            Ok(Some(ImagePart::Session(session)))
        }
        PartPhase::AclCount => {
            let count = read_count(reader)?;
            *phase = acls_from(count);
            Ok(None)
        }
        PartPhase::Acls(left) => {
            let entry = read_acl(dialect, alloc, reader)?;
            *phase = acls_from(left.saturating_sub(1));
            Ok(Some(ImagePart::Acl(entry)))
        }
        PartPhase::Root => {
            *phase = PartPhase::Body(read_root(alloc, reader)?);
            Ok(None)
        }
        PartPhase::Nodes => match read_next(alloc, reader)? {
            None => {
                *phase = PartPhase::Signature;
                Ok(None)
            }
            Some(path) => {
                *phase = PartPhase::Body(path);
                Ok(None)
            }
        },
        PartPhase::Body(_) => read_node(alloc, phase, reader),
        PartPhase::Signature => {
            read_signature(reader)?;
            *phase = PartPhase::SessionCount;
            Ok(Some(ImagePart::End))
        }
    }
}

// Reads the fields of the node whose path the phase holds.
fn read_node(
    alloc: Global,
    phase: &mut PartPhase,
    reader: &mut Reader<'_>,
) -> Result<Option<ImagePart>, ReadError>
    requires { IsBody phase.old }
    ensures { (dialect : TheDialect) → ReadsPart dialect result phase.old phase.new reader.old reader.new }
{
    let body = read_body(alloc, reader)?;
    match mem::replace(phase, PartPhase::Nodes) {
        PartPhase::Body(path) => Ok(Some(ImagePart::Node(body.at(path)))),
        _ => Ok(None),
    }
}
