//! Images, part by part.

use crate::pieces::{SESSION, session_image};
use jute::Reader;
use settings::Dialect;
use snapshot_codec::{ImagePart, ImageSession, Loader, PartPhase, read_part};
use std::alloc::Global;
use std::test::Fail;
use values::{Fault, ReadError};

// How many parts are loaded, up to the end, which is the last one.
fn load_all(alloc: Global, loader: &mut Loader, bytes: &[u8]) -> Result<u32, ReadError> {
    let mut reader = Reader::new(bytes);
    let mut phase = PartPhase::SessionCount;
    let mut parts = 0_u32;
    for _ in 0..bytes.len() {
        if let Some(part) = read_part(Dialect::Zk34, alloc, &mut phase, &mut reader)? {
            parts = parts.saturating_add(1);
            if part.is_end() {
                loader.part(alloc, part)?;
                return Ok(parts);
            }
            loader.part(alloc, part)?;
        }
    }
    Ok(0)
}

// The number of parts of an image, and for the tree that they make the number of nodes and the timeout of session 9.
fn loaded(alloc: Global, bytes: &[u8]) -> Result<(u32, usize, Option<i32>), Fail> {
    let mut loader = Loader::new(alloc);
    let parts = load_all(alloc, &mut loader, bytes)?;
    if !loader.has_ended() {
        return Err("not ended".into());
    }
    let tree = loader.finish();
    Ok((parts, tree.paths(), tree.sessions().get(9)))
}

#[test]
fn loaded_in_parts(rt: HostRuntime) -> Result<(), Fail> {
    let bytes = session_image(rt.alloc())?;
    assert!(rt; loaded(rt.alloc(), &bytes)? == (5, 3, Some(5_000)));
    Ok(())
}

// Loading a session twice.
fn second_answer(alloc: Global, loader: &mut Loader) -> Result<bool, ReadError> {
    let session = ImageSession {
        id: 9,
        timeout: 5_000,
    };
    loader.part(alloc, ImagePart::Session(session))?;
    let again = loader.part(alloc, ImagePart::Session(session));
    Ok(matches!(again, Err(ReadError::Fault(Fault::BadImage))))
}

#[test]
fn a_refused_part(rt: HostRuntime) -> Result<(), Fail> {
    let mut loader = Loader::new(rt.alloc());
    assert!(rt; second_answer(rt.alloc(), &mut loader)?);
    assert!(rt; !loader.has_ended());
    Ok(())
}

#[test]
fn a_refused_read(rt: HostRuntime) -> Result<(), Fail> {
    let mut reader = Reader::new(SESSION);
    let mut phase = PartPhase::Sessions(2);
    let part = read_part(Dialect::Zk34, rt.alloc(), &mut phase, &mut reader)?;
    assert!(rt; matches!(part, Some(ImagePart::Session(_))));
    assert!(rt; matches!(phase, PartPhase::Sessions(1)));
    let refused = read_part(Dialect::Zk34, rt.alloc(), &mut phase, &mut reader);
    assert!(rt; matches!(refused, Err(ReadError::Fault(Fault::Short))));
    assert!(rt; matches!(phase, PartPhase::Sessions(1)));
    Ok(())
}
