//! Paths.

use crate::path_of;
use paths_and_acls::{Path, child_of, is_path, name_of, parent_of};
use std::alloc::Global;
use std::test::Fail;
use values::{Fault, NoMemory, ReadError};

// Whether the text is a path, with this parent and name.
fn is_parted(alloc: Global, text: &str, parent: &str, name: &str) -> Result<bool, ReadError> {
    let path = path_of(alloc, text)?;
    Ok(
        is_path(text.as_bytes())
            && path.as_str() == text
            && path.parent() == parent
            && path.name() == name,
    )
}

#[test]
fn paths_have_parts(rt: HostRuntime) -> Result<(), Fail> {
    for (text, parent, name) in [
        ("/", "/", ""),
        ("/a", "/", "a"),
        ("/a/b", "/a", "b"),
        ("/a/b/c", "/a/b", "c"),
    ] {
        assert!(rt; is_parted(rt.alloc(), text, parent, name)?, "{text}");
    }
    Ok(())
}

// Whether the path's child c has this path, and those are its parts.
fn is_child(alloc: Global, path: &str, child: &str) -> Result<bool, NoMemory> {
    let found = child_of(alloc, path, "c")?;
    Ok(found.as_str() == child && parent_of(child) == path && name_of(child) == "c")
}

#[test]
fn children_have_paths(rt: HostRuntime) -> Result<(), Fail> {
    for (path, child) in [("/", "/c"), ("/a/b", "/a/b/c")] {
        assert!(rt; is_child(rt.alloc(), path, child)?, "{path}");
    }
    Ok(())
}

// Whether the text is refused as a path.
fn is_refused(alloc: Global, text: &str) -> bool {
    !is_path(text.as_bytes())
        && Path::new(alloc, text).err() == Some(ReadError::Fault(Fault::BadPath))
}

#[test]
fn other_texts_are_refused(rt: HostRuntime) {
    for text in ["", "a", "//", "/a/", "/a//b", "/\0"] {
        assert!(rt; is_refused(rt.alloc(), text), "{text:?}");
    }
}
