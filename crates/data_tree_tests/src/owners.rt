//! The owners of paths.

use crate::cells::texts;
use crate::texts::add_each;
use ephemerals::{Ephemerals, TextSet};
use std::alloc::Global;
use std::test::Fail;

// Appends the paths of a session, one after another; a dash if there are none.
fn add_paths(
    alloc: Global,
    owners: &Ephemerals,
    session: i64,
    text: &mut String,
) -> Result<(), Fail> {
    if owners.owns_any(session) {
        add_each(text, &owners.of(alloc, session)?)?;
    } else {
        text.push_str("-")?;
    }
    text.push_str(";")?;
    Ok(())
}

// The paths of sessions 0, 7 and 9.
fn text_of(alloc: Global, owners: &Ephemerals) -> Result<String, Fail> {
    let mut text = String::new(alloc);
    add_text_of(alloc, owners, &mut text)?;
    Ok(text)
}

fn add_text_of(alloc: Global, owners: &Ephemerals, text: &mut String) -> Result<(), Fail> {
    add_paths(alloc, owners, 0, text)?;
    add_paths(alloc, owners, 7, text)?;
    add_paths(alloc, owners, 9, text)
}

// Adds pairs, and returns for each whether it was new.
fn add_all(alloc: Global, owners: &mut Ephemerals, pairs: &[(i64, &str)]) -> Result<String, Fail> {
    let mut signs = String::new(alloc);
    for (session, path) in pairs {
        signs.push_str(if owners.add(alloc, *session, path)? {
            "+"
        } else {
            "-"
        })?;
    }
    Ok(signs)
}

// Two paths of session 9, one of them twice, and one of session 0.
fn fill(alloc: Global, owners: &mut Ephemerals) -> Result<String, Fail> {
    add_all(alloc, owners, &[(9, "/b"), (9, "/a"), (9, "/b"), (0, "/c")])
}

// The paths of a copy of the pairs, in which /a moves from session 9 to session 7.
fn moved(alloc: Global, owners: &Ephemerals) -> Result<String, Fail> {
    let mut copy = owners.clone()?;
    copy.replace(alloc, "/a", 9, 7)?;
    copy.replace(alloc, "/c", 0, 0)?;
    text_of(alloc, &copy)
}

// Takes the pairs at these paths, and appends them and the others.
fn take(
    alloc: Global,
    owners: &mut Ephemerals,
    paths: &TextSet,
    text: &mut String,
) -> Result<Ephemerals, Fail> {
    let found = owners.at(alloc, paths)?;
    owners.drop_at(paths);
    add_text_of(alloc, &found, text)?;
    add_text_of(alloc, owners, text)?;
    Ok(found)
}

// Appends the pairs at /a, owned by session 9 and then by session 7, and the other pairs without them and with them
// again.
fn take_and_add(alloc: Global, owners: &mut Ephemerals, text: &mut String) -> Result<(), Fail> {
    owners.add(alloc, 7, "/a")?;
    let found = take(alloc, owners, &texts(alloc, &["/a"])?, text)?;
    owners.add_all(alloc, &found)?;
    add_text_of(alloc, owners, text)
}

#[test]
fn pairs_move_by_their_paths(rt: HostRuntime) -> Result<(), Fail> {
    let mut owners = Ephemerals::new(rt.alloc());
    fill(rt.alloc(), &mut owners)?;
    let mut text = String::new(rt.alloc());
    take_and_add(rt.alloc(), &mut owners, &mut text)?;
    assert_eq!(rt; text.as_str(), "-;/a;/a;-;-;/b;-;/a;/a/b;");
    assert_eq!(rt; owners.count(), 3);
    Ok(())
}

#[test]
fn pairs_come_and_go(rt: HostRuntime) -> Result<(), Fail> {
    let mut owners = Ephemerals::new(rt.alloc());
    let signs = fill(rt.alloc(), &mut owners)?;
    assert_eq!(rt; signs.as_str(), "++--");
    assert_eq!(rt; moved(rt.alloc(), &owners)?.as_str(), "-;/a;/b;");
    assert_eq!(rt; owners.paths_of(9).len(), 2);
    assert_eq!(rt; owners.take_session(rt.alloc(), 9)?.len(), 2);
    assert_eq!(rt; text_of(rt.alloc(), &owners)?.as_str(), "-;-;-;");
    Ok(())
}
