//! Sets of texts.

use ephemerals::TextSet;
use std::alloc::Global;
use std::test::Fail;

// Inserts the texts, and returns for each whether it was new.
fn insert_all(alloc: Global, set: &mut TextSet, texts: &[&str]) -> Result<String, Fail> {
    let mut signs = String::new(alloc);
    for text in texts {
        let is_new = set.insert(alloc, text)?;
        signs.push_str(if is_new { "+" } else { "-" })?;
    }
    Ok(signs)
}

/// Appends the texts one after another, as a loop over them sees them.
pub fn add_each(out: &mut String, set: &TextSet) -> Result<(), Fail> {
    for text in set.iter() {
        out.push_str(text.as_str())?;
    }
    Ok(())
}

fn looped(alloc: Global, set: &TextSet) -> Result<String, Fail> {
    let mut out = String::new(alloc);
    add_each(&mut out, set)?;
    Ok(out)
}

// The texts one after another, as `pop_first` returns them.
fn popped(alloc: Global, set: &mut TextSet) -> Result<String, Fail> {
    let mut out = String::new(alloc);
    for _ in 0..set.len() {
        let text = set.pop_first().ok_or("no text")?;
        out.push_str(text.as_str())?;
    }
    Ok(out)
}

// The texts of a copy of the set, from which one was removed.
fn copied(alloc: Global, set: &TextSet) -> Result<String, Fail> {
    let mut copy = set.clone()?;
    copy.remove("a");
    looped(alloc, &copy)
}

#[test]
fn texts_come_in_ascending_bytes(rt: HostRuntime) -> Result<(), Fail> {
    let mut set = TextSet::new(rt.alloc());
    let signs = insert_all(rt.alloc(), &mut set, &["b", "a/c", "a", "b"])?;
    assert_eq!(rt; signs.as_str(), "+++-");
    assert_eq!(rt; copied(rt.alloc(), &set)?.as_str(), "a/cb");
    assert_eq!(rt; looped(rt.alloc(), &set)?.as_str(), "aa/cb");
    assert_eq!(rt; popped(rt.alloc(), &mut set)?.as_str(), "aa/cb");
    Ok(())
}
