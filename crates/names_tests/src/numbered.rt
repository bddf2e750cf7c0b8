//! Texts get the numbers of their places.

use names::Names;
use pairs::HashKey;
use std::alloc::Global;
use std::test::Fail;

// Two texts: "/b" and "/a", in this order.
fn two_texts<'a>(alloc: Global) -> Result<Names<'a>, Fail> {
    let mut names = Names::keyed(alloc, HashKey::new(3, 5));
    names.number("/b")?;
    names.number("/a")?;
    Ok(names)
}

#[test]
fn texts_keep_their_numbers(rt: HostRuntime) -> Result<(), Fail> {
    let mut names = two_texts(rt.alloc())?;
    assert_eq!(rt; names.number("/c")?, 2);
    assert_eq!(rt; names.number("/b")?, 0);
    assert_eq!(rt; names.number("/a")?, 1);
    assert_eq!(rt; names.len(), 3);
    Ok(())
}

#[test]
fn texts_are_found(rt: HostRuntime) -> Result<(), Fail> {
    let names = two_texts(rt.alloc())?;
    assert_eq!(rt; names.find("/a"), Some(1));
    assert!(rt; names.find("/").is_none());
    assert_eq!(rt; names.text(0), Some("/b"));
    assert!(rt; names.text(2).is_none());
    Ok(())
}
