//! Texts that are found by their hash.

use pairs::{HashKey, HashedTexts, TextKey};
use std::alloc::Global;
use std::test::Fail;

// Longer than what lies in the set itself.
const LONG: &str = "/a/path/of/more/than/thirty/bytes";

fn add(alloc: Global, texts: &mut HashedTexts, text: &str) -> Result<bool, Fail> {
    Ok(texts.insert(TextKey::new(alloc, text)?)?)
}

fn two_texts(alloc: Global) -> Result<HashedTexts, Fail> {
    let mut texts = HashedTexts::keyed(alloc, HashKey::new(3, 5));
    add(alloc, &mut texts, "/a")?;
    add(alloc, &mut texts, LONG)?;
    Ok(texts)
}

#[test]
fn inserted_once(rt: HostRuntime) -> Result<(), Fail> {
    let alloc = rt.alloc();
    let mut texts = two_texts(alloc)?;
    assert!(rt; !add(alloc, &mut texts, LONG)?);
    assert!(rt; add(alloc, &mut texts, "")?);
    assert_eq!(rt; texts.len(), 3);
    Ok(())
}

#[test]
fn removed(rt: HostRuntime) -> Result<(), Fail> {
    let mut texts = two_texts(rt.alloc())?;
    assert!(rt; texts.remove("/a") && !texts.remove("/a"));
    assert!(rt; !texts.contains("/a") && texts.contains(LONG));
    assert!(rt; texts.remove(LONG) && texts.is_empty());
    Ok(())
}

#[test]
fn shown_in_any_order(rt: HostRuntime) -> Result<(), Fail> {
    let mut texts = two_texts(rt.alloc())?;
    let copy = texts.clone()?;
    texts.remove(LONG);
    assert_eq!(rt; copy.as_slice().len(), 2);
    match texts.as_slice() {
        [only] => assert_eq!(rt; only.as_str(), "/a"),
        _ => assert!(rt; false),
    }
    Ok(())
}
