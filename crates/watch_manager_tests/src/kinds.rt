//! The watches of a connection on a path, by kind.

use std::alloc::Global;
use std::test::Fail;
use watch_manager::{WatchKind, WatchMode, Watches};

// Connection 1 has each watch on /a, and connection 2 has a data and a child watch on it.
fn watching(alloc: Global) -> Result<Watches, Fail> {
    let mut watches = Watches::new(alloc);
    for connection in [1, 2] {
        watches.set_data(alloc, connection, "/a")?;
        watches.set_child(alloc, connection, "/a")?;
    }
    watches.set_lasting(alloc, 1, "/a", WatchMode::Persistent)?;
    watches.set_lasting(alloc, 1, "/a", WatchMode::Recursive)?;
    Ok(watches)
}

// The kinds of watches that the connection has on /a, by the numbers that clients write.
fn kinds_of(alloc: Global, watches: &Watches, connection: u64) -> Result<String, Fail> {
    let mut text = String::new(alloc);
    for (letter, kind) in [
        ("1", WatchKind::Child),
        ("2", WatchKind::Data),
        ("3", WatchKind::Any),
        ("4", WatchKind::Persistent),
        ("5", WatchKind::Recursive),
    ] {
        if watches.has_watch(connection, "/a", kind) {
            text.push_str(letter)?;
        }
    }
    Ok(text)
}

// The kinds that connection 1 has on /a after each of these is removed, and at last those of connection 2.
fn left_after(alloc: Global, removed: &[WatchKind]) -> Result<String, Fail> {
    let mut watches = watching(alloc)?;
    let mut text = String::new(alloc);
    for kind in removed {
        watches.remove_watch(1, "/a", *kind);
        text.push_str(kinds_of(alloc, &watches, 1)?.as_str())?;
        text.push_str("; ")?;
    }
    text.push_str(kinds_of(alloc, &watches, 2)?.as_str())?;
    Ok(text)
}

// The kinds that each connection has on /a.
fn at_first(alloc: Global) -> Result<(String, String), Fail> {
    let watches = watching(alloc)?;
    Ok((kinds_of(alloc, &watches, 1)?, kinds_of(alloc, &watches, 2)?))
}

// How many watches connection 1 has on /b when all those on /a are removed.
fn elsewhere(alloc: Global) -> Result<u128, Fail> {
    let mut watches = watching(alloc)?;
    watches.set_data(alloc, 1, "/b")?;
    watches.remove_watch(1, "/a", WatchKind::Any);
    Ok(watches.count_of(1))
}

#[test]
fn each_kind_is_found(rt: HostRuntime) -> Result<(), Fail> {
    let (first, second) = at_first(rt.alloc())?;
    assert_eq!(rt; first.as_str(), "12345");
    assert_eq!(rt; second.as_str(), "123");
    Ok(())
}

#[test]
fn a_watch_is_removed_by_its_kind(rt: HostRuntime) -> Result<(), Fail> {
    let kinds = [
        WatchKind::Persistent,
        WatchKind::Child,
        WatchKind::Data,
        WatchKind::Recursive,
    ];
    let left = left_after(rt.alloc(), &kinds)?;
    assert_eq!(rt; left.as_str(), "1235; 235; 35; ; 123");
    Ok(())
}

#[test]
fn all_watches_on_a_path_are_removed(rt: HostRuntime) -> Result<(), Fail> {
    let left = left_after(rt.alloc(), &[WatchKind::Any])?;
    assert_eq!(rt; left.as_str(), "; 123");
    assert_eq!(rt; elsewhere(rt.alloc())?, 1);
    Ok(())
}
