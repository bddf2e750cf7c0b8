//! The counts of watches.

use crate::{counts_of, trigger_of};
use std::alloc::Global;
use std::test::Fail;
use watch_manager::{WatchKind, WatchMode, Watches};

// Connection 1 watches /a in all three tables, connection 2 its data, and connection 3 the children of the root, and /b
// lastingly.
fn watching(alloc: Global) -> Result<Watches, Fail> {
    let mut watches = Watches::new(alloc);
    watches.set_data(alloc, 1, "/a")?;
    watches.set_data(alloc, 1, "/a")?;
    watches.set_data(alloc, 2, "/a")?;
    watches.set_child(alloc, 1, "/a")?;
    watches.set_child(alloc, 3, "/")?;
    watches.set_lasting(alloc, 3, "/b", WatchMode::Persistent)?;
    watches.set_lasting(alloc, 1, "/a", WatchMode::Recursive)?;
    Ok(watches)
}

fn use_up(alloc: Global, watches: &mut Watches, path: &str) -> Result<(), Fail> {
    let mut triggers = Vec::new(alloc);
    triggers.push(trigger_of(alloc, '=', path)?)?;
    watches.fire(alloc, &triggers)?;
    Ok(())
}

#[test]
fn all_watches_are_counted(rt: HostRuntime) -> Result<(), Fail> {
    let alloc = rt.alloc();
    let watches = watching(alloc)?;
    assert_eq!(rt; counts_of(&watches), (3, 3, 6));
    assert_eq!(rt; watches.count(), 6);
    assert_eq!(rt; watches.count_of(1), 3);
    assert_eq!(rt; watches.count_of(2), 1);
    assert_eq!(rt; watches.count_of(4), 0);
    Ok(())
}

#[test]
fn watches_that_go_are_counted_no_more(rt: HostRuntime) -> Result<(), Fail> {
    let alloc = rt.alloc();
    let mut watches = watching(alloc)?;
    watches.remove_watch(1, "/a", WatchKind::Recursive);
    assert_eq!(rt; counts_of(&watches), (3, 3, 5));
    watches.set_lasting(alloc, 1, "/a", WatchMode::Persistent)?;
    assert_eq!(rt; counts_of(&watches), (3, 3, 6));
    use_up(alloc, &mut watches, "/a")?;
    assert_eq!(rt; counts_of(&watches), (2, 3, 4));
    watches.drop_conn(3);
    assert_eq!(rt; counts_of(&watches), (1, 1, 2));
    Ok(())
}

#[test]
fn both_lasting_watches_are_counted_and_listed_once(rt: HostRuntime) -> Result<(), Fail> {
    let alloc = rt.alloc();
    let mut watches = watching(alloc)?;
    watches.set_lasting(alloc, 1, "/a", WatchMode::Persistent)?;
    assert_eq!(rt; counts_of(&watches), (3, 3, 7));
    assert_eq!(rt; watches.count_of(1), 4);
    assert_eq!(rt; watches.summary(alloc)?.len(), 6);
    Ok(())
}
