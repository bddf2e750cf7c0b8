//! The answer to each word.

use crate::helpers::{answered, listed, spelled_again, tells_of_watches};
use std::alloc::Global;
use std::test::Fail;
use watch_manager::{WatchMode, Watches};

// Connection 1 watches /a in all three tables, connection 2 its data, and connection 3 the children of the root, and /b
// lastingly.
fn watching(alloc: Global) -> Result<Watches, Fail> {
    let mut watches = Watches::new(alloc);
    watches.set_child(alloc, 1, "/a")?;
    watches.set_data(alloc, 2, "/a")?;
    watches.set_data(alloc, 1, "/a")?;
    watches.set_child(alloc, 3, "/")?;
    watches.set_lasting(alloc, 3, "/b", WatchMode::Persistent)?;
    watches.set_lasting(alloc, 1, "/a", WatchMode::Recursive)?;
    Ok(watches)
}

// Whether the word has this answer, after what was there before.
fn is_answered(
    alloc: Global,
    word: &[u8; 4],
    serving: bool,
    watches: &Watches,
    wanted: &str,
) -> Result<bool, Fail> {
    let (known, out) = answered(alloc, *word, serving, watches)?;
    Ok(known && out.as_slice() == wanted.as_bytes())
}

// The number of words with another answer.
fn otherwise(
    alloc: Global,
    serving: bool,
    watches: &Watches,
    wanted: &[(&[u8; 4], &str)],
) -> Result<usize, Fail> {
    let mut count: usize = 0;
    for (word, text) in wanted {
        if !is_answered(alloc, *word, serving, watches, *text)? {
            count = count.saturating_add(1);
        }
    }
    Ok(count)
}

#[test]
fn words_are_answered_while_serving(rt: HostRuntime) -> Result<(), Fail> {
    let alloc = rt.alloc();
    let watches = watching(alloc)?;
    let wanted = [
        (b"ruok", ">imok"),
        (b"isro", ">rw"),
        (
            b"srvr",
            ">Connections: 2\nZxid: 0x100000005\nMode: observer\nNode count: 4\n",
        ),
        (
            b"mntr",
            concat!(
                ">zk_server_state\tobserver\nzk_num_alive_connections\t2\nzk_znode_count\t4\n",
                "zk_watch_count\t6\nzk_ephemerals_count\t5\n"
            ),
        ),
        (
            b"wchs",
            ">3 connections watching 3 paths\nTotal watches:6\n",
        ),
        (
            b"wchp",
            ">/\n\t0x300000000000001\n/a\n\t0xff00000000000001\n\t0x300000000000001\n/b\n\t0x300000000000001\n",
        ),
        (
            b"wchc",
            ">0xff00000000000001\n\t/a\n0x300000000000001\n\t/\n\t/a\n\t/b\n",
        ),
        (
            b"dump",
            concat!(
                ">SessionTracker dump:\nGlobal Sessions(3):\n0xff00000000000001\t4000ms\n0x5\t40000ms\n",
                "0x300000000000001\t10000ms\nephemeral nodes dump:\nSessions with Ephemerals (2):\n0x5:\n\t/c\n",
                "0x300000000000001:\n\t/a/e\n\t/b\n"
            ),
        ),
    ];
    assert_eq!(rt; otherwise(alloc, true, &watches, &wanted)?, 0);
    Ok(())
}

#[test]
fn words_are_answered_without_a_leader(rt: HostRuntime) -> Result<(), Fail> {
    let alloc = rt.alloc();
    let watches = watching(alloc)?;
    let wanted = [
        (b"ruok", ">imok"),
        (b"isro", ">null"),
        (b"srvr", ">not serving\n"),
        (b"mntr", ">not serving\n"),
        (b"wchs", ">not serving\n"),
        (b"wchp", ">not serving\n"),
        (b"wchc", ">not serving\n"),
        (b"dump", ">not serving\n"),
    ];
    assert_eq!(rt; otherwise(alloc, false, &watches, &wanted)?, 0);
    Ok(())
}

#[test]
fn other_bytes_are_no_word(rt: HostRuntime) -> Result<(), Fail> {
    let alloc = rt.alloc();
    let watches = watching(alloc)?;
    let (known, out) = answered(alloc, *b"stat", true, &watches)?;
    assert!(rt; !known);
    assert!(rt; out.as_slice() == b">".as_slice());
    assert!(rt; tells_of_watches(*b"stat").is_none());
    assert!(rt; spelled_again(*b"stat").is_none());
    assert_eq!(rt; spelled_again(*b"mntr"), Some(*b"mntr"));
    assert_eq!(rt; tells_of_watches(*b"mntr"), Some(false));
    assert_eq!(rt; tells_of_watches(*b"wchp"), Some(true));
    assert_eq!(rt; tells_of_watches(*b"wchc"), Some(true));
    assert_eq!(rt; tells_of_watches(*b"dump"), Some(false));
    Ok(())
}

#[test]
fn watches_are_listed_in_order(rt: HostRuntime) -> Result<(), Fail> {
    let alloc = rt.alloc();
    let watches = watching(alloc)?;
    let text = listed(alloc, &watches)?;
    assert!(rt; text.as_slice() == b"/ 3c;/a 1d;/a 1c;/a 1l;/a 2d;/b 3l;".as_slice());
    Ok(())
}
