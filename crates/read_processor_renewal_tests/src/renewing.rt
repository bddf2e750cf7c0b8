//! The answer to a SetWatches.

use crate::calls::{all_asked, asked, shown, tree_with_a};
use client_records::SetWatches;
use client_records::codes::NOTIFICATION_XID;
use data_tree::Tree;
use read_processor::{Look, Renewal, renew, renew_all};
use settings::Dialect;
use std::alloc::Global;
use std::test::Fail;
use values::Text;
use watch_manager::{Event, EventKind};

const ZXID: i64 = 0x1_0000_0001;

// The events that a reconnected client gets and the watches set for it, in words.
fn told(alloc: Global, renewal: &Renewal<'_>) -> Result<String, Fail> {
    let mut text = String::new(alloc);
    for event in renewal.events.as_slice() {
        let number = event.kind.number();
        text.push_str(format!(in alloc; "{number} ")?.as_str())?;
        text.push_str(event.path.as_str())?;
        text.push_str("; ")?;
    }
    for watch in renewal.watches.as_slice() {
        text.push_str(shown(alloc, watch)?.as_str())?;
    }
    Ok(text)
}

fn renewed(
    alloc: Global,
    tree: &Tree,
    asked: &SetWatches<'_>,
    rules: Dialect,
) -> Result<String, Fail> {
    match renew(alloc, tree, asked, rules)? {
        None => Ok(String::new(alloc)),
        Some(renewal) => told(alloc, &renewal),
    }
}

// The frame of an event, in hexadecimal digits.
fn frame_of(alloc: Global, kind: EventKind, path: &str) -> Result<String, Fail> {
    let path = Text::new(alloc, path)?;
    let look = Look::of_event(alloc, &Event { kind, path })?;
    let frame = look.into_frame(NOTIFICATION_XID, -1).ok_or("a frame")?;
    Ok(hex::encode(alloc, frame.as_slice())?)
}

// Whether these are the events and watches of a client that had one path in each list: a node that it has read, one
// that was missing, and one whose children it has listed.
fn is_renewed(
    alloc: Global,
    tree: &Tree,
    relative_zxid: i64,
    paths: [&str; 3],
    rules: Dialect,
    wanted: &str,
) -> Result<bool, Fail> {
    let [data, exist, child] = paths;
    let asked = asked(alloc, relative_zxid, data, exist, child)?;
    Ok(renewed(alloc, tree, &asked, rules)?.as_str() == wanted)
}

#[test]
fn what_was_missed(rt: HostRuntime) -> Result<(), Fail> {
    let alloc = rt.alloc();
    let tree = tree_with_a(alloc, ZXID)?;
    let rows = [
        (0, ["/a", "/q", "/"], "3 /a; 4 /; data /q; "),
        (ZXID, ["/a", "/q", "/"], "data /a; data /q; child /; "),
        (ZXID, ["/q", "/a", "/q"], "2 /q; 1 /a; 2 /q; "),
        (0, ["/a", "", "/"], ""),
        (0, ["/a", "/q", "a"], ""),
    ];
    for (since, paths, wanted) in rows {
        assert!(rt; is_renewed(alloc, &tree, since, paths, Dialect::Zk34, wanted)?);
    }
    let any = ["/a", "a", ""];
    assert!(rt; is_renewed(alloc, &tree, 0, any, Dialect::Zk38, "3 /a; 2 ; data a; ")?);
    Ok(())
}

/// The lasting watches are set again, and have no event.
#[test]
fn what_was_missed_of_all_watches(rt: HostRuntime) -> Result<(), Fail> {
    let alloc = rt.alloc();
    let tree = tree_with_a(alloc, ZXID)?;
    let asked = all_asked(alloc, 0, ["/a", "/q", "/"], "/a", "q")?;
    let wanted = "3 /a; 4 /; data /q; persistent /a; recursive q; ";
    let renewal = renew_all(alloc, &tree, &asked)?;
    assert_eq!(rt; told(alloc, &renewal)?.as_str(), wanted);
    Ok(())
}

/// An event has the xid -1, the zxid -1 and no error; then its number, the state 3 and the path.
#[test]
fn events_are_framed(rt: HostRuntime) -> Result<(), Fail> {
    let alloc = rt.alloc();
    let frame = frame_of(alloc, EventKind::NodeDataChanged, "/a")?;
    let wanted = "0000001effffffffffffffffffffffff00000000\
        0000000300000003000000022f61";
    assert_eq!(rt; frame.as_str(), wanted);
    Ok(())
}
