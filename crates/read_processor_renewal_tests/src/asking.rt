//! Watches that reads leave, and those that an addWatch asks for.

use crate::calls::shown;
use client_records::{AddWatch, PathAndKind, ReadKind};
use read_processor::{Request, look_of_added, watch_of, watch_sought, watch_to_add};
use settings::Dialect;
use std::alloc::Global;
use std::test::Fail;
use values::Str;
use watch_manager::WatchKind;

// A read of /a, and a watch if it is wanted.
fn asked(kind: ReadKind, watch: bool) -> Request<'static> {
    Request {
        kind,
        path: Some(Str::new("/a")),
        watch,
        rules: Dialect::Zk34,
    }
}

// The watch that a read with this error leaves, in words.
fn left(alloc: Global, request: &Request<'_>, error: i32) -> Result<String, Fail> {
    match watch_of(request, error) {
        None => Ok(String::from_str(alloc, "none")?),
        Some(watch) => shown(alloc, &watch),
    }
}

// Whether the read leaves this watch at the error 0, at -101 and at -102.
fn is_left(alloc: Global, request: &Request<'_>, wanted: [&str; 3]) -> Result<bool, Fail> {
    Ok(
        left(alloc, request, 0)?.as_str() == wanted[0]
            && left(alloc, request, -101)?.as_str() == wanted[1]
            && left(alloc, request, -102)?.as_str() == wanted[2],
    )
}

#[test]
fn reads_leave_watches(rt: HostRuntime) -> Result<(), Fail> {
    let alloc = rt.alloc();
    let rows = [
        (
            asked(ReadKind::Exists, true),
            ["data /a; ", "data /a; ", "none"],
        ),
        (
            asked(ReadKind::GetData, true),
            ["data /a; ", "none", "none"],
        ),
        (
            asked(ReadKind::GetChildren, true),
            ["child /a; ", "none", "none"],
        ),
        (
            asked(ReadKind::GetChildren2, true),
            ["child /a; ", "none", "none"],
        ),
        (asked(ReadKind::Exists, false), ["none"; 3]),
        (asked(ReadKind::GetAcl, true), ["none"; 3]),
        (asked(ReadKind::GetAcl, false), ["none"; 3]),
    ];
    for (request, wanted) in &rows {
        assert!(rt; is_left(alloc, request, *wanted)?);
    }
    Ok(())
}

// Whether an addWatch asks for this watch, in words.
fn is_added(
    alloc: Global,
    path: Option<&'static str>,
    mode: i32,
    rules: Dialect,
    wanted: &str,
) -> Result<bool, Fail> {
    let path = path.map(Str::new);
    match watch_to_add(&AddWatch { path, mode }, rules) {
        None => Ok(wanted == "none"),
        Some(watch) => Ok(shown(alloc, &watch)?.as_str() == wanted),
    }
}

#[test]
fn watches_are_added(rt: HostRuntime) -> Result<(), Fail> {
    let alloc = rt.alloc();
    let rules = Dialect::Zk34;
    assert!(rt; is_added(alloc, Some("/a"), 0, rules, "persistent alone /a; ")?);
    assert!(rt; is_added(alloc, Some("/"), 1, rules, "recursive alone /; ")?);
    assert!(rt; is_added(alloc, Some("/a/"), 0, rules, "persistent alone /a/; ")?);
    for mode in [-1, 2, 256, i32::MIN] {
        assert!(rt; is_added(alloc, Some("/a"), mode, rules, "none")?);
        assert!(rt; is_added(alloc, Some("/a"), mode, Dialect::Zk38, "none")?);
    }
    for path in [None, Some(""), Some("a"), Some("/\0")] {
        assert!(rt; is_added(alloc, path, 1, rules, "none")?);
    }
    Ok(())
}

#[test]
fn later_clients_watch_any_path(rt: HostRuntime) -> Result<(), Fail> {
    let alloc = rt.alloc();
    let rules = Dialect::Zk38;
    assert!(rt; is_added(alloc, Some("/a"), 0, rules, "persistent /a; ")?);
    assert!(rt; is_added(alloc, Some(""), 1, rules, "recursive ; ")?);
    assert!(rt; is_added(alloc, Some("a"), 0, rules, "persistent a; ")?);
    assert!(rt; is_added(alloc, None, 0, rules, "none")?);
    Ok(())
}

// The frame of the reply to an addWatch of xid 5, in hexadecimal digits.
fn reply_of(alloc: Global, rules: Dialect) -> Result<String, Fail> {
    let frame = look_of_added(alloc, rules)?
        .into_frame(5, 0)
        .ok_or("a frame")?;
    Ok(hex::encode(alloc, frame.as_slice())?)
}

#[test]
fn later_clients_are_told_the_error_again(rt: HostRuntime) -> Result<(), Fail> {
    let alloc = rt.alloc();
    let header = "00000010000000050000000000000000\
        00000000";
    let with_body = "00000014000000050000000000000000\
        0000000000000000";
    assert_eq!(rt; reply_of(alloc, Dialect::Zk34)?.as_str(), header);
    assert_eq!(rt; reply_of(alloc, Dialect::Zk38)?.as_str(), with_body);
    Ok(())
}

// The kind of the watch that is looked for at /a, as a letter.
fn sought(path: Option<&'static str>, kind: i32) -> char {
    let path = path.map(Str::new);
    let Some(sought) = watch_sought(&PathAndKind { path, kind }) else {
        return '-';
    };
    match sought.kind {
        WatchKind::Child => 'c',
        WatchKind::Data => 'd',
        WatchKind::Any => 'a',
        WatchKind::Persistent => 'p',
        WatchKind::Recursive => 'r',
    }
}

#[test]
fn watches_are_sought_by_kind(rt: HostRuntime) -> Result<(), Fail> {
    let numbers = [
        (0, '-'),
        (1, 'c'),
        (2, 'd'),
        (3, 'a'),
        (4, 'p'),
        (5, 'r'),
        (6, '-'),
        (-1, '-'),
    ];
    for (number, letter) in numbers {
        assert_eq!(rt; sought(Some("/a"), number), letter);
        assert_eq!(rt; sought(None, number), '-');
    }
    Ok(())
}
