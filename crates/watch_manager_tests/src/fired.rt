//! The events of triggers, and the watches that they use up.

use crate::trigger_of;
use std::alloc::Global;
use std::test::Fail;
use watch_manager::{WatchMode, Watches};

// Sets watches by connection and path: "d" of data, "p" persistent, "r" recursive, anything else of children.
fn watching(alloc: Global, watches: &[(char, u64, &str)]) -> Result<Watches, Fail> {
    let mut all = Watches::new(alloc);
    for (table, connection, path) in watches {
        match *table {
            'd' => all.set_data(alloc, *connection, path)?,
            'p' => all.set_lasting(alloc, *connection, path, WatchMode::Persistent)?,
            'r' => all.set_lasting(alloc, *connection, path, WatchMode::Recursive)?,
            _ => all.set_child(alloc, *connection, path)?,
        }
    }
    Ok(all)
}

// The events of the changes, as connection, number of the event, and path.
fn told(alloc: Global, watches: &mut Watches, changes: &[(char, &str)]) -> Result<String, Fail> {
    let mut triggers = Vec::new(alloc);
    for (sign, path) in changes {
        triggers.push(trigger_of(alloc, *sign, path)?)?;
    }
    let mut text = String::new(alloc);
    for (connection, event) in watches.fire(alloc, &triggers)? {
        let number = event.kind.number();
        text.push_str(format!(in alloc; "{connection}:{number} ")?.as_str())?;
        text.push_str(event.path.as_str())?;
        text.push_str("; ")?;
    }
    Ok(text)
}

fn drop_conn(watches: &mut Watches, connection: u64) {
    watches.drop_conn(connection);
}

#[test]
fn a_delete_tells_each_connection_once(rt: HostRuntime) -> Result<(), Fail> {
    let alloc = rt.alloc();
    let mut watches = watching(
        alloc,
        &[
            ('d', 1, "/a"),
            ('c', 1, "/a"),
            ('c', 2, "/a"),
            ('c', 2, "/"),
        ],
    )?;
    let told_first = told(alloc, &mut watches, &[('-', "/a"), ('~', "/")])?;
    assert_eq!(rt; told_first.as_str(), "1:2 /a; 2:2 /a; 2:4 /; ");
    let again = [('+', "/a"), ('~', "/"), ('-', "/a"), ('~', "/")];
    assert_eq!(rt; told(alloc, &mut watches, &again)?.as_str(), "");
    Ok(())
}

#[test]
fn a_session_ends(rt: HostRuntime) -> Result<(), Fail> {
    let alloc = rt.alloc();
    let mut watches = watching(alloc, &[('c', 1, "/a"), ('c', 1, "/b"), ('d', 1, "/a/f")])?;
    let deletes = [
        ('-', "/a/e"),
        ('~', "/a"),
        ('-', "/a/f"),
        ('~', "/a"),
        ('-', "/b/g"),
        ('~', "/b"),
    ];
    let wanted = "1:4 /a; 1:2 /a/f; 1:4 /b; ";
    assert_eq!(rt; told(alloc, &mut watches, &deletes)?.as_str(), wanted);
    Ok(())
}

#[test]
fn connections_ascend_and_watches_are_set_again(rt: HostRuntime) -> Result<(), Fail> {
    let alloc = rt.alloc();
    let mut watches = watching(
        alloc,
        &[
            ('d', 18446744073709551615, "/q"),
            ('d', 7, "/q"),
            ('d', 0, "/q"),
            ('d', 7, "/q"),
        ],
    )?;
    let wanted = "0:1 /q; 7:1 /q; 18446744073709551615:1 /q; ";
    assert_eq!(rt;
        told(alloc, &mut watches, &[('+', "/q"), ('=', "/q")])?.as_str(),
        wanted
    );
    watches.set_data(alloc, 7, "/q")?;
    assert_eq!(rt;
        told(alloc, &mut watches, &[('=', "/q"), ('=', "/q")])?.as_str(),
        "7:3 /q; "
    );
    Ok(())
}

#[test]
fn a_connection_takes_its_own_watches_with_it(rt: HostRuntime) -> Result<(), Fail> {
    let alloc = rt.alloc();
    let mut watches = watching(
        alloc,
        &[
            ('d', 1, "/a"),
            ('c', 1, "/a"),
            ('d', 2, "/a"),
            ('d', 1, "/a/"),
            ('c', 2, "/b"),
        ],
    )?;
    drop_conn(&mut watches, 1);
    drop_conn(&mut watches, 3);
    let changes = [('=', "/a"), ('~', "/a"), ('=', "/a/"), ('~', "/b")];
    assert_eq!(rt;
        told(alloc, &mut watches, &changes)?.as_str(),
        "2:3 /a; 2:4 /b; "
    );
    Ok(())
}

#[test]
fn a_recursive_watch_is_told_of_all_below_it(rt: HostRuntime) -> Result<(), Fail> {
    let alloc = rt.alloc();
    let mut watches = watching(alloc, &[('r', 1, "/a"), ('r', 2, "/"), ('r', 3, "/a/")])?;
    let changes = [
        ('+', "/a"),
        ('~', "/"),
        ('+', "/a/b"),
        ('~', "/a"),
        ('=', "/a/b/c"),
        ('=', "/ab"),
        ('-', "/"),
    ];
    let wanted = "1:1 /a; 2:1 /a; 1:1 /a/b; 2:1 /a/b; 1:3 /a/b/c; 2:3 /a/b/c; 2:3 /ab; 2:2 /; ";
    assert_eq!(rt; told(alloc, &mut watches, &changes)?.as_str(), wanted);
    Ok(())
}

#[test]
fn a_persistent_watch_is_told_of_its_path_again_and_again(rt: HostRuntime) -> Result<(), Fail> {
    let alloc = rt.alloc();
    let mut watches = watching(alloc, &[('p', 1, "/"), ('p', 2, "/a"), ('c', 2, "/a")])?;
    let changes = [
        ('+', "/a"),
        ('~', "/"),
        ('=', "/a"),
        ('~', "/a"),
        ('-', "/a"),
        ('~', "/"),
    ];
    let wanted = "2:1 /a; 1:4 /; 2:3 /a; 2:4 /a; 2:2 /a; 1:4 /; ";
    assert_eq!(rt; told(alloc, &mut watches, &changes)?.as_str(), wanted);
    Ok(())
}

#[test]
fn a_connection_with_a_watch_in_each_table_is_told_once(rt: HostRuntime) -> Result<(), Fail> {
    let alloc = rt.alloc();
    let mut watches = watching(
        alloc,
        &[
            ('r', 2, "/"),
            ('p', 2, "/a"),
            ('d', 2, "/a"),
            ('c', 2, "/a"),
            ('d', 3, "/a"),
            ('c', 1, "/a"),
        ],
    )?;
    let deleted = [('-', "/a"), ('~', "/")];
    let wanted = "2:2 /a; 3:2 /a; 1:2 /a; ";
    assert_eq!(rt; told(alloc, &mut watches, &deleted)?.as_str(), wanted);
    assert_eq!(rt; told(alloc, &mut watches, &deleted)?.as_str(), "2:2 /a; ");
    Ok(())
}

#[test]
fn a_path_may_have_both_lasting_watches(rt: HostRuntime) -> Result<(), Fail> {
    let alloc = rt.alloc();
    let mut watches = watching(alloc, &[('r', 1, "/a"), ('p', 1, "/a")])?;
    let changes = [
        ('+', "/a"),
        ('~', "/"),
        ('+', "/a/b"),
        ('~', "/a"),
        ('-', "/a/b"),
        ('~', "/a"),
    ];
    let wanted = "1:1 /a; 1:1 /a/b; 1:4 /a; 1:2 /a/b; 1:4 /a; ";
    assert_eq!(rt; told(alloc, &mut watches, &changes)?.as_str(), wanted);
    assert_eq!(rt; told(alloc, &mut watches, &changes)?.as_str(), wanted);
    Ok(())
}

#[test]
fn nothing_is_below_the_empty_text(rt: HostRuntime) -> Result<(), Fail> {
    let alloc = rt.alloc();
    let mut watches = watching(alloc, &[('r', 1, ""), ('p', 1, "a")])?;
    let changes = [('+', "/a"), ('~', "/"), ('+', "/a/b"), ('~', "/a")];
    assert_eq!(rt; told(alloc, &mut watches, &changes)?.as_str(), "");
    assert_eq!(rt; watches.count(), 2);
    Ok(())
}
