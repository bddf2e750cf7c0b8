//! Helpers of the tests.

use data_tree::Tree;
use ephemerals::Ephemerals;
use four_letter::{Figures, Lent, WatchRow, Word, answer};
use std::alloc::Global;
use values::{Listed, NoMemory};
use watch_manager::{Table, Watched, Watches};

// The first session of server 255 for connection 2, that of server 3 for any other.
fn session_of(connection: u64) -> i64 {
    if connection == 2 {
        -72_057_594_037_927_935
    } else {
        216_172_782_113_783_809
    }
}

// Three sessions, of which one is of server 255.
fn tree(alloc: Global) -> Result<Tree, NoMemory> {
    let mut tree = Tree::empty(alloc);
    tree.put_session(session_of(1), 10_000)?;
    tree.put_session(session_of(2), 4000)?;
    tree.put_session(5, 40_000)?;
    Ok(tree)
}

// Two ephemeral nodes of the first of them, and one of session 5.
fn ephemerals(alloc: Global) -> Result<Ephemerals, NoMemory> {
    let mut owners = Ephemerals::new(alloc);
    owners.add(alloc, session_of(1), "/b")?;
    owners.add(alloc, session_of(1), "/a/e")?;
    owners.add(alloc, 5, "/c")?;
    Ok(owners)
}

/// The answer to the word by an observer with these watches, and whether it is a word.
pub fn answered(
    alloc: Global,
    word: [u8; 4],
    serving: bool,
    watches: &Watches,
) -> Result<(bool, Vec<u8>), NoMemory> {
    let mut rows = Vec::new(alloc);
    for watched in watches.summary(alloc)? {
        let Watched {
            path,
            connection,
            table,
        } = watched;
        let session = session_of(connection);
        rows.push(WatchRow {
            path,
            connection,
            session,
            table,
        })?;
    }
    let tree = tree(alloc)?;
    let ephemerals = ephemerals(alloc)?;
    let figures = Figures {
        serving,
        last: 4_294_967_301,
        connections: 2,
        paths: 3,
        pairs: 5,
        watched: watches.counts(),
        watches: Listed::from_vec(rows),
        timeouts: Lent::new(tree.sessions()),
        ephemerals: Lent::new(&ephemerals),
    };
    let mut out = Vec::new(alloc);
    out.push(b'>')?;
    let known = answer(word, &figures, &mut out)?;
    Ok((known, out))
}

/// The list of the watches: path, connection, and "d", "c" or "l" for the table.
pub fn listed(alloc: Global, watches: &Watches) -> Result<Vec<u8>, NoMemory> {
    let mut text = Vec::new(alloc);
    for row in &watches.summary(alloc)? {
        text.extend_from_slice(row.path.as_str().as_bytes())?;
        text.push(b' ')?;
        text.push(if row.connection < 10 {
            b'0' + row.connection as u8
        } else {
            b'?'
        })?;
        text.push(match row.table {
            Table::Own => b'd',
            Table::Child => b'c',
            Table::Lasting => b'l',
        })?;
        text.push(b';')?;
    }
    Ok(text)
}

/// Whether the bytes are a word whose answer lists the watches; none if they aren't a word.
pub fn tells_of_watches(bytes: [u8; 4]) -> Option<bool> {
    match Word::from_bytes(bytes) {
        None => None,
        Some(word) => Some(word.needs_watches()),
    }
}

/// The bytes that spell the word of these bytes; none if they aren't a word.
pub fn spelled_again(bytes: [u8; 4]) -> Option<[u8; 4]> {
    match Word::from_bytes(bytes) {
        None => None,
        Some(word) => Some(word.letters()),
    }
}
