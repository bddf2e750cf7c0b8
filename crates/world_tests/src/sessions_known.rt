//! What is known of sessions: their passwords and their timeouts.

use data_tree::{HashKey, Tree};
use forwarding::SessionTimeouts;
use sessions::{Passwords, SessionRequest, Sessions};
use settings::{Dialect, Epochs, FirstCounter, Secret, ServerId, TimeoutBounds};
use std::alloc::Global;
use std::test::Fail;
use values::{Blob, Bytes, NoMemory};
use world::{Clients, KnownTimeouts, Settings};

// Whether a server of this dialect and secret takes the password that ZooKeeper's servers give to a session.
fn takes_java_password(alloc: Global, dialect: Dialect, secret: &[u8]) -> Result<bool, NoMemory> {
    let settings = Settings {
        server_id: ServerId::default(),
        epochs: Epochs::default(),
        timeouts: TimeoutBounds::default(),
        secret: Secret::new(Blob::new(alloc, secret)?).unwrap_or(Secret::empty(alloc)),
        super_digest: None,
        first_counter: FirstCounter::default(),
        dialect,
    };
    let clients = Clients::new(alloc, HashKey::default(), &settings)?;
    let password = Bytes::new(b"\x33\x93\x34\xdf\x44\xb0\x3b\xff\xc9\xf0\x77\x6b\x2d\x64\x54\x61");
    let request = SessionRequest {
        time_out: 20_000,
        session_id: 0x0100_001c_0fff_0000,
        password: Some(password),
    };
    Ok(clients.sessions.claimed(&request).is_some())
}

#[test]
fn a_secret_closes_the_farm(rt: HostRuntime) -> Result<(), Fail> {
    let alloc = rt.alloc();
    for (dialect, secret, expected) in [
        (Dialect::Zk38, b"".as_slice(), true),
        (Dialect::Zk38, b"secret".as_slice(), false),
        (Dialect::Zk34, b"".as_slice(), false),
        (Dialect::Zk34, b"secret".as_slice(), false),
    ] {
        assert_eq!(rt; takes_java_password(alloc, dialect, secret)?, expected);
    }
    Ok(())
}

// Gives the session to a connection that has none.
fn admit(
    alloc: Global,
    sessions: &mut Sessions,
    connection: u64,
    session: i64,
    time_out: i32,
) -> Result<(), NoMemory> {
    match sessions.session(connection) {
        Some(_) => Ok(()),
        None => {
            sessions.admit(alloc, connection, session, time_out)?;
            Ok(())
        }
    }
}

fn timeout(known: &KnownTimeouts<'_>, session: i64) -> i32 {
    known.timeout_of(session).unwrap_or(0)
}

// The timeouts of sessions 5, 6, 7 and 9, or 0.
fn timeouts_in<'a>(counts_told: bool, sessions: &'a Sessions, tree: &'a Tree) -> [i32; 4] {
    let known = KnownTimeouts {
        counts_told,
        sessions,
        tree: tree.sessions(),
    };
    [
        timeout(&known, 5),
        timeout(&known, 6),
        timeout(&known, 7),
        timeout(&known, 9),
    ]
}

// The timeouts of these sessions: the tree has 5 and 9, and connections have 5 and 7.
fn timeouts(alloc: Global, counts_told: bool) -> Result<[i32; 4], NoMemory> {
    let mut sessions = Sessions::new(
        alloc,
        ServerId::default(),
        TimeoutBounds::default(),
        Passwords::Java,
        FirstCounter::default(),
        None,
    );
    admit(alloc, &mut sessions, 1, 5, 24_000)?;
    admit(alloc, &mut sessions, 2, 7, 5000)?;
    let mut tree = Tree::empty(alloc);
    tree.put_session(5, 4000)?;
    tree.put_session(9, 30_000)?;
    Ok(timeouts_in(counts_told, &sessions, &tree))
}

#[test]
fn the_told_timeout_comes_before_the_trees(rt: HostRuntime) -> Result<(), Fail> {
    let alloc = rt.alloc();
    assert_eq!(rt; timeouts(alloc, true)?, [24_000, 0, 5000, 30_000]);
    assert_eq!(rt; timeouts(alloc, false)?, [4000, 0, 0, 30_000]);
    Ok(())
}
