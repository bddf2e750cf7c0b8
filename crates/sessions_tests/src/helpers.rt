//! The steps of a test, and what each tells, in words.
//!
//! The calls are in functions without contracts, so no proof computes what a step tells. A test is a table of steps:
//! one loop asserts for all of them, and one function owns the sessions.

use sessions::{Connected, Passwords, SessionRequest, SessionResponse, Sessions};
use settings::{FirstCounter, Secret, ServerId, TimeoutBounds};
use std::alloc::Global;
use std::process::Abort;
use std::test::Fail;
use values::{Blob, Bytes, NoMemory, Text};

/// A server with timeouts from 4,000 to 40,000 milliseconds.
#[derive(Clone, Copy)]
pub enum Server<'a> {
    /// This server (server 1, if the number isn't a server id), with the secret "secret". Its ids begin after this
    /// counter (or with 1, if that is out of bounds).
    Keyed(i32, u64),
    /// Server 3, whose passwords are those of ZooKeeper's own servers.
    Java,
    /// The same, but a client with this digest is the super user.
    JavaWithSuper(&'a str),
}

/// What a client asks for: a session that it had, or a new one with the id 0.
#[derive(Clone, Copy)]
pub struct Claim<'a> {
    pub time_out: i32,
    pub session: i64,
    pub password: Option<&'a [u8]>,
}

/// What is done to the sessions, or asked of them. A connection's number is the first.
#[derive(Clone, Copy)]
pub enum Step<'a> {
    /// Gives a connection without a session this one, with a timeout of 10 seconds.
    Open(u64, i64),
    /// Gives a connection without a session this one, with this timeout: the response, and the older connection.
    Admit(u64, i64, i32),
    /// A connection without a session claims one, which lives: the response, and the older connection.
    Connect(u64, Claim<'a>),
    /// The same, but the tree doesn't have the session.
    ConnectToEnded(u64, Claim<'a>),
    /// The response to a client that claims a session of any server.
    Claim(Claim<'a>),
    Close(u64),
    /// Ends a session: its connection, or 0 if there is none.
    Expire(i64),
    /// The connection of a session; 0 if there is none.
    Owner(i64),
    /// The timeout that the session's connection was told; 0 if there is none.
    Told(i64),
    /// The last bytes of the sessions of connections 1, 2 and 3, as hexadecimal digits; 00 if there is none.
    Seats,
    /// Connection 1 shows this; "refused" if it may not.
    Auth(Option<&'a str>, Option<&'a [u8]>),
    /// Connection 1 shows the digest id of a byte, so often.
    ShowRepeated(u8, usize),
    /// Connection 1 shows so many users: how many of them are accepted.
    ShowUsers(usize),
    ShowAddress(&'a str),
    /// The ids of connection 1, one after another.
    Ids,
    CountIds,
}

/// Connection 1 shows a digest id.
pub fn show(text: &str) -> Step<'_> {
    Step::Auth(Some("digest"), Some(text.as_bytes()))
}

/// Takes the steps at a server without sessions. Each has to tell the text beside it.
pub fn play<R: Abort>(
    rt: &R,
    alloc: Global,
    server: Server<'_>,
    steps: &[(Step<'_>, &str)],
) -> Result<(), Fail> {
    let mut sessions = sessions_of(alloc, server)?;
    for (number, (step, expected)) in steps.iter().enumerate() {
        let told = take_step(alloc, &mut sessions, step)?;
        assert_eq!(rt; told.as_str(), *expected, "at step {number}");
    }
    Ok(())
}

fn sessions_of(alloc: Global, server: Server<'_>) -> Result<Sessions, NoMemory> {
    match server {
        Server::Keyed(number, counter) => keyed(alloc, number, counter),
        Server::Java => Ok(java(alloc, None)),
        Server::JavaWithSuper(digest) => Ok(java(alloc, Some(Text::new(alloc, digest)?))),
    }
}

fn keyed(alloc: Global, number: i32, counter: u64) -> Result<Sessions, NoMemory> {
    let secret = Secret::new(Blob::new(alloc, b"secret")?).unwrap_or(Secret::empty(alloc));
    Ok(Sessions::new(
        alloc,
        ServerId::new(number).unwrap_or(ServerId::default()),
        TimeoutBounds::default(),
        Passwords::Keyed(secret),
        FirstCounter::new(counter).unwrap_or(FirstCounter::default()),
        None,
    ))
}

fn java(alloc: Global, super_digest: Option<Text>) -> Sessions {
    Sessions::new(
        alloc,
        ServerId::new(3).unwrap_or(ServerId::default()),
        TimeoutBounds::default(),
        Passwords::Java,
        FirstCounter::default(),
        super_digest,
    )
}

fn take_step(alloc: Global, sessions: &mut Sessions, step: &Step<'_>) -> Result<String, Fail> {
    match step {
        Step::Admit(number, session, time_out) => {
            admit(alloc, sessions, *number, *session, *time_out)
        }
        Step::Connect(number, claim) => connect(alloc, sessions, *number, true, claim),
        Step::ConnectToEnded(number, claim) => connect(alloc, sessions, *number, false, claim),
        Step::Auth(scheme, bytes) => auth(alloc, sessions, *scheme, *bytes),
        Step::ShowRepeated(byte, len) => show_repeated(alloc, sessions, *byte, *len),
        Step::ShowUsers(count) => show_users(alloc, sessions, *count),
        Step::Expire(session) => or_zero(alloc, sessions.expire(*session)),
        _ => {
            change(alloc, sessions, step)?;
            look(alloc, sessions, step)
        }
    }
}

// What a step tells that changes nothing.
fn look(alloc: Global, sessions: &Sessions, step: &Step<'_>) -> Result<String, Fail> {
    match step {
        Step::Claim(claim) => claimed(alloc, sessions, claim),
        Step::Owner(session) => or_zero(alloc, sessions.connection(*session)),
        Step::Told(session) => told(alloc, sessions, *session),
        Step::Seats => seats(alloc, sessions),
        Step::Ids => ids(alloc, sessions),
        Step::CountIds => Ok(sessions.ids(1).len().to_string(alloc)?),
        _ => Ok(String::new(alloc)),
    }
}

fn change(alloc: Global, sessions: &mut Sessions, step: &Step<'_>) -> Result<(), Fail> {
    match step {
        Step::Open(number, session) => {
            admit(alloc, sessions, *number, *session, 10_000)?;
        }
        Step::Close(number) => sessions.close(*number),
        Step::ShowAddress(address) => sessions.show_address(alloc, 1, address)?,
        _ => {}
    }
    Ok(())
}

fn or_zero(alloc: Global, number: Option<u64>) -> Result<String, Fail> {
    Ok(number.unwrap_or(0).to_string(alloc)?)
}

fn told(alloc: Global, sessions: &Sessions, session: i64) -> Result<String, Fail> {
    Ok(
        sessions
            .told_timeout(session)
            .unwrap_or(0)
            .to_string(alloc)?,
    )
}

// A response in words: timeout, id and password.
fn response_text(alloc: Global, response: &SessionResponse) -> Result<String, Fail> {
    let time_out = response.time_out;
    let id = hex::encode(alloc, &response.session_id.to_be_bytes())?;
    let password = hex::encode(alloc, &response.password)?;
    Ok(format!(in alloc; "{time_out} {id} {password}")?)
}

// A response, and the older connection.
fn connected_text(alloc: Global, connected: &Connected) -> Result<String, Fail> {
    let mut text = response_text(alloc, &connected.response)?;
    match connected.older {
        None => text.push_str(" -;")?,
        Some(older) => text.push_str(format!(in alloc; " {older};")?.as_str())?,
    }
    Ok(text)
}

fn admit(
    alloc: Global,
    sessions: &mut Sessions,
    number: u64,
    session: i64,
    time_out: i32,
) -> Result<String, Fail> {
    match sessions.session(number) {
        Some(_) => Ok(String::new(alloc)),
        None => {
            let connected = sessions.admit(alloc, number, session, time_out)?;
            connected_text(alloc, &connected)
        }
    }
}

fn request_of<'a>(claim: &Claim<'a>) -> SessionRequest<'a> {
    SessionRequest {
        time_out: claim.time_out,
        session_id: claim.session,
        password: match claim.password {
            None => None,
            Some(bytes) => Some(Bytes::new(bytes)),
        },
    }
}

fn connect(
    alloc: Global,
    sessions: &mut Sessions,
    number: u64,
    lives: bool,
    claim: &Claim<'_>,
) -> Result<String, Fail> {
    match sessions.session(number) {
        Some(_) => Ok(String::new(alloc)),
        None => {
            let connected = sessions.connect(alloc, number, lives, &request_of(claim))?;
            connected_text(alloc, &connected)
        }
    }
}

fn claimed(alloc: Global, sessions: &Sessions, claim: &Claim<'_>) -> Result<String, Fail> {
    match sessions.claimed(&request_of(claim)) {
        None => Ok(String::from_str(alloc, "refused")?),
        Some(response) => response_text(alloc, &response),
    }
}

fn seats(alloc: Global, sessions: &Sessions) -> Result<String, Fail> {
    let mut bytes = Vec::new(alloc);
    for number in [1, 2, 3] {
        let session = sessions.session(number).unwrap_or(0);
        bytes.push(session.to_be_bytes()[7])?;
    }
    Ok(hex::encode(alloc, bytes.as_slice())?)
}

fn auth(
    alloc: Global,
    sessions: &mut Sessions,
    scheme: Option<&str>,
    bytes: Option<&[u8]>,
) -> Result<String, Fail> {
    let is_accepted = sessions.auth(alloc, 1, scheme, bytes)?;
    let text = if is_accepted { "" } else { "refused" };
    Ok(String::from_str(alloc, text)?)
}

fn show_repeated(
    alloc: Global,
    sessions: &mut Sessions,
    byte: u8,
    len: usize,
) -> Result<String, Fail> {
    let text = vec![in alloc; byte; len]?;
    auth(alloc, sessions, Some("digest"), Some(text.as_slice()))
}

fn is_shown(alloc: Global, sessions: &mut Sessions, user: usize) -> Result<bool, Fail> {
    let user = user.to_string(alloc)?;
    Ok(sessions.auth(alloc, 1, Some("digest"), Some(user.as_bytes()))?)
}

fn show_users(alloc: Global, sessions: &mut Sessions, count: usize) -> Result<String, Fail> {
    let mut accepted: usize = 0;
    for user in 0..count {
        if is_shown(alloc, sessions, user)? {
            accepted = accepted.saturating_add(1);
        }
    }
    Ok(accepted.to_string(alloc)?)
}

// The text of bytes, which are UTF-8 in the ids of clients.
fn text_of(bytes: &[u8]) -> &str {
    str::from_utf8(bytes).unwrap_or("not UTF-8")
}

fn ids(alloc: Global, sessions: &Sessions) -> Result<String, Fail> {
    let mut text = String::new(alloc);
    for id in sessions.ids(1) {
        for part in [
            text_of(id.scheme.as_slice()),
            " ",
            text_of(id.id.as_slice()),
            ";",
        ] {
            text.push_str(part)?;
        }
    }
    Ok(text)
}
