//! The connections that have sessions.

ghost use Rattle.std.specs.Prelude.{◌≡◌, ◌≤◌, ℤ, OnOk, OnErr, IfOk, IfNone, None, [], ◌∷◌, ◌++◌, length};
ghost use Rattle.std.specs.Option.{option_copied};
ghost use Rattle.std.specs.List.{All, list_any};
ghost use Rattle.std.specs.Ordering.{eq_by_cmp, int_cmp};
ghost use Rattle.std.specs.Map.Iter.{ShowsInOrder, deref};
ghost use Rattle.std.specs.FinMap as finmap;
ghost use Rattle.jute.specs.Owned.{id_format};
ghost use Rattle.sessions.specs.State.{session_settings_of};
ghost use Rattle.sessions.specs.Sessions.{no_sessions, session_of_connection, connection_of, ids_of, told_timeout, close_connection, expire_owner, clamped_timeout, session_response, has_password, is_valid, claimed_session, give_session, name_session, connect_session, refusal_response, add_id, ip_id, digest_text, is_super_digest, add_digest, add_auth, ids_limit, ids_bytes_limit, id_len, bytes_of_ids, are_within_limits};
ghost use Rattle.sessions.specs.Agreement.{SessionsAgree};

use crate::connections::Connections;
use crate::credentials::{COUNTERS, digest_id, password, session_id, super_id};
use crate::passwords::Passwords;
use crate::request::{Connected, PASSWORD_LEN, SessionRequest, SessionResponse};
use jute::Id;
use session_map::SessionMap;
use settings::{FirstCounter, ServerId, TimeoutBounds};
use std::alloc::Global;
use std::collections::btree_map::Keys;
use std::marker::Model;
use values::{Blob, NoMemory, Text};

/// The most ids that a connection may have.
pub const IDS_LIMIT: usize = 1024;

/// The most bytes that the ids of a connection may have all together, schemes included.
pub const IDS_BYTES_LIMIT: usize = 65_536;

/// The most bytes of a text that an id is made of. A client's frame is shorter.
pub const AUTH_LIMIT: usize = 1_048_576;

/// The sessions that an observer's connections have: for each session its connection, and for each connection its
/// session and its ids.
#[derive(Drop)]
pub struct Sessions {
    server_id: ServerId,
    timeouts: TimeoutBounds,
    passwords: Passwords,
    first_counter: FirstCounter,
    super_digest: Option<Text>,
    // The counter of the last session id that was given out; at first that after which they begin.
    counter: u64,
    owners: SessionMap,
    connections: Connections,
}

impl Model for Sessions {
    ghost use Rattle.sessions.specs.State.{SessionTable, session_settings_of, session_table_of, session_table_code};
    ghost use Rattle.sessions.specs.Agreement.{SessionsAgree};

    ghost Value = { SessionTable };

    ghost coded = { session_table_code };

    ghost view = { λ s. session_table_of (session_settings_of s.server_id s.timeouts s.passwords s.first_counter
        s.super_digest) s.counter s.owners s.connections };

    ghost invariant = { λ s. SessionsAgree (session_table_of (session_settings_of s.server_id s.timeouts s.passwords
        s.first_counter s.super_digest) s.counter s.owners s.connections) };
}

// The timeout, in milliseconds, moved into the bounds.
fn clamp_timeout(bounds: TimeoutBounds, time_out: i32) -> i32
    ensures { result ≡ clamped_timeout bounds time_out }
{
    if time_out < bounds.least() {
        return bounds.least();
    }
    if bounds.greatest() < time_out {
        return bounds.greatest();
    }
    time_out
}

fn refused_connect() -> Connected
    ensures { result ≡ record { response = refusal_response; older = None } }
{
    Connected {
        response: SessionResponse {
            time_out: 0,
            session_id: 0,
            password: [0; PASSWORD_LEN],
        },
        older: None,
    }
}

// The text of the scheme "digest"; None for any other scheme, for more than `AUTH_LIMIT` bytes, and for bytes that
// aren't UTF-8.
fn digest_text<'a>(scheme: Option<&str>, bytes: Option<&'a [u8]>) -> Option<&'a str>
    ensures { let given = option_copied scheme.entry in
        option_copied result ≡ digest_text given (option_copied bytes.entry) }
{
    let Some(scheme) = scheme else {
        return None;
    };
    let Some(bytes) = bytes else {
        return None;
    };
    if scheme != "digest" {
        return None;
    }
    if AUTH_LIMIT < bytes.len() {
        return None;
    }
    match str::from_utf8(bytes) {
        Err(_) => return None,
        Ok(text) => Some(text),
    }
}

fn id_len(id: &Id) -> usize
    ensures { result ≡ id_len id.now }
{
    id.scheme.as_slice().len() + id.id.as_slice().len()
}

// The bytes of all these ids.
fn bytes_of_ids(ids: &[Id]) -> usize
    requires { bytes_of_ids ids.now ≤ ids_bytes_limit }
    ensures { result ≡ bytes_of_ids ids.now }
{
    let mut bytes: usize = 0;
    for id in ids {
        bytes += id_len(id);
    }
    bytes
}

// Whether the id may be added to these.
fn has_room(ids: &[Id], id: &Id) -> bool
    requires { bytes_of_ids ids.now ≤ ids_bytes_limit }
    ensures { result ≡ are_within_limits (ids.now ++ id.now ∷ []) }
{
    ids.len() < IDS_LIMIT && id_len(id) <= IDS_BYTES_LIMIT - bytes_of_ids(ids)
}

impl Sessions {
    /// No session. `timeouts` are in milliseconds, and the first session id has the counter after `first_counter`. A
    /// client whose digest is `super_digest` is the super user. Allocates nothing.
    pub fn new(
        alloc: Global,
        server_id: ServerId,
        timeouts: TimeoutBounds,
        passwords: Passwords,
        first_counter: FirstCounter,
        super_digest: Option<Text>,
    ) -> Sessions
        ensures { result ≡ no_sessions (session_settings_of server_id timeouts passwords first_counter super_digest) }
    {
        // The contract of `number` tells the prover the bounds of the server id, which the invariant needs.
        let _number = server_id.number();
        let counter = first_counter.number();
        Sessions {
            server_id,
            timeouts,
            passwords,
            first_counter,
            super_digest,
            counter,
            owners: SessionMap::new(alloc),
            connections: Connections::new(alloc),
        }
    }

    /// The session of the connection, if it has one.
    pub fn session(&self, connection: u64) -> Option<i64>
        ensures session { result ≡ session_of_connection self.now connection }
        ensures none { IfNone result (finmap.get self.now.connections connection ≡ None) }
        ensures agrees { SessionsAgree self.now }
    {
        match self.connections.get(connection) {
            None => None,
            Some(connection) => Some(connection.session()),
        }
    }

    /// The connection that has the session now, if there is one.
    pub fn connection(&self, session: i64) -> Option<u64>
        ensures connection { result ≡ connection_of self.now session }
        ensures agrees { SessionsAgree self.now }
    {
        self.owners.get(session)
    }

    /// The timeout in milliseconds that the connection of the session was told, if a connection has it here.
    pub fn told_timeout(&self, session: i64) -> Option<i32>
        ensures { result ≡ told_timeout self.now session }
    {
        let Some(connection) = self.owners.get(session) else {
            return None;
        };
        match self.connections.get(connection) {
            None => None,
            Some(connection) => Some(connection.time_out()),
        }
    }

    /// The sessions that connections have here, each once, in ascending order of their ids.
    pub fn connected(&self) -> Keys<'_, i64, u64>
        ensures members { (session : ℤ) →
            list_any (eq_by_cmp int_cmp session) result ≡ finmap.contains_key self.now.owners session }
        ensures runs { ShowsInOrder (deref {X = ℤ}) }
    {
        self.owners.sessions()
    }

    /// The number of connections that have a session.
    pub fn count(&self) -> usize
        ensures { result ≡ finmap.len self.now.connections }
    {
        self.connections.count()
    }

    /// The ids of the connection, in the order in which they were added: at most `IDS_LIMIT`, with at most
    /// `IDS_BYTES_LIMIT` bytes together, and each can be written in a packet.
    pub fn ids(&self, connection: u64) -> &[Id]
        ensures ids { result.now ≡ ids_of self.now connection }
        ensures few { length result.now ≤ ids_limit }
        ensures bytes { bytes_of_ids result.now ≤ ids_bytes_limit }
        ensures writable { All id_format.Writable result.now }
    {
        match self.connections.get(connection) {
            None => &[],
            Some(connection) => connection.ids(),
        }
    }

    // The response to a client that gets the session.
    fn response_for(&self, session: i64, time_out: i32) -> SessionResponse
        ensures { result ≡ session_response self.now.terms session time_out }
    {
        SessionResponse {
            time_out: clamp_timeout(self.timeouts, time_out),
            session_id: session,
            password: password(&self.passwords, session),
        }
    }

    // The response to a client that asks for a new session: its id has the next counter.
    fn name_session(&mut self, time_out: i32) -> Connected
        ensures { name_session self.old time_out ≡ record { connected = result; after = self.new } }
    {
        if self.counter == COUNTERS - 1 {
            return refused_connect();
        }
        let counter = self.counter + 1;
        let session = session_id(self.server_id, counter);
        let response = self.response_for(session, time_out);
        self.counter = counter;
        Connected {
            response,
            older: None,
        }
    }

    // Whether the request has the password of the session that it asks for.
    fn has_password(&self, request: &SessionRequest<'_>) -> bool
        ensures { result ≡ has_password self.now request.now }
    {
        match &request.password {
            None => return false,
            Some(given) => {
                given.as_slice() == password(&self.passwords, request.session_id).as_slice()
            }
        }
    }

    // Whether the session lives, and the password is its own.
    fn is_valid(&self, lives: bool, request: &SessionRequest<'_>) -> bool
        ensures { result ≡ is_valid self.now lives request.now }
    {
        lives && self.has_password(request)
    }

    /// The response to a client that claims a session which may have been made by another server, if the client has
    /// the session's password. Whether the session lives, the leader has to be asked; then see `admit`.
    pub fn claimed(&self, request: &SessionRequest<'_>) -> Option<SessionResponse>
        ensures { result ≡ claimed_session self.now request.now }
    {
        if !self.has_password(request) {
            return None;
        }
        Some(self.response_for(request.session_id, request.time_out))
    }

    /// Gives a session that the leader has created, or knows, to a connection that has none, and takes it from an older
    /// connection. A refused allocation changes nothing.
    pub fn admit(
        &mut self,
        alloc: Global,
        connection: u64,
        session: i64,
        time_out: i32,
    ) -> Result<Connected, NoMemory>
        requires { finmap.get self.old.connections connection ≡ None }
        ensures ok { IfOk result (λ connected. give_session self.old connection session time_out
            ≡ record { connected = connected; after = self.new }) }
        ensures err { OnErr result (self.new ≡ self.old) }
    {
        let response = self.response_for(session, time_out);
        let older = self.owners.get(session);
        self.connections
            .add(alloc, connection, session, response.time_out)?;
        match self.owners.set(session, connection) {
            Err(e) => {
                self.connections.close(connection);
                return Err(e);
            }
            Ok(()) => {
                if let Some(older) = older {
                    self.connections.close(older);
                }
                Ok(Connected { response, older })
            }
        }
    }

    /// Answers the connect of a connection that has no session. A request for a new session is given an id, and the
    /// connection has the session when the leader has created it, see `admit`. Of any other session the connection gets
    /// the one that it names, if that lives and the password is its own. `lives` says whether the tree has it. A
    /// refusal is a response with all fields 0. A refused allocation changes nothing.
    pub fn connect(
        &mut self,
        alloc: Global,
        connection: u64,
        lives: bool,
        request: &SessionRequest<'_>,
    ) -> Result<Connected, NoMemory>
        requires { finmap.get self.old.connections connection ≡ None }
        ensures ok { IfOk result (λ connected. connect_session self.old connection lives request.now
            ≡ record { connected = connected; after = self.new }) }
        ensures err { OnErr result (self.new ≡ self.old) }
    {
        if request.session_id == 0 {
            return Ok(self.name_session(request.time_out));
        }
        if !self.is_valid(lives, request) {
            return Ok(refused_connect());
        }
        self.admit(alloc, connection, request.session_id, request.time_out)
    }

    // Adds an id.
    fn show(&mut self, connection: u64, id: Id) -> Result<bool, NoMemory>
        ensures ok { IfOk result (λ is_accepted. add_id self.old connection id
            ≡ record { is_accepted = is_accepted; after = self.new }) }
        ensures err { OnErr result (self.new ≡ self.old) }
    {
        let Some(shown) = self.connections.get(connection) else {
            return Ok(false);
        };
        if shown.ids().contains(&id) {
            return Ok(true);
        }
        if !has_room(shown.ids(), &id) {
            return Ok(false);
        }
        self.connections.show(connection, id)?;
        Ok(true)
    }

    /// Adds the address of its client to the ids of a connection that has a session. An address that has no room within
    /// `IDS_LIMIT` and `IDS_BYTES_LIMIT` is no id. A refused allocation changes nothing.
    pub fn show_address(
        &mut self,
        alloc: Global,
        connection: u64,
        address: &str,
    ) -> Result<(), NoMemory>
        ensures ok { OnOk result (self.new ≡ (add_id self.old connection (ip_id address.now)).after) }
        ensures err { OnErr result (self.new ≡ self.old) }
    {
        let id = Id {
            scheme: Blob::new(alloc, b"ip")?,
            id: Blob::new(alloc, address.as_bytes())?,
        };
        self.show(connection, id)?;
        Ok(())
    }

    // Whether the digest is that of the super user.
    fn is_super_digest(&self, digest: &[u8]) -> bool
        ensures is { result ≡ is_super_digest self.now.terms.super_digest digest.now }
        ensures agrees { SessionsAgree self.now }
    {
        match &self.super_digest {
            None => return false,
            Some(super_digest) => digest == super_digest.as_str().as_bytes(),
        }
    }

    // Adds a digest, behind the id of the super user if it is the digest of the super user.
    fn show_digest(&mut self, alloc: Global, connection: u64, digest: Id) -> Result<bool, NoMemory>
        ensures ok { IfOk result (λ is_accepted. add_digest self.old connection digest
            ≡ record { is_accepted = is_accepted; after = self.new }) }
        ensures err { OnErr result (self.new ≡ self.old) }
    {
        if !self.is_super_digest(digest.id.as_slice()) {
            return self.show(connection, digest);
        }
        let count = self.ids(connection).len();
        if !self.show(connection, super_id(alloc)?)? {
            return Ok(false);
        }
        match self.show(connection, digest) {
            Ok(is_accepted) => Ok(is_accepted),
            Err(e) => {
                self.connections.keep_first(connection, count);
                Err(e)
            }
        }
    }

    /// Adds the digest id of the bytes "user:password" to a connection, behind the id of the super user if it is that of
    /// the super user. Returns false if that is refused: the scheme isn't "digest", the bytes are null, not UTF-8 or
    /// more than `AUTH_LIMIT`, the connection has no session, or with one more id it would have more than `IDS_LIMIT`,
    /// or more bytes of them than `IDS_BYTES_LIMIT`. An id that it has already is added no second time, and isn't
    /// refused. A refused allocation changes nothing.
    pub fn auth(
        &mut self,
        alloc: Global,
        connection: u64,
        scheme: Option<&str>,
        bytes: Option<&[u8]>,
    ) -> Result<bool, NoMemory>
        ensures ok { let given = option_copied scheme.entry in
            let text = option_copied bytes.entry in
            IfOk result (λ is_accepted. add_auth self.old connection given text
            ≡ record { is_accepted = is_accepted; after = self.new }) }
        ensures err { OnErr result (self.new ≡ self.old) }
    {
        let Some(text) = digest_text(scheme, bytes) else {
            return Ok(false);
        };
        self.show_digest(alloc, connection, digest_id(alloc, text)?)
    }

    /// Drops a connection and its ids. No connection has its session here then, and the tree keeps it.
    pub fn close(&mut self, connection: u64)
        ensures { self.new ≡ close_connection self.old connection }
    {
        match self.connections.take(connection) {
            None => return,
            Some(connection) => {
                self.owners.remove(connection.session());
            }
        }
    }

    /// A session has ended: drops the connection that has it, which is returned for the caller to close.
    pub fn expire(&mut self, session: i64) -> Option<u64>
        ensures { expire_owner self.old session ≡ record { closed = result; after = self.new } }
    {
        match self.owners.remove(session) {
            None => return None,
            Some(connection) => {
                self.connections.close(connection);
                Some(connection)
            }
        }
    }
}
