//! Session ids, their passwords, and digest ids.

ghost use Rattle.std.specs.Prelude.{◌≡◌, ◌<◌, ◌^◌, bit_xor, IfOk};
ghost use Rattle.std.specs.Int.{w64, cast_unsigned};
ghost use Rattle.sessions.specs.Credentials.{session_id_of, keyed_password, first_state, next_state, state_bytes, java_password, password_of, user_of, digest_id};
ghost use Rattle.sessions.specs.Sessions.{super_id};

use crate::passwords::Passwords;
use crate::request::PASSWORD_LEN;
use base64::engine::general_purpose::STANDARD;
use jute::Id;
use settings::{Secret, ServerId};
use sha1::Sha1;
use std::alloc::Global;
use values::{Blob, NoMemory};

/// The bound of the counters, which are the 7 bytes below the server id. No session has the counter 0.
pub const COUNTERS: u64 = 0x0100_0000_0000_0000;

// What ZooKeeper mixes into a session's id to make a seed of it.
const SEED_MASK: u64 = 0xb341_5c00;

// The multiplier and the increment of java.util.Random, and the number of its states.
const MULTIPLIER: u64 = 0x0005_deec_e66d;

const INCREMENT: u64 = 11;

const STATES: u64 = 0x0001_0000_0000_0000;

/// The session id that the server gives out with this counter.
pub fn session_id(server_id: ServerId, counter: u64) -> i64
    requires { counter < 2 ^ 56 }
    ensures { result ≡ session_id_of server_id counter }
{
    let high = u64::from(server_id.number().unsigned_abs());
    (high * COUNTERS + counter).cast_signed()
}

// The password that only those can compute who have the secret.
fn keyed_password(secret: &Secret, session: i64) -> [u8; PASSWORD_LEN]
    ensures { result ≡ keyed_password secret.now session }
{
    let mut hasher = Sha1::new();
    hasher.update(secret.as_slice());
    hasher.update(&session.to_be_bytes());
    let digest = hasher.finalize();
    let mut password = [0; PASSWORD_LEN];
    password.copy_from_slice(&digest[..PASSWORD_LEN]);
    password
}

// The state that java.util.Random begins with, of the seed that ZooKeeper makes of the session's id.
fn first_state(session: i64) -> u64
    ensures { result ≡ first_state (bit_xor (cast_unsigned w64 session) 0xB3415C00) }
{
    (session.cast_unsigned() ^ SEED_MASK ^ MULTIPLIER) % STATES
}

// The state of java.util.Random after this one.
#[tactic(auto, unfolding(crate::specs::Credentials::next_state))]
fn next_state(state: u64) -> u64
    ensures state { result ≡ next_state state }
    ensures bound { result < 2 ^ 48 }
{
    state.wrapping_mul(MULTIPLIER).wrapping_add(INCREMENT) % STATES
}

// The bytes that a state gives.
#[tactic(auto, unfolding(crate::specs::Credentials::state_bytes))]
fn state_bytes(state: u64) -> [u8; 4]
    requires { state < 2 ^ 48 }
    ensures { result ≡ state_bytes state }
{
    ((state >> 16) as u32).to_le_bytes()
}

// The password that each server of ZooKeeper gives to the session.
fn java_password(session: i64) -> [u8; PASSWORD_LEN]
    ensures { result ≡ java_password session }
{
    let mut password = [0; PASSWORD_LEN];
    let mut state = first_state(session);
    for place in 0..4 {
        state = next_state(state);
        password[4 * place..4 * place + 4].copy_from_slice(&state_bytes(state));
    }
    password
}

/// The 16-byte password of the session.
pub fn password(passwords: &Passwords, session: i64) -> [u8; PASSWORD_LEN]
    ensures { result ≡ password_of passwords.now session }
{
    match passwords {
        Passwords::Keyed(secret) => keyed_password(secret, session),
        Passwords::Java => java_password(session),
    }
}

// The text before the first colon, or the whole text if it has none.
fn user_of(text: &str) -> &str
    ensures { result.now ≡ user_of text.now }
{
    match text.split_once(':') {
        None => return text,
        Some((user, _)) => user,
    }
}

/// The digest id of "user:password". Fails only if an allocation is refused.
pub(crate) fn digest_id(alloc: Global, text: &str) -> Result<Id, NoMemory>
    ensures { IfOk result (λ id. id ≡ digest_id text.now) }
{
    let mut id = String::from_str(alloc, user_of(text))?;
    id.push_str(":")?;
    STANDARD.encode_string(&Sha1::digest(text.as_bytes()), &mut id)?;
    Ok(Id {
        scheme: Blob::new(alloc, b"digest")?,
        id: Blob::new(alloc, id.as_bytes())?,
    })
}

/// The id of the super user. Fails only if an allocation is refused.
pub(crate) fn super_id(alloc: Global) -> Result<Id, NoMemory>
    ensures { IfOk result (λ id. id ≡ super_id) }
{
    Ok(Id {
        scheme: Blob::new(alloc, b"super")?,
        id: Blob::new(alloc, b"")?,
    })
}
