//! The request of a connecting client, and the response.

use values::Bytes;

/// The length of a session's password, in bytes.
pub const PASSWORD_LEN: usize = 16;

/// The fields of a ConnectRequest that say which session the client wants.
#[derive(Drop)]
pub struct SessionRequest<'a> {
    /// The timeout that the client asks for, in milliseconds.
    pub time_out: i32,
    /// The id of the session to reopen, or 0 for a new session.
    pub session_id: i64,
    /// The password of the session; None for a null buffer.
    pub password: Option<Bytes<'a>>,
}

/// The fields of a ConnectResponse. All zeros are a refusal, after which the caller closes the connection; no id that
/// is given out is 0.
#[derive(Clone, Copy)]
pub struct SessionResponse {
    /// The timeout of the session, in milliseconds.
    pub time_out: i32,
    pub session_id: i64,
    pub password: [u8; PASSWORD_LEN],
}

/// The response, and the older connection of the session. The older connection has lost the session, and the caller
/// closes it before it sends the response.
#[derive(Clone, Copy)]
pub struct Connected {
    pub response: SessionResponse,
    pub older: Option<u64>,
}
