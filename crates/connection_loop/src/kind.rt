//! What a client's frame asks of the leader and of this server.

ghost use Rattle.std.specs.Prelude.{◌≡◌, drop};
ghost use Rattle.connection_loop.specs.Kinds.{kind_of_frame, kind_of_request, request_at};

use client_records::{ReadKind, RequestKind};
use settings::Dialect;

/// A longer ping or sync isn't one that may be held while others wait.
const SHORT: usize = 256;

/// The kinds of frames, by what the engine does with them while the leader owes an answer to one before.
#[derive(Clone, Copy, Debug, PartialEq, Eq)]
pub enum FrameKind {
    /// A ping or an auth: it touches the session at once, and its answer is small.
    Light,
    /// A write or a sync: it goes to the leader at once, and its answer comes from the leader's stream.
    Forwarded,
    /// Answered by this server, in its turn: it is held while the leader owes an answer.
    Local,
    /// The same, where neither its length nor the data of one node bounds what it costs.
    Heavy,
}

/// Which frames may be sent on, by what is owed for those before.
#[derive(Clone, Copy, Debug, PartialEq, Eq)]
pub enum Gate {
    /// The leader may owe an answer: what the engine doesn't hold.
    Narrow,
    /// The same, and frames of bounded cost that have places.
    Ahead,
    /// All are answered: all frames.
    Open,
}

fn kind_of_request(dialect: Dialect, kind: Option<RequestKind>, len: usize) -> FrameKind
    ensures { result ≡ kind_of_request dialect kind len }
{
    let Some(kind) = kind else {
        return FrameKind::Local;
    };
    match kind {
        RequestKind::Create
        | RequestKind::Delete
        | RequestKind::SetData
        | RequestKind::SetAcl
        | RequestKind::CloseSession
        | RequestKind::Create2
        | RequestKind::Reconfig
        | RequestKind::CreateContainer
        | RequestKind::DeleteContainer
        | RequestKind::CreateTtl => FrameKind::Forwarded,
        RequestKind::Sync => {
            if len <= SHORT {
                FrameKind::Forwarded
            } else {
                FrameKind::Heavy
            }
        }
        RequestKind::Ping => {
            if len <= SHORT {
                FrameKind::Light
            } else {
                FrameKind::Local
            }
        }
        RequestKind::Auth => FrameKind::Light,
        RequestKind::Multi => {
            if dialect.reads().later_requests {
                FrameKind::Forwarded
            } else {
                FrameKind::Local
            }
        }
        RequestKind::SetWatches
        | RequestKind::SetWatches2
        | RequestKind::MultiRead
        | RequestKind::GetEphemerals
        | RequestKind::GetAllChildrenNumber => FrameKind::Heavy,
        RequestKind::Read(ReadKind::GetChildren | ReadKind::GetChildren2) => FrameKind::Heavy,
        RequestKind::Read(ReadKind::Exists | ReadKind::GetData | ReadKind::GetAcl)
        | RequestKind::Check
        | RequestKind::AddWatch
        | RequestKind::CheckWatches
        | RequestKind::RemoveWatches
        | RequestKind::WhoAmI
        | RequestKind::Sasl => FrameKind::Local,
    }
}

/// What comes after an int, which takes four bytes; nothing where there are fewer.
#[tactic(auto, using(crate::proofs::Ints::slice_after))]
pub(crate) fn after_int(bytes: &[u8]) -> &[u8]
    ensures { result.now ≡ drop 4 bytes.now }
{
    match bytes.get(4..) {
        Some(rest) => rest,
        None => &[],
    }
}

// The type that the bytes begin with; `None` for one that the dialect doesn't know, and where there are too few.
#[tactic(auto, unfolding(crate::specs::Kinds::request_at))]
fn request_at(dialect: Dialect, bytes: &[u8]) -> Option<RequestKind>
    ensures { result ≡ request_at dialect bytes.now }
{
    match bytes.first_chunk::<4>() {
        Some(code) => RequestKind::from_code(dialect, i32::from_be_bytes(*code)),
        None => None,
    }
}

/// The kind of a frame, without its length: its xid takes the first four bytes, and its type the next four. The engine
/// answers a frame of a type that the dialect doesn't know in its turn, and closes a connection whose frame is too short
/// for a type.
pub(crate) fn kind_of_frame(dialect: Dialect, frame: &[u8]) -> FrameKind
    ensures { result ≡ kind_of_frame dialect frame.now }
{
    let kind = request_at(dialect, after_int(frame));
    kind_of_request(dialect, kind, frame.len())
}
