//! The answer to a request.

ghost use Rattle.std.specs.Prelude.{◌≡◌, IfOk};
ghost use Rattle.read_processor.specs.Events.{look_of_event};
ghost use Rattle.read_processor.specs.Look.{without_body, shown_look, shown_acl, look_of_path, look_of_created, look_of_node};
ghost use Rattle.read_processor.specs.Kinds.{acl_body};
ghost use Rattle.read_processor.specs.Reply.{reply_frame};

use crate::body::{BODY_LIMIT, Body};
use crate::kinds::{acl_body, body_of};
use client_records::codes::{OK, SYNC_CONNECTED};
use client_records::{Create2Response, PathResponse, ReadKind, WatcherEvent};
use data_tree::Node;
use jute::{Id, ReplyHeader};
use permissions::{masked_acls, may_administrate};
use std::alloc::Global;
use values::{Blob, NoMemory, Str};
use watch_manager::Event;

/// The answer to a request.
#[derive(Drop)]
pub struct Look {
    /// ZooKeeper's error code, or 0.
    pub error: i32,
    /// The body of the reply; `None` if it is longer than a frame holds.
    pub body: Option<Body>,
}

impl Look {
    /// ZooKeeper's error code, or 0, without a body. Fails only if an allocation is refused.
    pub fn without_body(alloc: Global, error: i32) -> Result<Look, NoMemory>
        ensures { IfOk result (λ look. look ≡ without_body error) }
    {
        let body = Body::empty(alloc)?;
        Ok(Look {
            error,
            body: Some(body),
        })
    }

    /// The path that answers a create or a sync. Fails only if an allocation is refused.
    pub fn of_path(alloc: Global, path: &str) -> Result<Look, NoMemory>
        ensures { IfOk result (λ look. look ≡ look_of_path path.now) }
    {
        if path.len() > BODY_LIMIT {
            return Ok(Look {
                error: OK,
                body: None,
            });
        }
        let body = Body::of(
            alloc,
            &PathResponse {
                path: Some(Str::new(path)),
            },
        )?;
        Ok(Look { error: OK, body })
    }

    /// The path and the Stat of a new node, which answer a create2. Fails only if an allocation is refused.
    pub fn of_created(alloc: Global, path: &str, node: &Node) -> Result<Look, NoMemory>
        ensures { IfOk result (λ look. look ≡ look_of_created path.now node.now) }
    {
        if path.len() > BODY_LIMIT {
            return Ok(Look {
                error: OK,
                body: None,
            });
        }
        let body = Body::of(
            alloc,
            &Create2Response {
                path: Some(Str::new(path)),
                stat: node.shown(),
            },
        )?;
        Ok(Look { error: OK, body })
    }

    /// What a read of this kind shows of a node, whoever asks. Fails only if an allocation is refused.
    pub fn of_node(alloc: Global, kind: ReadKind, node: &Node) -> Result<Look, NoMemory>
        ensures { IfOk result (λ look. look ≡ look_of_node kind node.now) }
    {
        let body = body_of(alloc, kind, node)?;
        Ok(Look { error: OK, body })
    }

    // A node with as much of its access control list as a client with these ids is shown. The entries of the open list
    // live only until they are written; it lets every client administrate the node.
    pub(crate) fn of_acl(alloc: Global, ids: &[Id], node: &Node) -> Result<Look, NoMemory>
        ensures { IfOk result
            (λ look. look ≡ shown_look (acl_body (shown_acl ids.now node.now.acl) node.now)) }
    {
        let Some(entries) = node.acl.listed() else {
            return Look::of_node(alloc, ReadKind::GetAcl, node);
        };
        if may_administrate(ids, entries) {
            return Look::of_node(alloc, ReadKind::GetAcl, node);
        }
        let masked = masked_acls(alloc, entries)?;
        let body = acl_body(alloc, masked.as_slice(), node)?;
        Ok(Look { error: OK, body })
    }

    /// The notification of an event. It answers no request, so its frame has the xid `NOTIFICATION_XID` and the zxid
    /// -1. Fails only if an allocation is refused.
    pub fn of_event(alloc: Global, event: &Event) -> Result<Look, NoMemory>
        ensures { IfOk result (λ look. look ≡ look_of_event event.now) }
    {
        let path = event.path.as_str();
        if path.len() > BODY_LIMIT {
            return Ok(Look {
                error: OK,
                body: None,
            });
        }
        let body = Body::of(
            alloc,
            &WatcherEvent {
                kind: event.kind.number(),
                state: SYNC_CONNECTED,
                path: Some(Str::new(path)),
            },
        )?;
        Ok(Look { error: OK, body })
    }

    /// The frame of the reply; None if its body is too long. Allocates nothing.
    pub fn into_frame(self, xid: i32, zxid: i64) -> Option<Blob>
        ensures { result ≡ reply_frame xid zxid self }
    {
        let header = ReplyHeader {
            xid,
            zxid,
            err: self.error,
        };
        let body = self.body?;
        Some(body.into_frame(&header))
    }
}
