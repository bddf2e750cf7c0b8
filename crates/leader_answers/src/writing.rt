//! A transaction that answers a write.

ghost use Rattle.std.specs.Prelude.{◌≡◌, IfOk};
ghost use Rattle.forwarding.specs.Queue.{OldestWriteIsAt};
ghost use Rattle.forwarding.specs.Pending.{queue_of, remove_write};
ghost use Rattle.read_processor.specs.Reply.{reply_frame};
ghost use Rattle.write_replies.specs.Replies.{write_look};
ghost use Rattle.world.specs.Steps.{and_then};
ghost use Rattle.world.specs.Sending.{with_pending, send_or_close};
ghost use Rattle.leader_answers.specs.Answering.{answer_front, has_moved};
ghost use Rattle.world.specs.Results.{MakesStep};

use crate::ready::answer_front;
use client_records::codes::SESSION_MOVED;
use data_tree::TxnResults;
use forwarding::WriteKind;
use read_processor::Look;
use std::alloc::Global;
use txn_codec::{Txn, TxnHeader};
use values::NoMemory;
use world::{Stage, World};
use write_replies::write_look;

// Removes the oldest write of a connection, which stands at this place.
fn remove_write(number: u64, world: &mut World, place: usize)
    requires { OldestWriteIsAt (queue_of world.old.clients.pending number) place }
    ensures { world.new ≡ with_pending world.old (remove_write world.old.clients.pending number) }
{
    world.clients.pending.remove_write(number, place);
}

/// Whether the leader has refused a write, since another server has the session by now.
pub(crate) fn has_moved(world: &World, results: &TxnResults) -> bool
    ensures { result ≡ has_moved world.now results.now }
{
    world.settings.dialect.reads().moved_sessions && results.err == SESSION_MOVED
}

/// What the reply to the transaction's write shows.
pub(crate) fn reply_to_write(
    alloc: Global,
    world: &World,
    kind: WriteKind,
    txn: &Txn,
    results: &TxnResults,
) -> Result<Look, NoMemory>
    ensures { IfOk result (λ seen. seen ≡ write_look world.now.replica.tree kind txn.now.body results.now) }
{
    write_look(alloc, world.replica.tree(), kind, &txn.body, results)
}

/// Answers the oldest write of a connection, which stands at this place and which the transaction of this header
/// answers, and then the requests that waited only for this write.
///
/// Fails only if an allocation is refused; then a prefix of the outputs has been appended.
pub fn answer_write(
    alloc: Global,
    number: u64,
    stage: &mut Stage,
    place: usize,
    header: TxnHeader,
    seen: Look,
) -> Result<(), NoMemory>
    requires { OldestWriteIsAt (queue_of stage.old.after.clients.pending number) place }
    ensures { let reply = reply_frame header.cxid header.zxid seen in
        MakesStep result stage.old
        (λ w. let left = with_pending w (remove_write w.clients.pending number) in
        and_then (send_or_close number left reply) (answer_front number))
        stage.new }
{
    remove_write(number, &mut stage.world, place);
    stage.send_frame(number, seen.into_frame(header.cxid, header.zxid))?;
    answer_front(alloc, number, stage)
}
