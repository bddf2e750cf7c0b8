//! A transaction that ends the session of a connection.

ghost use Rattle.forwarding.specs.Pending.{pending_close};
ghost use Rattle.leader_answers.specs.Answering.{close_ended};
ghost use Rattle.world.specs.Results.{MakesStep};

use client_records::codes::OK;
use read_processor::Look;
use std::alloc::Global;
use values::NoMemory;
use world::Stage;

/// A session has ended, by the transaction of this zxid: answers the closeSession that waits, and closes the
/// connection.
///
/// Fails only if an allocation is refused; then a prefix of the outputs has been appended.
pub(crate) fn close_ended(
    alloc: Global,
    number: u64,
    stage: &mut Stage,
    zxid: i64,
) -> Result<(), NoMemory>
    ensures { MakesStep result stage.old
        (λ w. close_ended number w zxid (pending_close w.clients.pending number))
        stage.new }
{
    let Some(xid) = stage.world.clients.pending.pending_close(number) else {
        return stage.close_client(number);
    };
    let seen = Look::without_body(alloc, OK)?;
    stage.send_frame_last(number, seen.into_frame(xid, zxid))
}
