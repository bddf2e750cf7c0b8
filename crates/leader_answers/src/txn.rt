//! What an applied transaction answers.

ghost use Rattle.std.specs.Prelude.{◌≡◌};
ghost use Rattle.std.specs.List.{slice_get};
ghost use Rattle.std.specs.Option.{option_copied};
ghost use Rattle.leader_answers.specs.Answering.{due_in_log, answer_applied_txn};
ghost use Rattle.world.specs.Results.{MakesStep};

use crate::admitting::admit_client;
use crate::due::{Due, answer_due};
use crate::ending::close_ended;
use crate::writing::{answer_write, has_moved, reply_to_write};
use data_tree::TxnResults;
use std::alloc::Global;
use txn_codec::Txn;
use values::NoMemory;
use world::{Stage, World};

// The transaction at this place of the log.
fn txn_at(world: &World, place: usize) -> Option<&Txn>
    ensures { option_copied result ≡ slice_get world.now.replica.learner.log place }
{
    world.replica.learner().since_base().get(place)
}

/// What the transaction at this place of the log brings to a client, once it is applied. Nothing if the log has none
/// there.
pub fn due_in_log(world: &World, place: usize) -> Due
    ensures { result ≡ due_in_log world.now place }
{
    match txn_at(world, place) {
        None => Due::Nothing,
        Some(txn) => answer_due(&world.clients, txn),
    }
}

/// The transaction at this place of the log was applied, with these results, and brings `due`. If it admits a client, ends the session of one or was made of a write that waits here, that client is
/// answered, and so are its later requests up to the next that waits for the leader. A write that the leader refuses since
/// the session has moved to another server closes its connection.
///
/// Fails only if an allocation is refused; then a prefix of the outputs has been appended.
pub fn answer_applied_txn(
    alloc: Global,
    stage: &mut Stage,
    place: usize,
    due: Due,
    results: &TxnResults,
) -> Result<(), NoMemory>
    requires { due ≡ due_in_log stage.old.after place }
    ensures { MakesStep result stage.old (λ w. answer_applied_txn w place results.now) stage.new }
{
    let Some(txn) = txn_at(&stage.world, place) else {
        return Ok(());
    };
    match due {
        Due::Nothing => Ok(()),
        Due::Admission(number) => admit_client(alloc, number, stage),
        Due::Ending(number) => {
            let header = txn.header;
            close_ended(alloc, number, stage, header.zxid)
        }
        Due::Reply(number, write) => {
            if has_moved(&stage.world, results) {
                return stage.close_client(number);
            }
            let header = txn.header;
            let seen = reply_to_write(alloc, &stage.world, write.kind, txn, results)?;
            answer_write(alloc, number, stage, write.place, header, seen)
        }
    }
}
