//! What comes of a multi's parts.

ghost use Rattle.std.specs.Prelude.{◌≡◌, IfOk};
ghost use Rattle.data_tree.specs.Meaning.{first_error, results_of_failed, failed_outcome};

use crate::outcome::{Outcome, PartResult, Triggers, TxnResults};
use jute::codes::RUNTIME_INCONSISTENCY;
use std::alloc::Global;
use txn_codec::Operation;
use values::{Listed, NoMemory};

/// The first error that isn't 0, or 0 if there is none.
pub(crate) fn first_error(results: &[PartResult]) -> i32
    ensures { result ≡ first_error results.now }
{
    for part in results {
        if part.err != 0 {
            return part.err;
        }
    }
    0
}

/// The outcome of a multi that has an error part. Fails only if an allocation is refused.
pub(crate) fn failed_outcome(alloc: Global, parts: &[Operation]) -> Result<Outcome, NoMemory>
    ensures { IfOk result (λ o. o ≡ failed_outcome parts.now) }
{
    let mut otherwise = 0;
    let mut results = Vec::new(alloc);
    for part in parts {
        match part.error() {
            None => results.push(PartResult {
                err: otherwise,
                stat: None,
            })?,
            Some(err) => {
                results.push(PartResult { err, stat: None })?;
                otherwise = RUNTIME_INCONSISTENCY;
            }
        }
    }
    Ok(Outcome {
        results: TxnResults {
            err: first_error(results.as_slice()),
            parts: Listed::from_vec(results),
        },
        triggers: Triggers::from_vec(Vec::new(alloc)),
    })
}
