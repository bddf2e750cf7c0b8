//! From a text to its script.

ghost use Rattle.std.specs.Prelude.{◌≡◌, ℕ, Ok, Err, IfOk};
ghost use Rattle.replay_script.specs.Script.{script_of};
ghost use Rattle.replay_script.specs.declared.parser.ScriptError.TheVariants as errors;

use crate::draft::Draft;
use crate::script::Script;
use std::alloc::Global;
use texts::cut_at;
use thiserror::Error;
use values::{Bytes, NoMemory};

/// The reason why a text isn't a script.
#[derive(Clone, Copy, Debug, PartialEq, Eq, Error)]
pub enum ScriptError {
    /// An allocation was refused.
    #[error("no memory")]
    NoMemory,
    /// The number of the first bad line; every line counts, from 1.
    #[error("line {0}: bad line")]
    BadLine(u64),
}

impl From<NoMemory> for ScriptError {
    ghost from_gives = { λ _ e. e ≡ errors.NoMemory };

    fn from(_e: NoMemory) -> ScriptError {
        ScriptError::NoMemory
    }
}

/// Reads a script. Fails with [`ScriptError`].
pub fn parse(alloc: Global, text: &[u8]) -> Result<Script, ScriptError>
    ensures script { IfOk result (λ script. script_of text.now ≡ Ok script) }
    ensures bad_line { (number : ℕ) → result ≡ Err (ScriptError.BadLine number)
        → script_of text.now ≡ Err number }
{
    let mut draft = Draft::new(alloc);
    let mut rest = Some(Bytes::new(text));
    let mut number = 0u64;
    while let Some(bytes) = rest {
        number += 1;
        let lines = cut_at(b'\n', bytes.as_slice());
        if !draft.take_line(alloc, lines.front.as_slice())? {
            return Err(ScriptError::BadLine(number));
        }
        rest = lines.behind;
    }
    Ok(draft.finish(alloc))
}
