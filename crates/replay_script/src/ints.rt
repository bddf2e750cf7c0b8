//! Decimal numbers that fit an int.

ghost use Rattle.std.specs.Prelude.{◌≡◌};
ghost use Rattle.replay_script.specs.Ints.{int_of, ints_of};

use texts::{cut_at, number_up_to};

const INT_MAX: u64 = i32::MAX as u64;

/// The number that a text spells, if it fits an int.
pub(crate) fn int_of(text: &[u8]) -> Option<i32>
    ensures { result ≡ int_of text.now }
{
    let number = number_up_to(INT_MAX, text)?;
    Some(number as i32)
}

/// Two ints with one blank between them.
pub(crate) fn ints_of(text: &[u8]) -> Option<(i32, i32)>
    ensures { result ≡ ints_of text.now }
{
    let words = cut_at(b' ', text);
    let first = int_of(words.front.as_slice())?;
    let second = int_of(words.behind?.as_slice())?;
    Some((first, second))
}
