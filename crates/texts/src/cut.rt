//! Cutting a text at the first occurrence of a byte.

ghost use Rattle.std.specs.Prelude.{◌≡◌, ◌==◌, position};
ghost use Rattle.texts.specs.Cut.{cut_at};

use values::Bytes;

/// The two parts of a text.
#[derive(Drop)]
pub struct Cut<'a> {
    /// The text before the first occurrence of the byte, or the whole text.
    pub front: Bytes<'a>,
    /// The text after that occurrence, if there is one.
    pub behind: Option<Bytes<'a>>,
}

fn place_of(byte: u8, text: &[u8]) -> Option<usize>
    ensures { result ≡ position (λ b. b == byte) text.now }
{
    text.iter().position(|b| *b == byte)
}

/// Cuts a text at the first occurrence of a byte.
pub fn cut_at(byte: u8, text: &[u8]) -> Cut<'_>
    ensures { result ≡ cut_at byte text.now }
{
    match place_of(byte, text) {
        None => Cut {
            front: Bytes::new(text),
            behind: None,
        },
        Some(place) => Cut {
            front: Bytes::new(&text[..place]),
            behind: Some(Bytes::new(&text[place + 1..])),
        },
    }
}
