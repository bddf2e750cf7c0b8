//! Texts as Java writes them.

ghost use Rattle.std.specs.Prelude.{◌≡◌, option_map};
ghost use Rattle.std.specs.Str.{is_utf8};
ghost use Rattle.jute.specs.Texts.{behind_surrogate, is_generalized_utf8, is_text};

// The bytes behind the surrogate at the front, if there is one.
fn behind_surrogate(bytes: &[u8]) -> Option<&[u8]>
    ensures { option_map (λ b. b.now) result ≡ behind_surrogate bytes.now }
{
    match bytes {
        [0xED, 0xA0..=0xBF, 0x80..=0xBF, behind @ ..] => Some(behind),
        _ => None,
    }
}

#[tactic(auto, using(crate::proofs::Utf8::not_text, crate::proofs::Utf8::is_text))]
fn is_utf8(bytes: &[u8]) -> bool
    ensures { result ≡ is_utf8 bytes.now }
{
    str::from_utf8(bytes).is_ok()
}

/// Whether the bytes are generalized UTF-8: UTF-8 in which a surrogate may stand too, as three bytes of its own. Java
/// writes a character past U+FFFF as two of them.
pub fn is_generalized_utf8(bytes: &[u8]) -> bool
    ensures { result ≡ is_generalized_utf8 bytes.now }
{
    // From the last surrogate on.
    let mut span = bytes;
    let mut len = 0;
    while len < span.len() {
        let (front, ahead) = span.split_at(len);
        match behind_surrogate(ahead) {
            None => len += 1,
            Some(behind) => {
                if !is_utf8(front) {
                    return false;
                }
                span = behind;
                len = 0;
            }
        }
    }
    is_utf8(span)
}

/// Whether the bytes are a text, in which surrogates may stand or not.
#[tactic(auto, using(crate::proofs::Utf8::not_text, crate::proofs::Utf8::is_text))]
pub fn is_text(surrogates: bool, bytes: &[u8]) -> bool
    ensures { result ≡ is_text surrogates bytes.now }
{
    if surrogates {
        return is_generalized_utf8(bytes);
    }
    is_utf8(bytes)
}
