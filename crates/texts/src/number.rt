//! Decimal numbers.

ghost use Rattle.std.specs.Prelude.{◌≡◌, ◌≤◌, IfSome};
ghost use Rattle.texts.specs.Number.{number_up_to};

/// The number that a text spells in decimal digits, with any number of zeros in front; None if it spells none, or one
/// above the limit.
pub fn number_up_to(limit: u64, text: &[u8]) -> Option<u64>
    ensures value { result ≡ number_up_to limit text.now }
    ensures within { IfSome result (λ number. number ≤ limit) }
{
    if text.is_empty() {
        return None;
    }
    let mut number = 0u64;
    for byte in text {
        if !byte.is_ascii_digit() {
            return None;
        }
        let digit = u64::from(*byte - b'0');
        number = number.checked_mul(10)?.checked_add(digit)?;
        if number > limit {
            return None;
        }
    }
    Some(number)
}
