//! Texts of JSON.

ghost use Rattle.std.specs.Prelude.{◌≡◌, ◌<◌};
ghost use Rattle.std.specs.Char.{digit_char};
ghost use Rattle.std.specs.Fmt.{WritesOnOk};
ghost use Rattle.serve_log.specs.Json.{code_escape, json_char};

use std::fmt;
use std::fmt::Write;

/// Shows a value as a text of JSON, in quotes.
#[derive(Clone, Copy)]
pub struct Quoted<'a, D>(pub &'a D);

// The digit of a number below 16, in hexadecimal.
fn digit_of(number: u32) -> char
    ensures { number < 16 → result ≡ digit_char number }
{
    match char::from_digit(number, 16) {
        Some(digit) => digit,
        None => '0',
    }
}

// Writes a control character by its code.
fn put_code<W: fmt::Write>(f: &mut fmt::Formatter<W>, c: char) -> fmt::Result
    ensures { c < 256 → WritesOnOk W.write_str_gives f.old result (code_escape c) f.new }
{
    let code = c as u32;
    let high = digit_of(code / 16);
    let low = digit_of(code % 16);
    write!(f, "\\u00{high}{low}")
}

// Writes a character of a text of JSON.
fn put_char<W: fmt::Write>(f: &mut fmt::Formatter<W>, c: char) -> fmt::Result
    ensures { WritesOnOk W.write_str_gives f.old result (json_char c) f.new }
{
    if c == '"' || c == '\\' {
        return write!(f, "\\{c}");
    }
    if c == '\n' {
        return write!(f, "\\n");
    }
    if c < ' ' || c == '\u{7f}' {
        return put_code(f, c);
    }
    write!(f, "{c}")
}

// Writes to a formatter, with escapes.
struct Escaping<'f, W> {
    f: &'f mut fmt::Formatter<W>,
}

impl<'f, W> Drop for Escaping<'f, W> {
    fn drop(self) {
        let Escaping { f: _ } = self;
    }
}

impl<'f, W: fmt::Write> fmt::Write for Escaping<'f, W> {
    fn write_str(&mut self, text: &str) -> fmt::Result {
        for c in text.chars() {
            put_char(self.f, c)?;
        }
        Ok(())
    }
}

fn put_escaped<W: fmt::Write, D: fmt::Display>(
    f: &mut fmt::Formatter<W>,
    value: &D,
) -> fmt::Result {
    let mut escaping = Escaping { f };
    escaping.write(value)
}

impl<'a, D: fmt::Display> fmt::Display for Quoted<'a, D> {
    fn fmt<W: fmt::Write>(&self, f: &mut fmt::Formatter<W>) -> fmt::Result {
        f.write_str("\"")?;
        put_escaped(f, self.0)?;
        f.write_str("\"")
    }
}
