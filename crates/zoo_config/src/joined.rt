//! A line, while it is read.

ghost use Rattle.std.specs.Prelude.{string_bytes};
ghost use Rattle.zoo_config.specs.Lines.{NumberedLine};

use std::marker::Model;

/// A line to which the next one may be joined.
#[derive(Drop)]
pub struct Joined {
    pub number: u64,
    pub text: String,
}

impl Model for Joined {
    ghost Value = { NumberedLine };

    ghost view = { λ l. record { number = l.number; text = string_bytes l.text } };
}
