//! Numbers with a point.

use std::fmt;

/// Microseconds, as seconds with six places.
#[derive(Clone, Copy)]
pub(crate) struct Seconds {
    pub microseconds: u64,
}

impl fmt::Display for Seconds {
    ghost use Rattle.std.specs.Prelude.{Some};
    ghost use Rattle.server_metrics.specs.Figures.{seconds_text};

    ghost output = { λ s. Some (seconds_text s.microseconds) };

    fn fmt<W: fmt::Write>(&self, f: &mut fmt::Formatter<W>) -> fmt::Result {
        let whole = self.microseconds / 1_000_000;
        let first = self.microseconds / 100_000 % 10;
        let second = self.microseconds / 10_000 % 10;
        let third = self.microseconds / 1000 % 10;
        let fourth = self.microseconds / 100 % 10;
        let fifth = self.microseconds / 10 % 10;
        let last = self.microseconds % 10;
        write!(f, "{whole}.{first}{second}{third}{fourth}{fifth}{last}")
    }
}
