//! The average of latencies.

ghost use Rattle.std.specs.Prelude.{◌≡◌};
ghost use Rattle.server_words.specs.Texts.{mean_latency};

use crate::figures::Latency;
use settings::Dialect;
use std::fmt;

/// The average of some latencies in milliseconds, in the form of a dialect: whole, or with four places.
#[derive(Clone, Copy)]
pub struct Average {
    pub dialect: Dialect,
    pub latency: Latency,
}

// The average in ten-thousandths of a millisecond, rounded down.
fn mean(latency: Latency) -> u128
    ensures { result ≡ mean_latency latency }
{
    if latency.count == 0 {
        return 0;
    }
    latency.total as u128 * 10 / latency.count as u128
}

impl fmt::Display for Average {
    ghost use Rattle.std.specs.Prelude.{Some};
    ghost use Rattle.server_words.specs.Texts.{average_text};

    ghost output = { λ a. Some (average_text a.dialect a.latency) };

    fn fmt<W: fmt::Write>(&self, f: &mut fmt::Formatter<W>) -> fmt::Result {
        let mean = mean(self.latency);
        let whole = mean / 10_000;
        match self.dialect {
            Dialect::Zk34 => write!(f, "{whole}"),
            Dialect::Zk38 => {
                let first = mean / 1000 % 10;
                let second = mean / 100 % 10;
                let third = mean / 10 % 10;
                let last = mean % 10;
                write!(f, "{whole}.{first}{second}{third}{last}")
            }
        }
    }
}
