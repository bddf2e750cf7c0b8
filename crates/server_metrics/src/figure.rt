//! A figure, and its text.

ghost use Rattle.std.specs.Prelude.{◌≡◌, ◌++◌, OnOk};
ghost use Rattle.std.specs.List.{flat_map};
ghost use Rattle.server_metrics.specs.Figures.{head_text, line_text, figure_text};

use crate::metric::Metric;
use crate::numbers::Seconds;
use server_words::{Average, Latency};
use settings::Dialect;
use std::fmt;
use std::io::Write;
use values::NoMemory;

/// The value of a figure.
#[derive(Clone, Copy, Debug, PartialEq, Eq)]
pub enum Value {
    Whole(u128),
    Signed(i64),
    /// The average of some latencies in milliseconds, with four places.
    Average(Latency),
    /// Microseconds, as seconds with six places.
    Seconds(u64),
}

impl fmt::Display for Value {
    ghost use Rattle.std.specs.Prelude.{Some};
    ghost use Rattle.server_metrics.specs.Figures.{value_text};

    ghost output = { λ v. Some (value_text v) };

    fn fmt<W: fmt::Write>(&self, f: &mut fmt::Formatter<W>) -> fmt::Result {
        match self {
            Value::Whole(number) => write!(f, "{number}"),
            Value::Signed(number) => write!(f, "{number}"),
            Value::Average(latency) => {
                let average = Average {
                    dialect: Dialect::Zk38,
                    latency: *latency,
                };
                write!(f, "{average}")
            }
            Value::Seconds(microseconds) => {
                let seconds = Seconds {
                    microseconds: *microseconds,
                };
                write!(f, "{seconds}")
            }
        }
    }
}

/// A metric that is one number.
#[derive(Clone, Copy, Debug, PartialEq, Eq)]
pub struct Figure {
    pub metric: Metric,
    pub value: Value,
}

/// Appends what a metric is called, how it changes, and what it means.
pub(crate) fn put_head(out: &mut Vec<u8>, metric: Metric) -> Result<(), NoMemory>
    ensures { OnOk result (out.new.items ≡ out.old.items ++ head_text metric) }
{
    let name = metric.name();
    let kind = metric.kind();
    let help = metric.help();
    match write!(out, "# HELP {name} {help}\n# TYPE {name} {kind}\n") {
        Ok(()) => Ok(()),
        Err(_) => Err(NoMemory),
    }
}

fn put_value(out: &mut Vec<u8>, figure: Figure) -> Result<(), NoMemory>
    ensures { OnOk result (out.new.items ≡ out.old.items ++ line_text figure) }
{
    let name = figure.metric.name();
    let value = figure.value;
    match writeln!(out, "{name} {value}") {
        Ok(()) => Ok(()),
        Err(_) => Err(NoMemory),
    }
}

fn put_figure(out: &mut Vec<u8>, figure: Figure) -> Result<(), NoMemory>
    ensures { OnOk result (out.new.items ≡ out.old.items ++ figure_text figure) }
{
    put_head(out, figure.metric)?;
    put_value(out, figure)
}

/// Appends the texts of figures.
pub(crate) fn put_figures(out: &mut Vec<u8>, figures: &[Figure]) -> Result<(), NoMemory>
    ensures { OnOk result (out.new.items ≡ out.old.items ++ flat_map figure_text figures.now) }
{
    for figure in figures {
        put_figure(out, *figure)?;
    }
    Ok(())
}
