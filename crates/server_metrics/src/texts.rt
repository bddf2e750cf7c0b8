//! The text of the metrics.

ghost use Rattle.std.specs.Prelude.{◌≡◌, ◌++◌, OnOk, OnErr};
ghost use Rattle.std.specs.List.{flat_map};
ghost use Rattle.server_metrics.specs.Figures.{figure_text};
ghost use Rattle.server_metrics.specs.declared.figure.Value.TheVariants.{Whole};
ghost use Rattle.server_metrics.specs.Metrics.{server_figures, traffic_figures, leader_figures, memory_figure, descriptor_figures, bucket_line, times_count_line, times_sum_line, sums_text, histogram_text, server_text, figures_text, metrics_text};

use crate::figure::{Figure, Value, put_figures, put_head};
use crate::metric::Metric;
use crate::numbers::Seconds;
use crate::report::{Bucket, MetricsReport, Times};
use server_words::{Descriptors, ServerFigures};
use std::io::Write;
use values::NoMemory;

fn whole(metric: Metric, number: u64) -> Figure
    ensures { result ≡ record { metric = metric; value = Whole number } }
{
    Figure {
        metric,
        value: Value::Whole(number as u128),
    }
}

fn server_figures(figures: &ServerFigures) -> [Figure; 6]
    ensures { result ≡ server_figures figures.now }
{
    [
        whole(Metric::Uptime, figures.uptime),
        whole(Metric::Connections, figures.connections),
        whole(Metric::Rejected, figures.rejected),
        Figure {
            metric: Metric::Nodes,
            value: Value::Whole(figures.paths as u128 + 1),
        },
        whole(Metric::Watches, figures.watches),
        whole(Metric::Ephemerals, figures.pairs),
    ]
}

fn traffic_figures(figures: &ServerFigures) -> [Figure; 6]
    ensures { result ≡ traffic_figures figures.now }
{
    let latency = figures.latency;
    [
        Figure {
            metric: Metric::AvgLatency,
            value: Value::Average(latency),
        },
        whole(Metric::MaxLatency, latency.most / 1000),
        whole(Metric::MinLatency, latency.least / 1000),
        whole(Metric::PacketsReceived, figures.received),
        whole(Metric::PacketsSent, figures.sent),
        whole(Metric::Outstanding, figures.outstanding),
    ]
}

fn leader_figures(report: &MetricsReport) -> [Figure; 6]
    ensures { result ≡ leader_figures report.now }
{
    let serving = if report.figures.serving { 1 } else { 0 };
    [
        whole(Metric::Sessions, report.figures.sessions),
        whole(Metric::Serving, serving),
        Figure {
            metric: Metric::LastZxid,
            value: Value::Signed(report.figures.zxid),
        },
        whole(Metric::Transactions, report.transactions),
        whole(Metric::Log, report.log),
        Figure {
            metric: Metric::Silence,
            value: Value::Seconds(report.silence),
        },
    ]
}

fn put_memory(out: &mut Vec<u8>, memory: Option<u64>) -> Result<(), NoMemory>
    ensures { OnOk result (out.new.items ≡ out.old.items ++ flat_map figure_text (memory_figure memory)) }
{
    let Some(bytes) = memory else {
        return Ok(());
    };
    put_figures(out, &[whole(Metric::Memory, bytes)])
}

fn put_descriptors(out: &mut Vec<u8>, descriptors: Option<Descriptors>) -> Result<(), NoMemory>
    ensures { OnOk result (out.new.items ≡ out.old.items ++ flat_map figure_text (descriptor_figures descriptors)) }
{
    let Some(descriptors) = descriptors else {
        return Ok(());
    };
    put_figures(
        out,
        &[
            whole(Metric::OpenDescriptors, descriptors.count),
            whole(Metric::MostDescriptors, descriptors.most),
        ],
    )
}

fn put_bucket(out: &mut Vec<u8>, name: &str, bucket: Bucket) -> Result<(), NoMemory>
    ensures { OnOk result (out.new.items ≡ out.old.items ++ bucket_line name.now bucket) }
{
    let bound = Seconds {
        microseconds: bucket.bound,
    };
    let count = bucket.count;
    match writeln!(out, "{name}_bucket{{le=\"{bound}\"}} {count}") {
        Ok(()) => Ok(()),
        Err(_) => Err(NoMemory),
    }
}

fn put_buckets(out: &mut Vec<u8>, name: &str, buckets: &[Bucket]) -> Result<(), NoMemory>
    ensures { OnOk result (out.new.items ≡ out.old.items ++ flat_map (bucket_line name.now) buckets.now) }
{
    for bucket in buckets {
        put_bucket(out, name, *bucket)?;
    }
    Ok(())
}

fn put_count(out: &mut Vec<u8>, name: &str, suffix: &str, count: u64) -> Result<(), NoMemory>
    ensures { OnOk result (out.new.items ≡ out.old.items ++ times_count_line name.now suffix.now count) }
{
    match writeln!(out, "{name}{suffix} {count}") {
        Ok(()) => Ok(()),
        Err(_) => Err(NoMemory),
    }
}

fn put_sum(out: &mut Vec<u8>, name: &str, total: u64) -> Result<(), NoMemory>
    ensures { OnOk result (out.new.items ≡ out.old.items ++ times_sum_line name.now total) }
{
    let total = Seconds {
        microseconds: total,
    };
    match writeln!(out, "{name}_sum {total}") {
        Ok(()) => Ok(()),
        Err(_) => Err(NoMemory),
    }
}

fn put_sums(out: &mut Vec<u8>, name: &str, times: &Times) -> Result<(), NoMemory>
    ensures { OnOk result (out.new.items ≡ out.old.items ++ sums_text name.now times.now) }
{
    put_count(out, name, "_bucket{le=\"+Inf\"}", times.count)?;
    put_sum(out, name, times.total)?;
    put_count(out, name, "_count", times.count)
}

fn put_histogram(out: &mut Vec<u8>, metric: Metric, times: &Times) -> Result<(), NoMemory>
    ensures { OnOk result (out.new.items ≡ out.old.items ++ histogram_text metric times.now) }
{
    put_head(out, metric)?;
    let name = metric.name();
    put_buckets(out, name, times.buckets.as_slice())?;
    put_sums(out, name, times)
}

fn put_server(out: &mut Vec<u8>, figures: &ServerFigures) -> Result<(), NoMemory>
    ensures { OnOk result (out.new.items ≡ out.old.items ++ server_text figures.now) }
{
    put_figures(out, &server_figures(figures))?;
    put_figures(out, &traffic_figures(figures))
}

fn put_numbers(out: &mut Vec<u8>, report: &MetricsReport) -> Result<(), NoMemory>
    ensures { OnOk result (out.new.items ≡ out.old.items ++ figures_text report.now) }
{
    put_server(out, &report.figures)?;
    put_figures(out, &leader_figures(report))?;
    put_memory(out, report.memory)?;
    put_descriptors(out, report.figures.descriptors)
}

fn put_all(out: &mut Vec<u8>, report: &MetricsReport) -> Result<(), NoMemory>
    ensures { OnOk result (out.new.items ≡ out.old.items ++ metrics_text report.now) }
{
    put_numbers(out, report)?;
    put_histogram(out, Metric::AnswerTimes, &report.answers)?;
    put_histogram(out, Metric::TurnTimes, &report.turns)
}

/// Appends the text of the metrics. A refused allocation leaves `out` as it was.
pub fn put_metrics(out: &mut Vec<u8>, report: &MetricsReport) -> Result<(), NoMemory>
    ensures text { OnOk result (out.new.items ≡ out.old.items ++ metrics_text report.now) }
    ensures err { OnErr result (out.new.items ≡ out.old.items) }
{
    let mut text = Vec::new(*out.allocator());
    put_all(&mut text, report)?;
    out.extend_from_slice(text.as_slice())?;
    Ok(())
}
