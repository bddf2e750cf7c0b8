//! What a server tells a monitoring system: its figures in Prometheus' text format, and whether it is healthy.
//!
//! specs/Metrics defines the text, and specs/Health when a server is healthy. The figures that ZooKeeper has, too, have
//! its names.
//!
//! ```text
//! let mut out = Vec::new(alloc);
//! put_metrics(&mut out, &report)?;      // # HELP uptime The milliseconds since the start. ..
//! health_of(&report, 10_000)            // Health::Healthy: it serves, and heard the leader 10 s ago at most
//! ```
#![tactic(auto)]

mod figure;
mod health;
pub mod law;
mod metric;
mod numbers;
mod report;
mod texts;

pub use health::{Health, health_of, is_live};
pub use report::{Bucket, MetricsReport, Times};
pub use texts::put_metrics;
