//! The metrics: what each is called, how it changes, and what it means.

ghost use Rattle.std.specs.Prelude.{◌≡◌};
ghost use Rattle.server_metrics.specs.Names.{metric_name, metric_kind, metric_help};

/// A metric. Those without the prefix `observer_` or `process_` have ZooKeeper's names and meanings.
#[derive(Clone, Copy, Debug, PartialEq, Eq)]
pub enum Metric {
    Uptime,
    AvgLatency,
    MaxLatency,
    MinLatency,
    PacketsReceived,
    PacketsSent,
    Connections,
    Outstanding,
    Rejected,
    Nodes,
    Watches,
    Ephemerals,
    Sessions,
    Serving,
    LastZxid,
    Transactions,
    Log,
    Silence,
    Memory,
    OpenDescriptors,
    MostDescriptors,
    AnswerTimes,
    TurnTimes,
}

impl Metric {
    pub fn name(self) -> &'static str
        ensures { result.now ≡ metric_name self }
    {
        match self {
            Metric::Uptime => "uptime",
            Metric::AvgLatency => "avg_latency",
            Metric::MaxLatency => "max_latency",
            Metric::MinLatency => "min_latency",
            Metric::PacketsReceived => "packets_received",
            Metric::PacketsSent => "packets_sent",
            Metric::Connections => "num_alive_connections",
            Metric::Outstanding => "outstanding_requests",
            Metric::Rejected => "connection_rejected",
            Metric::Nodes => "znode_count",
            Metric::Watches => "watch_count",
            Metric::Ephemerals => "ephemerals_count",
            Metric::Sessions => "global_sessions",
            Metric::Serving => "observer_serving",
            Metric::LastZxid => "observer_last_zxid",
            Metric::Transactions => "observer_transactions_total",
            Metric::Log => "observer_log_transactions",
            Metric::Silence => "observer_leader_silence_seconds",
            Metric::Memory => "process_resident_memory_bytes",
            Metric::OpenDescriptors => "open_file_descriptor_count",
            Metric::MostDescriptors => "max_file_descriptor_count",
            Metric::AnswerTimes => "observer_answer_seconds",
            Metric::TurnTimes => "observer_turn_seconds",
        }
    }

    pub fn kind(self) -> &'static str
        ensures { result.now ≡ metric_kind self }
    {
        match self {
            Metric::Rejected | Metric::Transactions => "counter",
            Metric::AnswerTimes | Metric::TurnTimes => "histogram",
            Metric::Uptime
            | Metric::AvgLatency
            | Metric::MaxLatency
            | Metric::MinLatency
            | Metric::PacketsReceived
            | Metric::PacketsSent
            | Metric::Connections
            | Metric::Outstanding
            | Metric::Nodes
            | Metric::Watches
            | Metric::Ephemerals
            | Metric::Sessions
            | Metric::Serving
            | Metric::LastZxid
            | Metric::Log
            | Metric::Silence
            | Metric::Memory
            | Metric::OpenDescriptors
            | Metric::MostDescriptors => "gauge",
        }
    }

    /// What it tells.
    pub fn help(self) -> &'static str
        ensures { result.now ≡ metric_help self }
    {
        match self {
            Metric::Uptime => "The milliseconds since the start.",
            Metric::AvgLatency => "The average time of an answer, in milliseconds.",
            Metric::MaxLatency => "The longest time of an answer, in milliseconds.",
            Metric::MinLatency => "The shortest time of an answer, in milliseconds.",
            Metric::PacketsReceived => "The packets that came from clients.",
            Metric::PacketsSent => "The packets that went to clients.",
            Metric::Connections => "The open connections of clients.",
            Metric::Outstanding => "The requests that aren't answered yet.",
            Metric::Rejected => "The connections that were closed for want of a place.",
            Metric::Nodes => "The nodes, as ZooKeeper counts them.",
            Metric::Watches => "The watches of this server's clients.",
            Metric::Ephemerals => "The ephemeral nodes.",
            Metric::Sessions => "The sessions of the ensemble.",
            Metric::Serving => "1 while clients are served, else 0.",
            Metric::LastZxid => "The last zxid.",
            Metric::Transactions => "The transactions that were applied.",
            Metric::Log => "The transactions that are kept since the base.",
            Metric::Silence => "The seconds since the leader was last heard.",
            Metric::Memory => "The memory of the process, in bytes.",
            Metric::OpenDescriptors => "The descriptors that the process has open.",
            Metric::MostDescriptors => "How many descriptors the process may have open.",
            Metric::AnswerTimes => "The time of an answer to a client.",
            Metric::TurnTimes => "The time of a turn of the engine.",
        }
    }
}
