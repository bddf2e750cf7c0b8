//! The answer to each word.

ghost use Rattle.std.specs.Prelude.{◌≡◌, ◌++◌, OnOk, OnErr, codes};
ghost use Rattle.std.specs.List.{flat_map};
ghost use Rattle.server_words.specs.Texts.{answer_text, told_text, version_line, average_text, state_traffic, zxid_line, mode_text, state_text, mntr_state, mntr_traffic, mntr_tree, descriptor_lines, mntr_descriptors, mntr_end, mntr_report, conf_text, envi_text, client_line, stat_text, srvr_report, cons_text};

use crate::average::Average;
use crate::figures::{ClientFigures, Descriptors, Report, ServerFigures, ServerSettings};
use crate::word::ServerWord;
use std::io::Write;
use values::NoMemory;

/// What is said while clients aren't served.
pub const NOT_SERVING: &str = "This ZooKeeper instance is not currently serving requests\n";

fn put(out: &mut Vec<u8>, text: &str) -> Result<(), NoMemory>
    ensures { OnOk result (out.new.items ≡ out.old.items ++ text.now) }
{
    out.extend_from_slice(text.as_bytes())?;
    Ok(())
}

fn put_version(out: &mut Vec<u8>, report: &Report<'_>) -> Result<(), NoMemory>
    ensures { OnOk result (out.new.items ≡ out.old.items ++ version_line report.now.version) }
{
    let version = report.version.as_str();
    match writeln!(out, "Zookeeper version: {version}") {
        Ok(()) => Ok(()),
        Err(_) => Err(NoMemory),
    }
}

fn put_traffic(out: &mut Vec<u8>, report: &Report<'_>) -> Result<(), NoMemory>
    ensures { OnOk result (out.new.items ≡ out.old.items
        ++ state_traffic report.now.figures (average_text report.now.dialect report.now.figures.latency)) }
{
    let figures = &report.figures;
    let latency = figures.latency;
    let average = Average {
        dialect: report.dialect,
        latency,
    };
    let least = latency.least / 1000;
    let most = latency.most / 1000;
    match write!(
        out,
        "Latency min/avg/max: {least}/{average}/{most}\nReceived: {}\nSent: {}\nConnections: {}\nOutstanding: {}\n",
        figures.received, figures.sent, figures.connections, figures.outstanding
    ) {
        Ok(()) => Ok(()),
        Err(_) => Err(NoMemory),
    }
}

fn put_zxid(out: &mut Vec<u8>, zxid: i64) -> Result<(), NoMemory>
    ensures { OnOk result (out.new.items ≡ out.old.items ++ zxid_line zxid) }
{
    let bits = zxid.cast_unsigned();
    match writeln!(out, "Zxid: 0x{bits:x}") {
        Ok(()) => Ok(()),
        Err(_) => Err(NoMemory),
    }
}

fn put_mode(out: &mut Vec<u8>, figures: &ServerFigures) -> Result<(), NoMemory>
    ensures { OnOk result (out.new.items ≡ out.old.items ++ mode_text figures.now) }
{
    let nodes = figures.paths as u128 + 1;
    match writeln!(out, "Mode: observer\nNode count: {nodes}") {
        Ok(()) => Ok(()),
        Err(_) => Err(NoMemory),
    }
}

fn put_state(out: &mut Vec<u8>, report: &Report<'_>) -> Result<(), NoMemory>
    ensures { OnOk result (out.new.items ≡ out.old.items ++ state_text report.now) }
{
    put_traffic(out, report)?;
    put_zxid(out, report.figures.zxid)?;
    put_mode(out, &report.figures)
}

fn put_srvr(out: &mut Vec<u8>, report: &Report<'_>) -> Result<(), NoMemory>
    ensures { OnOk result (out.new.items ≡ out.old.items ++ srvr_report report.now) }
{
    put_version(out, report)?;
    put_state(out, report)
}

fn put_client(out: &mut Vec<u8>, client: &ClientFigures<'_>) -> Result<(), NoMemory>
    ensures { OnOk result (out.new.items ≡ out.old.items ++ client_line client.now) }
{
    let address = client.address.as_str();
    match writeln!(
        out,
        " /{address}[1](queued={},recved={},sent={})",
        client.queued, client.received, client.sent
    ) {
        Ok(()) => Ok(()),
        Err(_) => Err(NoMemory),
    }
}

fn put_clients(out: &mut Vec<u8>, clients: &[ClientFigures<'_>]) -> Result<(), NoMemory>
    ensures { OnOk result (out.new.items ≡ out.old.items ++ flat_map client_line clients.now) }
{
    for client in clients {
        put_client(out, client)?;
    }
    Ok(())
}

fn put_stat(out: &mut Vec<u8>, report: &Report<'_>) -> Result<(), NoMemory>
    ensures { OnOk result (out.new.items ≡ out.old.items ++ stat_text report.now) }
{
    put_version(out, report)?;
    put(out, "Clients:\n")?;
    put_clients(out, report.clients.as_slice())?;
    put(out, "\n")?;
    put_state(out, report)
}

fn put_cons(out: &mut Vec<u8>, report: &Report<'_>) -> Result<(), NoMemory>
    ensures { OnOk result (out.new.items ≡ out.old.items ++ cons_text report.now) }
{
    put_clients(out, report.clients.as_slice())?;
    put(out, "\n")
}

fn put_mntr_state(out: &mut Vec<u8>, report: &Report<'_>) -> Result<(), NoMemory>
    ensures { OnOk result (out.new.items ≡ out.old.items ++ mntr_state report.now.version) }
{
    let version = report.version.as_str();
    match write!(
        out,
        "zk_version\t{version}\nzk_server_state\tobserver\nzk_peer_state\tobserving - broadcast\n"
    ) {
        Ok(()) => Ok(()),
        Err(_) => Err(NoMemory),
    }
}

fn put_mntr_traffic(out: &mut Vec<u8>, report: &Report<'_>) -> Result<(), NoMemory>
    ensures { OnOk result (out.new.items ≡ out.old.items ++ mntr_traffic report.now) }
{
    let figures = &report.figures;
    let average = Average {
        dialect: report.dialect,
        latency: figures.latency,
    };
    match write!(
        out,
        "zk_ephemerals_count\t{}\nzk_num_alive_connections\t{}\nzk_avg_latency\t{average}\nzk_outstanding_requests\t{}\n",
        figures.pairs, figures.connections, figures.outstanding
    ) {
        Ok(()) => Ok(()),
        Err(_) => Err(NoMemory),
    }
}

fn put_mntr_tree(out: &mut Vec<u8>, report: &Report<'_>) -> Result<(), NoMemory>
    ensures { OnOk result (out.new.items ≡ out.old.items ++ mntr_tree report.now.figures) }
{
    let figures = &report.figures;
    let nodes = figures.paths as u128 + 1;
    let least = figures.latency.least / 1000;
    match write!(
        out,
        "zk_znode_count\t{nodes}\nzk_global_sessions\t{}\nzk_packets_sent\t{}\nzk_packets_received\t{}\nzk_watch_count\t{}\nzk_min_latency\t{least}\n",
        figures.sessions, figures.sent, figures.received, figures.watches
    ) {
        Ok(()) => Ok(()),
        Err(_) => Err(NoMemory),
    }
}

fn put_descriptor_lines(out: &mut Vec<u8>, descriptors: Descriptors) -> Result<(), NoMemory>
    ensures { OnOk result (out.new.items ≡ out.old.items ++ descriptor_lines descriptors) }
{
    match write!(
        out,
        "zk_max_file_descriptor_count\t{}\nzk_open_file_descriptor_count\t{}\n",
        descriptors.most, descriptors.count
    ) {
        Ok(()) => Ok(()),
        Err(_) => Err(NoMemory),
    }
}

fn put_mntr_descriptors(out: &mut Vec<u8>, descriptors: Option<Descriptors>) -> Result<(), NoMemory>
    ensures { OnOk result (out.new.items ≡ out.old.items ++ mntr_descriptors descriptors) }
{
    match descriptors {
        None => Ok(()),
        Some(descriptors) => put_descriptor_lines(out, descriptors),
    }
}

fn put_mntr_end(out: &mut Vec<u8>, figures: &ServerFigures) -> Result<(), NoMemory>
    ensures { OnOk result (out.new.items ≡ out.old.items ++ mntr_end figures.now) }
{
    let uptime = figures.uptime;
    let most = figures.latency.most / 1000;
    let rejected = figures.rejected;
    match write!(
        out,
        "zk_uptime\t{uptime}\nzk_max_latency\t{most}\nzk_connection_rejected\t{rejected}\n"
    ) {
        Ok(()) => Ok(()),
        Err(_) => Err(NoMemory),
    }
}

fn put_mntr(out: &mut Vec<u8>, report: &Report<'_>) -> Result<(), NoMemory>
    ensures { OnOk result (out.new.items ≡ out.old.items ++ mntr_report report.now) }
{
    put_mntr_state(out, report)?;
    put_mntr_traffic(out, report)?;
    put_mntr_tree(out, report)?;
    put_mntr_descriptors(out, report.figures.descriptors)?;
    put_mntr_end(out, &report.figures)
}

fn put_conf(out: &mut Vec<u8>, settings: &ServerSettings) -> Result<(), NoMemory>
    ensures { OnOk result (out.new.items ≡ out.old.items ++ conf_text settings.now) }
{
    match write!(
        out,
        "clientPort={}\ntickTime={}\nmaxClientCnxns={}\nminSessionTimeout={}\nmaxSessionTimeout={}\nserverId={}\ninitLimit={}\nsyncLimit={}\npeerType=1\n",
        settings.client_port,
        settings.tick,
        settings.per_address,
        settings.least_timeout,
        settings.greatest_timeout,
        settings.server_id,
        settings.init_limit,
        settings.sync_limit
    ) {
        Ok(()) => Ok(()),
        Err(_) => Err(NoMemory),
    }
}

fn put_envi(out: &mut Vec<u8>, report: &Report<'_>) -> Result<(), NoMemory>
    ensures { OnOk result (out.new.items ≡ out.old.items ++ envi_text report.now.version) }
{
    let version = report.version.as_str();
    match write!(out, "Environment:\nzookeeper.version={version}\n") {
        Ok(()) => Ok(()),
        Err(_) => Err(NoMemory),
    }
}

// The text of a word, while clients are served.
fn put_told(out: &mut Vec<u8>, word: ServerWord, report: &Report<'_>) -> Result<(), NoMemory>
    ensures { OnOk result (out.new.items ≡ out.old.items ++ told_text word report.now) }
{
    match word {
        ServerWord::Srvr => put_srvr(out, report),
        ServerWord::Stat => put_stat(out, report),
        ServerWord::Mntr => put_mntr(out, report),
        ServerWord::Conf => put_conf(out, &report.settings),
        ServerWord::Envi => put_envi(out, report),
        ServerWord::Dirs => put(out, "datadir_size: 0\nlogdir_size: 0\n"),
        ServerWord::Cons => put_cons(out, report),
        ServerWord::Crst => put(out, "Connection stats reset.\n"),
        ServerWord::Srst => put(out, "Server stats reset.\n"),
    }
}

fn put_text(out: &mut Vec<u8>, word: ServerWord, report: &Report<'_>) -> Result<(), NoMemory>
    ensures { OnOk result (out.new.items ≡ out.old.items ++ answer_text word report.now) }
{
    if report.figures.serving || matches!(word, ServerWord::Envi) {
        return put_told(out, word, report);
    }
    put(out, NOT_SERVING)
}

/// Appends the answer to a word. A refused allocation leaves `out` as it was.
pub fn answer(word: ServerWord, report: &Report<'_>, out: &mut Vec<u8>) -> Result<(), NoMemory>
    ensures text { OnOk result (out.new.items ≡ out.old.items ++ answer_text word report.now) }
    ensures err { OnErr result (out.new.items ≡ out.old.items) }
{
    let mut text = Vec::new(*out.allocator());
    put_text(&mut text, word, report)?;
    out.extend_from_slice(text.as_slice())?;
    Ok(())
}
