//! What a key means to an observer.

ghost use Rattle.std.specs.Prelude.{◌≡◌, ◌==◌, nat_eq, map, position};
ghost use Rattle.std.specs.List.{starts_with};
ghost use Rattle.zoo_config.specs.Keys.{is_one_of, begins_as_one_of, is_off, has_escape, asks_for_tls, is_sasl_switch, asks_for_sasl, is_master_port, has_wrong_port, reason_of, is_taken, is_prometheus, is_provider, sets_metrics, is_unheeded, asks_for_reconfiguration, is_of_servers, is_of_files, is_switched_off, meaning_of, meaning_with};

use crate::address::{is_negative_up_to, port_in};
use crate::error::Reason;
use std::fmt;

/// What a key means here.
#[derive(Clone, Copy, Debug, PartialEq, Eq)]
pub enum Meaning {
    Taken,
    /// It means nothing to an observer that keeps no files.
    Idle,
    /// It means something to an observer of ZooKeeper, and nothing here.
    Unheeded,
    Unknown,
    Refused(Reason),
}

impl fmt::Display for Meaning {
    fn fmt<W: fmt::Write>(&self, f: &mut fmt::Formatter<W>) -> fmt::Result {
        match self {
            Meaning::Taken => f.write_str("is taken"),
            Meaning::Idle => f.write_str("means nothing here"),
            Meaning::Unheeded => f.write_str("isn't heeded"),
            Meaning::Unknown => f.write_str("is unknown"),
            Meaning::Refused(reason) => write!(f, "is refused: {reason}"),
        }
    }
}

const SASL_FRONTS: [&str; 3] = ["authProvider", "enforce.auth.", "kerberos."];

const SASL_SWITCHES: [&str; 4] = [
    "quorum.auth.enableSasl",
    "quorum.auth.learnerRequireSasl",
    "quorum.auth.serverRequireSasl",
    "sessionRequireClientSASLAuth",
];

const TAKEN: [&str; 14] = [
    "dynamicConfigFile",
    "dataDir",
    "clientPort",
    "clientPortAddress",
    "observerMasterPort",
    "tickTime",
    "initLimit",
    "syncLimit",
    "minSessionTimeout",
    "maxSessionTimeout",
    "maxClientCnxns",
    "maxCnxns",
    "4lw.commands.whitelist",
    "DigestAuthenticationProvider.superDigest",
];

const UNHEEDED: [&str; 2] = ["skipACL", "globalOutstandingLimit"];

const SERVER_FRONTS: [&str; 4] = ["group.", "weight.", "observer.", "multiAddress."];

const SERVER_KEYS: [&str; 8] = [
    "peerType",
    "standaloneEnabled",
    "electionAlg",
    "quorumListenOnAllIPs",
    "reconfigEnabled",
    "leaderServes",
    "digest.enabled",
    "version",
];

const FILE_FRONTS: [&str; 3] = ["autopurge.", "snapshot.", "admin."];

const FILE_KEYS: [&str; 9] = [
    "syncEnabled",
    "forceSync",
    "fsync.warningthresholdms",
    "dataLogDir",
    "snapCount",
    "preAllocSize",
    "commitLogCount",
    "snapSizeLimitInKb",
    "txnLogSizeLimitInKb",
];

// Switches of what isn't here, where they are off.
const SWITCHES: [&str; 3] = [
    "sslQuorum",
    "sessionRequireClientSASLAuth",
    "localSessionsEnabled",
];

const MOST_NEGATIVE: u64 = 2_147_483_648;

fn begins(text: &str, front: &str) -> bool
    ensures { result ≡ starts_with nat_eq text.now front.now }
{
    text.as_bytes().starts_with(front.as_bytes())
}

// Whether a text is one of some.
fn is_one_of(text: &str, all: &[&str]) -> bool
    ensures { result ≡ is_one_of (map (λ one. one.now) all.now) text.now }
{
    for one in all {
        if *one == text {
            return true;
        }
    }
    false
}

// Whether a text begins as one of some.
fn begins_as_one_of(text: &str, fronts: &[&str]) -> bool
    ensures { result ≡ begins_as_one_of (map (λ front. front.now) fronts.now) text.now }
{
    for front in fronts {
        if begins(text, front) {
            return true;
        }
    }
    false
}

fn is_off(value: &str) -> bool
    ensures { result ≡ is_off value.now }
{
    value == "false"
}

fn escape_place(text: &[u8]) -> Option<usize>
    ensures { result ≡ position (λ byte. byte == 92) text.now }
{
    text.iter().position(|byte| *byte == b'\\')
}

fn has_escape(text: &str) -> bool
    ensures { result ≡ has_escape text.now }
{
    escape_place(text.as_bytes()).is_some()
}

fn asks_for_tls(key: &str, value: &str) -> bool
    ensures { result ≡ asks_for_tls key.now value.now }
{
    key == "secureClientPort"
        || key == "secureClientPortAddress"
        || begins(key, "ssl.")
        || (key == "sslQuorum" && !is_off(value))
}

fn is_sasl_switch(key: &str) -> bool
    ensures { result ≡ is_sasl_switch key.now }
{
    is_one_of(key, &SASL_SWITCHES)
}

fn asks_for_sasl(key: &str, value: &str) -> bool
    ensures { result ≡ asks_for_sasl key.now value.now }
{
    begins_as_one_of(key, &SASL_FRONTS)
        || key == "requireClientAuthScheme"
        || (is_sasl_switch(key) && !is_off(value))
}

// Whether a value is a port, or a number that isn't above zero, which stands for none.
fn is_master_port(value: &str) -> bool
    ensures { result ≡ is_master_port value.now }
{
    port_in(value).is_some() || is_negative_up_to(MOST_NEGATIVE, value)
}

fn has_wrong_port(key: &str, value: &str) -> bool
    ensures { result ≡ has_wrong_port key.now value.now }
{
    key == "observerMasterPort" && !is_master_port(value)
}

/// Why a key with this value is refused: it asks for security or sessions that aren't here, or can't be read. Returns
/// None if it isn't refused.
pub(crate) fn reason_of(key: &str, value: &str) -> Option<Reason>
    ensures { result ≡ reason_of key.now value.now }
{
    if has_escape(key) || has_escape(value) {
        return Some(Reason::Escape);
    }
    if asks_for_tls(key, value) {
        return Some(Reason::Tls);
    }
    if asks_for_sasl(key, value) {
        return Some(Reason::Sasl);
    }
    if key == "localSessionsEnabled" && !is_off(value) {
        return Some(Reason::LocalSessions);
    }
    if has_wrong_port(key, value) {
        return Some(Reason::MasterPort);
    }
    None
}

fn is_taken(key: &str) -> bool
    ensures { result ≡ is_taken key.now }
{
    begins(key, "server.") || is_one_of(key, &TAKEN)
}

/// Whether a class is the one of ZooKeeper that serves metrics over HTTP.
pub(crate) fn is_prometheus(class: &str) -> bool
    ensures { result ≡ is_prometheus class.now }
{
    class == "org.apache.zookeeper.metrics.prometheus.PrometheusMetricsProvider"
}

// Whether a class is followed: that one, and those of ZooKeeper that serve nothing.
fn is_provider(class: &str) -> bool
    ensures { result ≡ is_provider class.now }
{
    is_prometheus(class)
        || class == "org.apache.zookeeper.metrics.impl.DefaultMetricsProvider"
        || class == "org.apache.zookeeper.metrics.impl.NullMetricsProvider"
}

fn sets_metrics(key: &str, value: &str) -> bool
    ensures { result ≡ sets_metrics key.now value.now }
{
    key == "metricsProvider.httpPort"
        || key == "metricsProvider.httpHost"
        || (key == "metricsProvider.className" && is_provider(value))
}

fn is_unheeded(key: &str) -> bool
    ensures { result ≡ is_unheeded key.now }
{
    begins(key, "metricsProvider.") || is_one_of(key, &UNHEEDED)
}

fn asks_for_reconfiguration(key: &str, value: &str) -> bool
    ensures { result ≡ asks_for_reconfiguration key.now value.now }
{
    key == "reconfigEnabled" && !is_off(value)
}

fn is_of_servers(key: &str) -> bool
    ensures { result ≡ is_of_servers key.now }
{
    begins_as_one_of(key, &SERVER_FRONTS) || is_one_of(key, &SERVER_KEYS)
}

fn is_of_files(key: &str) -> bool
    ensures { result ≡ is_of_files key.now }
{
    begins_as_one_of(key, &FILE_FRONTS) || is_one_of(key, &FILE_KEYS)
}

fn is_switched_off(key: &str) -> bool
    ensures { result ≡ is_switched_off key.now }
{
    begins(key, "quorum.auth.") || is_one_of(key, &SWITCHES)
}

/// What a key means here if it has this value.
pub fn meaning_of(key: &str, value: &str) -> Meaning
    ensures { result ≡ meaning_with (reason_of key.now value.now) (meaning_of key.now value.now) }
{
    if let Some(reason) = reason_of(key, value) {
        return Meaning::Refused(reason);
    }
    if is_taken(key) || sets_metrics(key, value) {
        return Meaning::Taken;
    }
    if is_unheeded(key) || asks_for_reconfiguration(key, value) {
        return Meaning::Unheeded;
    }
    if is_of_servers(key) || is_of_files(key) || is_switched_off(key) {
        return Meaning::Idle;
    }
    Meaning::Unknown
}
