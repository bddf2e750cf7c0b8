//! Whole files, as the options that say the same.

use serve_options::{Name, filed_by, given_by};
use std::alloc::Global;
use std::test::Fail;
use zoo_config::{BadLine, ConfigError, Reason, parse};

// What is wrong with a file for the server of this id, or the options that it sets, beside `--leader-only` or not.
fn options_beside(
    alloc: Global,
    text: &str,
    id: &str,
    is_leader_only: bool,
) -> Result<Result<String, BadLine>, Fail> {
    let filed = match parse(alloc, text) {
        Ok(entries) => {
            let entries = entries.as_slice();
            filed_by(alloc, entries, entries, Some(id), is_leader_only)
        }
        Err(error) => Err(error),
    };
    let filed = match filed {
        Ok(filed) => filed,
        Err(ConfigError::Bad(bad)) => return Ok(Err(bad)),
        Err(ConfigError::NoMemory) => return Err(Fail::from("memory")),
    };
    let mut out = String::new(alloc);
    for option in filed.as_slice() {
        let name = option.name;
        let value = option.value.as_str();
        write!(out, "{name} {value};")?;
    }
    Ok(Ok(out))
}

fn options_of(alloc: Global, text: &str, id: &str) -> Result<Result<String, BadLine>, Fail> {
    options_beside(alloc, text, id, false)
}

// Whether the file sets these options.
fn sets(alloc: Global, text: &str, wanted: &str) -> Result<bool, Fail> {
    match options_of(alloc, text, "101")? {
        Ok(found) => Ok(found.as_str() == wanted),
        Err(_) => Ok(false),
    }
}

// The sample of ZooKeeper 3.8.
const SAMPLE: &str = "# The number of milliseconds of each tick
tickTime=2000
# The number of ticks that the initial
# synchronization phase can take
initLimit=10
# The number of ticks that can pass between
# sending a request and getting an acknowledgement
syncLimit=5
# the directory where the snapshot is stored.
# do not use /tmp for storage, /tmp here is just
# example sakes.
dataDir=/tmp/zookeeper
# the port at which the clients will connect
clientPort=2181
# the maximum number of client connections.
# increase this if you need to handle more clients
#maxClientCnxns=60
#autopurge.snapRetainCount=3
#metricsProvider.httpPort=7000
";

// Debian's, with servers, and with one of 3.4.
const DEBIAN: &str = "tickTime=2000
initLimit=10
syncLimit=5
dataDir=/var/lib/zookeeper
# Place the dataLogDir to a separate physical disc for better performance
# dataLogDir=/disk2/zookeeper
clientPort=2181
server.1=zookeeper1:2888:3888
server.2=zookeeper2:2888:3888
server.3=zookeeper3:2888:3888
server.101=here:2888:3888:observer
#preAllocSize=65536
leaderServes=yes
";

// What an operator of Kubernetes writes, with the servers of its dynamic file.
const OPERATED: &str = "4lw.commands.whitelist=cons, envi, conf, crst, srvr, stat, mntr, ruok
dataDir=/data
standaloneEnabled=false
reconfigEnabled=true
skipACL=yes
metricsProvider.className=org.apache.zookeeper.metrics.prometheus.PrometheusMetricsProvider
metricsProvider.httpPort=7000
metricsProvider.exportJvmInfo=true
initLimit=10
syncLimit=2
tickTime=2000
globalOutstandingLimit=1000
preAllocSize=65536
snapCount=10000
commitLogCount=500
snapSizeLimitInKb=4194304
maxCnxns=500
DigestAuthenticationProvider.superDigest=super:D/InIHSb7yEEbrWz8b9l71RjZJU=
maxClientCnxns=0
minSessionTimeout=4000
maxSessionTimeout=40000
autopurge.snapRetainCount=3
autopurge.purgeInterval=1
quorumListenOnAllIPs=false
admin.serverPort=8080
server.1=zk-0.zk.svc:2888:3888:participant;0.0.0.0:2181
server.2=zk-1.zk.svc:2888:3888:participant;0.0.0.0:2181
server.100=zk-9.zk.svc:2888:3888:observer;0.0.0.0:2181
server.101=zk-2.zk.svc:2888:3888:observer;2182
version=100000000
";

#[test]
fn whole_files_are_read(rt: HostRuntime) -> Result<(), Fail> {
    let alloc = rt.alloc();
    assert!(rt;
        sets(
            alloc,
            SAMPLE,
            "--client 0.0.0.0:2181;--id 101;--tick 2000;--init-limit 10;--sync-limit 5;--max-per-address 60;--words srvr;",
        )?
    );
    assert!(rt;
        sets(
            alloc,
            DEBIAN,
            "--servers zookeeper1:2888,zookeeper2:2888,zookeeper3:2888;--client 0.0.0.0:2181;--id 101;--tick 2000;--init-limit 10;--sync-limit 5;--max-per-address 60;--words srvr;",
        )?
    );
    assert!(rt;
        sets(
            alloc,
            OPERATED,
            "--servers zk-0.zk.svc:2888,zk-1.zk.svc:2888;--client 0.0.0.0:2182;--id 101;--tick 2000;--init-limit 10;--sync-limit 2;--min-session-timeout 4000;--max-session-timeout 40000;--max-clients 500;--super-digest super:D/InIHSb7yEEbrWz8b9l71RjZJU=;--words cons,envi,conf,crst,srvr,stat,mntr,ruok;--metrics 0.0.0.0:7000;",
        )?
    );
    Ok(())
}

#[test]
fn defaults_are_those_of_zookeeper(rt: HostRuntime) -> Result<(), Fail> {
    let alloc = rt.alloc();
    assert!(rt;
        sets(
            alloc,
            "",
            "--id 101;--tick 3000;--max-per-address 60;--words srvr;",
        )?
    );
    assert!(rt;
        sets(
            alloc,
            "4lw.commands.whitelist=*\nclientPort=1\nclientPortAddress=::1\nserver.1=[fe80::1]:2888:3888|b:2889:3889\nserver.1=a:2888:3888|b:2889:3889\n",
            "--servers a:2888,b:2889;--client [::1]:1;--id 101;--tick 3000;--max-per-address 60;--words all;",
        )?
    );
    Ok(())
}

#[test]
fn a_timeout_of_minus_one_is_as_without_the_key(rt: HostRuntime) -> Result<(), Fail> {
    let alloc = rt.alloc();
    assert!(rt;
        sets(
            alloc,
            "tickTime=500\nminSessionTimeout=-1\nmaxSessionTimeout=9000\nmaxClientCnxns=0\n",
            "--id 101;--tick 500;--max-session-timeout 9000;--words srvr;",
        )?
    );
    Ok(())
}

// The servers that a file with this line beside this server's has tried.
fn tries(alloc: Global, line: &str, wanted: &str) -> Result<bool, Fail> {
    let text = format!(in alloc;
        "clientPort=1\nserver.101=here:2888:3888:observer\nserver.1=a:2:3\n{line}\n"
    )?;
    let wanted = format!(in alloc;
        "--servers a:2{wanted};--client 0.0.0.0:1;--id 101;--tick 3000;--max-per-address 60;--words srvr;"
    )?;
    sets(alloc, text.as_str(), wanted.as_str())
}

#[test]
fn servers_are_those_of_zookeeper(rt: HostRuntime) -> Result<(), Fail> {
    let alloc = rt.alloc();
    for (line, wanted) in [
        ("server.2=b:2888:3888:Observer", ""),
        ("server.2=b:2888:3888: observer ;2181", ""),
        ("server.2=b:2888:3888|c:2889:3889:OBSERVER", ""),
        ("server.2=b:2888:3888:observer|c:2889:3889", ""),
        ("server.2=b:2888:3888:PARTICIPANT", ",b:2888"),
        ("server.2=b:2888:3888:", ",b:2888"),
        ("server.2=b:02888:+3888;", ",b:02888"),
        ("server.+2 = b:+2888:3888;[::1]:2181", ",b:2888"),
        (
            "server.2=[fe80::1]:2888:3888:participant|b:2889:3889",
            ",[fe80::1]:2888,b:2889",
        ),
        ("server.2=[b]:2888:3888", ",b:2888"),
        ("server.2=b:4:5\nserver.2=b:6:7", ",b:6"),
        ("server.2=b:6:7\nserver.2=b:6:7", ",b:6"),
        ("server.2=b\nserver.2=b:6:7", ",b:6"),
    ] {
        assert!(rt; tries(alloc, line, wanted)?, "{line}");
    }
    Ok(())
}

// The ensemble of a file, whose lines after these may have the port of followers.
const ENSEMBLE: &str = "clientPort=1
server.1=zk1:2888:3888:participant;2181
server.2=[fe80::2]:2889:3889|zk2:2890:3890
server.3=zk3:2888:3888:observer
server.101=here:2888:3888:observer
";

// The servers that the ensemble's file with this line has tried, beside `--leader-only` or not.
fn ensemble_tries(
    alloc: Global,
    line: &str,
    is_leader_only: bool,
    wanted: &str,
) -> Result<bool, Fail> {
    let text = format!(in alloc; "{ENSEMBLE}{line}\n")?;
    let wanted = format!(in alloc;
        "--servers {wanted};--client 0.0.0.0:1;--id 101;--tick 3000;--max-per-address 60;--words srvr;"
    )?;
    match options_beside(alloc, text.as_str(), "101", is_leader_only)? {
        Ok(found) => Ok(found.as_str() == wanted.as_str()),
        Err(_) => Ok(false),
    }
}

#[test]
fn followers_are_tried_before_the_leader(rt: HostRuntime) -> Result<(), Fail> {
    let alloc = rt.alloc();
    let quorum = "zk1:2888,[fe80::2]:2889,zk2:2890";
    let masters = "zk1:2191,[fe80::2]:2191,zk2:2191,zk1:2888,[fe80::2]:2889,zk2:2890";
    let with_zero = "zk1:02191,[fe80::2]:02191,zk2:02191,zk1:2888,[fe80::2]:2889,zk2:2890";
    for (line, wanted) in [
        ("", quorum),
        ("observerMasterPort=2191", masters),
        ("observerMasterPort = +2191", masters),
        ("observerMasterPort=+02191", with_zero),
        ("observerMasterPort=0", quorum),
        ("observerMasterPort=-1", quorum),
        ("observerMasterPort=2192\nobserverMasterPort=2191", masters),
        ("observerMasterPort=2191\nobserverMasterPort=0", quorum),
    ] {
        assert!(rt; ensemble_tries(alloc, line, false, wanted)?, "{line}");
        assert!(rt; ensemble_tries(alloc, line, true, quorum)?, "{line}");
    }
    Ok(())
}

#[test]
fn followers_are_not_tried_where_no_server_may_lead(rt: HostRuntime) -> Result<(), Fail> {
    let alloc = rt.alloc();
    assert!(rt;
        sets(
            alloc,
            "observerMasterPort=2191\nserver.3=zk3:2888:3888:observer\nserver.101=here:2888:3888:observer\n",
            "--id 101;--tick 3000;--max-per-address 60;--words srvr;",
        )?
    );
    Ok(())
}

#[test]
fn numbers_are_read_as_java_reads_them(rt: HostRuntime) -> Result<(), Fail> {
    let alloc = rt.alloc();
    for (text, wanted) in [
        (
            "tickTime=+02000\nmaxClientCnxns=+060\nmaxCnxns=00",
            "--tick 02000;--max-per-address 060;",
        ),
        (
            "maxClientCnxns=00\nmaxCnxns=-0\nminSessionTimeout=-01\nmaxSessionTimeout=+09000",
            "--tick 3000;--max-session-timeout 09000;",
        ),
        (
            "maxClientCnxns=-5\ninitLimit=+5",
            "--tick 3000;--init-limit 5;",
        ),
        (
            "maxClientCnxns=++5\nminSessionTimeout=0",
            "--tick 3000;--min-session-timeout 0;--max-per-address +5;",
        ),
    ] {
        let wanted = format!(in alloc; "--id 101;{wanted}--words srvr;")?;
        assert!(rt; sets(alloc, text, wanted.as_str())?, "{text}");
    }
    Ok(())
}

#[test]
fn clients_are_served_where_zookeeper_serves_them(rt: HostRuntime) -> Result<(), Fail> {
    let alloc = rt.alloc();
    for (text, wanted) in [
        ("clientPort=1\nclientPortAddress=[::1]", "--client [::1]:1;"),
        ("clientPort=1\nclientPortAddress=::1", "--client [::1]:1;"),
        ("clientPort=+1\nclientPortAddress=[b]", "--client b:1;"),
        ("clientPort=0\nclientPortAddress=[::1]", ""),
        ("clientPortAddress=[::1]", ""),
        (
            "clientPort=0\nserver.101=here:2888:3888:observer;2182",
            "--client 0.0.0.0:2182;",
        ),
        (
            "server.101=here:2888:3888:observer;[::1]:2182",
            "--client [::1]:2182;",
        ),
        (
            "server.101=here:2888:3888:Observer;a:2182",
            "--client a:2182;",
        ),
    ] {
        let wanted = format!(in alloc;
            "{wanted}--id 101;--tick 3000;--max-per-address 60;--words srvr;"
        )?;
        assert!(rt; sets(alloc, text, wanted.as_str())?, "{text}");
    }
    Ok(())
}

#[test]
fn metrics_are_served_where_the_class_for_it_is_named(rt: HostRuntime) -> Result<(), Fail> {
    let alloc = rt.alloc();
    let served =
        "metricsProvider.className=org.apache.zookeeper.metrics.prometheus.PrometheusMetricsProvider";
    let unserved =
        "metricsProvider.className=org.apache.zookeeper.metrics.impl.DefaultMetricsProvider";
    for (class, keys, wanted) in [
        (served, "", "--metrics 0.0.0.0:7000;"),
        (
            served,
            "metricsProvider.httpPort=7001",
            "--metrics 0.0.0.0:7001;",
        ),
        (
            served,
            "metricsProvider.httpHost=::1",
            "--metrics [::1]:7000;",
        ),
        (unserved, "metricsProvider.httpPort=7001", ""),
        ("", "metricsProvider.httpHost=::1", ""),
    ] {
        let text = format!(in alloc; "{keys}\n{class}\n")?;
        let wanted = format!(in alloc;
            "--id 101;--tick 3000;--max-per-address 60;--words srvr;{wanted}"
        )?;
        assert!(rt; sets(alloc, text.as_str(), wanted.as_str())?, "{text}");
    }
    Ok(())
}

#[test]
fn wrong_servers_are_refused(rt: HostRuntime) -> Result<(), Fail> {
    let alloc = rt.alloc();
    for (line, reason) in [
        ("server.x=a:1:2", Reason::Server),
        ("server.0=a:1:2", Reason::Server),
        ("server.256=a:1:2", Reason::Server),
        ("server.1=a", Reason::Server),
        ("server.1=a:1", Reason::Server),
        ("server.1=", Reason::Server),
        ("server.1=a:1:x", Reason::Server),
        ("server.1=a:1:65536", Reason::Server),
        ("server.1=a:1:2:foo", Reason::Server),
        ("server.1=a:1:2:observer:x", Reason::Server),
        ("server.1=a:1:2\t:observer", Reason::Server),
        ("server.1=::1:2888:3888", Reason::Server),
        ("server.1=fe80::1:2888:3888:observer", Reason::Server),
        ("server.1=[::1:2888:3888", Reason::Server),
        ("server.1=::1]:2888:3888", Reason::Server),
        ("server.1=|a:1:2", Reason::Server),
        ("server.1=a:1:2 | b:1:2", Reason::Server),
        ("server.1=a:1:2:observer|b:1:2:participant", Reason::Server),
        ("server.1=a:1:2;x", Reason::Server),
        ("server.1=a:1:2;;2181", Reason::Server),
        ("server.1=a:1:2;2181;2182", Reason::Server),
        ("server.1=a:1:2;::1:2182", Reason::Server),
        ("server.1=a:1:2;a:2181:x", Reason::Server),
        ("server.101=a:1:2", Reason::Votes),
        ("server.101=a:1:2:participant;2181", Reason::Votes),
    ] {
        let text = format!(in alloc; "tickTime=2000\n{line}\n")?;
        let refused = match options_of(alloc, text.as_str(), "101")? {
            Err(bad) => bad == BadLine { line: 2, reason },
            Ok(_) => false,
        };
        assert!(rt; refused, "{line}");
    }
    Ok(())
}

#[test]
fn servers_are_left_out_beside_a_leader(rt: HostRuntime) -> Result<(), Fail> {
    let alloc = rt.alloc();
    let entries = match parse(alloc, DEBIAN) {
        Ok(entries) => entries,
        Err(_) => return Err(Fail::from("refused")),
    };
    let entries = entries.as_slice();
    let Ok(filed) = filed_by(alloc, entries, entries, Some("101"), false) else {
        return Err(Fail::from("refused"));
    };
    let beside = given_by(alloc, filed.as_slice(), true)?;
    let alone = given_by(alloc, filed.as_slice(), false)?;
    assert!(rt; beside.iter().all(|option| option.name != Name::Servers));
    assert!(rt; alone.iter().any(|option| option.name == Name::Servers));
    Ok(())
}
