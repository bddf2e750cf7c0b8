//! The form of a file, and lines that are refused.

use std::alloc::Global;
use std::test::Fail;
use zoo_config::{
    BadLine, ConfigError, Meaning, Reason, entries_of, master_port, meaning_of, parse, text_of,
    value_in,
};

// The entries of a text, each as LINE:KEY=VALUE and a semicolon.
fn shown(alloc: Global, text: &str) -> Result<String, Fail> {
    let mut out = String::new(alloc);
    let entries = entries_of(alloc, text)?;
    for entry in entries.as_slice() {
        let line = entry.line;
        let key = entry.key.as_str();
        let value = entry.value.as_str();
        write!(out, "{line}:{key}={value};")?;
    }
    Ok(out)
}

#[test]
fn lines_are_read_as_properties(rt: HostRuntime) -> Result<(), Fail> {
    let alloc = rt.alloc();
    for (text, wanted) in [
        ("", ""),
        ("a=b", "1:a=b;"),
        ("a:b\nc d\n", "1:a=b;2:c=d;"),
        ("  a \t=  b c \t\n", "1:a=b c;"),
        ("a = b = c", "1:a=b = c;"),
        ("a==b", "1:a==b;"),
        ("# a=b\n ! c=d\n\n \t\ne=f\r\n", "5:e=f;"),
        ("a=b\\\n   c\nd=e", "1:a=bc;3:d=e;"),
        ("a=b\\\n# c\n", "1:a=b# c;"),
        ("# a\\\nb=c", "2:b=c;"),
        ("a=b\\", "1:a=b;"),
        ("a=\nb\n", "1:a=;2:b=;"),
        ("a=1\na=2\n", "1:a=1;2:a=2;"),
        ("a=1\rb=2\r\nc=3\n\rd=4\r", "1:a=1;2:b=2;3:c=3;5:d=4;"),
        ("#a\rb=2\rc=3\\\r  4\r", "2:b=2;3:c=34;"),
    ] {
        let found = shown(alloc, text)?;
        assert!(rt; found.as_str() == wanted, "{text}: {found}");
    }
    Ok(())
}

#[test]
fn a_file_of_latin_1_is_read(rt: HostRuntime) -> Result<(), Fail> {
    let alloc = rt.alloc();
    for (bytes, wanted) in [
        (
            &b"# gr\xF6\xDFer\na=\xE9"[..],
            "# gr\u{F6}\u{DF}er\na=\u{E9}",
        ),
        (&b"# gr\xC3\xB6\xC3\x9Fer"[..], "# gr\u{F6}\u{DF}er"),
        (&b""[..], ""),
    ] {
        let text = text_of(alloc, bytes)?;
        assert!(rt; text.as_str() == wanted, "{text}");
    }
    Ok(())
}

#[test]
fn a_later_line_wins(rt: HostRuntime) -> Result<(), Fail> {
    let alloc = rt.alloc();
    let entries = entries_of(alloc, "tickTime=1\nsyncLimit=5\ntickTime=2\n")?;
    let entries = entries.as_slice();
    assert!(rt; value_in(entries, "tickTime") == Some("2"));
    assert!(rt; value_in(entries, "syncLimit") == Some("5"));
    assert!(rt; value_in(entries, "initLimit").is_none());
    Ok(())
}

#[test]
fn what_would_drop_security_is_refused(rt: HostRuntime) -> Result<(), Fail> {
    let alloc = rt.alloc();
    for (line, reason) in [
        ("sslQuorum=true", Reason::Tls),
        ("sslQuorum = TRUE", Reason::Tls),
        ("secureClientPort=2281", Reason::Tls),
        ("ssl.keyStore.location=/a", Reason::Tls),
        ("quorum.auth.enableSasl=true", Reason::Sasl),
        ("authProvider.1=org.example.Provider", Reason::Sasl),
        ("localSessionsEnabled=true", Reason::LocalSessions),
        ("dataDir=C\\:\\\\zookeeper", Reason::Escape),
        ("ssl\\u0051uorum=true", Reason::Escape),
    ] {
        let text = format!(in alloc; "tickTime=2000\n\n{line}\nsslQuorum=true\n")?;
        let refused = match parse(alloc, text.as_str()) {
            Err(ConfigError::Bad(bad)) => bad == BadLine { line: 3, reason },
            Err(ConfigError::NoMemory) | Ok(_) => false,
        };
        assert!(rt; refused, "{line}");
    }
    Ok(())
}

#[test]
fn a_port_of_followers_is_one_or_none(rt: HostRuntime) -> Result<(), Fail> {
    let alloc = rt.alloc();
    for (value, wanted) in [
        ("2191", Some("2191")),
        ("1", Some("1")),
        ("65535", Some("65535")),
        ("+02191", Some("02191")),
        ("0", None),
        ("00", None),
        ("+0", None),
        ("-0", None),
        ("-1", None),
        ("-2147483648", None),
    ] {
        let text = format!(in alloc; "observerMasterPort={value}")?;
        let Ok(entries) = parse(alloc, text.as_str()) else {
            return Err(Fail::from("refused"));
        };
        assert!(rt; master_port(entries.as_slice()) == wanted, "{value}");
    }
    let entries = entries_of(alloc, "tickTime=2191")?;
    assert!(rt; master_port(entries.as_slice()).is_none());
    Ok(())
}

#[test]
fn a_wrong_port_of_followers_is_refused(rt: HostRuntime) -> Result<(), Fail> {
    let alloc = rt.alloc();
    for value in [
        "",
        "x",
        "65536",
        "-2147483649",
        "++1",
        "+-1",
        "-+1",
        "-",
        "+",
        "0x1",
        "2191 2192",
        "2191,a:1",
        "zk1:2191",
    ] {
        let text = format!(in alloc; "tickTime=2000\nobserverMasterPort={value}\n")?;
        let bad = BadLine {
            line: 2,
            reason: Reason::MasterPort,
        };
        let refused = match parse(alloc, text.as_str()) {
            Err(ConfigError::Bad(found)) => found == bad,
            Err(ConfigError::NoMemory) | Ok(_) => false,
        };
        assert!(rt; refused, "{value}");
    }
    Ok(())
}

#[test]
fn keys_mean_what_they_mean_to_an_observer(rt: HostRuntime) -> Result<(), Fail> {
    for (key, value, meaning) in [
        ("server.1", "zk1:2888:3888", Meaning::Taken),
        ("maxCnxns", "0", Meaning::Taken),
        ("4lw.commands.whitelist", "*", Meaning::Taken),
        (
            "DigestAuthenticationProvider.superDigest",
            "a:b",
            Meaning::Taken,
        ),
        ("sslQuorum", "false", Meaning::Idle),
        ("digest.enabled", "false", Meaning::Idle),
        ("digest.enabled", "true", Meaning::Idle),
        ("quorum.auth.enableSasl", "false", Meaning::Idle),
        ("reconfigEnabled", "false", Meaning::Idle),
        ("forceSync", "no", Meaning::Idle),
        ("fsync.warningthresholdms", "20", Meaning::Idle),
        ("txnLogSizeLimitInKb", "-1", Meaning::Idle),
        ("multiAddress.enabled", "true", Meaning::Idle),
        ("reconfigEnabled", "true", Meaning::Unheeded),
        ("autopurge.purgeInterval", "1", Meaning::Idle),
        ("observerMasterPort", "2191", Meaning::Taken),
        ("observerMasterPort", "-1", Meaning::Taken),
        ("metricsProvider.httpPort", "7000", Meaning::Taken),
        ("metricsProvider.httpHost", "::1", Meaning::Taken),
        (
            "metricsProvider.className",
            "org.apache.zookeeper.metrics.prometheus.PrometheusMetricsProvider",
            Meaning::Taken,
        ),
        (
            "metricsProvider.className",
            "org.apache.zookeeper.metrics.impl.DefaultMetricsProvider",
            Meaning::Taken,
        ),
        (
            "metricsProvider.className",
            "org.example.Provider",
            Meaning::Unheeded,
        ),
        ("metricsProvider.exportJvmInfo", "true", Meaning::Unheeded),
        ("minSessionTimeout", "4000", Meaning::Taken),
        ("maxSessionTimeout", "-1", Meaning::Taken),
        ("tickTimes", "2000", Meaning::Unknown),
        ("zookeeper.sslQuorum", "true", Meaning::Unknown),
    ] {
        assert!(rt; meaning_of(key, value) == meaning, "{key}={value}");
    }
    Ok(())
}
