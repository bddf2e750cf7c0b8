//! Command lines, valid and invalid.

use serve::{Command, Servers, command_of};
use std::alloc::Global;
use std::test::Fail;

// The words of a line.
fn words(alloc: Global, line: &str) -> Result<Vec<String>, Fail> {
    let mut words = Vec::new(alloc);
    for word in line.split_ascii_whitespace() {
        words.push(String::from_str(alloc, word)?)?;
    }
    Ok(words)
}

// Whether the line is valid.
fn is_line(alloc: Global, line: &str) -> Result<bool, Fail> {
    let words = words(alloc, line)?;
    Ok(command_of(alloc, words.as_slice()).is_ok())
}

#[test]
fn some_lines_are_refused(rt: HostRuntime) -> Result<(), Fail> {
    let alloc = rt.alloc();
    for line in [
        "",
        "--leader 1",
        "--leader 1 --client",
        "--leader 1 --client 2 --client 2",
        "--leader 65536 --client 2",
        "--leader +1 --client 2",
        "--leader :1 --client 2",
        "--leader [::1:1 --client 2",
        "--leader 1 --client 2 --workers 65",
        "--leader 1 --client 2 --batch 0",
        "--leader 1 --client 2 --id 256",
        "--leader 1 --client 2 --max-clients 0",
        "--leader 1 --client 2 --max-per-address 0",
        "--leader 1 --client 2 --max-under-way 0",
        "--leader 1 --client 2 --max-watches 1000000001",
        "--leader 1 --client 2 --unconnected 3601",
        "--leader 1 --client 2 --words ruok,wchx",
        "--leader 1 --client 2 --words none,ruok",
        "--leader 1 --client 2 --record --log",
        "--leader 1 --client 2 --secret-file --log",
        "--leader 1 --client 2 --log --log",
        "--leader 1 --client 2 --metrics",
        "--leader 1 --client 2 --metrics localhost",
        "--leader 1 --client 2 --metrics localhost:",
        "--leader 1 --client 2 --metrics [::1]",
        "--leader 1 --client 2 --metrics 7000 --metrics 7001",
        "--leader 1 --client 2 --quiet",
        "--leader 1 --client 2 --super-digest super:test",
        "--leader 1 --client 2 --super-digest D/InIHSb7yEEbrWz8b9l71RjZJU=",
        "--leader 1 --client 2 3",
    ] {
        assert!(rt; !is_line(alloc, line)?, "{line}");
    }
    Ok(())
}

#[test]
fn a_digest_is_read(rt: HostRuntime) -> Result<(), Fail> {
    let alloc = rt.alloc();
    let words = words(
        alloc,
        "--client 21 --leader 2888 --super-digest super:D/InIHSb7yEEbrWz8b9l71RjZJU=",
    )?;
    let Ok(Command::Serve(options)) = command_of(alloc, words.as_slice()) else {
        return Err(Fail::from("refused"));
    };
    assert!(rt; options.super_digest == Some("super:D/InIHSb7yEEbrWz8b9l71RjZJU="));
    Ok(())
}

#[test]
fn each_option_is_read(rt: HostRuntime) -> Result<(), Fail> {
    let alloc = rt.alloc();
    let words = words(
        alloc,
        "--log --client 0021 --leader [::1]:2888 --id 7 --workers 2 --batch 8 --max-clients 9 --record f --secret-file s",
    )?;
    let Ok(Command::Serve(options)) = command_of(alloc, words.as_slice()) else {
        return Err(Fail::from("refused"));
    };
    let Servers::Leader(leader) = &options.servers else {
        return Err(Fail::from("servers"));
    };
    assert!(rt; leader.host == "::1" && leader.port == 2888);
    assert!(rt; options.client.host == "127.0.0.1" && options.client.port == 21);
    assert!(rt; options.limits.workers() == 2 && options.limits.batch() == 8);
    assert!(rt; options.server_id.number() == 7 && options.max_clients == Some(9));
    assert!(rt; options.secret_file == Some("s"));
    assert!(rt;
        options.record == Some("f") && options.tick == 2000 && options.max_watches == 500_000
    );
    Ok(())
}

#[test]
fn an_address_for_metrics_is_read(rt: HostRuntime) -> Result<(), Fail> {
    let alloc = rt.alloc();
    for (line, wanted) in [
        ("--leader 1 --client 2", None),
        (
            "--leader 1 --client 2 --metrics 7000",
            Some(("127.0.0.1", 7000)),
        ),
        (
            "--metrics 0.0.0.0:0 --leader 1 --client 2",
            Some(("0.0.0.0", 0)),
        ),
        (
            "--leader 1 --client 2 --metrics [::1]:65535",
            Some(("::1", 65_535)),
        ),
        (
            "--leader 1 --client 2 --metrics localhost:7000",
            Some(("localhost", 7000)),
        ),
    ] {
        let words = words(alloc, line)?;
        let Ok(Command::Serve(options)) = command_of(alloc, words.as_slice()) else {
            return Err(Fail::from("refused"));
        };
        let found = match options.metrics {
            Some(address) => Some((address.host, address.port)),
            None => None,
        };
        assert!(rt; found == wanted, "{line}");
    }
    Ok(())
}

#[test]
fn help_and_the_version_come_before_all_else(rt: HostRuntime) -> Result<(), Fail> {
    let alloc = rt.alloc();
    for line in [
        "--help",
        "--version --help",
        "--quiet --help",
        "--leader --help",
    ] {
        let words = words(alloc, line)?;
        let is_help = matches!(command_of(alloc, words.as_slice()), Ok(Command::Help));
        assert!(rt; is_help, "{line}");
    }
    for line in ["--version", "--id 0 --version", "--client --version"] {
        let words = words(alloc, line)?;
        let is_version = matches!(command_of(alloc, words.as_slice()), Ok(Command::Version));
        assert!(rt; is_version, "{line}");
    }
    Ok(())
}

// The words that a line has answered, as the log shows them.
fn words_shown(alloc: Global, line: &str) -> Result<String, Fail> {
    let words = words(alloc, line)?;
    let Ok(Command::Serve(options)) = command_of(alloc, words.as_slice()) else {
        return Err(Fail::from("refused"));
    };
    let shown = options.words;
    Ok(format!(in alloc; "{shown}")?)
}

#[test]
fn bounds_for_clients_are_read(rt: HostRuntime) -> Result<(), Fail> {
    let alloc = rt.alloc();
    let words = words(
        alloc,
        "--leader 1 --client 2 --max-per-address 60 --max-under-way 1 --max-watches 0 --unconnected 0 --words wchp,ruok",
    )?;
    let Ok(Command::Serve(options)) = command_of(alloc, words.as_slice()) else {
        return Err(Fail::from("refused"));
    };
    assert!(rt; options.max_per_address == Some(60) && options.max_under_way == 1);
    assert!(rt; options.max_watches == 0 && options.unconnected == 0);
    assert!(rt; options.words.wchp && options.words.ruok);
    assert!(rt;
        !options.words.isro && !options.words.srvr && !options.words.mntr && !options.words.wchs
    );
    Ok(())
}

#[test]
fn words_are_shown_as_they_are_given(rt: HostRuntime) -> Result<(), Fail> {
    let alloc = rt.alloc();
    for (line, wanted) in [
        (
            "--leader 1 --client 2",
            "ruok,isro,srvr,stat,mntr,conf,envi,dirs,wchs",
        ),
        (
            "--leader 1 --client 2 --words all",
            "ruok,isro,srvr,stat,mntr,conf,envi,dirs,wchs,wchp,wchc,dump,cons,crst,srst",
        ),
        ("--leader 1 --client 2 --words none", "none"),
        ("--leader 1 --client 2 --words wchp,ruok,ruok", "ruok,wchp"),
        ("--leader 1 --client 2 --words dump,wchc", "wchc,dump"),
    ] {
        let shown = words_shown(alloc, line)?;
        assert!(rt; shown.as_str() == wanted, "{line}");
    }
    Ok(())
}
