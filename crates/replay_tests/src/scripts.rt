use crate::helpers::{put_digits, read};
use replay_script::{ScriptError, ScriptEvent};
use settings::Dialect;
use std::test::*;

const EVERY_LINE: &str =
    "# \u{e9}\nserver 255\ncounter 072057594037927934\n\nepochs 2147483647 0\ntimeouts 1 2147483647\nsecret aB \ndialect 3.8\nprimed\nleader up\nleader  00 Ff\nleader end\nclient 4294967295 up\nclient 007 0a0B\nclient 1 end\nexpire ff 00000000000001\ncheckpoint";

#[test]
fn every_line(rt: HostRuntime) -> Result<(), Fail> {
    let script = read(rt.alloc(), EVERY_LINE.as_bytes())?;
    assert_eq!(rt; script.server_id.number(), 255);
    assert_eq!(rt; script.first_counter.number(), 0x00ff_ffff_ffff_fffe);
    assert_eq!(rt; script.epochs.accepted(), i32::MAX);
    assert_eq!(rt; script.epochs.current(), 0);
    assert_eq!(rt; script.timeouts.least(), 1);
    assert_eq!(rt; script.timeouts.greatest(), i32::MAX);
    assert_eq!(rt; script.secret.as_slice(), [0xab].as_slice());
    assert!(rt; script.dialect == Dialect::Zk38);
    assert!(rt; script.primed);
    let events = script.events.as_slice();
    assert_eq!(rt; events.len(), 8);
    assert!(rt; matches!(&events[0], ScriptEvent::LeaderUp));
    assert!(rt;
        matches!(&events[1], ScriptEvent::LeaderBytes(bytes) if bytes.as_slice() == [0, 255].as_slice())
    );
    assert!(rt; matches!(&events[2], ScriptEvent::LeaderEnd));
    assert!(rt; matches!(&events[3], ScriptEvent::ClientUp(4294967295, None)));
    assert!(rt;
        matches!(&events[4], ScriptEvent::ClientBytes(7, bytes) if bytes.as_slice() == [10, 11].as_slice())
    );
    assert!(rt; matches!(&events[5], ScriptEvent::ClientEnd(1)));
    assert!(rt; matches!(&events[6], ScriptEvent::Expire(-72057594037927935)));
    assert!(rt; matches!(&events[7], ScriptEvent::Checkpoint));
    Ok(())
}

#[test]
fn without_headers(rt: HostRuntime) -> Result<(), Fail> {
    let script = read(rt.alloc(), b"")?;
    assert_eq!(rt; script.server_id.number(), 1);
    assert_eq!(rt; script.first_counter.number(), 0);
    assert_eq!(rt; script.epochs.accepted(), 0);
    assert_eq!(rt; script.epochs.current(), 0);
    assert_eq!(rt; script.timeouts.least(), 4000);
    assert_eq!(rt; script.timeouts.greatest(), 40000);
    assert!(rt; script.secret.as_slice().is_empty());
    assert!(rt; script.dialect == Dialect::Zk34);
    assert!(rt; !script.primed);
    assert!(rt; script.events.as_slice().is_empty());
    Ok(())
}

#[test]
fn first_bad_line(rt: HostRuntime) {
    for (text, number) in [
        (b"\n\nserver 0\nserver 0".as_slice(), 3u64),
        (b"server 256".as_slice(), 1),
        (b"server 1\nserver 1".as_slice(), 2),
        (b"server  1".as_slice(), 1),
        (b"server".as_slice(), 1),
        (b"counter 72057594037927935".as_slice(), 1),
        (b"counter -1".as_slice(), 1),
        (b"counter 1\ncounter 1".as_slice(), 2),
        (b"counter".as_slice(), 1),
        (b"epochs 2147483648 0".as_slice(), 1),
        (b"timeouts 2 1".as_slice(), 1),
        (b"timeouts 0 1".as_slice(), 1),
        (b"secret".as_slice(), 1),
        (b"secret ".as_slice(), 1),
        (b"primed ".as_slice(), 1),
        (b"leader up\nprimed".as_slice(), 2),
        (b"leader up ".as_slice(), 1),
        (b"leader abc".as_slice(), 1),
        (b"client 4294967296 up".as_slice(), 1),
        (b"client +1 up".as_slice(), 1),
        (b"client 1".as_slice(), 1),
        (b"expire 00000000000000".as_slice(), 1),
        (b"expire 000000000000000000".as_slice(), 1),
        (b"\r\n".as_slice(), 1),
        (b" \n".as_slice(), 1),
        (b"#\n#\xff\n".as_slice(), 2),
    ] {
        assert_eq!(rt;
            read(rt.alloc(), text).err(),
            Some(ScriptError::BadLine(number)),
            "at {text:?}"
        );
    }
}

#[test]
fn lower_case_digits(rt: HostRuntime) -> Result<(), Fail> {
    let mut out = Vec::new(rt.alloc());
    put_digits(&mut out, b"\x00\x9a\xff")?;
    assert_eq!(rt; out.as_slice(), b"009aff".as_slice());
    Ok(())
}
