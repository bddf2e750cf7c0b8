use crate::helpers::{limited, named, put_lines, replayed};
use observer_core::Output;
use replay::Ending;
use std::alloc::Global;
use std::io;
use std::io::{ErrorKind, Read, Write};
use std::test::*;
use values::{Blob, Fault};

const SCRIPT: &[u8] = b"server 3\nprimed\nclient 1 0000000000\nclient 1 ffffffff";

// A reader that gives some bytes, and then fails.
#[derive(Drop)]
struct Torn {
    bytes: &'static [u8],
}

impl Read for Torn {
    fn read(&mut self, buf: &mut [u8]) -> io::Result<usize> {
        if self.bytes.is_empty() {
            return Err(io::Error::from(ErrorKind::BrokenPipe));
        }
        self.bytes.read(buf)
    }
}

// A writer that takes nothing.
#[derive(Drop)]
struct Full;

impl Write for Full {
    fn write(&mut self, _buf: &[u8]) -> io::Result<usize> {
        Err(io::Error::from(ErrorKind::BrokenPipe))
    }

    fn flush(&mut self) -> io::Result<()> {
        Ok(())
    }
}

// A writer whose bytes are lost.
#[derive(Drop)]
struct Lost;

impl Write for Lost {
    fn write(&mut self, buf: &[u8]) -> io::Result<usize> {
        Ok(buf.len())
    }

    fn flush(&mut self) -> io::Result<()> {
        Err(io::Error::from(ErrorKind::BrokenPipe))
    }
}

#[test]
fn a_script_is_replayed(rt: HostRuntime) {
    let mut out = Vec::new(rt.alloc());
    let mut errors = Vec::new(rt.alloc());
    let mut reader = SCRIPT;
    assert_eq!(rt;
        replayed(&rt, rt.alloc(), &mut reader, &mut out, &mut errors),
        0
    );
    assert_eq!(rt;
        out.as_slice(),
        b"C 1 close\nend zxid=0x0 paths=3\n".as_slice()
    );
    assert!(rt; errors.is_empty());
}

#[test]
fn a_read_fails_midway(rt: HostRuntime) {
    let mut out = Vec::new(rt.alloc());
    let mut errors = Vec::new(rt.alloc());
    let mut reader = Torn { bytes: b"what\n" };
    assert_eq!(rt;
        replayed(&rt, rt.alloc(), &mut reader, &mut out, &mut errors),
        3
    );
    assert!(rt; out.is_empty());
    assert_eq!(rt; errors.as_slice(), b"cannot open\n".as_slice());
}

#[test]
fn the_output_cannot_be_written(rt: HostRuntime) {
    let mut errors = Vec::new(rt.alloc());
    let mut reader = SCRIPT;
    assert_eq!(rt;
        replayed(&rt, rt.alloc(), &mut reader, &mut Full, &mut errors),
        3
    );
    assert_eq!(rt; errors.as_slice(), b"cannot open\n".as_slice());
    let mut reader = SCRIPT;
    assert_eq!(rt;
        replayed(&rt, rt.alloc(), &mut reader, &mut Lost, &mut errors),
        3
    );
}

#[test]
fn errors_cannot_be_told(rt: HostRuntime) {
    let mut out = Vec::new(rt.alloc());
    let mut reader = b"what".as_slice();
    assert_eq!(rt;
        replayed(&rt, rt.alloc(), &mut reader, &mut out, &mut Full),
        1
    );
}

#[test]
fn want_of_memory_is_told(rt: HostRuntime) -> Result<(), Fail> {
    let mut errors = Vec::new(rt.alloc());
    Ending::NoMemory.tell(&mut errors)?;
    assert_eq!(rt; errors.as_slice(), b"no memory\n".as_slice());
    assert_eq!(rt; Ending::NoMemory.status(), 4);
    Ok(())
}

#[test]
fn each_output_has_a_line(rt: HostRuntime) -> Result<(), Fail> {
    let outputs = [
        Output::ToLeader(Blob::new(rt.alloc(), &[0, 0xab])?),
        Output::ToClient(18446744073709551615, Blob::new(rt.alloc(), &[])?),
        Output::CloseLeader(Fault::OutOfOrder),
        Output::CloseLeader(Fault::UnexpectedPacket),
        Output::CloseClient(2),
    ];
    let mut out = Vec::new(rt.alloc());
    put_lines(&mut out, &outputs, -1, 3)?;
    let wanted =
        b"L 00ab\nC 18446744073709551615 \nL close F7 OutOfOrder\nL close F12 UnexpectedPacket\nC 2 close\nend zxid=0xffffffffffffffff paths=3\n";
    assert_eq!(rt; out.as_slice(), wanted.as_slice());
    Ok(())
}

// The words of a line.
fn words(alloc: Global, line: &str) -> Result<Vec<String>, Fail> {
    let mut words = Vec::new(alloc);
    for word in line.split_ascii_whitespace() {
        words.push(String::from_str(alloc, word)?)?;
    }
    Ok(words)
}

#[test]
fn command_lines(rt: HostRuntime) -> Result<(), Fail> {
    for (line, file, path) in [
        ("", "-", ""),
        ("replay -", "-", ""),
        ("replay a", "a", ""),
        ("replay", "", ""),
        ("replay a b", "", ""),
        ("replay --workers 1", "", ""),
        ("replay --workers --workers 1", "--workers", ""),
        ("audit a b", "a", "b"),
        ("audit - b", "-", "b"),
        ("audit a", "", ""),
        ("audit a b --workers 1", "", ""),
        ("serve", "", ""),
        ("repla -", "", ""),
    ] {
        let words = words(rt.alloc(), line)?;
        let (named_file, named_path) = named(words.as_slice());
        assert_eq!(rt; named_file, file, "at {line}");
        assert_eq!(rt; named_path, path, "at {line}");
    }
    Ok(())
}

#[test]
fn options_of_a_replay(rt: HostRuntime) -> Result<(), Fail> {
    for (line, limits) in [
        ("", Some((4, 256))),
        ("replay a", Some((4, 256))),
        ("replay a --workers 1", Some((1, 256))),
        ("replay a --batch 4096", Some((4, 4096))),
        ("replay a --workers 64 --batch 1", Some((64, 1))),
        (
            "replay - --batch 007 --workers 00000000000000000000000002",
            Some((2, 7)),
        ),
        ("replay a --workers", None),
        ("replay a --batch 1 --workers", None),
        ("replay a --workers 2 --workers 2", None),
        ("replay a --batch 2 --workers 2 --batch 3", None),
        ("replay a --workers 0", None),
        ("replay a --workers 65", None),
        ("replay a --batch 0", None),
        ("replay a --batch 4097", None),
        ("replay a --workers +1", None),
        ("replay a --workers 1x", None),
        ("replay a --workers 18446744073709551617", None),
        ("replay a --worker 1", None),
        ("replay a 1 --workers", None),
        ("audit a /", None),
    ] {
        let words = words(rt.alloc(), line)?;
        assert_eq!(rt; limited(words.as_slice()), limits, "at {line}");
    }
    Ok(())
}
