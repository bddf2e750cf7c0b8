//! Packets and their feed.

use crate::packet_bytes;
use quorum_packet::{Item, PacketFeed, PacketKind, write_packet};
use std::alloc::Global;
use std::test::Fail;
use values::{Fault, NoMemory, ReadError};

/// A PING that carries the session of one id, whose scheme is null.
const PING: [u8; 35] = *b"\x00\x00\x00\x05\x00\x00\x00\x01\x00\x00\x00\x02\xff\xff\xff\xff\
    \x00\x00\x00\x01\xff\xff\xff\xff\x00\x00\x00\x07bob:pwd";

/// The same packet as it is written.
const PING_WRITTEN: [u8; 35] = *b"\x00\x00\x00\x05\x00\x00\x00\x01\x00\x00\x00\x02\xff\xff\xff\xff\
    \x00\x00\x00\x01\x00\x00\x00\x00\x00\x00\x00\x07bob:pwd";

/// An UPTODATE, a SNAP or an INFORM, with data of four bytes.
fn with_data(alloc: Global, kind: PacketKind) -> Result<Vec<u8>, NoMemory> {
    packet_bytes(alloc, kind, 0x1_0000_0001, b"data")
}

/// The kind, the zxid and the number of bytes of the next packet; `None` also if a part of an image is next.
fn next_outline(
    alloc: Global,
    feed: &mut PacketFeed,
) -> Result<Option<(i32, i64, usize)>, ReadError> {
    let Some(Item::Packet(packet)) = feed.next(alloc)? else {
        return Ok(None);
    };
    let len = packet.bytes.as_ref().map_or(0, |b| b.as_slice().len());
    Ok(Some((packet.kind, packet.zxid, len)))
}

// Whether a packet comes at its last byte and no earlier, and the stream may end there alone.
fn comes_at_its_end(
    alloc: Global,
    feed: &mut PacketFeed,
    bytes: &[u8],
    expected: (i32, i64, usize),
) -> Result<bool, ReadError> {
    for (i, byte) in bytes.iter().enumerate() {
        feed.feed(&[*byte])?;
        let is_whole = i + 1 == bytes.len();
        if next_outline(alloc, feed)? != is_whole.then_some(expected) {
            return Ok(false);
        }
        if feed.end().is_ok() != is_whole {
            return Ok(false);
        }
    }
    Ok(true)
}

#[test]
fn packets_come_at_their_last_byte(rt: HostRuntime) -> Result<(), Fail> {
    let mut feed = PacketFeed::new(rt.alloc());
    let inform = with_data(rt.alloc(), PacketKind::Inform)?;
    let first = (8, 0x1_0000_0001, 4);
    assert!(rt; comes_at_its_end(rt.alloc(), &mut feed, &inform, first)?);
    let second = (5, 0x1_0000_0002, 0);
    assert!(rt; comes_at_its_end(rt.alloc(), &mut feed, &PING, second)?);
    assert!(rt; !feed.is_faulty());
    Ok(())
}

// Feeds a packet with data of four bytes.
fn feed_kind(alloc: Global, feed: &mut PacketFeed, kind: PacketKind) -> Result<(), NoMemory> {
    let bytes = with_data(alloc, kind)?;
    feed.feed(&bytes)
}

// The fault for which a stream may not end after an UPTODATE and the bytes, before and after the complete packets were
// taken.
fn end_behind(alloc: Global, bytes: &[u8]) -> Result<(Option<Fault>, Option<Fault>), ReadError> {
    let mut feed = PacketFeed::new(alloc);
    feed_kind(alloc, &mut feed, PacketKind::UpToDate)?;
    feed.feed(bytes)?;
    let before = feed.end().err();
    for _ in 0..3 {
        if feed.next(alloc).is_err() {
            break;
        }
    }
    Ok((before, feed.end().err()))
}

/// While packets wait that weren't taken, the stream may not end.
#[test]
fn stream_may_end_behind_whole_packets(rt: HostRuntime) -> Result<(), Fail> {
    let rows: [(&[u8], Option<Fault>); 4] = [
        (b"", None),
        (&PING, None),
        (b"\0\0\0", Some(Fault::Short)),
        (
            b"\0\0\0\x05\0\0\0\0\0\0\0\0\xff\xff\xff\xfe",
            Some(Fault::BadLength),
        ),
    ];
    for (bytes, expected) in rows {
        assert!(rt;
            end_behind(rt.alloc(), bytes)? == (Some(Fault::Short), expected),
            "{bytes:?}"
        );
    }
    let snap = with_data(rt.alloc(), PacketKind::Snap)?;
    assert!(rt; end_behind(rt.alloc(), &snap)? == (Some(Fault::Short), Some(Fault::Short)));
    Ok(())
}

// Appends an UPTODATE, and in two pieces an INFORM whose data has the length -2.
fn feed_bad_length(alloc: Global, feed: &mut PacketFeed) -> Result<(), NoMemory> {
    feed_kind(alloc, feed, PacketKind::UpToDate)?;
    feed.feed(b"\0\0\0\x08\0\0\0\x01\0\0\0\x01")?;
    feed.feed(b"\xff\xff\xff\xfe")
}

// Whether the feed is refused for the length, whatever is appended.
fn is_length_bad(alloc: Global, feed: &mut PacketFeed) -> Result<bool, NoMemory> {
    let refused = next_outline(alloc, feed) == Err(ReadError::Fault(Fault::BadLength));
    let is_named = feed.end() == Err(Fault::BadLength);
    feed_kind(alloc, feed, PacketKind::Inform)?;
    Ok(refused && is_named)
}

#[test]
fn fault_stays(rt: HostRuntime) -> Result<(), Fail> {
    let mut feed = PacketFeed::new(rt.alloc());
    feed_bad_length(rt.alloc(), &mut feed)?;
    assert!(rt; next_outline(rt.alloc(), &mut feed)?.is_some());
    for _ in 0..2 {
        assert!(rt; is_length_bad(rt.alloc(), &mut feed)?);
    }
    assert!(rt; feed.is_faulty());
    Ok(())
}

/// The bytes of the next packet, written again.
fn written_again(alloc: Global, feed: &mut PacketFeed) -> Result<Vec<u8>, ReadError> {
    let mut out = Vec::new(alloc);
    if let Some(Item::Packet(packet)) = feed.next(alloc)? {
        write_packet(&packet, &mut out)?;
    }
    Ok(out)
}

#[test]
fn packets_are_read_and_written(rt: HostRuntime) -> Result<(), Fail> {
    let mut feed = PacketFeed::new(rt.alloc());
    feed.feed(&PING)?;
    let written = written_again(rt.alloc(), &mut feed)?;
    assert_eq!(rt; written.as_slice(), PING_WRITTEN.as_slice());
    let ack = packet_bytes(rt.alloc(), PacketKind::AckEpoch, 0, b"\xff\xff\xff\xff")?;
    let expected =
        b"\x00\x00\x00\x12\x00\x00\x00\x00\x00\x00\x00\x00\x00\x00\x00\x04\xff\xff\xff\xff\xff\xff\xff\xff";
    assert_eq!(rt; ack.as_slice(), expected.as_slice());
    Ok(())
}

#[test]
fn kinds_have_their_codes(rt: HostRuntime) {
    let kinds = [
        (8, PacketKind::Inform),
        (9, PacketKind::CommitAndActivate),
        (15, PacketKind::Snap),
        (16, PacketKind::ObserverInfo),
        (18, PacketKind::AckEpoch),
        (19, PacketKind::InformAndActivate),
    ];
    for (code, kind) in kinds {
        assert!(rt; PacketKind::from_code(code) == Some(kind));
        assert_eq!(rt; kind.code(), code);
    }
    for code in [0, 20, -1] {
        assert!(rt; PacketKind::from_code(code).is_none());
    }
}
