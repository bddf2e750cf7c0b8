//! Images in a leader's stream.

use crate::joined;
use crate::pieces::{A, BARE, CLOSE, NONE, ONE, OWNED, READ_5, ROOT, SESSION, SIGNATURE};
use quorum_packet::{Item, PacketFeed};
use settings::Dialect;
use snapshot_codec::ImagePart;
use std::alloc::Global;
use std::test::Fail;
use values::{Fault, NoMemory, ReadError};

/// A SNAP packet with zxid 1, without data and ids.
const SNAP: &[u8] = b"\0\0\0\x0f\0\0\0\0\0\0\0\x01\xff\xff\xff\xff\xff\xff\xff\xff";

/// An UPTODATE with zxid 2, without data and ids.
const UP_TO_DATE: &[u8] = b"\0\0\0\x0c\0\0\0\0\0\0\0\x02\xff\xff\xff\xff\xff\xff\xff\xff";

/// An image of a session, a list and two nodes.
fn small_image(alloc: Global) -> Result<Vec<u8>, NoMemory> {
    joined(
        alloc,
        &[
            ONE, SESSION, ONE, READ_5, ROOT, BARE, A, OWNED, CLOSE, SIGNATURE,
        ],
    )
}

/// A SNAP packet, the image, and an UPTODATE.
fn stream(alloc: Global) -> Result<Vec<u8>, NoMemory> {
    let image = small_image(alloc)?;
    joined(alloc, &[SNAP, image.as_slice(), UP_TO_DATE])
}

// An item as two numbers: the code of its kind and its zxid, or the number of its part with its id, key or length.
fn outline(item: &Item) -> (i32, i64) {
    match item {
        Item::Packet(packet) => (packet.kind, packet.zxid),
        Item::Part(ImagePart::Session(session)) => (-1, session.id),
        Item::Part(ImagePart::Acl(entry)) => (-2, entry.key),
        Item::Part(ImagePart::Node(node)) => (-3, node.acl),
        Item::Part(ImagePart::End) => (-4, 0),
    }
}

/// The items of the stream: the SNAP, the session, the list, the root with the open list, the node with list 5, the
/// end, and the UPTODATE.
const OUTLINES: [(i32, i64); 7] = [
    (15, 1),
    (-1, 9),
    (-2, 5),
    (-3, -1),
    (-3, 5),
    (-4, 0),
    (12, 2),
];

// Takes the complete items, and appends them.
fn take_all(
    alloc: Global,
    feed: &mut PacketFeed,
    taken: &mut Vec<(i32, i64)>,
) -> Result<(), ReadError> {
    for _ in 0..u64::MAX {
        let Some(item) = feed.next(alloc)? else {
            return Ok(());
        };
        taken.push(outline(&item))?;
    }
    Ok(())
}

// The items of a stream that comes in two pieces, and the number of bytes held between them.
fn taken_in_two(
    alloc: Global,
    front: &[u8],
    rest: &[u8],
) -> Result<(Vec<(i32, i64)>, usize), ReadError> {
    let mut feed = PacketFeed::new(alloc);
    let mut taken = Vec::new(alloc);
    feed.feed(front)?;
    take_all(alloc, &mut feed, &mut taken)?;
    let held = feed.held();
    feed.feed(rest)?;
    take_all(alloc, &mut feed, &mut taken)?;
    Ok((taken, held))
}

/// However a stream is cut in two, its items are the same. Between the pieces less than one part is held; the longest
/// one is the second node, with 79 bytes.
#[test]
fn an_image_cut_at_each_byte(rt: HostRuntime) -> Result<(), Fail> {
    let bytes = stream(rt.alloc())?;
    for cut in 0..=bytes.len() {
        let (front, rest) = bytes.as_slice().split_at(cut);
        let (taken, held) = taken_in_two(rt.alloc(), front, rest)?;
        assert!(rt; taken.as_slice() == OUTLINES.as_slice(), "{cut}");
        assert!(rt; held < 79, "{cut}");
    }
    Ok(())
}

// Feeds the bytes one by one, and takes the complete items after each.
fn taken_by_bytes(
    alloc: Global,
    feed: &mut PacketFeed,
    bytes: &[u8],
) -> Result<Vec<(i32, i64)>, ReadError> {
    let mut taken = Vec::new(alloc);
    for byte in bytes {
        feed.feed(&[*byte])?;
        take_all(alloc, feed, &mut taken)?;
    }
    Ok(taken)
}

#[test]
fn an_image_byte_by_byte(rt: HostRuntime) -> Result<(), Fail> {
    let bytes = stream(rt.alloc())?;
    let mut feed = PacketFeed::new(rt.alloc());
    let taken = taken_by_bytes(rt.alloc(), &mut feed, bytes.as_slice())?;
    assert!(rt; taken.as_slice() == OUTLINES.as_slice());
    assert!(rt; feed.end().is_ok());
    assert_eq!(rt; feed.held(), 0);
    Ok(())
}

/// The bytes held after a piece: those that wait, and the path of a node that is incomplete.
#[test]
fn held_bytes(rt: HostRuntime) -> Result<(), Fail> {
    let mut feed = PacketFeed::new(rt.alloc());
    let rows: [(&[u8], usize); 9] = [
        (b"\0\0", 2),
        (
            b"\0\x0f\0\0\0\0\0\0\0\x01\xff\xff\xff\xff\xff\xff\xff\xff",
            0,
        ),
        (NONE, 0),
        (b"\0\0", 2),
        (b"\0\0", 0),
        (ROOT, 1),
        (b"\0\0\0", 4),
        (&BARE[3..], 0),
        (b"\0\0\0\x02/a\0", 3),
    ];
    for (piece, expected) in rows {
        feed.feed(piece)?;
        let mut taken = Vec::new(rt.alloc());
        take_all(rt.alloc(), &mut feed, &mut taken)?;
        assert!(rt; feed.held() == expected, "{piece:?}");
        assert!(rt; (feed.end() == Err(Fault::Short)), "{piece:?}");
    }
    Ok(())
}

/// A wrong signature ends the stream at its last byte, whatever follows.
#[test]
fn a_fault_in_an_image_stays(rt: HostRuntime) -> Result<(), Fail> {
    let mut feed = PacketFeed::new(rt.alloc());
    let bytes = joined(
        rt.alloc(),
        &[SNAP, NONE, NONE, ROOT, BARE, CLOSE, b"\0\0\0\x0aBonWasHer"],
    )?;
    let taken = taken_by_bytes(rt.alloc(), &mut feed, bytes.as_slice())?;
    assert!(rt; taken.as_slice() == [(15, 1), (-3, -1)].as_slice());
    feed.feed(b"e")?;
    for _ in 0..2 {
        let refused = feed.next(rt.alloc()).err();
        assert!(rt; refused == Some(ReadError::Fault(Fault::BadImage)));
        assert!(rt; feed.end() == Err(Fault::BadImage));
        assert_eq!(rt; feed.held(), 0);
        feed.feed(UP_TO_DATE)?;
    }
    Ok(())
}

/// An entry's id that isn't UTF-8 is refused at its last byte, however the list comes.
#[test]
fn a_list_is_refused_at_its_text(rt: HostRuntime) -> Result<(), Fail> {
    let mut feed = PacketFeed::new(rt.alloc());
    let bytes = joined(
        rt.alloc(),
        &[
            SNAP,
            NONE,
            ONE,
            b"\0\0\0\0\0\0\0\x05\0\0\0\x02\0\0\0\x01\0\0\0\x01s\0\0\0\x02i",
        ],
    )?;
    let taken = taken_by_bytes(rt.alloc(), &mut feed, bytes.as_slice())?;
    assert!(rt; taken.as_slice() == [(15, 1)].as_slice());
    // A key, a count, a number, a text of one byte, and a text that still lacks a byte.
    assert_eq!(rt; feed.held(), 8 + 4 + 4 + 5 + 5);
    feed.feed(b"\xff")?;
    let refused = feed.next(rt.alloc()).err();
    assert!(rt; refused == Some(ReadError::Fault(Fault::BadText)));
    Ok(())
}

/// An image up to the last byte of an entry's id: U+1F600 as two halves.
const HALVES: &[u8] =
    b"\0\0\0\0\0\0\0\x05\0\0\0\x01\0\0\0\x01\0\0\0\x01s\0\0\0\x06\xed\xa0\xbd\xed\xb8";

// A feed that waits for that byte.
fn waiting_for_a_half(dialect: Dialect, alloc: Global) -> Result<PacketFeed, Fail> {
    let mut feed = PacketFeed::in_dialect(dialect, alloc);
    let bytes = joined(alloc, &[SNAP, NONE, ONE, HALVES])?;
    taken_by_bytes(alloc, &mut feed, bytes.as_slice())?;
    Ok(feed)
}

// What comes with it: a list, or a fault.
fn with_the_half(dialect: Dialect, alloc: Global) -> Result<Result<Option<Item>, ReadError>, Fail> {
    let mut feed = waiting_for_a_half(dialect, alloc)?;
    feed.feed(b"\x80")?;
    Ok(feed.next(alloc))
}

/// The halves of a character are taken in a later dialect, and refused at their last byte in that of ZooKeeper 3.4.
#[test]
fn halves_in_a_list(rt: HostRuntime) -> Result<(), Fail> {
    let later = with_the_half(Dialect::Zk38, rt.alloc())?;
    assert!(rt; matches!(later, Ok(Some(Item::Part(ImagePart::Acl(_))))));
    let earlier = with_the_half(Dialect::Zk34, rt.alloc())?.err();
    assert!(rt; earlier == Some(ReadError::Fault(Fault::BadText)));
    Ok(())
}
