//! Values, faults and the queue of bytes.

use std::alloc::Global;
use std::test::Fail;
use values::{Blob, ByteQueue, Bytes, Fault, Listed, NoMemory, ReadError, Text};

// Whether bytes are copied, and are the same when they are moved in.
fn are_bytes_kept(alloc: Global) -> Result<bool, Fail> {
    let blob = Blob::new(alloc, b"hi")?;
    let moved = Blob::from_vec(b"hi".to_vec(alloc)?);
    Ok(blob.as_slice() == b"hi".as_slice() && blob == moved)
}

// Whether bytes become a copy of others, of the same length and of a greater one.
fn are_bytes_copied(alloc: Global) -> Result<bool, NoMemory> {
    let mut blob = Blob::new(alloc, b"hi")?;
    blob.copy_from(&Blob::new(alloc, b"ho")?)?;
    let as_many = blob.as_slice() == b"ho".as_slice();
    blob.copy_from(&Blob::new(alloc, b"hello")?)?;
    Ok(as_many && blob.as_slice() == b"hello".as_slice())
}

// Whether a text is copied, and isn't equal to another.
fn is_text_kept(alloc: Global) -> Result<bool, NoMemory> {
    let text = Text::new(alloc, "/a")?;
    let other = Text::new(alloc, "/b")?;
    Ok(text.as_str() == "/a" && text != other)
}

// Whether a list returns what it was made from, and isn't equal to a prefix of it.
fn is_list_kept(alloc: Global) -> Result<bool, Fail> {
    let listed = Listed::from_vec([1u8, 2].to_vec(alloc)?);
    let is_front = listed == Listed::from_vec([1u8].to_vec(alloc)?);
    Ok(!is_front && listed.into_vec().as_slice() == [1u8, 2].as_slice())
}

#[test]
fn values_hold_what_they_are_given(rt: HostRuntime) -> Result<(), Fail> {
    assert!(rt; Bytes::new(b"hi").as_slice() == b"hi".as_slice());
    assert!(rt; are_bytes_kept(rt.alloc())?);
    assert!(rt; are_bytes_copied(rt.alloc())?);
    assert!(rt; is_text_kept(rt.alloc())?);
    assert!(rt; is_list_kept(rt.alloc())?);
    Ok(())
}

// Each fault, by its number, with its word.
fn faults() -> [(u8, Fault, &'static str); 12] {
    [
        (1, Fault::Short, "Short"),
        (2, Fault::BadLength, "BadLength"),
        (3, Fault::BadText, "BadText"),
        (4, Fault::BadPath, "BadPath"),
        (5, Fault::BadTxnType, "BadTxnType"),
        (6, Fault::TrailingBytes, "TrailingBytes"),
        (7, Fault::OutOfOrder, "OutOfOrder"),
        (8, Fault::CommitMismatch, "CommitMismatch"),
        (9, Fault::CannotTruncate, "CannotTruncate"),
        (10, Fault::BadImage, "BadImage"),
        (11, Fault::EpochTooSmall, "EpochTooSmall"),
        (12, Fault::UnexpectedPacket, "UnexpectedPacket"),
    ]
}

// The fault as it is printed, by itself and as the reason of a refusal.
fn shown(alloc: Global, fault: Fault) -> Result<String, Fail> {
    Ok(format!(in alloc; "{fault} {}", ReadError::from(fault))?)
}

#[test]
fn faults_have_words_and_numbers(rt: HostRuntime) -> Result<(), Fail> {
    for (number, fault, word) in faults() {
        assert_eq!(rt; fault.number(), number);
        let text = shown(rt.alloc(), fault)?;
        assert_eq!(rt; text.as_str().split_once(' '), Some((word, word)));
    }
    Ok(())
}

#[test]
fn bytes_wait_in_their_order(rt: HostRuntime) -> Result<(), Fail> {
    let mut queue = ByteQueue::new(rt.alloc());
    assert!(rt; queue.is_empty());
    queue.add(b"abc")?;
    queue.add(b"defg")?;
    assert!(rt; queue.len() == 7);
    queue.drop_front(2);
    assert!(rt; queue.as_slice() == b"cdefg".as_slice());
    queue.drop_front(3);
    queue.add(b"h")?;
    assert!(rt; queue.as_slice() == b"fgh".as_slice());
    queue.drop_front(3);
    assert!(rt; queue.is_empty());
    Ok(())
}
