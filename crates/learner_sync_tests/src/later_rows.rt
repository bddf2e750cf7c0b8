//! Packets of a leader of ZooKeeper 3.5 to 3.9, as it writes them, in both dialects.

use crate::steps::{follow, greeted_in, packet};
use learner_sync::{Act, Learner};
use quorum_packet::{Item, PacketFeed, PacketKind};
use settings::Dialect;
use std::alloc::Global;
use std::test::Fail;
use values::ReadError;

// A row has a name, a packet, and what comes of it in the later dialect and in that of ZooKeeper 3.4. Most transactions
// are of session 7 at 1000, with the zxid 0x100000001.
const SERVED: &str = "\
a digest behind a create | 00000008 0000000100000001 00000058 0000000000000007 00000001 0000000100000001 00000000000003e8 00000001 00000002 2f61 00000002 6869 00000001 0000001f 00000005 776f726c64 00000006 616e796f6e65 00 00000001 00000002 0000000051c6d660 ffffffff | applied 1 | TrailingBytes
a create2 of a recording | 00000008 0000000100000003 00000059 0200001b78f10000 00000002 0000000100000003 000001a21ad574c6 0000000f 00000003 2f7032 00000002 5032 00000001 0000001f 00000005 776f726c64 00000006 616e796f6e65 00 00000002 00000002 0000000283c3b12e ffffffff | applied 3 | BadTxnType
a reconfig | 00000013 0000000100000001 000000d5 0000000000000001 0000000000000007 00000001 0000000100000001 00000000000003e8 00000010 00000011 2f7a6f6f6b65657065722f636f6e666967 00000084 7365727665722e313d3132372e302e302e313a33313039383a33313039313a7061727469636970616e743b3132372e302e302e313a33313031310a7365727665722e323d3132372e302e302e313a33313038323a33313039323a6f627365727665723b3132372e302e302e313a33313031320a76657273696f6e3d313030303030303032 ffffffff 00000002 0000000051c6d660 ffffffff | applied 1 | passed
a reconfig, and seven bytes of the server | 00000013 0000000100000001 00000007 00000000000000 ffffffff | Short | passed
a reconfig, and the server alone | 00000013 0000000100000001 00000008 0000000000000001 ffffffff | Short | passed
a reconfig without data | 00000013 0000000100000001 ffffffff ffffffff | Short | passed
a multi that failed | 00000008 0000000100000002 00000092 0000000000000007 00000002 0000000100000002 00000000000007d0 0000000e 00000004 ffffffff 0000002a 00000002 2f7a 00000000 00000001 0000001f 00000005 776f726c64 00000006 616e796f6e65 00 00000002 ffffffff 00000010 00000002 2f61 00000002 6e6f 00000001 ffffffff 00000004 ffffff99 ffffffff 00000004 fffffffe 00000002 0000000051c6d660 ffffffff | applied 2 | TrailingBytes
a commit of a reconfig | 00000009 0000000100000001 00000008 0000000000000001 ffffffff | passed | passed
a session that lives | 00000006 ffffffffffffffff 00000009 0100001c0fff0000 01 ffffffff | 72057714565382144 true | passed
a session that has ended | 00000006 ffffffffffffffff 00000009 0100001c0fff0000 00 ffffffff | 72057714565382144 false | passed
any other byte, and one more | 00000006 ffffffffffffffff 0000000a 0100001c0fff0000 ff00 ffffffff | 72057714565382144 true | passed
an answer of eight bytes | 00000006 ffffffffffffffff 00000008 0100001c0fff0000 ffffffff | Short | passed
an answer of seven bytes | 00000006 ffffffffffffffff 00000007 0100001c0fff00 ffffffff | Short | passed
an answer without data | 00000006 ffffffffffffffff ffffffff ffffffff | Short | passed
an unknown packet | 00000014 0000000100000001 ffffffff ffffffff | passed | passed";

// What comes in a DIFF, in this order.
const PROPOSED: &str = "\
a proposal of a reconfig | 00000002 0000000100000001 000000cd 0000000000000007 00000001 0000000100000001 00000000000003e8 00000010 00000011 2f7a6f6f6b65657065722f636f6e666967 00000084 7365727665722e313d3132372e302e302e313a33313039383a33313039313a7061727469636970616e743b3132372e302e302e313a33313031310a7365727665722e323d3132372e302e302e313a33313038323a33313039323a6f627365727665723b3132372e302e302e313a33313031320a76657273696f6e3d313030303030303032 ffffffff 00000002 0000000051c6d660 ffffffff | passed | BadTxnType
its commit | 00000009 0000000100000001 00000008 0000000000000001 ffffffff | applied 1 | passed
the same commit again | 00000009 0000000100000001 00000008 0000000000000001 ffffffff | CommitMismatch | passed
an answer for a session | 00000006 ffffffffffffffff 00000009 0100001c0fff0000 01 ffffffff | passed | passed
an answer of eight bytes | 00000006 ffffffffffffffff 00000008 0100001c0fff0000 ffffffff | passed | passed";

// A leader that has named its epoch has to say next how it brings the learner up to date.
const EARLY: &str = "\
a reconfig without data | 00000013 0000000100000001 ffffffff ffffffff | UnexpectedPacket | UnexpectedPacket
a commit of a reconfig | 00000009 0000000100000001 ffffffff ffffffff | UnexpectedPacket | UnexpectedPacket
an answer for a session | 00000006 ffffffffffffffff 00000009 0100001c0fff0000 01 ffffffff | UnexpectedPacket | UnexpectedPacket";

// The packet that these hexadecimal words are.
fn packet_of(alloc: Global, words: &str) -> Result<Item, Fail> {
    let mut bytes = Vec::new(alloc);
    for word in words.split(' ') {
        bytes.extend_from_slice(&hex::decode(alloc, word)?)?;
    }
    let mut feed = PacketFeed::new(alloc);
    feed.feed(&bytes)?;
    Ok(feed.next(alloc)?.ok_or("a packet")?)
}

// What comes of an item: that it was passed over, the counter of the transaction that was applied, the answer for a
// session, or the fault.
fn told(
    alloc: Global,
    learner: &Learner,
    acts: Result<Vec<Act>, ReadError>,
) -> Result<String, Fail> {
    let acts = match acts {
        Ok(acts) => acts,
        Err(error) => return Ok(format!(in alloc; "{error}")?),
    };
    match acts.as_slice() {
        [] => Ok(String::from_str(alloc, "passed")?),
        [Act::Apply] => {
            let counter = learner.last_zxid() & 0xffff_ffff;
            Ok(format!(in alloc; "applied {counter}")?)
        }
        [Act::Revalidated { session, is_valid }] => {
            Ok(format!(in alloc; "{session} {is_valid}")?)
        }
        _ => Err("other acts".into()),
    }
}

// Whether the learner does with a row's packet what the column of the dialect says.
fn is_so(alloc: Global, dialect: Dialect, learner: &mut Learner, line: &str) -> Result<bool, Fail> {
    let mut fields = line.split(" | ").skip(1);
    let item = packet_of(alloc, fields.next().ok_or("a packet")?)?;
    let later = fields.next().ok_or("the later dialect")?;
    let earlier = fields.next().ok_or("the earlier dialect")?;
    let acts = follow(alloc, learner, item);
    let expected = match dialect {
        Dialect::Zk34 => earlier,
        Dialect::Zk38 => later,
    };
    Ok(told(alloc, learner, acts)?.as_str() == expected)
}

// Whether a learner that serves does what a row says.
fn is_served(alloc: Global, dialect: Dialect, line: &str) -> Result<bool, Fail> {
    let mut learner = Learner::primed(alloc, dialect);
    is_so(alloc, dialect, &mut learner, line)
}

#[test]
fn packets_are_served(rt: HostRuntime) -> Result<(), Fail> {
    for line in SERVED.lines() {
        assert!(rt; is_served(rt.alloc(), Dialect::Zk38, line)?, "{line}");
        assert!(rt; is_served(rt.alloc(), Dialect::Zk34, line)?, "{line}");
    }
    Ok(())
}

// A learner that is brought up to date by a DIFF.
fn with_diff(alloc: Global, dialect: Dialect) -> Result<Learner, ReadError> {
    let mut learner = greeted_in(dialect, alloc)?;
    follow(alloc, &mut learner, packet(PacketKind::Diff, 0, None))?;
    Ok(learner)
}

#[test]
fn a_diff_commits_a_reconfig(rt: HostRuntime) -> Result<(), Fail> {
    let mut later = with_diff(rt.alloc(), Dialect::Zk38)?;
    let mut earlier = with_diff(rt.alloc(), Dialect::Zk34)?;
    for line in PROPOSED.lines() {
        assert!(rt;
            is_so(rt.alloc(), Dialect::Zk38, &mut later, line)?,
            "{line}"
        );
        assert!(rt;
            is_so(rt.alloc(), Dialect::Zk34, &mut earlier, line)?,
            "{line}"
        );
    }
    assert!(rt; later.dialect() == Dialect::Zk38 && earlier.dialect() == Dialect::Zk34);
    Ok(())
}

#[test]
fn some_packets_come_too_early(rt: HostRuntime) -> Result<(), Fail> {
    let mut later = greeted_in(Dialect::Zk38, rt.alloc())?;
    let mut earlier = greeted_in(Dialect::Zk34, rt.alloc())?;
    for line in EARLY.lines() {
        assert!(rt;
            is_so(rt.alloc(), Dialect::Zk38, &mut later, line)?,
            "{line}"
        );
        assert!(rt;
            is_so(rt.alloc(), Dialect::Zk34, &mut earlier, line)?,
            "{line}"
        );
    }
    Ok(())
}
