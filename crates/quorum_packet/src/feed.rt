//! The leader's stream, in whatever pieces it comes.

ghost use Rattle.std.specs.Prelude.{◌≡◌, ◌≤◌, ◌<◌, ◌^◌, [], IsTrue, IsOk, IfOk, IfSome, OnOk, OnErr, length, drop, is_err};
ghost use Rattle.jute.specs.Stream.{with_more_bytes, place_at};
ghost use Rattle.quorum_packet.specs.Feed.{AnswersNext, CanBeWritten, end_of, held_len, unread_len};
ghost use Rattle.quorum_packet.specs.Lending.{place_with};
ghost use Rattle.quorum_packet.specs.Unseen.{MayBeUnseen};
ghost use Rattle.quorum_packet.specs.declared.phase.Phase.TheVariants.{Packets};
ghost use Rattle.settings.specs.declared.dialect.Dialect.TheVariants.{Zk34};

use crate::item::{Item, LentItem};
use crate::lending::{LentItems, Progress, Source};
use crate::phase::Phase;
use crate::unseen::Unseen;
use settings::Dialect;
use std::alloc::Global;
use std::marker::Model;
use std::mem;
use values::{ByteQueue, Fault, NoMemory, ReadError};

/// A reader of the leader's stream. Its model is the place in the stream: the phase, which says what comes next, and
/// the unread bytes, or the fault that ended the stream.
///
/// A packet or part that is complete when it is first looked at is read at once. For an incomplete one, each piece is
/// scanned only once until all of it is in, so the work is linear in the bytes of the stream, however it is cut.
pub struct PacketFeed {
    waiting: ByteQueue,
    // `None`: the front wasn't looked at yet.
    unseen: Option<Unseen>,
    phase: Phase,
    fault: Option<Fault>,
}

impl Model for PacketFeed {
    ghost use Rattle.jute.specs.Stream.{Place};
    ghost use Rattle.quorum_packet.specs.declared.phase.Phase.{Phase};
    ghost use Rattle.quorum_packet.specs.Held.{unread_of};

    ghost Value = { Place Phase };

    ghost view = { λ f. record { phase = f.phase; unread = unread_of f.waiting f.fault } };

    ghost use Rattle.quorum_packet.specs.Unseen.{MayBeUnseen};

    ghost invariant = { λ f. MayBeUnseen f.waiting f.unseen };
}

impl Drop for PacketFeed {
    fn drop(self) {
        let PacketFeed {
            waiting,
            unseen: _,
            phase: _,
            fault: _,
        } = self;
        drop(waiting);
    }
}

impl PacketFeed {
    /// A feed of a leader of ZooKeeper 3.4. Allocates nothing.
    pub fn new(alloc: Global) -> PacketFeed
        ensures { result ≡ place_at (Packets Zk34) [] }
    {
        PacketFeed::in_dialect(Dialect::Zk34, alloc)
    }

    /// A feed of a leader of this dialect. Allocates nothing.
    pub fn in_dialect(dialect: Dialect, alloc: Global) -> PacketFeed
        ensures { result ≡ place_at (Packets dialect) [] }
    {
        PacketFeed {
            waiting: ByteQueue::new(alloc),
            unseen: None,
            phase: Phase::Packets(dialect),
            fault: None,
        }
    }

    /// Appends the next piece. After a fault the piece is dropped. A refused allocation leaves the feed as it was.
    pub fn feed(&mut self, piece: &[u8]) -> Result<(), NoMemory>
        ensures ok { OnOk result (self.new ≡ with_more_bytes self.old piece.now) }
        ensures err { OnErr result (self.new ≡ self.old) }
        ensures faulty { IsTrue (is_err self.old.unread) → IsOk result }
    {
        if self.is_faulty() {
            return Ok(());
        }
        self.waiting.add(piece)
    }

    /// Returns the next packet or part, or `None` if it isn't complete yet.
    ///
    /// A fault ends the stream, and every later call returns it again. A refused allocation loses no packet and no
    /// part, but values that only advance an image may have been taken.
    pub fn next(&mut self, alloc: Global) -> Result<Option<Item>, ReadError>
        ensures first { AnswersNext result self.old self.new }
        ensures writable { IfOk result (λ found. IfSome found CanBeWritten) }
    {
        let next_packet = Phase::Packets(self.phase.dialect());
        let progress = Progress {
            unseen: self.unseen,
            phase: mem::replace(&mut self.phase, next_packet),
            fault: self.fault,
        };
        let mut items = LentItems::new(self.waiting.as_slice(), progress);
        let found = items.next(alloc);
        let (used, progress) = items.close();
        let item = match found {
            Ok(None) => Ok(None),
            // If the copy is refused, the packet is still the next one.
            Ok(Some(LentItem::Packet(packet))) => Ok(Some(Item::Packet(packet.into_owned(alloc)?))),
            Ok(Some(LentItem::Part(part))) => Ok(Some(Item::Part(part))),
            Err(error) => Err(error),
        };
        self.waiting.drop_front(used);
        self.unseen = progress.unseen;
        self.phase = progress.phase;
        self.fault = progress.fault;
        item
    }

    /// Ends the feed for a while: its unread bytes and the next piece are read where they lie. After a fault the piece
    /// is dropped.
    pub fn open<'a>(self, piece: &'a [u8]) -> Result<(Source<'a>, Progress), NoMemory>
        ensures place { IfOk result (λ x. place_with x.1 x.0 ≡ with_more_bytes self piece.now) }
        ensures unseen { IfOk result (λ x. MayBeUnseen x.0 x.1.unseen) }
    {
        let PacketFeed {
            waiting,
            unseen,
            phase,
            fault,
        } = self;
        let source = Source::joined(waiting, piece)?;
        let progress = Progress {
            unseen,
            phase,
            fault,
        };
        Ok((source, progress))
    }

    /// The feed that goes on after the first `used` bytes of the source, which were read so far.
    pub fn resume(
        source: Source<'_>,
        used: usize,
        progress: Progress,
    ) -> Result<PacketFeed, NoMemory>
        requires within { used ≤ length source }
        requires unseen { MayBeUnseen (drop used source) progress.unseen }
        ensures { IfOk result (λ feed. feed ≡ place_with progress (drop used source.entry)) }
    {
        let waiting = source.into_rest(used)?;
        Ok(PacketFeed {
            waiting,
            unseen: progress.unseen,
            phase: progress.phase,
            fault: progress.fault,
        })
    }

    /// Whether the stream may end here. After a fault it returns that fault; `Short` if an image is awaited or
    /// incomplete, or if bytes are unread.
    pub fn end(&self) -> Result<(), Fault>
        ensures { result ≡ end_of self.now }
    {
        if let Some(fault) = self.fault {
            return Err(fault);
        }
        match self.phase {
            Phase::Image(_, _) => Err(Fault::Short),
            Phase::Packets(_) => {
                if self.waiting.is_empty() {
                    Ok(())
                } else {
                    Err(Fault::Short)
                }
            }
        }
    }

    /// The number of bytes held: the unread ones, and the path of a node that is incomplete. After a `next` that
    /// returned `None` they are fewer than those of one value of the stream.
    pub fn held(&self) -> usize
        ensures { result ≡ held_len self.now }
    {
        self.phase.kept_len() + self.unread_len()
    }

    // The number of unread bytes; 0 after a fault.
    fn unread_len(&self) -> usize
        ensures len { result ≡ unread_len self.now.unread }
        ensures fits { result < 2 ^ 63 }
    {
        if self.fault.is_some() {
            return 0;
        }
        self.waiting.as_slice().len()
    }

    /// Whether a fault has ended the stream.
    pub fn is_faulty(&self) -> bool
        ensures { result ≡ is_err self.now.unread }
    {
        self.fault.is_some()
    }
}
