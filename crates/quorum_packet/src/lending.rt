//! The items of a leader's stream, read where their bytes lie.

ghost use Rattle.std.specs.Prelude.{◌≡◌, ◌≤◌, ◌++◌, length, drop, IfOk, IfSome};
ghost use Rattle.quorum_packet.specs.Feed.{AnswersNext};
ghost use Rattle.quorum_packet.specs.Items.{phase_after_packet};
ghost use Rattle.quorum_packet.specs.Lending.{CanBeWrittenOwned, owned_answer, place_with};
ghost use Rattle.quorum_packet.specs.Steps.{FindsItem, ReadsFront, RefusesNext, IsStepResult, item_of_step};
ghost use Rattle.quorum_packet.specs.Unseen.{MayBeUnseen};

use crate::item::LentItem;
use crate::packet::Packet;
use crate::phase::Phase;
use crate::unseen::{Unseen, scan_new_bytes};
use jute::{ReadRecord, Reader};
use settings::Dialect;
use snapshot_codec::{PartPhase, read_part};
use std::alloc::Global;
use std::marker::Model;
use values::{ByteQueue, Fault, NoMemory, ReadError};

/// How far a leader's stream was read, apart from its bytes.
#[derive(Drop)]
pub struct Progress {
    // `None`: the front wasn't looked at yet.
    pub(crate) unseen: Option<Unseen>,
    pub(crate) phase: Phase,
    pub(crate) fault: Option<Fault>,
}

/// The unread bytes of a leader's stream: a piece where it lies or, if bytes waited for it, the queue that it was added
/// to. Its model is the bytes.
#[derive(Drop)]
pub struct Source<'a> {
    pub(crate) queue: ByteQueue,
    pub(crate) piece: &'a [u8],
}

impl<'a> Model for Source<'a> {
    ghost use Rattle.std.specs.Prelude.{List, ℕ};
    ghost use Rattle.quorum_packet.specs.Lending.{bytes_of_source};

    ghost Value = { List ℕ };

    ghost view = { λ s. bytes_of_source s.queue s.piece.now };
}

impl<'a> Source<'a> {
    // The bytes of the queue, and then the piece. The piece stays where it is if there is nothing before it.
    #[tactic(auto, using(crate::proofs::Owning::bytes_first, crate::proofs::Owning::bytes_added))]
    pub(crate) fn joined(queue: ByteQueue, piece: &'a [u8]) -> Result<Source<'a>, NoMemory>
        ensures { IfOk result (λ source. source ≡ queue ++ piece.now) }
    {
        if queue.is_empty() {
            return Ok(Source { queue, piece });
        }
        let mut waiting = queue;
        waiting.add(piece)?;
        Ok(Source {
            queue: waiting,
            piece,
        })
    }

    /// Returns the unread bytes, where they lie.
    #[tactic(auto, using(crate::proofs::Owning::bytes_alone, crate::proofs::Owning::bytes_queued))]
    pub fn as_slice(&self) -> &[u8]
        ensures { result.now ≡ self.now }
    {
        if self.queue.is_empty() {
            self.piece
        } else {
            self.queue.as_slice()
        }
    }

    // The bytes after the first `used` ones, in a queue.
    #[tactic(auto, using(crate::proofs::Owning::bytes_alone, crate::proofs::Owning::bytes_queued))]
    pub(crate) fn into_rest(self, used: usize) -> Result<ByteQueue, NoMemory>
        requires { used ≤ length self }
        ensures { IfOk result (λ rest. rest ≡ drop used self.entry) }
    {
        let mut rest = self.queue;
        if rest.is_empty() {
            rest.add(&self.piece[used..])?;
        } else {
            rest.drop_front(used);
        }
        Ok(rest)
    }
}

fn phase_after_packet(dialect: Dialect, packet: &Packet<'_>) -> Phase
    ensures { result ≡ phase_after_packet dialect packet.now }
{
    if packet.is_snap() {
        Phase::Image(dialect, PartPhase::SessionCount)
    } else {
        Phase::Packets(dialect)
    }
}

// Reads the value at the reader's place, and moves the phase on. A value that only advances an image is `None`.
fn read_found<'a>(
    alloc: Global,
    phase: &mut Phase,
    reader: &mut Reader<'a>,
) -> Result<Option<LentItem<'a>>, ReadError>
    ensures { FindsItem result phase.old phase.new reader.old reader.new }
{
    match phase {
        Phase::Packets(dialect) => {
            let dialect = *dialect;
            let packet = Packet::read(alloc, reader)?;
            *phase = phase_after_packet(dialect, &packet);
            Ok(Some(LentItem::Packet(packet)))
        }
        Phase::Image(dialect, parts) => {
            let dialect = *dialect;
            match read_part(dialect, alloc, parts, reader)? {
                None => Ok(None),
                Some(part) => {
                    if part.is_end() {
                        *phase = Phase::Packets(dialect);
                        return Ok(Some(LentItem::Part(part)));
                    }
                    Ok(Some(LentItem::Part(part)))
                }
            }
        }
    }
}

// Reads the value at the front of the bytes, and returns the bytes that it takes.
fn read_front<'a>(
    alloc: Global,
    phase: &mut Phase,
    bytes: &'a [u8],
) -> Result<(Option<LentItem<'a>>, usize), ReadError>
    ensures front { ReadsFront result phase.old phase.new bytes.now }
    ensures writable { IfOk result (λ x. IfSome x.0 CanBeWrittenOwned) }
{
    let mut ahead = Reader::new(bytes);
    let found = read_found(alloc, phase, &mut ahead)?;
    let left = ahead.rest().len();
    Ok((found, bytes.len() - left))
}

/// The result of a step.
#[derive(Drop)]
pub(crate) enum Step<'a> {
    /// There are too few bytes for a value.
    Nothing,
    /// A value that only advances an image.
    Hidden,
    Shown(LentItem<'a>),
}

/// A reader of a leader's stream that lends each packet from the bytes that it reads. Its model is those bytes, and the
/// place in the stream.
#[derive(Drop)]
pub struct LentItems<'a> {
    source: &'a [u8],
    // The number of bytes that were read.
    used: usize,
    progress: Progress,
}

impl<'a> Model for LentItems<'a> {
    ghost use Rattle.std.specs.Prelude.{◌≤◌, length, drop};
    ghost use Rattle.quorum_packet.specs.Lending.{Lent, place_with};
    ghost use Rattle.quorum_packet.specs.Unseen.{MayBeUnseen};

    ghost Value = { Lent };

    ghost view = { λ i. record { source = i.source.now; place = place_with i.progress (drop i.used i.source.now) } };

    ghost invariant = { λ i. (i.used ≤ length i.source.now) × MayBeUnseen (drop i.used i.source.now) i.progress.unseen };
}

impl<'a> LentItems<'a> {
    pub fn new(source: &'a [u8], progress: Progress) -> LentItems<'a>
        requires { MayBeUnseen source.now progress.unseen }
        ensures { result ≡ record { source = source.now; place = place_with progress source.now } }
    {
        LentItems {
            source,
            used: 0,
            progress,
        }
    }

    /// Returns the next packet or part, or `None` if it isn't complete yet.
    ///
    /// A fault ends the stream, and every later call returns it again. A refused allocation loses no packet and no
    /// part, but values that only advance an image may have been taken.
    pub fn next(&mut self, alloc: Global) -> Result<Option<LentItem<'a>>, ReadError>
        ensures source { self.new.source ≡ self.old.source }
        ensures first { AnswersNext (owned_answer result) self.old.place self.new.place }
        ensures writable { IfOk result (λ found. IfSome found CanBeWrittenOwned) }
    {
        loop {
            match self.step(alloc) {
                Ok(Step::Nothing) => return Ok(None),
                Ok(Step::Hidden) => {}
                Ok(Step::Shown(item)) => return Ok(Some(item)),
                Err(error) => return Err(error),
            }
        }
    }

    // Takes the next value, whether it is an item or not.
    fn step(&mut self, alloc: Global) -> Result<Step<'a>, ReadError>
        ensures source { self.new.source ≡ self.old.source }
        ensures steps { IsStepResult result self.old.place self.new.place }
        ensures writable { IfSome (item_of_step result) CanBeWrittenOwned }
    {
        if let Some(fault) = self.progress.fault {
            return Err(ReadError::Fault(fault));
        }
        let bytes = &self.source[self.used..];
        if let Err(fault) = scan_new_bytes(&self.progress.phase, bytes, &mut self.progress.unseen) {
            return self.refuse(fault);
        }
        match read_front(alloc, &mut self.progress.phase, bytes) {
            Ok((found, used)) => {
                self.used += used;
                self.progress.unseen = None;
                match found {
                    None => Ok(Step::Hidden),
                    Some(item) => Ok(Step::Shown(item)),
                }
            }
            Err(ReadError::NoMemory) => Err(ReadError::NoMemory),
            Err(ReadError::Fault(fault)) => {
                self.progress.unseen = Some(Unseen::Whole);
                self.refuse(fault)
            }
        }
    }

    // Too few bytes wait for more. Any other refusal ends the stream, and the bytes are dropped.
    fn refuse(&mut self, fault: Fault) -> Result<Step<'a>, ReadError>
        requires { RefusesNext self.old.place fault }
        ensures source { self.new.source ≡ self.old.source }
        ensures steps { IsStepResult result self.old.place self.new.place }
        ensures none { IfSome (item_of_step result) CanBeWrittenOwned }
    {
        match fault {
            Fault::Short => Ok(Step::Nothing),
            refusal => {
                self.used = self.source.len();
                self.progress.unseen = None;
                self.progress.fault = Some(refusal);
                Err(ReadError::Fault(refusal))
            }
        }
    }

    /// Ends the reading. Returns the number of bytes that were read, and how far the stream was read by them.
    pub fn close(self) -> (usize, Progress)
        ensures within { result.0 ≤ length self.entry.source }
        ensures place { place_with result.1 (drop result.0 self.entry.source) ≡ self.entry.place }
        ensures unseen { MayBeUnseen (drop result.0 self.entry.source) result.1.unseen }
    {
        (self.used, self.progress)
    }
}
