//! The part of an incomplete value that wasn't scanned yet, so that no byte is scanned again for each piece.

ghost use Rattle.std.specs.Prelude.{◌≡◌, ◌<◌, Err, IfOk, IfErr, IfSome, OnOk, drop, is_some};
ghost use Rattle.jute.specs.Format.{text_or_empty};
ghost use Rattle.quorum_packet.specs.Items.{found_format};
ghost use Rattle.quorum_packet.specs.Packet.{packet_format};
ghost use Rattle.quorum_packet.specs.Unseen.{AreUnseen, AreUnseenEntries, IsUnseen, MayBeUnseen, acl_list, texts_left};
ghost use Rattle.quorum_packet.specs.Unseen.{IsAllSeen, IsPacketSeen, IsListSeen, packet_fields, list_fields};
ghost use Rattle.quorum_packet.specs.Unseen.{StopsAt, PacketStopsAt, ListStopsAt, EntryStopsAt};

use crate::phase::Phase;
use jute::{Reader, read_name, read_name_in};
use snapshot_codec::PartPhase;
use values::Fault;

/// The texts of a packet's authinfo that weren't scanned: the place of the first one, and their number.
#[derive(Clone, Copy, Debug)]
pub struct Texts {
    start: usize,
    count: u64,
}

/// The entries of an ACL list that weren't scanned: the place of the first one, their number, whether the first one was
/// scanned up to its id, and whether surrogates may stand in their texts.
#[derive(Clone, Copy, Debug)]
pub struct Entries {
    start: usize,
    count: u32,
    scheme_seen: bool,
    surrogates: bool,
}

/// The part that wasn't scanned of a value that was found incomplete.
#[derive(Clone, Copy, Debug)]
pub enum Unseen {
    /// All of it.
    Whole,
    /// Some texts of a packet, after its other fields.
    Texts(Texts),
    /// Some entries of an ACL list, after its other fields.
    Entries(Entries),
}

// Scans the fields before the texts.
#[tactic(auto, unfolding(crate::specs::Packet::packet_format, jute::specs::Format::vector_at))]
fn scan_fields(bytes: &[u8]) -> Result<Texts, Fault>
    ensures ok { IfOk result (AreUnseen bytes.now) }
    ensures err { IfErr result (λ e. packet_format.read bytes.now ≡ Err e) }
    ensures stops { IfErr result (λ e. packet_fields.read bytes.now ≡ Err e) }
{
    let mut ahead = Reader::new(bytes);
    ahead.read_int()?;
    ahead.read_long()?;
    ahead.read_buffer()?;
    let ids = ahead.read_count()?.unwrap_or(0);
    Ok(Texts {
        start: bytes.len() - ahead.rest().len(),
        count: 2 * u64::from(ids),
    })
}

// Scans the complete texts.
fn scan_texts(bytes: &[u8], texts: &mut Texts) -> Result<(), Fault>
    requires { AreUnseen bytes.now texts.old }
    ensures kept { AreUnseen bytes.now texts.new }
    ensures seen { OnOk result (texts.new.count ≡ 0) }
    ensures err { IfErr result (λ e. packet_format.read bytes.now ≡ Err e) }
    ensures stops { IfErr result (λ e. text_or_empty.read (drop texts.new.start bytes.now) ≡ Err e) }
{
    let mut ahead = Reader::new(&bytes[texts.start..]);
    while texts.count > 0 {
        read_name(&mut ahead)?;
        texts.start = bytes.len() - ahead.rest().len();
        texts.count -= 1;
    }
    Ok(())
}

// Scans the available bytes of the packet at the front. Returns the packet's refusal, if there is one.
fn scan_packet(bytes: &[u8], unseen: &mut Unseen) -> Result<(), Fault>
    requires { IsUnseen bytes.now unseen.old }
    ensures kept { IsUnseen bytes.now unseen.new }
    ensures seen { OnOk result (IsPacketSeen unseen.new) }
    ensures err { IfErr result (λ e. packet_format.read bytes.now ≡ Err e) }
    ensures stops { IfErr result (PacketStopsAt bytes.now unseen.new) }
{
    let mut texts = match *unseen {
        Unseen::Texts(texts) => texts,
        _ => {
            *unseen = Unseen::Whole;
            scan_fields(bytes)?
        }
    };
    let looked = scan_texts(bytes, &mut texts);
    *unseen = Unseen::Texts(texts);
    looked
}

// Scans the fields before the entries.
#[tactic(auto, unfolding(jute::specs::Format::vector_at))]
fn scan_list_fields(surrogates: bool, bytes: &[u8]) -> Result<Entries, Fault>
    ensures ok { IfOk result (AreUnseenEntries bytes.now) }
    ensures same { IfOk result (λ entries. entries.surrogates ≡ surrogates) }
    ensures err { IfErr result (λ e. (acl_list surrogates).read bytes.now ≡ Err e) }
    ensures stops { IfErr result (λ e. list_fields.read bytes.now ≡ Err e) }
{
    let mut ahead = Reader::new(bytes);
    ahead.read_long()?;
    let count = ahead.read_count()?.unwrap_or(0);
    Ok(Entries {
        start: bytes.len() - ahead.rest().len(),
        count,
        scheme_seen: false,
        surrogates,
    })
}

// Scans the next text of the entries, and the number before a scheme.
fn scan_entry(bytes: &[u8], entries: &mut Entries) -> Result<(), Fault>
    requires unseen { AreUnseenEntries bytes.now entries.old }
    requires some { 0 < entries.old.count }
    ensures kept { AreUnseenEntries bytes.now entries.new }
    ensures same { entries.new.surrogates ≡ entries.old.surrogates }
    ensures less { OnOk result (texts_left entries.new < texts_left entries.old) }
    ensures err { IfErr result (λ e. (acl_list entries.old.surrogates).read bytes.now ≡ Err e) }
    ensures stops { IfErr result (λ e.
        EntryStopsAt entries.old.surrogates entries.new.scheme_seen (drop entries.new.start bytes.now) e) }
{
    let mut ahead = Reader::new(&bytes[entries.start..]);
    let surrogates = entries.surrogates;
    if entries.scheme_seen {
        read_name_in(surrogates, &mut ahead)?;
        *entries = Entries {
            start: bytes.len() - ahead.rest().len(),
            count: entries.count - 1,
            scheme_seen: false,
            surrogates,
        };
        return Ok(());
    }
    ahead.read_int()?;
    read_name_in(surrogates, &mut ahead)?;
    *entries = Entries {
        start: bytes.len() - ahead.rest().len(),
        count: entries.count,
        scheme_seen: true,
        surrogates,
    };
    Ok(())
}

// Scans the complete entries.
fn scan_entries(bytes: &[u8], entries: &mut Entries) -> Result<(), Fault>
    requires { AreUnseenEntries bytes.now entries.old }
    ensures kept { AreUnseenEntries bytes.now entries.new }
    ensures same { entries.new.surrogates ≡ entries.old.surrogates }
    ensures seen { OnOk result (entries.new.count ≡ 0) }
    ensures err { IfErr result (λ e. (acl_list entries.old.surrogates).read bytes.now ≡ Err e) }
    ensures stops { IfErr result (λ e.
        EntryStopsAt entries.old.surrogates entries.new.scheme_seen (drop entries.new.start bytes.now) e) }
{
    while entries.count > 0 {
        scan_entry(bytes, entries)?;
    }
    Ok(())
}

// Scans the available bytes of the ACL list at the front. Returns the list's refusal, if there is one.
fn scan_list(surrogates: bool, bytes: &[u8], unseen: &mut Unseen) -> Result<(), Fault>
    requires { IsUnseen bytes.now unseen.old }
    ensures kept { IsUnseen bytes.now unseen.new }
    ensures seen { OnOk result (IsListSeen unseen.new) }
    ensures err { IfErr result (λ e. (acl_list surrogates).read bytes.now ≡ Err e) }
    ensures stops { IfErr result (ListStopsAt surrogates bytes.now unseen.new) }
{
    let mut entries = match *unseen {
        Unseen::Entries(entries) if entries.surrogates == surrogates => entries,
        _ => {
            *unseen = Unseen::Whole;
            scan_list_fields(surrogates, bytes)?
        }
    };
    let looked = scan_entries(bytes, &mut entries);
    *unseen = Unseen::Entries(entries);
    looked
}

/// Scans the new bytes of the value at the front, if it was looked at before, and notes up to where. Returns its
/// refusal, if there is one.
#[tactic(auto, unfolding(jute::specs::Format::judged_at))]
pub(crate) fn scan_new_bytes(
    phase: &Phase,
    bytes: &[u8],
    unseen: &mut Option<Unseen>,
) -> Result<(), Fault>
    requires { MayBeUnseen bytes.now unseen.old }
    ensures kept { MayBeUnseen bytes.now unseen.new }
    ensures noted { is_some unseen.new ≡ is_some unseen.old }
    ensures seen { OnOk result (IfSome unseen.new (IsAllSeen phase.now)) }
    ensures err { IfErr result (λ e. (found_format phase.now).read bytes.now ≡ Err e) }
    ensures stops { IfErr result (λ e. IfSome unseen.new (λ u. StopsAt phase.now bytes.now u e)) }
{
    let Some(unseen) = unseen else {
        return Ok(());
    };
    match phase {
        Phase::Packets(_) => scan_packet(bytes, unseen),
        Phase::Image(dialect, PartPhase::Acls(_)) => {
            scan_list(dialect.reads().surrogates, bytes, unseen)
        }
        _ => Ok(()),
    }
}
