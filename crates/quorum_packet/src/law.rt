//! Laws of the leader's stream.

ghost use Rattle.std.specs.Prelude.{◌≡◌, Bool, ℕ, List};
ghost use Rattle.settings.specs.declared.dialect.Dialect.{Dialect};
ghost use Rattle.jute.specs.Laws.{IsBytes, IsSound};
ghost use Rattle.jute.specs.Relation.{AreItems};
ghost use Rattle.jute.specs.Stream.{ComesInPieces, Items, Place, with_more_bytes, items_in, joined_items, place_at};
ghost use Rattle.quorum_packet.specs.GroupedItems.{ItemsAreInOrder, PacketsAreGrouped, PiecesAreGrouped};
ghost use Rattle.quorum_packet.specs.Items.{FoundValue, stream_of_leader, items_shown_at};
ghost use Rattle.quorum_packet.specs.Packet.{packet_format};
ghost use Rattle.quorum_packet.specs.WholeItems.{WholeItem, whole_items};
ghost use Rattle.quorum_packet.specs.declared.phase.Phase.{Phase};

/// A packet is read exactly if the bytes spell one, and a refusal names the first field that no bytes at its place
/// spell. The values of a stream, packets and the values of images, are the longest list whose concatenated spellings
/// are a prefix of its bytes, however the bytes are cut. So are the items among them.
pub fn leader_stream()
    ensures packet { IsSound packet_format }
    ensures pieces { ComesInPieces stream_of_leader }
    ensures shown { (place : Place Phase) (more : List ℕ)
        → items_shown_at (with_more_bytes place more)
        ≡ joined_items (items_shown_at place) (items_shown_at (with_more_bytes (items_shown_at place).left more)) }
    ensures found { (phase : Phase) (bytes : List ℕ) → IsBytes bytes
        → AreItems stream_of_leader phase bytes (items_in stream_of_leader (place_at phase bytes)) }
    ensures alone { (phase : Phase) (bytes : List ℕ) (i : Items Phase FoundValue)
        → AreItems stream_of_leader phase bytes i → items_in stream_of_leader (place_at phase bytes) ≡ i }
{}

/// The packets and whole images of a stream in each dialect are the longest list whose concatenated spellings are a
/// prefix of its bytes, however they are cut. An image comes first exactly if one is owed, and directly after each SNAP
/// packet.
pub fn whole_items()
    ensures pieces { (dialect : Dialect) → ComesInPieces (whole_items dialect) }
    ensures found { (dialect : Dialect) (owed : Bool) (bytes : List ℕ) → IsBytes bytes
        → AreItems (whole_items dialect) owed bytes (items_in (whole_items dialect) (place_at owed bytes)) }
    ensures alone { (dialect : Dialect) (owed : Bool) (bytes : List ℕ) (i : Items Bool WholeItem)
        → AreItems (whole_items dialect) owed bytes i
        → items_in (whole_items dialect) (place_at owed bytes) ≡ i }
{}

/// The packets and parts of a stream, grouped, are its packets and whole images, in each dialect: the parts are loaded
/// one after another, with nothing loaded at first, and the end of an image gives the state that they made. The same
/// bytes are left after them, or the same fault; a part that is refused has the fault of its image. This holds where a
/// packet comes next, and at any place of the stream when further bytes come. Parts come exactly where an image is owed.
pub fn grouped_items()
    ensures packets { PacketsAreGrouped }
    ensures pieces { PiecesAreGrouped }
    ensures order { ItemsAreInOrder }
{}
