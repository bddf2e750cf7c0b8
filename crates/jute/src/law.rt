//! Laws of the formats, and of the streams of one.

ghost use Rattle.jute.specs.Format.{int, long, boolean, buffer, text_format, text_or_empty, vector_of};
ghost use Rattle.jute.specs.Frame.{frame_format};
ghost use Rattle.jute.specs.Laws.{IsBytes, IsSound};
ghost use Rattle.jute.specs.Owned.{id_format, acl_in, acl_format};
ghost use Rattle.jute.specs.Records.{stat_format, stat_persisted, request_header, reply_header};
ghost use Rattle.jute.specs.Relation.{AreItems};
ghost use Rattle.jute.specs.Stream.{IsStreamable, ComesInPieces, stream_of, Items, items_in, place_at};
ghost use Rattle.jute.specs.declared.owned.Acl.{Acl};
ghost use Rattle.std.specs.Prelude.{◌≡◌, ℕ, Bool, List, ◌<◌, ◌^◌};

/// Every format here is sound: what is read was spelled so, a spelling is read whatever follows it, and what is written
/// is the shortest spelling. So a read is refused only if no prefix of the bytes spells a value. Its fault names the
/// first field that no bytes at its place spell, and any fault but `Short` stays the same whatever bytes follow.
pub fn formats()
    ensures int { IsSound int }
    ensures long { IsSound long }
    ensures boolean { IsSound boolean }
    ensures buffer { IsSound buffer }
    ensures text { IsSound text_format }
    ensures name { IsSound text_or_empty }
    ensures id { IsSound id_format }
    ensures acl { IsSound acl_format }
    // Surrogates change what is read of an entry, and nothing of what is written.
    ensures written { (surrogates : Bool) → (acl_in surrogates).written ≡ acl_format.written }
    ensures writable { (surrogates : Bool) (entry : Acl) → (acl_in surrogates).Writable entry
        → acl_format.Writable entry }
    ensures stat { IsSound stat_format }
    ensures stat_persisted { IsSound stat_persisted }
    ensures request_header { IsSound request_header }
    ensures reply_header { IsSound reply_header }
    ensures ids { IsSound (vector_of id_format) }
    // Also with surrogates in its texts.
    ensures acls { (surrogates : Bool) → IsSound (vector_of (acl_in surrogates)) }
    ensures frame { (limit : ℕ) → limit < 2 ^ 31 → IsSound (frame_format limit) }
{}

/// The values of a stream don't depend on how it was cut.
pub fn streams()
    ensures streamed { IsStreamable acl_format }
    ensures pieces { ComesInPieces (stream_of acl_format) }
{}

/// The relation holds between bytes and the values that the function finds in them, and between no others.
pub fn relates()
    ensures found { (bytes : List ℕ) → IsBytes bytes
        → AreItems (stream_of acl_format) tt bytes (items_in (stream_of acl_format) (place_at tt bytes)) }
    ensures alone { (bytes : List ℕ) (i : Items (Unit {0}) Acl) → AreItems (stream_of acl_format) tt bytes i
        → items_in (stream_of acl_format) (place_at tt bytes) ≡ i }
{}
