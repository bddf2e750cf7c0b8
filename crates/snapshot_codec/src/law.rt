//! Laws of images and their parts.

ghost use Rattle.std.specs.Prelude.{◌≡◌, ◌≢◌, ◌++◌, ℕ, List, Ok, Err};
ghost use Rattle.data_tree.specs.State.{State, Nodes};
ghost use Rattle.data_tree.specs.Whole.{IsWhole};
ghost use Rattle.jute.specs.Laws.{NamesFaults, TakesSpellings, WritesSpellings};
ghost use Rattle.jute.specs.Loading.{AreSound, NeverWaits};
ghost use Rattle.jute.specs.Stream.{ComesInPieces, IsStreamable};
ghost use Rattle.settings.specs.declared.dialect.Dialect.{Dialect as TheDialect};
ghost use Rattle.values.specs.declared.fault.Fault.{Fault as TheFault};
ghost use Rattle.values.specs.declared.fault.Fault.TheVariants.{Short};
ghost use Rattle.snapshot_codec.specs.Image.{SpellsImage, SpellsImageIn, image_format, image_in, image_read, image_read_in};
ghost use Rattle.snapshot_codec.specs.Made.{image_load};
ghost use Rattle.snapshot_codec.specs.Parts.{part_stream};
ghost use Rattle.snapshot_codec.specs.Rows.{WorkedImages};
ghost use Rattle.snapshot_codec.specs.Walks.{IsWalk};
ghost use Rattle.snapshot_codec.specs.Written.{walk_of};

use settings::Dialect;

/// A value of a phase is read exactly if the bytes spell one, however they are cut, and a refusal names the first field
/// that no bytes at its place spell. No part is refused for want of bytes.
pub fn image_parts()
    ensures sound { (dialect : TheDialect) → AreSound (part_stream dialect) }
    ensures pieces { (dialect : TheDialect) → ComesInPieces (part_stream dialect) }
    ensures goes_on { (dialect : TheDialect) → NeverWaits (image_load dialect) }
{}

/// What is read as an image was spelled so, and a spelling is read, whatever follows and however the bytes are cut. A
/// read is refused exactly for the first field that isn't spelled, or the first part that doesn't fit those before it.
/// Bytes that were refused for any fault but `Short` begin no image. A state that has an image is whole. The bytes
/// written for a whole state within the limits are its image, so they are read back, whatever follows.
pub fn images()
    ensures taken { TakesSpellings image_format }
    ensures again { (s : State) (text rest : List ℕ) → SpellsImage s text
        → image_read (text ++ rest) ≡ Ok (s, rest) }
    ensures streamed { IsStreamable image_format }
    ensures named { NamesFaults image_format }
    ensures refused { (bytes more text rest : List ℕ) (s : State) (e : TheFault)
        → image_read bytes ≡ Err e → e ≢ Short
        → bytes ++ more ≡ text ++ rest → ¬ SpellsImage s text }
    ensures writes { WritesSpellings image_format }
    ensures back { (s : State) (rest : List ℕ) → image_format.Fits s
        → image_read (image_format.written s ++ rest) ≡ Ok (s, rest) }
    ensures whole { (s : State) (text : List ℕ) → SpellsImage s text → IsWhole s }
{
    data_tree::law::names();
}

/// The images of this dialect are sound, as those of ZooKeeper 3.4 are.
pub fn images_in(dialect: Dialect)
    ensures taken { TakesSpellings (image_in dialect) }
    ensures again { (s : State) (text rest : List ℕ) → SpellsImageIn dialect s text
        → image_read_in dialect (text ++ rest) ≡ Ok (s, rest) }
    ensures streamed { IsStreamable (image_in dialect) }
    ensures named { NamesFaults (image_in dialect) }
    ensures writes { WritesSpellings (image_in dialect) }
    ensures whole { (s : State) (text : List ℕ) → SpellsImageIn dialect s text → IsWhole s }
{
    data_tree::law::names();
}

/// In an image each node occurs once, a parent before its children, and everything below a node directly after it.
pub fn walks()
    ensures { (nodes : Nodes) → IsWalk nodes (walk_of nodes) }
{}

/// Images that were worked out by hand: the bytes written for the fresh tree, the order of the nodes, and the keys of
/// their lists.
pub fn worked_images()
    ensures { WorkedImages }
{}
