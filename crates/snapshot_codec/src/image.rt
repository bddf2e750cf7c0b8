//! Whole images.

ghost use Rattle.std.specs.Prelude.{◌≡◌, false};
ghost use Rattle.jute.specs.Reads.{ReadsOwned};
ghost use Rattle.snapshot_codec.specs.Image.{image_read_in};
ghost use Rattle.settings.specs.declared.dialect.Dialect.TheVariants as TheDialect;
ghost use Rattle.snapshot_codec.specs.Reads.{LoadsNext, ReadsImage};

use crate::loader::Loader;
use crate::part::PartPhase;
use crate::read::read_part;
use data_tree::Tree;
use jute::Reader;
use settings::Dialect;
use std::alloc::Global;
use std::marker::Model;
use values::ReadError;

/// The image of a tree.
#[derive(Drop)]
pub struct Image {
    tree: Tree,
}

impl Model for Image {
    ghost use Rattle.data_tree.specs.State.{State, state_code};
    ghost use Rattle.node_map.specs.contracts.node.Node as node;

    ghost Value = { State };

    ghost coded = { state_code node.the_row.coded };

    ghost view = { λ i. i.tree };
}

impl Image {
    /// The tree that the image is of. Allocates nothing.
    pub fn into_tree(self) -> Tree
        ensures { result ≡ self }
    {
        self.tree
    }
}

fn load_next(
    dialect: Dialect,
    alloc: Global,
    loader: &mut Loader,
    phase: &mut PartPhase,
    reader: &mut Reader<'_>,
) -> Result<(), ReadError>
    requires { loader.old.ended ≡ false }
    ensures { LoadsNext dialect result phase.old loader.old.made reader.old phase.new loader.new reader.new }
{
    match read_part(dialect, alloc, phase, reader)? {
        None => Ok(()),
        Some(part) => loader.part(alloc, part),
    }
}

// Loads the parts of an image. A refused read leaves the place.
#[tactic(auto, unfolding(crate::specs::Image::image_read_in))]
fn load_image(dialect: Dialect, alloc: Global, reader: &mut Reader<'_>) -> Result<Image, ReadError>
    ensures { ReadsOwned (image_read_in dialect) (λ image. image) result reader.old reader.new }
{
    let mut ahead = reader.ahead();
    let mut phase = PartPhase::SessionCount;
    let mut loader = Loader::in_dialect(dialect, alloc);
    while !loader.has_ended() {
        load_next(dialect, alloc, &mut loader, &mut phase, &mut ahead)?;
    }
    *reader = ahead;
    Ok(Image {
        tree: loader.finish(),
    })
}

/// Reads the image of a leader of this dialect at the front of the bytes, and returns it with the bytes that it takes.
///
/// The faults are those of its parts, the first one first: `Short`, `BadLength`, `BadText` and `BadPath` of a field,
/// found at the field's last byte, and `BadImage` of a part that doesn't fit the parts before it, found at the part's
/// last byte. Fails with `NoMemory` if an allocation is refused.
pub fn read_image_in(
    dialect: Dialect,
    alloc: Global,
    bytes: &[u8],
) -> Result<(Image, usize), ReadError>
    ensures { ReadsImage dialect result bytes.now }
{
    let mut reader = Reader::new(bytes);
    let image = load_image(dialect, alloc, &mut reader)?;
    Ok((image, bytes.len() - reader.rest().len()))
}

/// Reads the image of ZooKeeper 3.4 at the front of the bytes, as [`read_image_in`] does.
pub fn read_image(alloc: Global, bytes: &[u8]) -> Result<(Image, usize), ReadError>
    ensures { ReadsImage TheDialect.Zk34 result bytes.now }
{
    read_image_in(Dialect::Zk34, alloc, bytes)
}
