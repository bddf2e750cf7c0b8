//! The image of a snapshot: sessions, ACL lists and nodes, as a leader sends them to a server that lags too far.
//!
//! An image is read in parts, so it is never in memory as a whole besides the tree that it makes: `read_part` reads the
//! next value at a place, and a `Loader` takes each part into a tree. `read_image` does both for the bytes of a whole
//! image. `specs/Parts.antt` defines how the parts are spelled, `specs/Made.antt` what they make, and
//! `specs/Image.antt`, as a relation, the bytes that are an image of a state. `write_image` writes the image of a tree,
//! which `specs/Written.antt` defines. Each of these has a form for the dialect of a later leader, whose images
//! `specs/Dialects.antt` tells apart. The laws in `law` relate them: what is written is read back and gives the tree.
//!
//! ```text
//! let (image, used) = read_image_in(dialect, alloc, bytes)?;     // or: part by part
//! let mut phase = PartPhase::SessionCount;
//! let mut loader = Loader::in_dialect(dialect, alloc);
//! while !loader.has_ended() {
//!     if let Some(part) = read_part(dialect, alloc, &mut phase, &mut reader)? {
//!         loader.part(alloc, part)?;
//!     }
//! }
//! let tree = loader.finish();
//! let bytes = write_image(alloc, &tree)?;            // NotWhole if the tree has no image
//! ```
#![tactic(auto)]

mod acl_table;
mod depth_first;
mod fields;
mod fits;
mod image;
mod key_table;
pub mod law;
mod loader;
mod owner;
mod part;
mod read;
mod write_error;
mod writer;

pub use image::{Image, read_image, read_image_in};
pub use loader::Loader;
pub use part::{ImageAcl, ImageNode, ImagePart, ImageSession, PartPhase};
pub use read::read_part;
pub use write_error::WriteError;
pub use writer::{write_image, write_image_in};
