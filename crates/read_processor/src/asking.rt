//! Several reads of one tree.

ghost use Rattle.std.specs.Prelude.{◌≡◌, IfOk};
ghost use Rattle.read_processor.specs.Asking.{looks_at};

use crate::reads::look;
use crate::request::Request;
use crate::shown::Look;
use data_tree::Tree;
use jute::Id;
use std::alloc::Global;
use values::NoMemory;

/// A read by a client with these ids.
#[derive(Drop)]
pub struct Ask<'a> {
    pub ids: &'a [Id],
    pub request: Request<'a>,
}

/// The answers to all asks, in order. Fails only if an allocation is refused.
pub fn look_each(alloc: Global, tree: &Tree, asks: &[Ask<'_>]) -> Result<Vec<Look>, NoMemory>
    ensures looks { IfOk result (λ v. v.items ≡ looks_at tree.now asks.now) }
{
    let mut looks = Vec::with_capacity(alloc, asks.len())?;
    for ask in asks {
        looks.push(look(alloc, tree, ask.ids, &ask.request)?)?;
    }
    Ok(looks)
}
