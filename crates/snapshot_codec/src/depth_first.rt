//! The nodes of a tree in depth-first order.

ghost use Rattle.std.specs.Prelude.{◌≡◌, IfOk, Some};
ghost use Rattle.std.specs.Cmp.{eq_by_cmp_equiv, partial_order_from_total};
ghost use Rattle.std.specs.Cmp.Rules.{comparing};
ghost use Rattle.std.specs.Cmp;
ghost use Rattle.std.specs.Ordering.{is_eq};
ghost use Rattle.std.proofs.Common.{rules};
ghost use Rattle.snapshot_codec.specs.Written.{byte_rank, walk_cmp, walk_of};
ghost use Rattle.snapshot_codec.specs.Writes.{shown_rows};
ghost use Rattle.snapshot_codec.specs.Totals.{walk_total_on};

use data_tree::{Node, Tree};
use std::alloc::Global;
use std::cmp::Ordering;
use std::collections::BTreeMap;
use values::NoMemory;

// The rank of a byte in the order of paths.
fn rank(byte: u8) -> u16
    ensures { result ≡ byte_rank byte }
{
    if byte == b'/' {
        return 0;
    }
    byte as u16 + 1
}

// The order of two paths in a walk.
fn walk_order(left: &[u8], right: &[u8]) -> Ordering
    ensures { result ≡ walk_cmp left.now right.now }
{
    let mut others = right.iter();
    for byte in left {
        let Some(other) = others.next() else {
            return Ordering::Greater;
        };
        match rank(*byte).cmp(&rank(*other)) {
            Ordering::Less => return Ordering::Less,
            Ordering::Greater => return Ordering::Greater,
            Ordering::Equal => (),
        }
    }
    if others.next().is_some() {
        return Ordering::Less;
    }
    Ordering::Equal
}

/// A path in the order of a walk: ascending bytes, with the slash before every other byte. So everything below a node
/// comes after it and before the next node.
#[derive(Clone, Copy)]
pub struct WalkPath<'a> {
    pub text: &'a str,
}

impl<'a> PartialEq for WalkPath<'a> {
    ghost eq = { λ x y. is_eq (walk_cmp x.text.now y.text.now) };

    ghost laws = { Cmp.partial_equiv_from_equiv (eq_by_cmp_equiv (walk_total_on (λ x. x.text.now))) };

    fn eq(&self, other: &WalkPath<'a>) -> bool {
        walk_order(self.text.as_bytes(), other.text.as_bytes()).is_eq()
    }
}

impl<'a> Eq for WalkPath<'a> {
    ghost laws = { eq_by_cmp_equiv (walk_total_on (λ x. x.text.now)) };
}

impl<'a> PartialOrd for WalkPath<'a> {
    ghost partial_cmp = { λ x y. Some (walk_cmp x.text.now y.text.now) };

    ghost laws = { partial_order_from_total (walk_total_on (λ x. x.text.now)) };

    fn partial_cmp(&self, other: &WalkPath<'a>) -> Option<Ordering> {
        Some(walk_order(self.text.as_bytes(), other.text.as_bytes()))
    }
}

impl<'a> Ord for WalkPath<'a> {
    ghost cmp = { λ x y. walk_cmp x.text.now y.text.now };

    ghost total = { walk_total_on (λ x. x.text.now) };

    ghost matches_partial_cmp = { Prim.search (comparing, rules) };

    ghost matches_eq = { Prim.search (comparing, rules) };

    fn cmp(&self, other: &WalkPath<'a>) -> Ordering {
        walk_order(self.text.as_bytes(), other.text.as_bytes())
    }
}

/// The nodes of the tree by path, in the order of a walk. Fails only if an allocation is refused.
pub(crate) fn depth_first(
    alloc: Global,
    tree: &Tree,
) -> Result<BTreeMap<WalkPath<'_>, &Node>, NoMemory>
    ensures { IfOk result (λ rows. shown_rows rows.entries ≡ walk_of tree.now.nodes) }
{
    let mut rows = BTreeMap::new(alloc);
    for (path, node) in tree.nodes() {
        let path = WalkPath {
            text: path.as_str(),
        };
        rows.insert(path, node)?;
    }
    Ok(rows)
}
