//! A watch of any table, as an element of the list.

ghost use Rattle.std.specs.Prelude.{◌≡◌, Some};
ghost use Rattle.std.specs.Cmp.{eq_by_cmp_equiv, partial_order_from_total, partial_equiv_from_equiv};
ghost use Rattle.std.specs.Cmp.Rules.{comparing};
ghost use Rattle.std.specs.Ordering.{is_eq};
ghost use Rattle.std.proofs.Common.{rules};
ghost use Rattle.watch_manager.specs.Summary.{table_rank, watched_cmp};
ghost use Rattle.watch_manager.specs.Totals.{watched_total};

use std::cmp::Ordering;
use values::Str;

/// The table that a watch is in.
#[derive(Clone, Copy)]
pub enum Table {
    /// The data watches.
    Own,
    /// The child watches.
    Child,
    /// The watches that aren't used up.
    Lasting,
}

impl Table {
    // Data watches come first.
    fn rank(self) -> u8
        ensures { result ≡ table_rank self }
    {
        match self {
            Table::Own => 0,
            Table::Child => 1,
            Table::Lasting => 2,
        }
    }
}

/// A watch: its path, its connection and its table. Watches are ordered by path, then by connection. A data watch comes
/// before a child watch, and that before a lasting watch.
#[derive(Drop)]
pub struct Watched<'a> {
    pub path: Str<'a>,
    pub connection: u64,
    pub table: Table,
}

fn watched_order(left: &Watched<'_>, right: &Watched<'_>) -> Ordering
    ensures { result ≡ watched_cmp left.now right.now }
{
    let paths = left.path.as_str().cmp(right.path.as_str());
    let conns = left.connection.cmp(&right.connection);
    let tables = left.table.rank().cmp(&right.table.rank());
    paths.then(conns).then(tables)
}

impl<'a> PartialEq for Watched<'a> {
    ghost eq = { λ x y. is_eq (watched_cmp x y) };

    ghost laws = { partial_equiv_from_equiv (eq_by_cmp_equiv watched_total) };

    fn eq(&self, other: &Watched<'a>) -> bool {
        watched_order(self, other).is_eq()
    }
}

impl<'a> Eq for Watched<'a> {
    ghost laws = { eq_by_cmp_equiv watched_total };
}

impl<'a> PartialOrd for Watched<'a> {
    ghost partial_cmp = { λ x y. Some (watched_cmp x y) };

    ghost laws = { partial_order_from_total watched_total };

    fn partial_cmp(&self, other: &Watched<'a>) -> Option<Ordering> {
        Some(watched_order(self, other))
    }
}

impl<'a> Ord for Watched<'a> {
    ghost cmp = { λ x y. watched_cmp x y };

    ghost total = { watched_total };

    ghost matches_partial_cmp = { Prim.search (comparing, rules) };

    ghost matches_eq = { Prim.search (comparing, rules) };

    fn cmp(&self, other: &Watched<'a>) -> Ordering {
        watched_order(self, other)
    }
}
