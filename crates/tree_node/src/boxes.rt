// The boxes of entries: widened, compared, and the smallest one of a node.
ghost use Rattle.std.specs.Prelude.{◌≡◌, [], ◌∷◌, ◌++◌, ◌<◌, ◌≤◌, length};
ghost use Rattle.limits.specs.Limits.{max_entries, max_nodes, table_bytes};
ghost use Rattle.tree_node.specs.Node.{entries, Wrote};
ghost use Rattle.tree_node.specs.Boxes.{grow, hull};

use crate::{NodeEntry, pool};
use limits::TABLE_BYTES;

// The entry f, its box widened to hold the box of e.
pub fn grown(e: NodeEntry, f: NodeEntry) -> NodeEntry
    ensures { result ≡ grow e f }
{
    NodeEntry {
        reference: f.reference,
        west: e.west.min(f.west),
        south: e.south.min(f.south),
        east: e.east.max(f.east),
        north: e.north.max(f.north),
        spare: f.spare,
    }
}

// An entry whose box holds nothing.
pub fn nowhere(reference: u16) -> NodeEntry
    ensures { result ≡ hull reference [] }
{
    NodeEntry {
        reference,
        west: 65535,
        south: 65535,
        east: 0,
        north: 0,
        spare: 0,
    }
}

// The entry for node n: the smallest box of its entries.
pub fn hull_of(table: &[u8; TABLE_BYTES], n: usize) -> NodeEntry
    requires { n < max_nodes }
    ensures { result ≡ hull n (entries table.now n) }
{
    let mut f = nowhere(n as u16);
    for k in (0..pool::count(table, n)).rev() {
        f = grown(pool::entry_at(table, n, k), f);
    }
    f
}

// Adds the entry of node c to node n, which has room for it.
pub fn lift(table: &mut [u8; TABLE_BYTES], n: usize, c: usize)
    requires { (n < max_nodes) × (c < max_nodes)
        × (length (entries table.old n) < max_entries) }
    ensures { Wrote n (entries table.old n ++ (hull c (entries table.old c) ∷ []))
        table.old table.new }
{
    let f = hull_of(table, c);
    pool::push(table, n, f);
}

// Half the perimeter of e's box, whose edges may be any numbers of 16 bits, also the wrong way round.
pub fn half_perimeter(e: NodeEntry) -> u32
    ensures { result ≤ 131070 }
{
    u32::from(e.east.saturating_sub(e.west)) + u32::from(e.north.saturating_sub(e.south))
}
