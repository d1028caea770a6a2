// The addition at the root: a first node, or a new root over two.
ghost use Rattle.std.specs.Prelude.{◌≡◌, [], ◌∷◌, ◌≤◌, ◌<◌, length, None, Some};
ghost use Rattle.limits.specs.Limits.{max_entries, max_levels, max_nodes, max_sites, table_bytes};
ghost use Rattle.tree_node.specs.Node.{entries};
ghost use Rattle.tree_node.specs.Free.{free, Taken};
ghost use Rattle.tree_node.specs.Boxes.{hull};
ghost use Rattle.tree_node.specs.Tally.{tally, Within};
ghost use Rattle.tree_rules.specs.Rooted.{tree_leaves, Rooted};
ghost use Rattle.tree_add.specs.Steps.{Divisible, Raised, Planted};

use crate::insert;
use limits::TABLE_BYTES;
use tree_node::{NodeEntry, Top, boxes, free, pool};

// A new node over the nodes c and s.
fn over(table: &mut [u8; TABLE_BYTES], c: usize, s: usize) -> usize
    requires { (0 < length (free table.old))
        × Within max_nodes (free table.old) × (c < max_nodes) × (s < max_nodes)
        × (tally c (free table.old) ≡ 0) × (tally s (free table.old) ≡ 0) }
    ensures { Taken result (hull c (entries table.old c) ∷ hull s (entries table.old s) ∷ [])
        table.old table.new }
{
    let r = free::fresh(table);
    boxes::lift(table, r, c);
    boxes::lift(table, r, s);
    r
}

// The tree over r, whose root has eight entries and hands x back.
fn rise(table: &mut [u8; TABLE_BYTES], r: Top, x: NodeEntry) -> Top
    requires { Divisible r.height r.node (x ∷ []) table.old × (length (entries table.old r.node) ≡ max_entries)
        × (2 ≤ length (free table.old)) × (r.height < max_levels) }
    ensures { Raised (Some result) r.height r.node (x ∷ []) table.old table.new }
{
    let s = tree_split::split(table, r.node, x);
    let m = over(table, r.node, s);
    Top {
        height: r.height + 1,
        node: m,
    }
}

// Adds the leaf entry e to the tree r.
fn add_root(table: &mut [u8; TABLE_BYTES], r: Top, e: NodeEntry) -> Top
    requires { Rooted (Some r) table.old × (length (tree_leaves (entries table.old) (Some r)) < max_sites) }
    ensures { Planted (Some r) e (Some result) table.old table.new }
{
    match insert::insert(table, r.height, r.node, e) {
        None => r,
        Some(x) => rise(table, r, x),
    }
}

// Adds the leaf entry e to an empty tree.
fn add_first(table: &mut [u8; TABLE_BYTES], e: NodeEntry) -> Top
    requires { Rooted None table.old }
    ensures { Planted None e (Some result) table.old table.new }
{
    let n = free::fresh(table);
    pool::push(table, n, e);
    Top { height: 0, node: n }
}

// Adds the leaf entry e to the tree r, which may be empty.
pub fn plant(table: &mut [u8; TABLE_BYTES], r: Option<Top>, e: NodeEntry) -> Top
    requires { Rooted r table.old × (length (tree_leaves (entries table.old) r) < max_sites) }
    ensures { Planted r e (Some result) table.old table.new }
{
    match r {
        None => add_first(table, e),
        Some(top) => add_root(table, top, e),
    }
}
