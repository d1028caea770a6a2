// The addition below the root: down to a leaf, and splits on the way up. "An entry above the leaves" is read "by
// reading its child node", by two functions that call each other.
ghost use Rattle.std.specs.Prelude.{◌≡◌, [], ◌∷◌, ◌++◌, ◌+◌, ◌≤◌, ◌<◌, length, get_or, set};
ghost use Rattle.limits.specs.Limits.{max_entries, max_nodes, table_bytes};
ghost use Rattle.tree_node.specs.Node.{entries, no_entry, Wrote};
ghost use Rattle.tree_node.specs.Free.{free};
ghost use Rattle.tree_node.specs.Boxes.{hull};
ghost use Rattle.tree_node.specs.Tally.{hit, tally};
ghost use Rattle.tree_rules.specs.Tree.{joined, nodes};
ghost use Rattle.tree_rules.specs.Change.{Ready};
ghost use Rattle.tree_add.specs.Steps.{PutBehind, Divisible, Renewed, InsertedUnder};

use crate::choose;
use limits::{MAX_ENTRIES, TABLE_BYTES};
use tree_node::{NodeEntry, boxes, pool};

// Adds e to node n, or hands it back where n has eight entries.
pub fn put_in(table: &mut [u8; TABLE_BYTES], n: usize, e: NodeEntry) -> Option<NodeEntry>
    requires { n < max_nodes }
    ensures { PutBehind result n e table.old table.new }
{
    if pool::count(table, n) < MAX_ENTRIES {
        pool::push(table, n, e);
        return None;
    }
    Some(e)
}

// Sets entry k of node n anew for its child c.
fn renew(table: &mut [u8; TABLE_BYTES], n: usize, k: usize, c: usize)
    requires { (n < max_nodes) × (c < max_nodes)
        × (k < length (entries table.old n)) }
    ensures { Wrote n (set (entries table.old n) k (hull c (entries table.old c)))
        table.old table.new }
{
    let f = boxes::hull_of(table, c);
    pool::put(table, n, k, f);
}

// Splits the child c of node n, its entry k, which has eight entries and hands x back.
fn halve(
    table: &mut [u8; TABLE_BYTES],
    h: usize,
    n: usize,
    k: usize,
    c: usize,
    x: NodeEntry,
) -> Option<NodeEntry>
    requires { Divisible h c (x ∷ []) table.old × (n < max_nodes) × (k < length (entries table.old n))
        × (length (entries table.old c) ≡ max_entries) × (0 < length (free table.old))
        × (hit n c + tally n (joined (nodes (entries table.old) h) (entries table.old c ++ (x ∷ []))) ≡ 0)
        × (tally n (free table.old) ≡ 0) }
    ensures { Renewed result h n k c (x ∷ []) table.old table.new }
{
    let s = tree_split::split(table, c, x);
    renew(table, n, k, c);
    let g = boxes::hull_of(table, s);
    put_in(table, n, g)
}

// Adds the leaf entry e under f, which is entry k of node n and stands at height h, above the leaves; or hands back the
// ninth entry of n. A child that is not split has its old box, grown by e's: its entries need not be read again.
#[cycle(insert_insert_under)]
fn insert_under(
    table: &mut [u8; TABLE_BYTES],
    h: usize,
    n: usize,
    k: usize,
    f: NodeEntry,
    e: NodeEntry,
) -> Option<NodeEntry>
    requires ready { Ready h n table.old × (h ≡ 0 → ⊥) × (h ≤ length (free table.old)) }
    requires k_in_bounds { (k < length (entries table.old n)) × (f ≡ get_or (entries table.old n) k no_entry) }
    ensures { InsertedUnder result h n e table.old table.new }
{
    let c = usize::from(f.reference);
    match insert(table, h - 1, c, e) {
        None => {
            let g = boxes::grown(e, f);
            pool::put(table, n, k, g);
            None
        }
        Some(x) => halve(table, h - 1, n, k, c, x),
    }
}

// Adds the leaf entry e under node n, whose entries stand at height h, or hands back the ninth entry of n.
#[cycle(insert_insert_under)]
pub fn insert(table: &mut [u8; TABLE_BYTES], h: usize, n: usize, e: NodeEntry) -> Option<NodeEntry>
    requires { Ready h n table.old × (h ≤ length (free table.old))
        × ((h ≡ 0 → ⊥) → 0 < length (entries table.old n)) }
    ensures { InsertedUnder result h n e table.old table.new }
{
    if h == 0 {
        return put_in(table, n, e);
    }
    let k = choose::choose(table, n, e);
    let f = pool::entry_at(table, n, k);
    insert_under(table, h, n, k, f, e)
}
