// The walk over the tree. "A node is read by reading its entries, and an entry above the leaves by reading its child
// node": two functions that call each other, the height falling at each descent.
ghost use Rattle.std.specs.Prelude.{[], ◌∷◌, ◌<◌, Some};
ghost use Rattle.limits.specs.Limits.{max_nodes};
ghost use Rattle.grid.specs.Says.{Says};
ghost use Rattle.tree_node.specs.Header.{root_in};
ghost use Rattle.tree_node.specs.Node.{entries};
ghost use Rattle.tree_node.specs.Told.{Told};
ghost use Rattle.tree_check.specs.Marks.{Marked, Prepared};
ghost use Rattle.tree_check.specs.Walk.{met, Pass, Fits, Enough, root_met, RootPass};

use crate::{SEEN_BYTES, hints, leaf_entry, marks};
use limits::{MAX_LEVELS, MAX_NODES, MIN_ENTRIES, TABLE_BYTES};
use tree_node::{NodeEntry, Top, boxes, header, pool};

// Whether the leaf entry e is that of a record that has no mark yet. Marks the record.
fn check_leaf(t: &[u8; TABLE_BYTES], e: NodeEntry, seen: &mut [u8; SEEN_BYTES]) -> bool
    requires { Prepared t.now seen.old }
    ensures { Told result (Pass t.now 0 (e ∷ []) seen.old)
        (Marked (met t.now 0 (e ∷ [])) seen.old seen.new) }
{
    match hints::find(t, e.reference, seen) {
        Err(_) => false,
        Ok(k) => e == leaf_entry(table_sites::line(t, k)) && marks::mark(seen, MAX_NODES + k),
    }
}

// Whether e's child node has entries enough and e is the smallest box of them.
fn fits(t: &[u8; TABLE_BYTES], e: NodeEntry) -> bool
    requires { e.reference < max_nodes }
    ensures { Says result (Fits t.now e) }
{
    let c = usize::from(e.reference);
    MIN_ENTRIES <= pool::count(t, c) && e == boxes::hull_of(t, c)
}

// Whether the entry e, which stands at height h above the leaf entries, passes. Marks its record or what lies under it.
#[cycle(check_entry_check_node)]
fn check_entry(t: &[u8; TABLE_BYTES], h: usize, e: NodeEntry, seen: &mut [u8; SEEN_BYTES]) -> bool
    requires { Prepared t.now seen.old }
    ensures { Told result (Pass t.now h (e ∷ []) seen.old)
        (Marked (met t.now h (e ∷ [])) seen.old seen.new) }
{
    if h == 0 {
        return check_leaf(t, e, seen);
    }
    let c = usize::from(e.reference);
    if MAX_NODES <= c {
        return false;
    }
    if !marks::mark(seen, c) {
        return false;
    }
    fits(t, e) && check_node(t, h - 1, c, seen)
}

// Whether the entries of node c, which stand at height h, pass. Marks what lies under them.
#[cycle(check_entry_check_node)]
fn check_node(t: &[u8; TABLE_BYTES], h: usize, c: usize, seen: &mut [u8; SEEN_BYTES]) -> bool
    requires { Prepared t.now seen.old × (c < max_nodes) }
    ensures { Told result (Pass t.now h (entries t.now c) seen.old)
        (Marked (met t.now h (entries t.now c)) seen.old seen.new) }
{
    for k in 0..pool::count(t, c) {
        if !check_entry(t, h, pool::entry_at(t, c, k), seen) {
            return false;
        }
    }
    true
}

// Whether the root c, whose entries stand at height g, has as many as a root has to have.
fn enough(t: &[u8; TABLE_BYTES], g: usize, c: usize) -> bool
    requires { c < max_nodes }
    ensures { Says result (Enough t.now g c) }
{
    let k = pool::count(t, c);
    if g == 0 {
        return 1 <= k;
    }
    2 <= k
}

// Whether the tree over r passes. Marks what lies under it.
fn check_top(t: &[u8; TABLE_BYTES], r: Top, seen: &mut [u8; SEEN_BYTES]) -> bool
    requires { Prepared t.now seen.old }
    ensures { Told result (RootPass t.now (Some r) seen.old)
        (Marked (root_met t.now (Some r)) seen.old seen.new) }
{
    if MAX_LEVELS <= r.height {
        return false;
    }
    if MAX_NODES <= r.node {
        return false;
    }
    if !enough(t, r.height, r.node) {
        return false;
    }
    marks::mark(seen, r.node) && check_node(t, r.height, r.node, seen)
}

// Whether the tree that the header tells passes. Marks what lies under it.
pub fn check_root(t: &[u8; TABLE_BYTES], seen: &mut [u8; SEEN_BYTES]) -> bool
    requires { Prepared t.now seen.old }
    ensures { Told result (RootPass t.now (root_in t.now) seen.old)
        (Marked (root_met t.now (root_in t.now)) seen.old seen.new) }
{
    match header::read_root(t) {
        None => true,
        Some(top) => check_top(t, top, seen),
    }
}
