// The descent: two functions calling each other, the height falling at each child node.
// The cut of an entry's box is the guess for the cuts of all that lies under it.
ghost use Rattle.std.specs.Prelude.{◌≡◌, ◌*◌, ◌<◌, ◌≤◌, length};
ghost use Rattle.limits.specs.Limits.{max_entries, max_nodes};
ghost use Rattle.list_skip.specs.Skipping.{IsCorner, Knows};
ghost use Rattle.list_row.specs.Vertices.{stack, Cut};
ghost use Rattle.tree_node.specs.Layout.{entry_start};
ghost use Rattle.tree_node.specs.Node.{entries};
ghost use Rattle.tree_rules.specs.Tree.{leaves};
ghost use Rattle.tree_search.specs.Sites.{area_of};
ghost use Rattle.tree_search.specs.Searching.{entry_of, under, ComesNext, Readable, Ahead, Searched, Progressed};

use crate::boxes;
use grid::{Corner, Leg};
use limits::TABLE_BYTES;
use list_row::{Row, Vertex};
use list_skip::{Edge, Seen};

// The place of the site record that entry i of node n begins with.
fn leaf_place(n: usize, i: usize) -> usize
    requires { (n < max_nodes) × (i < max_entries) }
    ensures { 2 * result ≡ entry_start n i }
{
    tree_node::pool::entry_start(n, i) / 2
}

// The entry that is read after the ith of m: the next one, and the first after the last.
fn after(i: usize, m: usize) -> usize
    requires { (i < m) × (m ≤ max_entries) }
    ensures { ComesNext m i result }
{
    if i + 1 < m {
        return i + 1;
    }
    0
}

// Deals with the site of entry i of the leaf n, whose cut is known. Its box is a point, so the corner has its
// distances.
fn search_leaf(
    t: &[u8; TABLE_BYTES],
    leg: Leg,
    n: usize,
    i: usize,
    corner: Corner,
    work: &mut [u8],
    k: usize,
    cut: usize,
) -> usize
    requires readable { Readable t.now 0 n × (i < length (entries t.now n))
        × IsCorner leg (area_of (entry_of t.now n i)) corner }
    requires ahead { Ahead leg t.now work.old k (leaves (entries t.now) 0 (entry_of t.now n i))
        × Cut leg t.now work.old k corner.a cut }
    ensures { Searched leg t.now work.old k
        (leaves (entries t.now) 0 (entry_of t.now n i)) work.new result }
{
    let p = leaf_place(n, i);
    let Corner { a, c } = corner;
    let x = Vertex { place: p, a, c };
    list_skip::deal_vertex(t, leg, x, work, k, cut)
}

// After an entry: the length of the list, and the edge that was looked at last. Table, leg and row stay parameters: the
// row is lent for writing, and a struct that holds it would be unwrapped in every clause.
#[derive(Clone, Copy)]
struct Progress {
    k: usize,
    edge: Edge,
}

// Deals with every site under entry i of node n, whose entries stand at height h. What the edge shuts out is skipped
// with no look at the list.
#[cycle(search_entry_search_node)]
fn search_entry(
    t: &[u8; TABLE_BYTES],
    leg: Leg,
    h: usize,
    n: usize,
    i: usize,
    corner: Corner,
    work: &mut [u8],
    k: usize,
    near: usize,
    edge: Edge,
) -> Progress
    requires readable { Readable t.now h n × (i < length (entries t.now n))
        × IsCorner leg (area_of (entry_of t.now n i)) corner }
    requires ahead { Ahead leg t.now work.old k (leaves (entries t.now) h (entry_of t.now n i))
        × Knows edge (stack leg t.now work.old k) }
    ensures { Progressed leg t.now work.old k
        (leaves (entries t.now) h (entry_of t.now n i)) work.new result }
{
    if list_skip::shuts(edge, corner) {
        return Progress { k, edge };
    }
    let row = Row {
        t,
        places: work,
        leg,
        k,
    };
    let Seen { shut, cut, edge } = list_skip::covers(row, corner, near);
    if shut {
        return Progress { k, edge };
    }
    if h == 0 {
        let k = search_leaf(t, leg, n, i, corner, work, k, cut);
        return Progress { k, edge };
    }
    let e = tree_node::pool::entry_at(t, n, i);
    let child = usize::from(e.reference);
    let k = search_node(t, leg, h - 1, child, work, k, cut, edge);
    Progress { k, edge }
}

// Deals with every site under node n, whose entries stand at height h: from the nearest one on, the first after the
// last.
#[cycle(search_entry_search_node)]
pub fn search_node(
    t: &[u8; TABLE_BYTES],
    leg: Leg,
    h: usize,
    n: usize,
    work: &mut [u8],
    k: usize,
    near: usize,
    edge: Edge,
) -> usize
    requires readable { Readable t.now h n × (0 < length (entries t.now n)) }
    requires ahead { Ahead leg t.now work.old k (under t.now h (entries t.now n))
        × Knows edge (stack leg t.now work.old k) }
    ensures { Searched leg t.now work.old k
        (under t.now h (entries t.now n)) work.new result }
{
    let mut corners = [Corner { a: 0, c: 0 }; limits::MAX_ENTRIES];
    let all = tree_node::pool::count(t, n);
    let mut i = boxes::measure(t, leg, n, &mut corners);
    let mut kept = k;
    let mut known = edge;
    for _ in 0..all {
        let step = search_entry(t, leg, h, n, i, corners[i], work, kept, near, known);
        kept = step.k;
        known = step.edge;
        i = after(i, all);
    }
    kept
}
