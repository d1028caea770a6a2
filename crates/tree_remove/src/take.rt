// A leaf entry is looked for and taken: "an entry above the leaves" is read "by reading its child node", by two
// functions that call each other. Only boxes that hold the entry's are searched. On the way up each parent repairs
// its child's entry.
ghost use Rattle.std.specs.Prelude.{◌≡◌, [], ◌∷◌, ◌<◌, ◌≤◌, length, get_or, drop};
ghost use Rattle.limits.specs.Limits.{max_nodes, table_bytes};
ghost use Rattle.tree_node.specs.Boxes.{InBox};
ghost use Rattle.tree_node.specs.Node.{entries, no_entry};
ghost use Rattle.tree_node.specs.Told.{Told};
ghost use Rattle.tree_remove.specs.Take.{Next, NextTold, Prunable, Sought};

use limits::TABLE_BYTES;
use tree_node::{NodeEntry, pool};
use tree_repair::repair;

// Whether the box of f holds the box of e: no side of e's lies beyond. A sum of choices of values: no branch foresees
// how boxes lie.
fn holds(f: NodeEntry, e: NodeEntry) -> bool
    ensures { Told result (InBox e f) (InBox e f) }
{
    let beyond = u16::from(e.west < f.west)
        + u16::from(e.south < f.south)
        + u16::from(f.east < e.east)
        + u16::from(f.north < e.north);
    beyond == 0
}

// The first entry of node n from k on of which `asked` says true.
// The closure is compiled into the loop: a call for each entry would cost more than the test of its box.
fn next_where<F: Fn(NodeEntry) -> bool>(
    table: &[u8; TABLE_BYTES],
    n: usize,
    k: usize,
    asked: F,
) -> Option<usize>
    requires place { (n < max_nodes) × (k ≤ length (entries table.now n)) }
    requires callable { F.IsAlwaysCallable asked }
    ensures { NextTold (F.post asked) (entries table.now n) k result }
{
    for i in k..pool::count(table, n) {
        if asked(pool::entry_at(table, n, i)) {
            return Some(i);
        }
    }
    None
}

// The first entry of node n from k on whose box holds the box of e.
fn next_holding(table: &[u8; TABLE_BYTES], n: usize, k: usize, e: NodeEntry) -> Option<usize>
    requires { (n < max_nodes) × (k ≤ length (entries table.now n)) }
    ensures { Next (λ f. InBox e f) (entries table.now n) k result }
{
    next_where(table, n, k, |f| holds(f, e))
}

// The first entry of node n from k on that is e.
fn next_equal(table: &[u8; TABLE_BYTES], n: usize, k: usize, e: NodeEntry) -> Option<usize>
    requires { (n < max_nodes) × (k ≤ length (entries table.now n)) }
    ensures { Next (λ f. f ≡ e) (entries table.now n) k result }
{
    next_where(
        table,
        n,
        k,
        |f|
            ensures { Told result (f ≡ e) (f ≡ e) }
        { f == e },
    )
}

// Takes the leaf entry e from the entries from k on of the leaf n. Whether it was there.
fn take_from_leaf(table: &mut [u8; TABLE_BYTES], n: usize, k: usize, e: NodeEntry) -> bool
    requires { Prunable 0 n table.old × (k ≤ length (entries table.old n)) }
    ensures { Sought result 0 n e (drop k (entries table.old n)) table.old
        table.new }
{
    match next_equal(table, n, k, e) {
        None => false,
        Some(i) => {
            pool::drop_entry(table, n, i);
            true
        }
    }
}

// Takes the leaf entry e from under f, which is entry k of node n and stands at height h, above the leaves. Whether it
// was there.
#[cycle(take_take_child)]
fn take_child(
    table: &mut [u8; TABLE_BYTES],
    h: usize,
    n: usize,
    k: usize,
    f: NodeEntry,
    e: NodeEntry,
) -> bool
    requires { Prunable h n table.old × (h ≡ 0 → ⊥) × (k < length (entries table.old n))
        × (f ≡ get_or (entries table.old n) k no_entry) }
    ensures { Sought result h n e (f ∷ []) table.old table.new }
{
    if !take(table, h - 1, usize::from(f.reference), 0, e) {
        return false;
    }
    repair::repair(table, n, k, f);
    true
}

// Takes the leaf entry e from under the entries from k on of node n, which stand at height h. Whether it was there.
#[cycle(take_take_child)]
pub fn take(table: &mut [u8; TABLE_BYTES], h: usize, n: usize, k: usize, e: NodeEntry) -> bool
    requires { Prunable h n table.old × (k ≤ length (entries table.old n)) }
    ensures { Sought result h n e (drop k (entries table.old n)) table.old
        table.new }
{
    if h == 0 {
        return take_from_leaf(table, n, k, e);
    }
    match next_holding(table, n, k, e) {
        None => false,
        Some(i) => {
            let f = pool::entry_at(table, n, i);
            take_child(table, h, n, i, f, e) || take(table, h, n, i + 1, e)
        }
    }
}
