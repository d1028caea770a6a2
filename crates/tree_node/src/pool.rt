// The pool of nodes: their entries read, stored, added and dropped.
ghost use Rattle.std.specs.Prelude.{◌≡◌, [], ◌∷◌, ◌++◌, ◌+◌, ◌<◌, ◌≤◌, length, get_or, set};
ghost use Rattle.limits.specs.Limits.{max_entries, max_nodes, table_bytes};
ghost use Rattle.tree_node.specs.Layout.{node_entry_bytes, base, entry_start};
ghost use Rattle.tree_node.specs.Node.{entry_at, put_entry, entries, no_entry, swap_out, Wrote};

use crate::{
    COUNT_BYTES, EAST_EDGE, ENTRY_BYTES, ENTRY_SPARE, NODE_BYTES, NORTH_EDGE, NodeEntry,
    POOL_START, SOUTH_EDGE, WEST_EDGE,
};
use limits::{MAX_ENTRIES, TABLE_BYTES};

// The entry that starts at byte i.
fn get_entry(table: &[u8], i: usize) -> NodeEntry
    requires { i + node_entry_bytes ≤ length table.now }
    ensures { result ≡ entry_at table.now i }
{
    NodeEntry {
        reference: words::word(table, i),
        west: words::word(table, i + WEST_EDGE),
        south: words::word(table, i + SOUTH_EDGE),
        east: words::word(table, i + EAST_EDGE),
        north: words::word(table, i + NORTH_EDGE),
        spare: words::word(table, i + ENTRY_SPARE),
    }
}

// Stores e from byte i on.
fn set_entry(table: &mut [u8], i: usize, e: NodeEntry)
    requires { i + node_entry_bytes ≤ length table.old }
    ensures { table.new ≡ put_entry table.old i e }
{
    words::put_word(table, i, e.reference);
    words::put_word(table, i + WEST_EDGE, e.west);
    words::put_word(table, i + SOUTH_EDGE, e.south);
    words::put_word(table, i + EAST_EDGE, e.east);
    words::put_word(table, i + NORTH_EDGE, e.north);
    words::put_word(table, i + ENTRY_SPARE, e.spare);
}

// Where node n starts.
fn base_of(n: usize) -> usize
    requires { n < max_nodes }
    ensures { result ≡ base n }
{
    POOL_START + NODE_BYTES * n
}

// Where entry k of node n starts.
pub fn entry_start(n: usize, k: usize) -> usize
    requires { (n < max_nodes) × (k < max_entries) }
    ensures { result ≡ entry_start n k }
{
    base_of(n) + COUNT_BYTES + ENTRY_BYTES * k
}

// How many entries node n has.
pub fn count(table: &[u8; TABLE_BYTES], n: usize) -> usize
    requires { n < max_nodes }
    ensures { (result ≡ length (entries table.now n)) × (result ≤ max_entries) }
{
    let stored = usize::from(words::word(table, base_of(n)));
    if stored <= MAX_ENTRIES {
        return stored;
    }
    0
}

// Entry k of node n.
pub fn entry_at(table: &[u8; TABLE_BYTES], n: usize, k: usize) -> NodeEntry
    requires { (n < max_nodes) × (k < length (entries table.now n)) }
    ensures { result ≡ get_or (entries table.now n) k no_entry }
{
    get_entry(table, entry_start(n, k))
}

// Which entry of node n costs least, and of such the first.
pub fn least_by<F: Fn(NodeEntry) -> u64>(table: &[u8; TABLE_BYTES], n: usize, cost: F) -> usize
    requires node { (n < max_nodes) × (0 < length (entries table.now n)) }
    requires callable { F.IsAlwaysCallable cost }
    ensures { result < length (entries table.now n) }
{
    let mut best = 0;
    let mut least = cost(entry_at(table, n, 0));
    for k in 1..count(table, n) {
        let c = cost(entry_at(table, n, k));
        if c < least {
            best = k;
            least = c;
        }
    }
    best
}

// Stores e as entry k of node n.
pub fn put(table: &mut [u8; TABLE_BYTES], n: usize, k: usize, e: NodeEntry)
    requires { (n < max_nodes) × (k < length (entries table.old n)) }
    ensures { Wrote n (set (entries table.old n) k e) table.old table.new }
{
    set_entry(table, entry_start(n, k), e);
}

// Adds e after the entries of node n, which has room for it.
pub fn push(table: &mut [u8; TABLE_BYTES], n: usize, e: NodeEntry)
    requires { (n < max_nodes) × (length (entries table.old n) < max_entries) }
    ensures { Wrote n (entries table.old n ++ (e ∷ [])) table.old table.new }
{
    let k = count(table, n);
    set_entry(table, entry_start(n, k), e);
    words::put_word(table, base_of(n), (k + 1) as u16);
}

// Takes every entry from node n.
pub fn clear(table: &mut [u8; TABLE_BYTES], n: usize)
    requires { n < max_nodes }
    ensures { Wrote n [] table.old table.new }
{
    words::put_word(table, base_of(n), 0);
}

// Takes entry k from node n: the last one takes its place.
pub fn drop_entry(table: &mut [u8; TABLE_BYTES], n: usize, k: usize)
    requires { (n < max_nodes) × (k < length (entries table.old n)) }
    ensures { Wrote n (swap_out (entries table.old n) k) table.old table.new }
{
    let last = count(table, n) - 1;
    let z = entry_at(table, n, last);
    put(table, n, k, z);
    words::put_word(table, base_of(n), last as u16);
}
