// Eight entries and a ninth dealt to two nodes, by the bits of a mask while both keep to three to six.
ghost use Rattle.std.specs.Prelude.{◌≡◌, ◌+◌, ◌<◌, ◌≤◌, length, true, false};
ghost use Rattle.limits.specs.Limits.{min_entries, max_entries, max_nodes, table_bytes};
ghost use Rattle.tree_node.specs.Node.{entries};
ghost use Rattle.tree_node.specs.Free.{free};
ghost use Rattle.tree_node.specs.Tally.{tally, Within};
ghost use Rattle.tree_split.specs.Parted.{most_parted, MovedOne, Dealing, Ninth, Parted};

use crate::MOST_PARTED;
use limits::{MAX_ENTRIES, MIN_ENTRIES, TABLE_BYTES};
use tree_node::{NodeEntry, free, pool};

// Whether an entry goes to the new node, which has m: as bit i of the mask says, so long as the node can end with three
// to six. So many others follow.
fn due(mask: u16, i: usize, m: usize, follow: usize) -> bool
    requires { (i ≤ max_entries) × (m ≤ most_parted) × (follow ≤ max_entries) × (min_entries ≤ m + follow + 1) }
    ensures { (result ≡ true → m < most_parted) × (result ≡ false → min_entries ≤ m + follow) }
{
    if m + follow < MIN_ENTRIES {
        return true;
    }
    m < MOST_PARTED && (mask >> i) & 1 == 1
}

// Moves entry k of node c to node s.
fn shift(table: &mut [u8; TABLE_BYTES], c: usize, s: usize, k: usize)
    requires { (c < max_nodes) × (s < max_nodes) × (c ≡ s → ⊥)
        × (k < length (entries table.old c)) × (length (entries table.old s) < max_entries) }
    ensures { MovedOne c s table.old table.new }
{
    let e = pool::entry_at(table, c, k);
    pool::drop_entry(table, c, k);
    pool::push(table, s, e);
}

// Moves entry k of node c to node s where it is due there. The k before it follow, and the ninth.
fn offer(table: &mut [u8; TABLE_BYTES], c: usize, s: usize, k: usize, mask: u16)
    requires { (c < max_nodes) × (s < max_nodes) × (c ≡ s → ⊥)
        × (k < max_entries) × (k < length (entries table.old c))
        × (length (entries table.old s) ≤ most_parted) × (min_entries ≤ length (entries table.old s) + k + 2) }
    ensures { Dealing c s k table.old table.new }
{
    if due(mask, k, pool::count(table, s), k + 1) {
        shift(table, c, s, k);
    }
}

// Deals the eight entries of node c to it and to node s, which has none: from the last to the first, so that those
// before k keep their places.
fn deal(table: &mut [u8; TABLE_BYTES], c: usize, s: usize, mask: u16)
    requires { (c < max_nodes) × (s < max_nodes) × (c ≡ s → ⊥)
        × (length (entries table.old c) ≡ max_entries) × (length (entries table.old s) ≡ 0) }
    ensures { Dealing c s 0 table.old table.new }
{
    for k in (0..MAX_ENTRIES).rev() {
        offer(table, c, s, k, mask);
    }
}

// Gives the ninth entry x to node c or to node s.
fn place(table: &mut [u8; TABLE_BYTES], c: usize, s: usize, x: NodeEntry, mask: u16)
    requires { (c < max_nodes) × (s < max_nodes) × (c ≡ s → ⊥)
        × (min_entries ≤ length (entries table.old s) + 1) × (length (entries table.old s) ≤ most_parted)
        × (length (entries table.old c) + length (entries table.old s) ≡ max_entries) }
    ensures { Ninth c s x table.old table.new }
{
    if due(mask, MAX_ENTRIES, pool::count(table, s), 0) {
        pool::push(table, s, x);
    } else {
        pool::push(table, c, x);
    }
}

// Splits node c, which has eight entries, and x by the bits of the mask: entry k goes to the new node by bit k, x by
// bit 8. Returns the new node.
pub fn part(table: &mut [u8; TABLE_BYTES], c: usize, x: NodeEntry, mask: u16) -> usize
    requires { (c < max_nodes) × (length (entries table.old c) ≡ max_entries)
        × (0 < length (free table.old)) × (tally c (free table.old) ≡ 0) × Within max_nodes (free table.old) }
    ensures { Parted c result x table.old table.new }
{
    let s = free::fresh(table);
    deal(table, c, s, mask);
    place(table, c, s, x, mask);
    s
}
