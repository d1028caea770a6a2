// A node gets the entry of a child back that has lost an entry.
ghost use Rattle.std.specs.Prelude.{◌≡◌, ◌<◌, ◌≤◌, length};
ghost use Rattle.limits.specs.Limits.{max_entries};
ghost use Rattle.tree_node.specs.Node.{entries, swap_out};
ghost use Rattle.tree_repair.specs.Repair.{Loose, Repaired};

use crate::{join, near};
use limits::{MIN_ENTRIES, TABLE_BYTES};
use tree_node::{NodeEntry, boxes, pool};

// Node n, which has lost the entry of its child c, gets it back joined with the nearest sibling: c has two entries
// only.
fn join_nearest(table: &mut [u8; TABLE_BYTES], n: usize, c: usize)
    requires { Loose n c (entries table.old n) table.old × (length (entries table.old c) ≡ 2)
        × (0 < length (entries table.old n)) × (length (entries table.old n) < max_entries) }
    ensures { Repaired n c (entries table.old n) table.old table.new }
{
    let j = near::nearest(table, n, c);
    let g = pool::entry_at(table, n, j);
    pool::drop_entry(table, n, j);
    join::join(table, n, c, usize::from(g.reference));
}

// Node n, which has lost its entry f, gets it back with the box that f's child has now, or joined with a sibling
// where the child has too few entries.
fn restore(table: &mut [u8; TABLE_BYTES], n: usize, f: NodeEntry)
    requires { Loose n f.reference (entries table.old n) table.old
        × (0 < length (entries table.old n)) × (length (entries table.old n) < max_entries) }
    ensures { Repaired n f.reference (entries table.old n) table.old
        table.new }
{
    let c = usize::from(f.reference);
    if pool::count(table, c) < MIN_ENTRIES {
        join_nearest(table, n, c);
    } else {
        let g = boxes::hull_of(table, c);
        pool::push(table, n, g);
    }
}

// Repairs entry k of node n, f, whose child has lost an entry.
pub fn repair(table: &mut [u8; TABLE_BYTES], n: usize, k: usize, f: NodeEntry)
    requires { Loose n f.reference (swap_out (entries table.old n) k) table.old
        × (k < length (entries table.old n)) × (2 ≤ length (entries table.old n)) }
    ensures { Repaired n f.reference (swap_out (entries table.old n) k) table.old
        table.new }
{
    pool::drop_entry(table, n, k);
    restore(table, n, f);
}
