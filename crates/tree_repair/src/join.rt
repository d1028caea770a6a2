// A node of two entries is joined with a sibling.
ghost use Rattle.std.specs.Prelude.{◌≡◌, ◌+◌, ◌<◌, ◌≤◌, length};
ghost use Rattle.limits.specs.Limits.{max_entries};
ghost use Rattle.tree_node.specs.Node.{entries};
ghost use Rattle.tree_repair.specs.Repair.{SiblingPair, Merged, Shared, Joined};

use crate::moves;
use limits::{MAX_ENTRIES, TABLE_BYTES};
use tree_node::{boxes, free, pool};

// Node d takes the two entries of node c, which is free then, and node n gets d's entry.
fn merge(table: &mut [u8; TABLE_BYTES], n: usize, c: usize, d: usize)
    requires { SiblingPair n c d table.old × (length (entries table.old d) + 2 ≤ max_entries) }
    ensures { Merged n c d (entries table.old n) table.old table.new }
{
    moves::move_some(table, c, d, 2);
    free::give(table, c);
    boxes::lift(table, n, d);
}

// Node c takes some of the many entries of node d, and node n gets both their entries.
fn share(table: &mut [u8; TABLE_BYTES], n: usize, c: usize, d: usize, many: usize)
    requires { SiblingPair n c d table.old × (many ≡ length (entries table.old d)) × (max_entries < many + 2) }
    ensures { Shared n c d (entries table.old n) table.old table.new }
{
    let m = moves::quota(many, 2);
    moves::move_some(table, d, c, m);
    boxes::lift(table, n, c);
    boxes::lift(table, n, d);
}

// The nodes c, which has two entries, and d become one where its entries have room there, or else share their entries
// anew.
pub fn join(table: &mut [u8; TABLE_BYTES], n: usize, c: usize, d: usize)
    requires { SiblingPair n c d table.old }
    ensures { Joined n c d (entries table.old n) table.old table.new }
{
    let many = pool::count(table, d);
    if many + 2 <= MAX_ENTRIES {
        merge(table, n, c, d);
    } else {
        share(table, n, c, d, many);
    }
}
