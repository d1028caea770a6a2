// Entries moved from one node to another.
ghost use Rattle.std.specs.Prelude.{◌≡◌, ◌+◌, ◌*◌, ◌<◌, ◌≤◌, length};
ghost use Rattle.limits.specs.Limits.{max_entries, max_nodes, table_bytes};
ghost use Rattle.tree_node.specs.Node.{entries};
ghost use Rattle.tree_repair.specs.Moved.{Moved};

use crate::near;
use limits::TABLE_BYTES;
use tree_node::pool;

// Moves from node c to node d the entry that is nearest to d.
fn move_one(table: &mut [u8; TABLE_BYTES], c: usize, d: usize)
    requires { (c < max_nodes) × (d < max_nodes) × (c ≡ d → ⊥)
        × (0 < length (entries table.old c)) × (length (entries table.old d) < max_entries) }
    ensures { Moved c d 1 table.old table.new }
{
    let k = near::nearest(table, c, d);
    let e = pool::entry_at(table, c, k);
    pool::drop_entry(table, c, k);
    pool::push(table, d, e);
}

// Moves m entries from node c to node d.
pub fn move_some(table: &mut [u8; TABLE_BYTES], c: usize, d: usize, m: usize)
    requires { (c < max_nodes) × (d < max_nodes) × (c ≡ d → ⊥)
        × (m ≤ length (entries table.old c)) × (length (entries table.old d) + m ≤ max_entries) }
    ensures { Moved c d m table.old table.new }
{
    for _ in 0..m {
        move_one(table, c, d);
    }
}

// How many of so many entries go to a node that has few: as many as even the two out.
// Only speed depends on it, as long as both have enough.
pub fn quota(many: usize, few: usize) -> usize
    requires { few + 2 ≤ many }
    ensures { (1 ≤ result) × (few + 2 * result ≤ many) }
{
    (many - few) / 2
}
