// Which entry is nearest to a node. Only speed depends on it: any entry would do, so the contracts say no more than
// that there is one.
ghost use Rattle.std.specs.Prelude.{◌≡◌, ◌<◌, length};
ghost use Rattle.limits.specs.Limits.{max_nodes, table_bytes};
ghost use Rattle.tree_node.specs.Node.{entries};

use limits::TABLE_BYTES;
use tree_node::{boxes, pool};

// The entry of node n whose box and node c's have the smallest box around both, by its half-perimeter.
pub fn nearest(table: &[u8; TABLE_BYTES], n: usize, c: usize) -> usize
    requires { (n < max_nodes) × (c < max_nodes)
        × (0 < length (entries table.now n)) }
    ensures { result < length (entries table.now n) }
{
    let f = boxes::hull_of(table, c);
    pool::least_by(
        table,
        n,
        |e| u64::from(boxes::half_perimeter(boxes::grown(e, f))),
    )
}
