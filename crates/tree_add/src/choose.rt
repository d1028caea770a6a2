// Under which entry a new one goes: a heuristic. The box that grows least in half-perimeter, and of those the smallest.
// Guttman's ChooseLeaf goes by area, which is 0 for all points on a line along an axis.
ghost use Rattle.std.specs.Prelude.{◌≡◌, ◌<◌, length};
ghost use Rattle.limits.specs.Limits.{max_nodes, table_bytes};
ghost use Rattle.tree_node.specs.Node.{entries};

use limits::TABLE_BYTES;
use tree_node::{NodeEntry, boxes, pool};

// More than half the perimeter of any box.
const PAST_HALF: u64 = 131072;

// How bad it is to add e under f: first by how much f's box grows, then by the box.
fn cost(e: NodeEntry, f: NodeEntry) -> u64 {
    let before = boxes::half_perimeter(f);
    let growth = boxes::half_perimeter(boxes::grown(e, f)).saturating_sub(before);
    PAST_HALF * u64::from(growth) + u64::from(before)
}

// The entry of node n under which e goes.
pub fn choose(table: &[u8; TABLE_BYTES], n: usize, e: NodeEntry) -> usize
    requires { (n < max_nodes) × (0 < length (entries table.now n)) }
    ensures { result < length (entries table.now n) }
{
    pool::least_by(table, n, |f| cost(e, f))
}
