// The split of a node: its eight entries and a ninth are dealt to it and to a new node, three to six to each. Follows
// Guttman's R-tree, which document 01, "The tree", names. That no entry is lost or doubled holds for any mask
// (deal.rt); which mask is good is a heuristic with no contract beyond safety (mask.rt): it tries every cut along
// both axes, where Guttman grows two groups from two seeds.
#![tactic(auto)]

ghost use Rattle.std.specs.Prelude.{◌≡◌, ◌<◌, length};
ghost use Rattle.limits.specs.Limits.{max_entries, max_nodes, table_bytes};
ghost use Rattle.tree_node.specs.Node.{entries};
ghost use Rattle.tree_node.specs.Free.{free};
ghost use Rattle.tree_node.specs.Tally.{tally, Within};
ghost use Rattle.tree_split.specs.Parted.{Parted};

use limits::TABLE_BYTES;
use tree_node::NodeEntry;

pub mod deal;
pub mod mask;

// What a split deals: the entries of a full node and one more.
const OVERFULL: usize = limits::MAX_ENTRIES + 1;

// What it leaves to a node at most: all but the least.
const MOST_PARTED: usize = OVERFULL - limits::MIN_ENTRIES;

// Splits node c, which has eight entries, and x. Returns the new node.
pub fn split(table: &mut [u8; TABLE_BYTES], c: usize, x: NodeEntry) -> usize
    requires { (c < max_nodes) × (length (entries table.old c) ≡ max_entries)
        × (0 < length (free table.old)) × (tally c (free table.old) ≡ 0) × Within max_nodes (free table.old) }
    ensures { Parted c result x table.old table.new }
{
    let mask = mask::split_mask(table, c, x);
    deal::part(table, c, x, mask)
}
