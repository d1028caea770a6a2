// The search of a leg over the tree: the list of all its sites. Follows the depth-first search of document 002,
// section 4, over the tree of document 01. There the entries of a node are sorted; here the nearest one is read first
// and the others in stored order, since sorting them all did not pay. What the list shuts out is skipped, a whole
// subtree at a time; ties are no skip. Each entry is read at most once, so a row of 512 is enough.
#![tactic(auto)]

pub mod boxes;
pub mod descent;

ghost use Rattle.std.specs.Prelude.{◌≤◌, length};
ghost use Rattle.limits.specs.Limits.{max_sites};
ghost use Rattle.grid.specs.Position.{LegOnGrid};
ghost use Rattle.list_row.specs.Vertices.{row_bytes};
ghost use Rattle.tree_node.specs.Header.{root_in};
ghost use Rattle.tree_rules.specs.Tree.{Each};
ghost use Rattle.tree_rules.specs.Rooted.{Rooted, leaves_in};
ghost use Rattle.tree_search.specs.Sites.{LeafPoint};
ghost use Rattle.tree_search.specs.Searching.{ListsTree};

use grid::Leg;
use limits::TABLE_BYTES;

// Makes the list of the tree's sites in the row that begins the work buffer.
pub fn search(t: &[u8; TABLE_BYTES], leg: Leg, work: &mut [u8]) -> usize
    requires rooted { Rooted (root_in t.now) t.now × Each LeafPoint (leaves_in t.now)
        × (length (leaves_in t.now) ≤ max_sites) }
    requires leg_on_grid { LegOnGrid leg × (row_bytes ≤ length work.old) }
    ensures { ListsTree leg t.now work.old work.new result }
{
    match tree_node::header::read_root(t) {
        None => 0,
        Some(top) => {
            let edge = list_skip::no_edge();
            descent::search_node(t, leg, top.height, top.node, work, 0, 0, edge)
        }
    }
}
