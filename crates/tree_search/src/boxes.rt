// The boxes of a node's entries, seen from the ends of the leg: measured once, for the choice of the first entry and
// for the tests.
ghost use Rattle.std.specs.Prelude.{◌≡◌, ◌<◌, length};
ghost use Rattle.limits.specs.Limits.{max_entries, max_nodes};
ghost use Rattle.grid.specs.Position.{LegOnGrid};
ghost use Rattle.list_skip.specs.Skipping.{IsCorner};
ghost use Rattle.tree_node.specs.Node.{entries};
ghost use Rattle.tree_rules.specs.Tree.{Each};
ghost use Rattle.tree_search.specs.Sites.{area_of, BoxOnGrid};
ghost use Rattle.tree_search.specs.Searching.{entry_of, Measured};

use grid::{Area, Corner, Leg};
use limits::TABLE_BYTES;
use tree_node::NodeEntry;

// The box of an entry.
fn area_of(e: NodeEntry) -> Area
    ensures { result ≡ area_of e }
{
    Area {
        west: e.west,
        south: e.south,
        east: e.east,
        north: e.north,
    }
}

// How far the box of entry i of node n is from the leg's two ends, squared.
fn corner_at(t: &[u8; TABLE_BYTES], leg: Leg, n: usize, i: usize) -> Corner
    requires t_len { (n < max_nodes) × (i < length (entries t.now n)) }
    requires on_grid { LegOnGrid leg × Each BoxOnGrid (entries t.now n) }
    ensures { IsCorner leg (area_of (entry_of t.now n i)) result }
{
    let area = area_of(tree_node::pool::entry_at(t, n, i));
    Corner {
        a: grid::distance::from_area(area, leg.s) as u32,
        c: grid::distance::from_area(area, leg.e) as u32,
    }
}

// Measures the boxes of node n from the leg's two ends, and gives the entry to be read first: the one whose box is
// nearest to both together. That makes the search two to three times as quick, since a good list early shuts out
// more; any answer would do, so the contract says no more than that there is such an entry.
pub fn measure(
    t: &[u8; TABLE_BYTES],
    leg: Leg,
    n: usize,
    corners: &mut [Corner; limits::MAX_ENTRIES],
) -> usize
    requires t_len { (n < max_nodes) × (0 < length (entries t.now n)) }
    requires leg_on_grid { LegOnGrid leg × Each BoxOnGrid (entries t.now n) × (length corners.old ≡ max_entries) }
    ensures first { result < length (entries t.now n) }
    ensures measured { Measured leg t.now n (length (entries t.now n)) corners.new }
{
    let mut best = 0;
    let mut least = u64::MAX;
    for i in 0..tree_node::pool::count(t, n) {
        let corner = corner_at(t, leg, n, i);
        corners[i] = corner;
        let far = u64::from(corner.a) + u64::from(corner.c);
        if far < least {
            best = i;
            least = far;
        }
    }
    best
}
