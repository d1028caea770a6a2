// The test of arbitrary bytes: whether the tree in a table keeps its rules and its leaf entries are those of the site
// array. Follows document 01, "The tree", and its cause 65. The test walks the tree once and marks each node and each
// record that it meets, so that no node is read twice: rubbish costs no more than a full tree.
#![tactic(auto)]

pub mod free;
pub mod hints;
pub mod marks;
pub mod walk;

ghost use Rattle.std.specs.Prelude.{◌≡◌};
ghost use Rattle.grid.specs.Says.{Says};
ghost use Rattle.table_sites.specs.Lines.{Array};
ghost use Rattle.tree_check.specs.Leaves.{leaf_entry};
ghost use Rattle.tree_check.specs.Tied.{Tied};

use grid::{Position, Site};
use limits::{MAX_NODES, TABLE_BYTES};
use tree_node::NodeEntry;

// What has to be lent beside the table: the marks, and behind them the hints.
pub const SEEN_BYTES: usize = marks::MARK_BYTES + hints::HINT_BYTES;

// The leaf entry of a site.
pub fn leaf_entry(p: Site) -> NodeEntry
    ensures { result ≡ leaf_entry p }
{
    let Position { east, north } = p.position;
    NodeEntry {
        reference: p.number,
        west: east,
        south: north,
        east,
        north,
        spare: 0,
    }
}

// Whether the tree in the table keeps its rules and has the leaf entries of the site array, whose numbers rise.
// The bytes of `seen` are changed.
pub fn check(t: &[u8; TABLE_BYTES], seen: &mut [u8; SEEN_BYTES]) -> bool
    requires { Array t.now }
    ensures { Says result (Tied t.now) }
{
    let n = table_header::count(t);
    hints::note(t, n, seen);
    marks::clear(seen);
    if !walk::check_root(t, seen) {
        return false;
    }
    free::check_free(t, seen) && marks::full(seen, MAX_NODES + n)
}
