// The test of the free nodes.
ghost use Rattle.tree_node.specs.Free.{free};
ghost use Rattle.tree_node.specs.Tally.{tally};
ghost use Rattle.tree_node.specs.Told.{Told};
ghost use Rattle.tree_check.specs.Marks.{Marked, Bits, FreePass};

use crate::{SEEN_BYTES, marks};
use limits::{MAX_NODES, TABLE_BYTES};

// Whether each free node is one of the pool and has no mark yet. Marks them.
pub fn check_free(t: &[u8; TABLE_BYTES], seen: &mut [u8; SEEN_BYTES]) -> bool
    requires { Bits seen.old }
    ensures { Told result (FreePass t.now seen.old)
        (Marked (λ m. tally m (free t.now)) seen.old seen.new) }
{
    let n = tree_node::free::free_count(t);
    for k in 0..n {
        let c = tree_node::free::id_at(t, k);
        if MAX_NODES <= c || !marks::mark(seen, c) {
            return false;
        }
    }
    true
}
