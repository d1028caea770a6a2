// The marks of what a walk has met, in lent bytes.
ghost use Rattle.std.specs.Prelude.{◌≡◌, ◌≤◌, ◌<◌, length, get_or, set};
ghost use Rattle.grid.specs.Says.{Says};
ghost use Rattle.tree_node.specs.Told.{Told};
ghost use Rattle.tree_check.specs.Marks.{mark_bytes, Blank, Full};

use crate::SEEN_BYTES;
use std::mem;

// A byte for each node and for each record.
pub const MARK_BYTES: usize = limits::MAX_NODES + limits::MAX_SITES;

// Takes every mark away.
pub fn clear(seen: &mut [u8; SEEN_BYTES])
    ensures { Blank seen.new }
{
    seen[..MARK_BYTES].fill(0);
}

// Sets mark m. Whether it was not set before.
pub fn mark(seen: &mut [u8], m: usize) -> bool
    requires { m < length seen.old }
    ensures { Told result (get_or seen.old m 0 ≡ 0) (seen.new ≡ set seen.old m 1) }
{
    mem::replace(&mut seen[m], 1) == 0
}

// Whether each of the first l marks is set. All are read: the least of many bytes takes less time than a branch for
// each.
pub fn full(seen: &[u8; SEEN_BYTES], l: usize) -> bool
    requires { l ≤ mark_bytes }
    ensures { Says result (Full l seen.now) }
{
    let mut least = u8::MAX;
    for m in 0..l {
        least = least.min(seen[m]);
    }
    0 < least
}
