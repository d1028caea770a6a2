// Hints for the search of the site array, in lent bytes behind the marks: for a number modulo so many, half the index
// of a record that has such a number. A hint only saves time: what stands there is tested.
ghost use Rattle.std.specs.Prelude.{◌≤◌, ◌<◌};
ghost use Rattle.limits.specs.Limits.{max_sites};
ghost use Rattle.table_sites.specs.Lines.{lines_in, Array, FoundAs};
ghost use Rattle.tree_check.specs.Marks.{mark_bytes, seen_bytes};

use crate::{SEEN_BYTES, marks};
use limits::TABLE_BYTES;

pub const HINT_BYTES: usize = 1024;

// Where the hint for the number x stands.
fn hint_at(x: u16) -> usize
    ensures { (mark_bytes ≤ result) × (result < seen_bytes) }
{
    marks::MARK_BYTES + usize::from(x) % HINT_BYTES
}

// Stores a hint for each of the first n records.
pub fn note(t: &[u8; TABLE_BYTES], n: usize, seen: &mut [u8; SEEN_BYTES])
    requires { n ≤ max_sites }
{
    for k in 0..n {
        seen[hint_at(table_sites::number(t, k))] = (k / 2) as u8;
    }
}

// Where the number x stands in the site array.
pub fn find(t: &[u8; TABLE_BYTES], x: u16, seen: &[u8; SEEN_BYTES]) -> Result<usize, usize>
    requires { Array t.now }
    ensures { FoundAs result x (lines_in t.now) }
{
    table_sites::find_near(t, x, 2 * usize::from(seen[hint_at(x)]))
}
