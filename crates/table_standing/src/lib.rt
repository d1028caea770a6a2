// The standing list, as the table stores it: the site number of each entry.
#![tactic(auto)]

ghost use Rattle.std.specs.Prelude.{◌≡◌, ◌<◌, length};
ghost use Rattle.limits.specs.Limits.{max_sites};
ghost use Rattle.list_row.specs.Vertices.{Held, entries_in};
ghost use Rattle.table_standing.specs.Standing.{stored_number, NumberRow, ListStored};

use grid::Leg;
use limits::TABLE_BYTES;

// Where the first number stands: docs/LAYOUT.md.
const LIST_START: usize = 4160;

// The site number of entry i.
pub fn number(t: &[u8; TABLE_BYTES], i: usize) -> u16
    requires { i < max_sites }
    ensures { (result ≡ stored_number t.now i) × (result < 65536) }
{
    words::word(t, LIST_START + 2 * i)
}

// Turns the row of k places into the row of their sites' numbers.
fn number_row(t: &[u8], work: &mut [u8], leg: Leg, k: usize)
    requires { Held leg t.now work.old k }
    ensures { NumberRow t.now work.old k work.new }
{
    for i in 0..k {
        let n = list_row::number_in(t, work, i);
        words::put_word(work, 2 * i, n);
    }
}

// Stores the list in the first k of the row as the standing list. The row is spent.
pub fn store_list(t: &mut [u8; TABLE_BYTES], work: &mut [u8], leg: Leg, k: usize)
    requires { Held leg t.old work.old k }
    ensures stored { ListStored (entries_in leg t.old work.old k) t.old
        t.new }
    ensures kept { length work.new ≡ length work.old }
{
    number_row(t, work, leg, k);
    words::copy(work, 0, t, LIST_START, 2 * k);
    table_header::put_length(t, k as u16);
}
