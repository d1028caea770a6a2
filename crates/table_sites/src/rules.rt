// The test of the site array in any bytes.
ghost use Rattle.std.specs.Prelude.{◌+◌, ◌≤◌, length};
ghost use Rattle.grid.specs.Says.{Says};
ghost use Rattle.table_sites.specs.Layout.{site_bytes};
ghost use Rattle.table_sites.specs.Rules.{SitesOk, RecordOk};

use crate::{EAST_OFFSET, NORTH_OFFSET, SITE_BYTES, SITE_START, SPARE_OFFSET};
use limits::TABLE_BYTES;

// Whether the record at byte i keeps the rules, where the record before it has the number low.
fn record_ok(t: &[u8], i: usize, low: u16) -> bool
    requires { i + site_bytes ≤ length t.now }
    ensures { Says result (RecordOk t.now i low) }
{
    let number = words::word(t, i);
    let east = words::word(t, i + EAST_OFFSET);
    let north = words::word(t, i + NORTH_OFFSET);
    let spare = words::word(t, i + SPARE_OFFSET);
    low < number && east <= limits::GRID_WIDTH && north <= limits::GRID_WIDTH && spare == 0
}

// Whether the site array keeps the rules on sites.
pub fn check(t: &[u8; TABLE_BYTES]) -> bool
    ensures { Says result (SitesOk t.now) }
{
    let n = table_header::count(t);
    if limits::MAX_SITES < n {
        return false;
    }
    let mut low = 0;
    for k in 0..n {
        let i = SITE_START + SITE_BYTES * k;
        if !record_ok(t, i, low) {
            return false;
        }
        low = words::word(t, i);
    }
    true
}
