// The two tests of a table's contents, of any 32,768 bytes: whether layout, tree, sites and tour keep their rules
// (document 01, reason 65), and whether the standing leg and list do (document 02, C-17, reason 69).
#![tactic(auto)]

ghost use Rattle.std.specs.Prelude.{◌≡◌, ◌≤◌, length};
ghost use Rattle.grid.specs.Position.{LegOnGrid};
ghost use Rattle.grid.specs.Says.{Says};
ghost use Rattle.list_row.specs.Vertices.{row_bytes, Held, entries_in};
ghost use Rattle.book.specs.Proper.{LastHeld, TourOk};
ghost use Rattle.table_header.specs.Header.{tour_in};
ghost use Rattle.table_sites.specs.Lines.{lines_in, Array};
ghost use Rattle.table_standing.specs.Standing.{standing_in, numbers_of};
ghost use Rattle.tree_check.specs.Marks.{seen_bytes};
ghost use Rattle.tree_check.specs.Tied.{Tied};
ghost use Rattle.table_rules.specs.Table.{Whole, StandingOk};

use grid::Leg;
use limits::TABLE_BYTES;
use list_row::Row;

// Whether the stored standing list has the numbers of the list in the first k of the row. The row is made here, so that
// its table is the one whose stored numbers are read.
fn list_matches(t: &[u8; TABLE_BYTES], places: &[u8], leg: Leg, k: usize) -> bool
    requires { Held leg t.now places.now k × LegOnGrid leg }
    ensures { Says result (standing_in t.now ≡ numbers_of (entries_in leg t.now places.now k)) }
{
    let row = Row { t, places, leg, k };
    let n = table_header::length(t);
    if n != k {
        return false;
    }
    for i in 0..k {
        let stored = table_standing::number(t, i);
        if row.number(i) != stored {
            return false;
        }
    }
    true
}

// The second test: whether the standing leg and the standing list keep their rules, in a table whose other rules hold.
pub fn standing_ok(t: &[u8; TABLE_BYTES], work: &mut [u8]) -> bool
    requires { Whole t.now × (row_bytes ≤ length work.old) }
    ensures { Says result (StandingOk t.now) }
{
    match table_header::leg(t) {
        None => table_header::length(t) == 0,
        Some(leg) => {
            if grid::coordinate::leg_on_grid(leg) {
                let k = table_search::search(t, leg, work);
                return list_matches(t, work, leg, k);
            }
            false
        }
    }
}

// Whether the site that is remembered, if there is one, is held.
fn remembered_ok(t: &[u8; TABLE_BYTES], last: Option<u16>) -> bool
    requires { Array t.now }
    ensures { Says result (LastHeld last (lines_in t.now)) }
{
    match last {
        None => true,
        Some(n) => table_sites::find(t, n).is_ok(),
    }
}

// Whether the tour keeps its rules.
fn tour_ok(t: &[u8; TABLE_BYTES]) -> bool
    requires { Array t.now }
    ensures { Says result (TourOk (tour_in t.now) (lines_in t.now)) }
{
    match table_header::tour(t) {
        None => true,
        Some(k) => grid::coordinate::on_grid(k.corner) && remembered_ok(t, k.last),
    }
}

// Whether the tree keeps its rules and has the leaf entries of the site array. The marks stand at the front of the work
// buffer.
fn tree_ok(t: &[u8; TABLE_BYTES], work: &mut [u8]) -> bool
    requires { Array t.now × (seen_bytes ≤ length work.old) }
    ensures { Says result (Tied t.now) }
{
    let Some(seen) = work.first_chunk_mut() else {
        unreachable!()
    };
    tree_check::check(t, seen)
}

// The first test: whether sites, header, tour and tree keep their rules.
pub fn whole_ok(t: &[u8; TABLE_BYTES], work: &mut [u8]) -> bool
    requires { seen_bytes ≤ length work.old }
    ensures { Says result (Whole t.now) }
{
    table_sites::rules::check(t) && table_header::header_ok(t) && tour_ok(t) && tree_ok(t, work)
}
