// The stored standing list: loaded into a row of places, from site numbers back to records, searched for a number,
// and asked whether it keeps a site out.
#![tactic(auto)]

ghost use Rattle.std.specs.Prelude.{◌≡◌, true, ◌<◌, ◌≤◌, length, Some};
ghost use mathlib.Core.List.{Memᴰ};
ghost use Rattle.limits.specs.Limits.{max_sites};
ghost use Rattle.grid.specs.Position.{LegOnGrid};
ghost use Rattle.grid.specs.Says.{Says, If};
ghost use Rattle.book.specs.Book.{holds};
ghost use Rattle.list_row.specs.Vertices.{Small, row_bytes};
ghost use Rattle.table_header.specs.Header.{leg_in, length_in};
ghost use Rattle.table_sites.specs.Lines.{lines_in, StandsAt};
ghost use Rattle.table_sites.specs.Rules.{SitesOk};
ghost use Rattle.table_standing.specs.Standing.{standing_in};
ghost use Rattle.table_rules.specs.Table.{Sound};
ghost use Rattle.table_rules.specs.Listing.{ListsTable};
ghost use Rattle.table_list.specs.Loading.{PlaceOf, NumbersHeld, PlacesOf, EntryShuts};

use grid::{Corner, Leg};
use limits::TABLE_BYTES;
use list_row::Vertex;

// The place of record k, which has the number n.
pub fn place_at(t: &[u8; TABLE_BYTES], n: u16, k: usize) -> usize
    requires { SitesOk t.now × StandsAt k n (lines_in t.now) }
    ensures { PlaceOf t.now n result }
{
    table_sites::place_of_record(k)
}

// The place of the record that has the number n.
pub fn place_of(t: &[u8; TABLE_BYTES], n: u16) -> usize
    requires { SitesOk t.now × (holds n (lines_in t.now) ≡ true) }
    ensures { PlaceOf t.now n result }
{
    let k = table_sites::find(t, n).unwrap();
    place_at(t, n, k)
}

// Writes the places of the stored numbers into the row that begins the work buffer.
pub fn places(t: &[u8; TABLE_BYTES], work: &mut [u8]) -> usize
    requires { SitesOk t.now × NumbersHeld t.now
        × (row_bytes ≤ length work.old) }
    ensures { PlacesOf t.now work.old work.new result }
{
    let k = table_header::length(t);
    for i in 0..k {
        let n = table_standing::number(t, i);
        let p = place_of(t, n);
        list_row::put_place(work, i, p);
    }
    k
}

// Loads the standing list into the row that begins the work buffer.
pub fn load(t: &[u8; TABLE_BYTES], work: &mut [u8], leg: Leg) -> usize
    requires { Sound t.now × (leg_in t.now ≡ Some leg) × (row_bytes ≤ length work.old) }
    ensures { ListsTable leg t.now work.new result }
{
    places(t, work)
}

// Whether the standing list names site n.
pub fn lists(t: &[u8; TABLE_BYTES], n: u16) -> bool
    requires { length_in t.now ≤ max_sites }
    ensures { Says result (Memᴰ n (standing_in t.now)) }
{
    let k = table_header::length(t);
    for i in 0..k {
        if table_standing::number(t, i) == n {
            return true;
        }
    }
    false
}

// Whether entry i keeps the site x out.
fn entry_shuts(t: &[u8; TABLE_BYTES], leg: Leg, i: usize, x: Vertex) -> bool
    requires t_len { SitesOk t.now × NumbersHeld t.now }
    requires leg_on_grid { LegOnGrid leg × Small x × (i < length_in t.now) }
    ensures { If result (EntryShuts leg t.now x.a x.c) }
{
    let n = table_standing::number(t, i);
    let p = place_of(t, n);
    let v = list_row::vertex_at(t, leg, p);
    list_skip::lower(Corner { a: v.a, c: v.c }, Corner { a: x.a, c: x.c })
}

// Whether the last entry keeps the site x out, or the first one: where x is far from the leg, one of them does, and
// no other need be loaded.
pub fn end_shuts(t: &[u8; TABLE_BYTES], leg: Leg, x: Vertex) -> bool
    requires t_len { SitesOk t.now × NumbersHeld t.now }
    requires leg_on_grid { LegOnGrid leg × Small x }
    ensures { If result (EntryShuts leg t.now x.a x.c) }
{
    let k = table_header::length(t);
    k > 0 && (entry_shuts(t, leg, k - 1, x) || entry_shuts(t, leg, 0, x))
}
