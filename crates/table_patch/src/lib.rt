// The standing list after a change of the sites: patched by the one site whose record has changed, or made anew by a
// search of the tree.
#![tactic(auto)]

ghost use Rattle.std.specs.Prelude.{◌≡◌, false, ◌≤◌, length, Some};
ghost use Rattle.list_row.specs.Vertices.{row_bytes};
ghost use Rattle.book.specs.Book.{holds};
ghost use Rattle.book.specs.Proper.{LegOk};
ghost use Rattle.table_header.specs.Header.{leg_in};
ghost use Rattle.table_sites.specs.Lines.{lines_in, StandsAt};
ghost use Rattle.table_rules.specs.Table.{book_of, Whole};
ghost use Rattle.demands.specs.Step.{Holds};
ghost use Rattle.table_list.specs.Loading.{PlaceOf};
ghost use Rattle.table_patch.specs.Patching.{ListsOthers, Patchable};

use grid::Leg;
use limits::TABLE_BYTES;

// Makes the standing list anew.
pub fn restand(t: &mut [u8; TABLE_BYTES], work: &mut [u8])
    requires { Whole t.old × LegOk (leg_in t.old) × (row_bytes ≤ length work.old) }
    ensures { Holds t.new (book_of t.old) }
{
    match table_header::leg(t) {
        None => table_header::put_length(t, 0),
        Some(leg) => {
            let k = table_search::search(t, leg, work);
            table_standing::store_list(t, work, leg, k);
        }
    }
}

// Deals site n, whose place is p, into the list of the leg over the other sites. Places are loaded from the changed
// table: a record that comes moves those behind it.
fn deal_in(t: &mut [u8; TABLE_BYTES], work: &mut [u8], leg: Leg, n: u16, p: usize)
    requires whole { Whole t.old × LegOk (leg_in t.old) × (leg_in t.old ≡ Some leg) × (row_bytes ≤ length work.old) }
    requires lists_others { ListsOthers n t.old × PlaceOf t.old n p }
    ensures { Holds t.new (book_of t.old) }
{
    let k = table_list::places(t, work);
    let m = list_skip::deal(t, leg, p, work, k);
    table_standing::store_list(t, work, leg, m);
}

// Deals site n, of record k, into the list of the leg over the other sites. Most sites are far from the leg: an end
// of the list keeps them out, and it stays.
fn deal_along(t: &mut [u8; TABLE_BYTES], work: &mut [u8], leg: Leg, n: u16, k: usize)
    requires whole { Whole t.old × LegOk (leg_in t.old) × (leg_in t.old ≡ Some leg) × (row_bytes ≤ length work.old) }
    requires lists_others { ListsOthers n t.old × StandsAt k n (lines_in t.old) }
    ensures { Holds t.new (book_of t.old) }
{
    let p = table_list::place_at(t, n, k);
    let x = list_row::vertex_at(t, leg, p);
    if table_list::end_shuts(t, leg, x) {
        return;
    }
    deal_in(t, work, leg, n, p);
}

// Deals site n, of record k, into the standing list, which is that of the other sites.
fn deal_site(t: &mut [u8; TABLE_BYTES], work: &mut [u8], n: u16, k: usize)
    requires whole { Whole t.old × LegOk (leg_in t.old) × (row_bytes ≤ length work.old) }
    requires lists_others { ListsOthers n t.old × StandsAt k n (lines_in t.old) }
    ensures { Holds t.new (book_of t.old) }
{
    if let Some(leg) = table_header::leg(t) {
        deal_along(t, work, leg, n, k);
    }
}

// Brings the standing list up to date when site n, of record k, has come or moved. A list that does not name n is
// that of the other sites, so n is dealt in. Where n is named, sites that it kept out may come in, and only a search
// finds them.
pub fn patch_held(t: &mut [u8; TABLE_BYTES], work: &mut [u8], n: u16, k: usize)
    requires { Patchable n t.old × StandsAt k n (lines_in t.old) × (row_bytes ≤ length work.old) }
    ensures { Holds t.new (book_of t.old) }
{
    if table_list::lists(t, n) {
        restand(t, work);
        return;
    }
    deal_site(t, work, n, k);
}

// Brings the standing list up to date when site n has gone: a list that does not name it stays.
pub fn patch_gone(t: &mut [u8; TABLE_BYTES], work: &mut [u8], n: u16)
    requires { Patchable n t.old × (holds n (lines_in t.old) ≡ false) × (row_bytes ≤ length work.old) }
    ensures { Holds t.new (book_of t.old) }
{
    let named = table_list::lists(t, n);
    if named {
        restand(t, work);
    }
}
