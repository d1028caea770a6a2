// Accepted changes, carried out: the site array, the tree, and then the standing list; the tour.
#![tactic(auto)]

ghost use Rattle.std.specs.Prelude.{◌<◌, ◌≤◌, length, ◌≡◌, None};
ghost use Rattle.limits.specs.Limits.{max_sites};
ghost use Rattle.grid.specs.Position.{OnGrid, LegOnGrid};
ghost use Rattle.list_row.specs.Vertices.{row_bytes};
ghost use Rattle.readings.specs.declared.Location.{Location};
ghost use Rattle.book.specs.declared.Command.{Command};
ghost use Rattle.book.specs.Book.{write_line, strike_line, move_line, change};
ghost use Rattle.book.specs.Proper.{NumberOk};
ghost use Rattle.table_sites.specs.Lines.{lines_in, StandsAt, StandsNowhere};
ghost use Rattle.table_rules.specs.Table.{book_of, Whole, Sound};
ghost use Rattle.demands.specs.Step.{Holds};
ghost use mathlib.Core.List.{Memᴰ};
ghost use Rattle.words.specs.Words.{Only};
ghost use Rattle.table_header.specs.Layout.{tour_start, tour_end};
ghost use Rattle.table_header.specs.Header.{tour_in};
ghost use Rattle.table_rules.specs.Following.{Follows};
ghost use Rattle.tree_node.specs.Header.{root_in};
ghost use Rattle.tree_rules.specs.Rooted.{Rooted, leaves_in};
ghost use Rattle.table_change.specs.Changes.{Swapped, Relined};

use book::Tour;
use grid::{Leg, Position, Site};
use limits::TABLE_BYTES;
use tree_check::leaf_entry;
use tree_node::NodeEntry;

// Adds a site whose record goes before record k.
fn grow(t: &mut [u8; TABLE_BYTES], k: usize, site: Site)
    requires whole { Whole t.old × (tour_in t.old ≡ None) × StandsNowhere k site.number (lines_in t.old)
        × (length (lines_in t.old) < max_sites) }
    requires number_ok { NumberOk site × OnGrid site.position }
    ensures { Relined (write_line site (lines_in t.old)) t.old t.new }
{
    table_sites::change::insert(t, k, site);
    let e = leaf_entry(site);
    tree_add::add(t, e);
}

// Removes the site of record k.
fn shrink(t: &mut [u8; TABLE_BYTES], k: usize, n: u16)
    requires { Whole t.old × (tour_in t.old ≡ None) × StandsAt k n (lines_in t.old) }
    ensures { Relined (strike_line n (lines_in t.old)) t.old t.new }
{
    let e = leaf_entry(table_sites::line(t, k));
    table_sites::change::delete(t, k);
    tree_remove::remove(t, e);
}

// Puts one leaf entry in the place of another.
fn swap_leaf(t: &mut [u8; TABLE_BYTES], old: NodeEntry, new: NodeEntry)
    requires { Rooted (root_in t.old) t.old × Memᴰ old (leaves_in t.old)
        × (length (leaves_in t.old) ≤ max_sites) }
    ensures { Swapped old new t.old t.new }
{
    tree_remove::remove(t, old);
    tree_add::add(t, new);
}

// Gives the site of record k a new position.
fn relocate(t: &mut [u8; TABLE_BYTES], k: usize, site: Site)
    requires { Whole t.old × (tour_in t.old ≡ None) × StandsAt k site.number (lines_in t.old)
        × OnGrid site.position }
    ensures { Relined (move_line site.number site.position (lines_in t.old)) t.old
        t.new }
{
    let old = leaf_entry(table_sites::line(t, k));
    let new = leaf_entry(site);
    let p = site.position;
    table_sites::change::place(t, k, p);
    swap_leaf(t, old, new);
}

// Adds a site whose record goes before record k. Document 01, command 41.
pub fn insert(t: &mut [u8; TABLE_BYTES], work: &mut [u8], k: usize, site: Site)
    requires sound { Sound t.old × StandsNowhere k site.number (lines_in t.old)
        × (length (lines_in t.old) < max_sites) }
    requires number_ok { NumberOk site × OnGrid site.position × (row_bytes ≤ length work.old) }
    ensures { Holds t.new
        (change (Command.Add site.number (Location.InSteps site.position)) (book_of t.old)) }
{
    table_header::store_tour(t, None);
    grow(t, k, site);
    let n = site.number;
    table_patch::patch_held(t, work, n, k);
}

// Removes site n, of record k. Document 01, command 44.
pub fn delete(t: &mut [u8; TABLE_BYTES], work: &mut [u8], k: usize, n: u16)
    requires { Sound t.old × StandsAt k n (lines_in t.old) × (row_bytes ≤ length work.old) }
    ensures { Holds t.new (change (Command.Remove n) (book_of t.old)) }
{
    table_header::store_tour(t, None);
    shrink(t, k, n);
    table_patch::patch_gone(t, work, n);
}

// Gives the site of record k a new position. Document 01, command 4D. It differs from `insert` in the change of the
// lines: a closure for that would need the clauses of both.
pub fn place(t: &mut [u8; TABLE_BYTES], work: &mut [u8], k: usize, site: Site)
    requires { Sound t.old × StandsAt k site.number (lines_in t.old) × OnGrid site.position
        × (row_bytes ≤ length work.old) }
    ensures { Holds t.new
        (change (Command.Move site.number (Location.InSteps site.position)) (book_of t.old)) }
{
    table_header::store_tour(t, None);
    relocate(t, k, site);
    let n = site.number;
    table_patch::patch_held(t, work, n, k);
}

// Sets the standing leg. Document 01, command 53.
pub fn stand(t: &mut [u8; TABLE_BYTES], work: &mut [u8], leg: Leg)
    requires { Sound t.old × LegOnGrid leg × (row_bytes ≤ length work.old) }
    ensures { Holds t.new (change (Command.Stand leg) (book_of t.old)) }
{
    table_header::store_leg(t, leg);
    table_patch::restand(t, work);
}

// Begins a tour. Document 02, C-13, command 42.
pub fn begin(t: &mut [u8; TABLE_BYTES], p: Position)
    requires { Sound t.old × OnGrid p }
    ensures { Holds t.new (change (Command.Begin p) (book_of t.old))
        × Only tour_start tour_end t.old t.new }
{
    table_header::store_tour(
        t,
        Some(Tour {
            corner: p,
            last: None,
        }),
    );
}

// Goes on with the tour along this leg, whose whole list ends with site n. Document 02, C-13, command 43.
pub fn follow(t: &mut [u8; TABLE_BYTES], leg: Leg, n: u16)
    requires { Sound t.old × Follows leg n t.old }
    ensures { Holds t.new (change (Command.Corner leg.e) (book_of t.old))
        × Only tour_start tour_end t.old t.new }
{
    table_header::store_tour(
        t,
        Some(Tour {
            corner: leg.e,
            last: Some(n),
        }),
    );
}
