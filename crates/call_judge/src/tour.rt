// The commands of a tour: its beginning, its next leg. Document 02, C-13.
ghost use Rattle.std.specs.Prelude.{◌≡◌, ◌≤◌, ◌<◌, length, Some};
ghost use Rattle.grid.specs.Position.{OnGrid};
ghost use Rattle.book.specs.declared.Command.{Command};
ghost use Rattle.list_row.specs.Vertices.{row_bytes};
ghost use Rattle.table_header.specs.Header.{tour_in};
ghost use Rattle.table_rules.specs.Table.{Sound};
ghost use Rattle.table_rules.specs.Listing.{ListsTable};
ghost use Rattle.call_judge.specs.Verdict.{Decided, Settled, passed_by};

use crate::Verdict;
use book::Cause;
use grid::{Leg, Position};
use limits::TABLE_BYTES;
use list_row::Row;

// A tour begins: position.
pub fn begin(t: &[u8], p: Position) -> Result<Verdict, Cause>
    ensures { Settled result (Command.Begin p) t.now }
{
    if grid::coordinate::on_grid(p) {
        return Ok(Verdict::Begin(p));
    }
    Err(Cause::OffGrid)
}

// How many entries are left out at a list's beginning: the first, if it names the site that is remembered.
fn passed(first: u16, last: Option<u16>) -> u16
    ensures { result ≡ passed_by first last }
{
    u16::from(last == Some(first))
}

// The verdict on the leg of a row, from the corner of a tour that remembers this site.
fn shown(row: Row, last: Option<u16>) -> Result<Verdict, Cause>
    requires sound { Sound row.t.now × (tour_in row.t.now ≡ Some (record { corner = row.leg.s; last = last }))
        × OnGrid row.leg.e }
    requires lists_table { ListsTable row.leg row.t.now row.places.now row.k × (0 < row.k) }
    ensures { let r = row.entry in Decided result (Command.Corner r.leg.e) r.t.now r.places.now }
{
    let first = row.number(0);
    let ending = row.number(row.k - 1);
    let j = passed(first, last);
    Ok(Verdict::Follow(row.leg, j, ending, row.k))
}

// The next leg of a tour: tour, position, site.
pub fn corner(t: &[u8; TABLE_BYTES], work: &mut [u8], p: Position) -> Result<Verdict, Cause>
    requires { Sound t.now × (row_bytes ≤ length work.old) }
    ensures { Decided result (Command.Corner p) t.now work.new }
{
    let tour = table_header::tour(t).ok_or(Cause::NoTour)?;
    if !grid::coordinate::on_grid(p) {
        return Err(Cause::OffGrid);
    }
    if table_header::count(t) == 0 {
        return Err(Cause::NoSite);
    }
    let leg = Leg {
        s: tour.corner,
        e: p,
    };
    let k = table_search::search(t, leg, work);
    let row = Row {
        t,
        places: work,
        leg,
        k,
    };
    shown(row, tour.last)
}
