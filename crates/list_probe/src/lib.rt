// One call for tests: the record of the list of a leg over an array of site records, built with no tree.
#![tactic(auto)]

ghost use Rattle.std.specs.Prelude.{◌*◌, ◌≤◌, length};
ghost use Rattle.limits.specs.Limits.{max_sites};
ghost use Rattle.grid.specs.Position.{LegOnGrid};
ghost use Rattle.grid.specs.Says.{Says};
ghost use Rattle.list_row.specs.Vertices.{row_bytes};
ghost use Rattle.list_probe.specs.SiteArray.{probe_bytes, sites_from, HasSites, Built};
ghost use Rattle.list_probe.specs.Probing.{Orderly, Buildable, Written, leg_of, Probed};

use grid::{Leg, Position};
use list_row::Row;

// The bytes of a site record, and the places from one to the next: a place is half an offset.
const SITE_BYTES: usize = 8;

const SITE_PLACES: usize = 4;

// Whether the numbers of n site records rise from 1 on and their positions are on the grid.
fn orderly(t: &[u8], n: usize) -> bool
    requires { (n ≤ max_sites) × (probe_bytes * n ≤ length t.now) }
    ensures { Says result (Orderly 0 (sites_from t.now 0 n)) }
{
    let mut last = 0;
    for i in 0..n {
        let site = list_row::site_at(t, SITE_PLACES * i);
        if site.number <= last {
            return false;
        }
        if !grid::coordinate::on_grid(site.position) {
            return false;
        }
        last = site.number;
    }
    true
}

// Whether a list can be built: few enough sites, all of them there and in order, a leg on the grid, and room for work.
fn buildable(t: &[u8], n: usize, leg: Leg, room: usize) -> bool
    ensures { Says result (Buildable t.now n leg room) }
{
    n <= limits::MAX_SITES
        && SITE_BYTES * n <= t.len()
        && list_row::ROW_BYTES <= room
        && grid::coordinate::leg_on_grid(leg)
        && orderly(t, n)
}

// Deals with n site records of 8 bytes each, which begin at byte `from`, the last one first. The list stands in the row
// that begins the work buffer.
fn build(t: &[u8], from: usize, n: usize, leg: Leg, work: &mut [u8]) -> usize
    requires { HasSites t.now from n × LegOnGrid leg × (row_bytes ≤ length work.old) }
    ensures { Built leg t.now from n work.old work.new result }
{
    let first = from / 2;
    let mut k = 0;
    for i in (0..n).rev() {
        k = list_skip::deal(t, leg, first + SITE_PLACES * i, work, k);
    }
    k
}

// Builds the list and writes its record, if there is room for it.
fn written(t: &[u8], n: usize, leg: Leg, work: &mut [u8], report: &mut [u8]) -> usize
    requires { Buildable t.now n leg (length work.old) }
    ensures { Written t.now n leg work.old work.new report.old
        report.new result }
{
    let k = build(t, 0, n, leg, work);
    let size = call_record::list_size(k);
    if report.len() < size {
        return 0;
    }
    let row = Row {
        t,
        places: work,
        leg,
        k,
    };
    call_record::put_list(row, 0, report, 0)
}

// Writes the record of the list of the leg over the n site records at the beginning of the table, and says how many
// bytes it has. Says 0 and leaves the report where an argument is off or it has no room. Coordinates are counted from
// the grid's south-west corner.
#[unsafe(no_mangle)]
pub extern "C" fn probe_list(
    table: &[u8],
    n: usize,
    seast: u16,
    snorth: u16,
    eeast: u16,
    enorth: u16,
    work: &mut [u8],
    report: &mut [u8],
) -> usize
    ensures { Probed table.now n (leg_of seast snorth eeast enorth) work.old
        work.new report.old report.new result }
{
    let leg = Leg {
        s: Position {
            east: seast,
            north: snorth,
        },
        e: Position {
            east: eeast,
            north: enorth,
        },
    };
    if buildable(table, n, leg, work.len()) {
        return written(table, n, leg, work, report);
    }
    0
}
