// The commands with a leg: its list, the standing leg, the standing list.
ghost use Rattle.std.specs.Prelude.{◌≤◌, length};
ghost use Rattle.book.specs.declared.Command.{Command};
ghost use Rattle.list_row.specs.Vertices.{row_bytes};
ghost use Rattle.table_rules.specs.Table.{Sound};
ghost use Rattle.call_judge.specs.Verdict.{Decided, Settled};

use crate::Verdict;
use book::Cause;
use grid::Leg;
use limits::TABLE_BYTES;

// A list: leg, site.
pub fn list(t: &[u8; TABLE_BYTES], work: &mut [u8], leg: Leg) -> Result<Verdict, Cause>
    requires { Sound t.now × (row_bytes ≤ length work.old) }
    ensures { Decided result (Command.List leg) t.now work.new }
{
    if grid::coordinate::leg_on_grid(leg) {
        if table_header::count(t) == 0 {
            return Err(Cause::NoSite);
        }
        let k = table_search::search(t, leg, work);
        return Ok(Verdict::Show(leg, k));
    }
    Err(Cause::OffGrid)
}

// A standing leg: leg.
pub fn stand(t: &[u8], leg: Leg) -> Result<Verdict, Cause>
    ensures { Settled result (Command.Stand leg) t.now }
{
    if grid::coordinate::leg_on_grid(leg) {
        return Ok(Verdict::Stand(leg));
    }
    Err(Cause::OffGrid)
}

// The standing list: leg, site.
pub fn print(t: &[u8; TABLE_BYTES], work: &mut [u8]) -> Result<Verdict, Cause>
    requires { Sound t.now × (row_bytes ≤ length work.old) }
    ensures { Decided result Command.Print t.now work.new }
{
    let leg = table_header::leg(t).ok_or(Cause::NoLeg)?;
    if table_header::count(t) == 0 {
        return Err(Cause::NoSite);
    }
    let k = table_list::load(t, work, leg);
    Ok(Verdict::Show(leg, k))
}
