// The changes of sites: added, removed, moved.
ghost use Rattle.std.specs.Prelude.{◌≡◌, ◌≤◌};
ghost use Rattle.limits.specs.Limits.{max_sites};
ghost use Rattle.grid.specs.Position.{OnGrid};
ghost use Rattle.readings.specs.declared.Location.{Location};
ghost use Rattle.book.specs.declared.Command.{Command};
ghost use Rattle.book.specs.Proper.{NumberOk};
ghost use Rattle.table_rules.specs.Table.{Sound};
ghost use Rattle.call_judge.specs.Verdict.{TestedAs, Settled};

use crate::Verdict;
use book::Cause;
use grid::Site;
use limits::TABLE_BYTES;
use readings::Location;

// The tests that an addition and a move begin with: number, readings, position. The grid limit is tested on the step.
fn test(n: u16, l: Location) -> Result<Site, Cause>
    ensures { TestedAs result n l }
{
    if n == 0 {
        return Err(Cause::NumberZero);
    }
    let position = readings::locate(l).ok_or(Cause::NotFinite)?;
    if grid::coordinate::on_grid(position) {
        return Ok(Site {
            number: n,
            position,
        });
    }
    Err(Cause::OffGrid)
}

// A record's index in 16 bits: so a verdict is copied in machine words that no other field shares. The cast is proved
// to lose none.
fn narrow(k: usize) -> u16
    requires { k ≤ max_sites }
    ensures { result ≡ k }
{
    k as u16
}

// An addition of this site: held, full.
fn add_site(t: &[u8; TABLE_BYTES], site: Site) -> Result<Verdict, Cause>
    requires { Sound t.now × NumberOk site × OnGrid site.position }
    ensures { Settled result (Command.Add site.number (Location.InSteps site.position)) t.now }
{
    let k = table_header::count(t);
    match table_sites::find(t, site.number) {
        Ok(_) => Err(Cause::Held),
        Err(at) => {
            if k == limits::MAX_SITES {
                return Err(Cause::Full);
            }
            Ok(Verdict::Insert(narrow(at), site))
        }
    }
}

// A move of this site: held.
fn place_site(t: &[u8; TABLE_BYTES], site: Site) -> Result<Verdict, Cause>
    requires { Sound t.now × NumberOk site × OnGrid site.position }
    ensures { Settled result (Command.Move site.number (Location.InSteps site.position)) t.now }
{
    match table_sites::find(t, site.number) {
        Ok(at) => Ok(Verdict::Place(narrow(at), site)),
        Err(_) => Err(Cause::NotHeld),
    }
}

// An addition: number, readings, position, held, full.
pub fn add(t: &[u8; TABLE_BYTES], n: u16, l: Location) -> Result<Verdict, Cause>
    requires { Sound t.now }
    ensures { Settled result (Command.Add n l) t.now }
{
    let site = test(n, l)?;
    add_site(t, site)
}

// A removal: number, held.
pub fn remove(t: &[u8; TABLE_BYTES], n: u16) -> Result<Verdict, Cause>
    requires { Sound t.now }
    ensures { Settled result (Command.Remove n) t.now }
{
    if n == 0 {
        return Err(Cause::NumberZero);
    }
    match table_sites::find(t, n) {
        Ok(at) => Ok(Verdict::Delete(narrow(at), n)),
        Err(_) => Err(Cause::NotHeld),
    }
}

// A move: number, readings, position, held.
pub fn place(t: &[u8; TABLE_BYTES], n: u16, l: Location) -> Result<Verdict, Cause>
    requires { Sound t.now }
    ensures { Settled result (Command.Move n l) t.now }
{
    let site = test(n, l)?;
    place_site(t, site)
}
