// The list of a leg over a whole table. One search answers 4C, makes the standing list anew, and gives the list that
// a stored one is tested against.
#![tactic(auto)]

ghost use Rattle.std.specs.Prelude.{◌≤◌, length};
ghost use Rattle.grid.specs.Position.{LegOnGrid};
ghost use Rattle.list_row.specs.Vertices.{row_bytes};
ghost use Rattle.table_rules.specs.Table.{Whole};
ghost use Rattle.table_rules.specs.Listing.{ListsTable};

use grid::Leg;
use limits::TABLE_BYTES;

// Makes the list in the row that begins the work buffer, and counts its entries.
pub fn search(t: &[u8; TABLE_BYTES], leg: Leg, work: &mut [u8]) -> usize
    requires { Whole t.now × LegOnGrid leg × (row_bytes ≤ length work.old) }
    ensures { ListsTable leg t.now work.new result }
{
    tree_search::search(t, leg, work)
}
