// The one door for a lent table: lengths, then contents. Document 01, "The table's length is tested first, then the
// work buffer's, then the table's contents"; document 02, C-17: 69 is "tested directly after 65".
#![tactic(auto)]

ghost use Rattle.std.specs.Prelude.{◌≡◌};
ghost use Rattle.demands.specs.Batch.{lengths_ok};
ghost use Rattle.table_admit.specs.Admitted.{AdmittedAs};

use book::Reason;
use limits::TABLE_BYTES;

// Whether the table and the work buffer have the lengths that are asked for.
fn lengths_ok(table: &[u8], work: &[u8]) -> bool
    ensures { result ≡ lengths_ok table.now work.now }
{
    table.len() == TABLE_BYTES && work.len() == limits::WORK_BYTES
}

// Takes the table and the work buffer, or says why not. The work buffer is left after 64 and all zero after 65 and 69;
// where the table is taken it holds what the tests left.
pub fn admit(table: &[u8], work: &mut [u8]) -> Result<(), Reason>
    ensures { AdmittedAs result table.now work.old work.new }
{
    if !lengths_ok(table, work) {
        return Err(Reason::WrongLength);
    }
    // What has the table's length is an array of so many bytes.
    let Ok(table) = <&[u8; TABLE_BYTES]>::try_from(table) else {
        unreachable!()
    };
    if !table_check::whole_ok(table, work) {
        table_empty::clear(work);
        return Err(Reason::Broken);
    }
    if table_check::standing_ok(table, work) {
        return Ok(());
    }
    table_empty::clear(work);
    Err(Reason::BrokenStanding)
}
