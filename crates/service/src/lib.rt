// The two public calls: laying out a table, and a batch of commands on it. Document 01, "Buffers and batches".
#![tactic(auto)]

ghost use Rattle.std.specs.Prelude.{◌≡◌, length};
ghost use Rattle.demands.specs.Batch.{return_of, Served, Batch, LaidOut};
ghost use Rattle.limits.specs.Limits.{work_bytes};
ghost use Rattle.book.specs.Numbers.{reason_number};
ghost use Rattle.book.specs.Run.{run};
ghost use Rattle.table_rules.specs.Table.{book_of, Sound};

use book::{BatchResult, Reason};
use limits::TABLE_BYTES;

// Lays out an empty table.
pub fn lay_out(table: &mut [u8]) -> Reason
    ensures { LaidOut table.old (reason_number result) table.new }
{
    let Some(table) = table.as_mut_array() else {
        return Reason::WrongLength;
    };
    table_empty::lay(table);
    Reason::AllUsed
}

// Carries out commands on a sound table, and clears the work buffer.
fn carry_out(
    table: &mut [u8; TABLE_BYTES],
    work: &mut [u8],
    commands: &[u8],
    report: &mut [u8],
) -> BatchResult
    requires { Sound table.old × (length work.old ≡ work_bytes) }
    ensures { Served
        (run commands.now (length report.old) (book_of table.old))
        table.old report.old
        (return_of result) table.new work.new report.new }
{
    let r = call_serve::serve(table, work, commands, report);
    table_empty::clear(work);
    r
}

// Carries out commands on a table, with a report for their records and a work buffer, which is all zero afterwards,
// except after 64.
pub fn batch(table: &mut [u8], work: &mut [u8], commands: &[u8], report: &mut [u8]) -> BatchResult
    ensures { Batch table.old work.old commands.now report.old
        (return_of result) table.new work.new report.new }
{
    if let Err(reason) = table_admit::admit(table, work) {
        return BatchResult::new(reason, 0, 0);
    }
    // What is admitted has the table's length.
    let Some(table) = table.as_mut_array() else {
        unreachable!()
    };
    carry_out(table, work, commands, report)
}
