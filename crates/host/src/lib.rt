// The two calls as the depot server's host program links them (include/stops.h). Document 01: "The batch call is
// also exported to the host program of the depot server".
#![tactic(auto)]

ghost use Rattle.demands.specs.Batch.{LaidOut};
ghost use Rattle.host.specs.Exported.{ExportedBatch};

// Lays out an empty table, and gives the reason's number.
#[unsafe(no_mangle)]
pub extern "C" fn stops_lay_out(table: &mut [u8]) -> u32
    ensures { LaidOut table.old result table.new }
{
    let reason = service::lay_out(table);
    u32::from(reason)
}

// Carries out commands, gives the reason's number, and sets the command bytes used and the report bytes written.
#[unsafe(no_mangle)]
pub extern "C" fn stops_batch(
    table: &mut [u8],
    work: &mut [u8],
    commands: &[u8],
    report: &mut [u8],
    used: &mut usize,
    written: &mut usize,
) -> u32
    ensures { ExportedBatch
        table.old work.old commands.now report.old
        result used.new written.new
        table.new work.new report.new }
{
    let r = service::batch(table, work, commands, report);
    let reason = r.reason;
    *used = r.used;
    *written = r.written;
    u32::from(reason)
}
