// The commands of a batch, in turn, on a sound table. Document 01, "The site book".
#![tactic(auto)]

pub mod carry;
pub mod record;

ghost use Rattle.std.specs.Prelude.{◌+◌, ◌≤◌, length};
ghost use Rattle.list_row.specs.Vertices.{row_bytes};
ghost use Rattle.table_rules.specs.Table.{Sound};
ghost use Rattle.book.specs.Reply.{record_size};
ghost use Rattle.call_judge.specs.Judged.{reply_of, RowOk};
ghost use Rattle.call_judge.specs.Verdict.{answer_of, Findings};
ghost use Rattle.call_serve.specs.Serving.{Obeyed, Answered};

use book::{BatchResult, Cause, Parsed, Reason};
use call_judge::Verdict;
use limits::TABLE_BYTES;

// Writes the record of a verdict or a refusal, and does what it says.
fn obey(
    t: &mut [u8; TABLE_BYTES],
    work: &mut [u8],
    v: Result<Verdict, Cause>,
    report: &mut [u8],
    at: usize,
)
    requires sound { Sound t.old × (row_bytes ≤ length work.old) }
    requires findings { Findings v t.old × RowOk (answer_of v) t.old work.old
        × (at + record_size (reply_of (answer_of v) t.old work.old) ≤ length report.old) }
    ensures { Obeyed v t.old work.old t.new
        report.old at report.new }
{
    let a = call_judge::reply(v);
    record::put(t, work, a, report, at);
    carry::carry(t, work, v);
}

// Takes the commands in turn until one ends the batch.
pub fn serve(
    t: &mut [u8; TABLE_BYTES],
    work: &mut [u8],
    commands: &[u8],
    report: &mut [u8],
) -> BatchResult
    requires { Sound t.old × (row_bytes ≤ length work.old) }
    ensures { Answered commands.now t.old report.old
        result t.new report.new }
{
    let mut used = 0;
    let mut written = 0;
    loop {
        let p = call_parse::parse(commands, used);
        match p {
            Parsed::End => return BatchResult::new(Reason::AllUsed, used, written),
            Parsed::Unknown => return BatchResult::new(Reason::UnknownCommand, used, written),
            Parsed::Cut => return BatchResult::new(Reason::CutShort, used, written),
            Parsed::Whole(c, next) => {
                let v = call_judge::judge(t, work, c);
                let a = call_judge::reply(v);
                let size = record::size(a);
                if report.len() - written < size {
                    return BatchResult::new(Reason::NoRoom, used, written);
                }
                let upto = written + size;
                obey(t, work, v, report, written);
                used = next;
                written = upto;
            }
        }
    }
}
