// An answer's record.
ghost use Rattle.std.specs.Prelude.{◌≡◌, ◌+◌, ◌≤◌, length};
ghost use Rattle.records.specs.Bytes.{write};
ghost use Rattle.book.specs.Reply.{record_of, record_size};
ghost use Rattle.call_judge.specs.Judged.{reply_of, RowOk};
ghost use Rattle.call_serve.specs.Serving.{Sized, Few};

use call_judge::Answer;
use list_row::Row;

// How many bytes it takes.
pub fn size(a: Answer) -> usize
    requires { Few a }
    ensures { Sized a result }
{
    match a {
        Answer::Done => call_record::DONE_SIZE,
        Answer::Refused(_) => call_record::REFUSAL_SIZE,
        Answer::Listed(_, j, k) => call_record::list_size(k - j),
    }
}

// Writes it to the report from byte `at` on.
pub fn put(t: &[u8], work: &[u8], a: Answer, report: &mut [u8], at: usize)
    requires { RowOk a t.now work.now
        × (at + record_size (reply_of a t.now work.now) ≤ length report.old) }
    ensures { report.new
        ≡ write report.old at (record_of (reply_of a t.now work.now)) }
{
    match a {
        Answer::Done => call_record::put_done(report, at),
        Answer::Refused(cause) => call_record::put_refusal(cause, report, at),
        Answer::Listed(leg, j, k) => {
            let row = Row {
                t,
                places: work,
                leg,
                k,
            };
            call_record::put_list(row, j, report, at);
        }
    }
}
