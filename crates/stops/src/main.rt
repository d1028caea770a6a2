// The batch program: commands from standard input, reports to standard output. Document 01, "Legs to try", last
// paragraph.
#![tactic(auto)]

mod arguments;
mod streams;

ghost use Rattle.std.specs.Prelude.{◌≡◌, ◌≤◌, ◌<◌, length, take};
ghost use Rattle.table_rules.specs.Table.{Sound};
ghost use Rattle.stops.specs.Input.{KeptInput, ReadOn};
ghost use Rattle.stops.specs.Calls.{Buffers, WantsMore, Resumable, Follows, after_read};
ghost use Rattle.stops.specs.Calls.{Proceeds, Reported, Turned, Series, Program};

use book::Reason;
use limits::TABLE_BYTES;
use std::io::Read;

// "ends with 2E and the reason byte"
const END_MARK: u8 = 0x2E;

// How a batch ended, how many bytes it left, and whether its report was taken: the reason and the bytes count as well
// where it was not.
#[derive(Clone, Copy)]
struct Batched {
    reason: Reason,
    left: usize,
    taken: bool,
}

// What a read behind the held bytes gave: so many are held now, the input is at its end, or the read failed. An enum
// names the three: a Result of an Option would say the same with two types.
#[derive(Clone, Copy)]
enum Got {
    Bytes(usize),
    Ended,
    Failed,
}

// What follows a batch: one more over so many bytes, or the end with its reason. Or the run breaks off: the input
// cannot be read, the report was not taken, or the count of turns is spent. The ways to break off have no more in
// common than that nothing is written behind them, so they are cases beside the others and no error type.
#[derive(Clone, Copy)]
enum Next {
    More(usize),
    End(Reason),
    Unread,
    Untaken,
    Spent,
}

// Moves the held bytes behind the used ones to the front, and counts them.
fn keep(input: &mut [u8], used: usize, held: usize) -> usize
    requires { (used ≤ held) × (held ≤ length input.old) }
    ensures { KeptInput used held input.old result input.new }
{
    let left = held - used;
    words::shift(input, used, 0, left);
    left
}

// Reads behind the held bytes. Only a read that can bring bytes tells of the end of the input.
fn read_on(rt: &impl Eprint, reader: &mut impl Read, input: &mut [u8], held: usize) -> Got
    requires { held < length input.old }
    ensures { ReadOn held input.old result input.new }
{
    match streams::read(reader, &mut input[held..]) {
        Ok(0) => Got::Ended,
        Ok(n) => Got::Bytes(held + n),
        Err(error) => {
            streams::say_failed(rt, "standard input", &error);
            Got::Failed
        }
    }
}

// A batch over the held bytes, and its report.
fn serve(
    rt: &(impl Print + Eprint),
    table: &mut [u8],
    work: &mut [u8],
    input: &mut [u8],
    held: usize,
    report: &mut [u8],
) -> Batched
    requires { Sound table.old × Buffers work.old input.old report.old × (held ≤ length input.old) }
    ensures { Reported held
        table.old work.old input.old report.old
        result table.new work.new input.new report.new }
{
    let r = service::batch(table, work, &input[..held], report);
    let reason = r.reason;
    let used = r.used;
    let written = r.written;
    let taken = streams::write_all(rt, &report[..written]);
    let left = keep(input, used, held);
    Batched {
        reason,
        left,
        taken,
    }
}

// At the end of the input the reason of the last batch is the program's.
fn after_read(got: Got, reason: Reason) -> Next
    ensures { result ≡ after_read got reason }
{
    match got {
        Got::Bytes(held) => Next::More(held),
        Got::Ended => Next::End(reason),
        Got::Failed => Next::Unread,
    }
}

// After a batch that wants more bytes.
fn join(
    rt: &impl Eprint,
    reader: &mut impl Read,
    input: &mut [u8],
    reason: Reason,
    left: usize,
) -> Next
    requires { (left < length input.old) × WantsMore reason }
    ensures { Follows (length input.old) reason (take left input.old)
        result input.new }
{
    let got = read_on(rt, reader, input, left);
    after_read(got, reason)
}

// After 68 the report buffer is free again, and the same command finds room.
fn follow(
    rt: &impl Eprint,
    reader: &mut impl Read,
    input: &mut [u8],
    reason: Reason,
    left: usize,
) -> Next
    requires { (left ≤ length input.old) × Resumable (length input.old) reason left }
    ensures { Follows (length input.old) reason (take left input.old)
        result input.new }
{
    match reason {
        Reason::AllUsed => join(rt, reader, input, reason, left),
        Reason::CutShort => join(rt, reader, input, reason, left),
        Reason::NoRoom => Next::More(left),
        Reason::UnknownCommand => Next::End(Reason::UnknownCommand),
        Reason::WrongLength => Next::End(Reason::WrongLength),
        Reason::Broken => Next::End(Reason::Broken),
        Reason::BrokenStanding => Next::End(Reason::BrokenStanding),
    }
}

// What follows a batch. A report that was not taken is the last.
fn proceed(rt: &impl Eprint, reader: &mut impl Read, input: &mut [u8], b: Batched) -> Next
    requires { (b.left ≤ length input.old) × Resumable (length input.old) b.reason b.left }
    ensures { Proceeds (length input.old) b.reason (take b.left input.old)
        b.taken result input.new }
{
    let reason = b.reason;
    let left = b.left;
    if b.taken {
        return follow(rt, reader, input, reason, left);
    }
    Next::Untaken
}

// A batch over the held bytes, its report, and what follows.
fn turn(
    rt: &(impl Print + Eprint),
    reader: &mut impl Read,
    table: &mut [u8],
    work: &mut [u8],
    input: &mut [u8],
    held: usize,
    report: &mut [u8],
) -> Next
    requires { Sound table.old × Buffers work.old input.old report.old × (held ≤ length input.old) }
    ensures { Turned held
        table.old work.old input.old report.old
        result table.new work.new input.new report.new }
{
    let b = serve(rt, table, work, input, held, report);
    proceed(rt, reader, input, b)
}

// The turns, to the end. Nothing says that an input ends, so they are counted, to a number that no run uses up.
fn run(
    rt: &(impl Print + Eprint),
    reader: &mut impl Read,
    table: &mut [u8],
    work: &mut [u8],
    input: &mut [u8],
    report: &mut [u8],
) -> Next
    requires { Sound table.old × Buffers work.old input.old report.old }
    ensures { Series (length input.old) (length report.old) table.old
        result table.new }
{
    let mut held = 0;
    for _ in 0..u64::MAX {
        let next = turn(rt, reader, table, work, input, held, report);
        match next {
            Next::More(n) => held = n,
            _ => return next,
        }
    }
    Next::Spent
}

// The program on its buffers.
fn serve_all(
    rt: &(impl Print + Eprint),
    reader: &mut impl Read,
    table: &mut [u8; TABLE_BYTES],
    work: &mut [u8],
    input: &mut [u8],
    report: &mut [u8],
) -> Next
    requires { Buffers work.old input.old report.old }
    ensures { Program (length input.old) (length report.old) result table.new }
{
    service::lay_out(table);
    run(rt, reader, table, work, input, report)
}

// Writes the end mark and the reason's byte. A run that broke off has none.
fn end(rt: &(impl Print + Eprint), reason: Reason) {
    let number = u32::from(reason);
    let mark = [END_MARK, number as u8];
    streams::write_all(rt, &mark);
}

fn main(rt: HostRuntime) {
    if arguments::answered(&rt) {
        return;
    }
    let mut table = [0u8; limits::TABLE_BYTES];
    let mut work = [0u8; limits::WORK_BYTES];
    let mut input = [0; 4096];
    let mut report = [0; 8192];
    let mut stdin = rt.stdin();
    let last = serve_all(
        &rt,
        &mut stdin,
        &mut table,
        &mut work,
        &mut input,
        &mut report,
    );
    if let Next::End(reason) = last {
        end(&rt, reason);
    }
}
