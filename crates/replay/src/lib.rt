// Real calls, and the theorem over whole lists of calls cited for them: whoever makes calls of the service may cite
// it so. Calls that end with 64, 0, 66, 67 and 68, each with buffers of its own, and then one leg asked of this
// table and of a fresh one with the same sites.
#![tactic(auto)]

pub mod damage;
pub mod survey;

ghost use Rattle.std.specs.Prelude.{◌≤◌};
ghost use Rattle.limits.specs.Limits.{work_bytes};
ghost use Rattle.replay.specs.Replayed.{ask, Called, Opened, Closed, Refilled, AskedTen, Replayed};

use book::BatchResult;
use limits::{TABLE_BYTES, WORK_BYTES};

// What a call returned, and its report.
#[derive(Clone, Copy)]
pub struct Heard<const ROOM: usize> {
    result: BatchResult,
    report: [u8; ROOM],
}

// What the first two calls said: with too short a work buffer, and with all commands used.
#[derive(Clone, Copy)]
pub struct Opening {
    short: Heard<2>,
    used: Heard<2>,
}

// What the three behind them said: ended by an unknown command, by a cut one, and for want of room.
#[derive(Clone, Copy)]
pub struct Closing {
    unknown: Heard<2>,
    cut: Heard<2>,
    full: Heard<2>,
}

// These, and the reports of the leg on both tables.
#[derive(Clone, Copy)]
pub struct Row {
    opening: Opening,
    closing: Closing,
    ours: [u8; 23],
    theirs: [u8; 23],
}

// A call with buffers of its own.
fn hear<const WORK: usize, const ROOM: usize>(table: &mut [u8], commands: &[u8]) -> Heard<ROOM>
    requires { WORK ≤ work_bytes }
    ensures { Called (ask WORK commands.now ROOM)
        result.result table.old table.new result.report }
{
    let mut work = [0u8; WORK];
    let mut report = [0u8; ROOM];
    let result = service::batch(table, &mut work, commands, &mut report);
    Heard { result, report }
}

// Lays out a table and adds sites 1 and 2, once with too short a work buffer.
fn begin(table: &mut [u8; TABLE_BYTES]) -> Opening
    ensures { Opened result table.new }
{
    service::lay_out(table);
    let add = [0x41u8, 1, 0, 2, 0, 3, 0, 0x41, 2, 0, 7, 0, 1, 0];
    let short = hear::<1, 2>(table, &add);
    let used = hear::<WORK_BYTES, 2>(table, &add);
    Opening { short, used }
}

// Adds site 3, with an unknown command behind it; removes it, with a cut command behind that; asks for a leg
// without room.
fn go_on(table: &mut [u8]) -> Closing
    ensures { Closed result table.old table.new }
{
    let add = [0x41u8, 3, 0, 9, 0, 0xFC, 0xFF, 0xFF];
    let unknown = hear::<WORK_BYTES, 2>(table, &add);
    let remove = [0x44u8, 3, 0, 0x41, 1, 0];
    let cut = hear::<WORK_BYTES, 2>(table, &remove);
    let list = [0x4Cu8, 0, 0, 0, 0, 10, 0, 0, 0];
    let full = hear::<WORK_BYTES, 2>(table, &list);
    Closing { unknown, cut, full }
}

// Lays out a table and adds site 2, and in another batch site 1.
fn refill(table: &mut [u8; TABLE_BYTES])
    ensures { Refilled table.new }
{
    service::lay_out(table);
    let two = [0x41u8, 2, 0, 7, 0, 1, 0];
    let one = [0x41u8, 1, 0, 2, 0, 3, 0];
    hear::<WORK_BYTES, 2>(table, &two);
    hear::<WORK_BYTES, 2>(table, &one);
}

// Asks for the list of the leg from (0, 0) to (10, 0).
fn ask_ten(table: &mut [u8]) -> [u8; 23]
    ensures { AskedTen table.old result table.new }
{
    let list = [0x4Cu8, 0, 0, 0, 0, 10, 0, 0, 0];
    hear::<WORK_BYTES, 23>(table, &list).report
}

// The calls on one table, and the leg asked of it and of a fresh one.
pub fn replay() -> Row
    ensures { Replayed result }
{
    let mut table = [0u8; limits::TABLE_BYTES];
    let mut fresh = [0u8; limits::TABLE_BYTES];
    let opening = begin(&mut table);
    let closing = go_on(&mut table);
    let ours = ask_ten(&mut table);
    refill(&mut fresh);
    let theirs = ask_ten(&mut fresh);
    Row {
        opening,
        closing,
        ours,
        theirs,
    }
}
