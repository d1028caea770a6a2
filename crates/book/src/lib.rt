// The site book of document 01: commands, causes and reasons as the code has them. What the book does with them
// stands in specs/.
#![tactic(auto)]

use grid::{Leg, Position};
use readings::Location;

// A command with its operands. Document 01, "Buffers and batches"; the last two are those of document 02, C-13. Added
// and moved is to steps or to receiver readings: document 02, C-15, "Commands 61 and 6D do what 41 and 4D do".
#[derive(Clone, Copy)]
pub enum Command {
    Add(u16, Location),
    Remove(u16),
    Move(u16, Location),
    List(Leg),
    Stand(Leg),
    Print,
    Begin(Position),
    Corner(Position),
}

// The operands of a command. Document 01, the column "Operands": none; number; position; number,
// position; S, E; and a number with two receiver readings (document 02, C-15).
#[derive(Clone, Copy)]
pub enum Shape {
    Nothing,
    Number,
    OnePosition,
    NumberPosition,
    TwoPositions,
    NumberReadings,
}

// A tour: the last corner, and the number of "the site that ended the previous leg's whole list in this tour", none
// before the first leg. Document 02, C-13.
#[derive(Clone, Copy)]
pub struct Tour {
    pub corner: Position,
    pub last: Option<u16>,
}

// What stands at a byte of the commands: their end, no command, a command that is cut short, or a whole one and where
// the next begins. Four cases of one enum: the end of the commands is no error, so a Result would need a second type for
// the other three.
#[derive(Clone, Copy)]
pub enum Parsed {
    End,
    Unknown,
    Cut,
    Whole(Command, usize),
}

// Why a command is refused. Document 01, "Causes and numbers", 1 to 7; document 02, 8 (C-13) and 11 (C-15).
#[derive(Clone, Copy)]
pub enum Cause {
    NumberZero,
    OffGrid,
    Held,
    NotHeld,
    Full,
    NoSite,
    NoLeg,
    NoTour,
    NotFinite,
}

// How a call ends: 0, and 64 to 69.
#[derive(Clone, Copy)]
pub enum Reason {
    AllUsed,
    WrongLength,
    Broken,
    UnknownCommand,
    CutShort,
    NoRoom,
    BrokenStanding,
}

// What a batch call returns: the reason, the command bytes used, the report bytes written.
#[derive(Clone, Copy)]
pub struct BatchResult {
    pub reason: Reason,
    pub used: usize,
    pub written: usize,
}

ghost use Rattle.std.specs.Prelude.{◌≡◌};
ghost use Rattle.book.specs.Numbers.{cause_number, reason_number};

impl BatchResult {
    // The result of a call that ends for this reason, with so many bytes used and written.
    pub fn new(reason: Reason, used: usize, written: usize) -> BatchResult
        ensures { result ≡ record { reason = reason; used = used; written = written } }
    {
        BatchResult {
            reason,
            used,
            written,
        }
    }
}

// A cause's number.
impl From<Cause> for u8 {
    ghost from_gives = { λ cause number. number ≡ cause_number cause };

    fn from(cause: Cause) -> u8 {
        match cause {
            Cause::NumberZero => 1,
            Cause::OffGrid => 2,
            Cause::Held => 3,
            Cause::NotHeld => 4,
            Cause::Full => 5,
            Cause::NoSite => 6,
            Cause::NoLeg => 7,
            Cause::NoTour => 8,
            Cause::NotFinite => 11,
        }
    }
}

// A reason's number.
impl From<Reason> for u32 {
    ghost from_gives = { λ reason number. number ≡ reason_number reason };

    fn from(reason: Reason) -> u32 {
        match reason {
            Reason::AllUsed => 0,
            Reason::WrongLength => 64,
            Reason::Broken => 65,
            Reason::UnknownCommand => 66,
            Reason::CutShort => 67,
            Reason::NoRoom => 68,
            Reason::BrokenStanding => 69,
        }
    }
}
