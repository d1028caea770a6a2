// Reads the command that stands at a byte of the commands. Document 01, "Buffers and batches": the table of commands.
#![tactic(auto)]

ghost use Rattle.std.specs.Prelude.{◌≡◌, ◌+◌, ◌≤◌, length, option_map};
ghost use Rattle.book.specs.Command.{operand_bytes, position_at, leg_at, made_at, form_of, parse_at};
ghost use Rattle.call_parse.specs.Rows.{row_of};

use book::{Command, Parsed, Shape};
use grid::{Leg, Position};
use readings::Location::{InMetres, InSteps};
use readings::reading_at;
use words::word;

// The forms of command, a row of the table each. The last two have receiver readings.
#[derive(Clone, Copy)]
enum Form {
    Add,
    Remove,
    Move,
    List,
    Stand,
    Print,
    Begin,
    Corner,
    AddSurveyed,
    MoveSurveyed,
}

// The table of commands: the form of a command byte.
#[tactic(auto, using(crate::proofs::Finding::no_row), unfolding(book::specs::Command::form_of))]
fn form_of(byte: u8) -> Option<Form>
    ensures { option_map row_of result ≡ form_of byte }
{
    match byte {
        0x41 => Some(Form::Add),
        0x44 => Some(Form::Remove),
        0x4D => Some(Form::Move),
        0x4C => Some(Form::List),
        0x53 => Some(Form::Stand),
        0x50 => Some(Form::Print),
        0x42 => Some(Form::Begin),
        0x43 => Some(Form::Corner),
        0x61 => Some(Form::AddSurveyed),
        0x6D => Some(Form::MoveSurveyed),
        _ => None,
    }
}

impl Form {
    // The table of commands: the operands of each.
    fn shape(self) -> Shape
        ensures { result ≡ (row_of self).shape }
    {
        match self {
            Form::Add | Form::Move => Shape::NumberPosition,
            Form::Remove => Shape::Number,
            Form::List | Form::Stand => Shape::TwoPositions,
            Form::Print => Shape::Nothing,
            Form::Begin | Form::Corner => Shape::OnePosition,
            Form::AddSurveyed | Form::MoveSurveyed => Shape::NumberReadings,
        }
    }

    // The table of commands: what each is, with its operands at byte i.
    fn command(self, s: &[u8], i: usize) -> Command
        requires { i + operand_bytes (row_of self).shape ≤ length s.now }
        ensures { result ≡ made_at (row_of self).shape (row_of self).maker s.now i }
    {
        match self {
            Form::Add => Command::Add(word(s, i), InSteps(position_at(s, i + 2))),
            Form::Remove => Command::Remove(word(s, i)),
            Form::Move => Command::Move(word(s, i), InSteps(position_at(s, i + 2))),
            Form::List => Command::List(leg_at(s, i)),
            Form::Stand => Command::Stand(leg_at(s, i)),
            Form::Print => Command::Print,
            Form::Begin => Command::Begin(position_at(s, i)),
            Form::Corner => Command::Corner(position_at(s, i)),
            Form::AddSurveyed => Command::Add(word(s, i), InMetres(reading_at(s, i + 2))),
            Form::MoveSurveyed => Command::Move(word(s, i), InMetres(reading_at(s, i + 2))),
        }
    }
}

// The bytes that operands take.
fn size_of(x: Shape) -> usize
    ensures { result ≡ operand_bytes x }
{
    match x {
        Shape::Nothing => 0,
        Shape::Number => 2,
        Shape::OnePosition => 4,
        Shape::NumberPosition => 6,
        Shape::TwoPositions => 8,
        Shape::NumberReadings => 10,
    }
}

// The position at byte i.
fn position_at(s: &[u8], i: usize) -> Position
    requires { i + 4 ≤ length s.now }
    ensures { result ≡ position_at s.now i }
{
    let east = grid::coordinate::from_word(word(s, i));
    let north = grid::coordinate::from_word(word(s, i + 2));
    Position { east, north }
}

// The leg at byte i.
fn leg_at(s: &[u8], i: usize) -> Leg
    requires { i + 8 ≤ length s.now }
    ensures { result ≡ leg_at s.now i }
{
    let from = position_at(s, i);
    let to = position_at(s, i + 4);
    Leg { s: from, e: to }
}

// What stands at a byte.
#[tactic(auto, using(crate::proofs::Finding::end_is, crate::proofs::Finding::unknown_is))]
pub fn parse(s: &[u8], at: usize) -> Parsed
    ensures { result ≡ parse_at s.now at }
{
    if s.len() <= at {
        return Parsed::End;
    }
    let Some(form) = form_of(s[at]) else {
        return Parsed::Unknown;
    };
    let i = at + 1;
    let size = size_of(form.shape());
    if s.len() - i < size {
        return Parsed::Cut;
    }
    Parsed::Whole(form.command(s, i), i + size)
}
