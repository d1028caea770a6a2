// Calls with receiver readings, beside the same with the steps written out.
ghost use Rattle.replay.specs.Surveys.{survey, move_one, add_beyond, list_cut};
ghost use Rattle.replay.specs.Surveys.{steps, move_one_steps, add_beyond_steps, list_cut_steps};
ghost use Rattle.replay.specs.Surveys.{add_zero, add_infinite, add_held, move_zero, move_infinite, move_absent};
ghost use Rattle.replay.specs.Surveys.{Begun, GoneOn, Run, NotTaken, BothNotTaken, SurveyTold};

use crate::{Heard, hear};
use limits::{TABLE_BYTES, WORK_BYTES};

// What was said of three calls behind the first: with all commands used, ended by an unknown one, and by a cut one.
#[derive(Clone, Copy)]
pub struct Rest {
    used: Heard<2>,
    unknown: Heard<2>,
    cut: Heard<24>,
}

// What was said of readings that are not taken, for more than one cause: the number 0, not finite, off the grid.
#[derive(Clone, Copy)]
pub struct Refusals {
    zero: Heard<2>,
    infinite: Heard<2>,
    beyond: Heard<2>,
}

// Of additions and of moves.
#[derive(Clone, Copy)]
pub struct Badly {
    adds: Refusals,
    moves: Refusals,
}

// What was said of these, the first ended for want of room.
#[derive(Clone, Copy)]
pub struct Readings {
    full: Heard<2>,
    rest: Rest,
}

// What was said of readings, of the same with the steps written out, and on both tables of readings that are not
// taken.
#[derive(Clone, Copy)]
pub struct Surveyed {
    metres: Readings,
    steps: Readings,
    refused: Badly,
    alike: Badly,
}

// Lays out a table, and makes the first call on it.
fn begin(table: &mut [u8; TABLE_BYTES], commands: &[u8]) -> Heard<2>
    ensures { Begun commands.now result table.new }
{
    service::lay_out(table);
    hear::<WORK_BYTES, 2>(table, commands)
}

// Three calls more.
fn go_on(table: &mut [u8], used: &[u8], unknown: &[u8], cut: &[u8]) -> Rest
    ensures { GoneOn used.now unknown.now cut.now result table.old table.new }
{
    let used = hear::<WORK_BYTES, 2>(table, used);
    let unknown = hear::<WORK_BYTES, 2>(table, unknown);
    let cut = hear::<WORK_BYTES, 24>(table, cut);
    Rest { used, unknown, cut }
}

// The four calls with readings. Adds site 1 at -150 m and negative zero; a print behind it finds no room. Moves site 1
// to 150 m and 250 m. Adds site 3 at 1,200,050 m, with an unknown command behind it. Adds site 2 by steps and asks for
// a leg, with a cut addition behind it.
fn survey_all(table: &mut [u8; TABLE_BYTES]) -> Readings
    ensures { Run survey move_one add_beyond list_cut result table.new }
{
    let survey = [0x61u8, 1, 0, 0, 0, 22, 195, 0, 0, 0, 128, 0x50];
    let move_one = [0x6Du8, 1, 0, 0, 0, 22, 67, 0, 0, 122, 67];
    let add_beyond = [0x61u8, 3, 0, 144, 125, 146, 73, 0, 0, 0, 0, 0xFF];
    let list_cut = [65u8, 2, 0, 7, 0, 1, 0, 76, 0, 0, 0, 0, 10, 0, 0, 0, 97];
    let full = begin(table, &survey);
    let rest = go_on(table, &move_one, &add_beyond, &list_cut);
    Readings { full, rest }
}

// The same four with the steps written out. No one function of both: each holds the bytes that `Run` pins, with
// readings and with steps.
fn step_all(table: &mut [u8; TABLE_BYTES]) -> Readings
    ensures { Run steps move_one_steps add_beyond_steps list_cut_steps result table.new }
{
    let steps = [0x41u8, 1, 0, 0xFE, 0xFF, 0, 0, 0x50];
    let move_one = [0x4Du8, 1, 0, 2, 0, 3, 0];
    let add_beyond = [0x41u8, 3, 0, 0xFF, 0x7F, 0, 0, 0xFF];
    let list_cut = [65u8, 2, 0, 7, 0, 1, 0, 76, 0, 0, 0, 0, 10, 0, 0, 0, 65];
    let full = begin(table, &steps);
    let rest = go_on(table, &move_one, &add_beyond, &list_cut);
    Readings { full, rest }
}

// Three calls that are not taken.
fn refuse(table: &mut [u8], zero: &[u8], infinite: &[u8], beyond: &[u8]) -> Refusals
    ensures { NotTaken zero.now infinite.now beyond.now result table.old table.new }
{
    let zero = hear::<WORK_BYTES, 2>(table, zero);
    let infinite = hear::<WORK_BYTES, 2>(table, infinite);
    let beyond = hear::<WORK_BYTES, 2>(table, beyond);
    Refusals {
        zero,
        infinite,
        beyond,
    }
}

// All that is not taken. Additions: of site 0, no number and off the grid; of site 1, which is held, the same; and then
// off the grid alone. Moves: of site 0, off the grid and minus infinity; of site 9, which is not held, the same; and
// then the largest number south.
fn survey_badly(table: &mut [u8]) -> Badly
    ensures { BothNotTaken result table.old table.new }
{
    let add_zero = [0x61u8, 0, 0, 0, 0, 192, 127, 144, 125, 146, 73];
    let add_infinite = [0x61u8, 1, 0, 0, 0, 192, 127, 144, 125, 146, 73];
    let add_held = [0x61u8, 1, 0, 144, 125, 146, 73, 0, 0, 0, 0];
    let adds = refuse(table, &add_zero, &add_infinite, &add_held);
    let move_zero = [0x6Du8, 0, 0, 144, 125, 146, 73, 0, 0, 128, 255];
    let move_infinite = [0x6Du8, 9, 0, 144, 125, 146, 73, 0, 0, 128, 255];
    let move_absent = [0x6Du8, 9, 0, 0, 0, 0, 0, 255, 255, 127, 255];
    let moves = refuse(table, &move_zero, &move_infinite, &move_absent);
    Badly { adds, moves }
}

// The calls with receiver readings.
pub fn call_surveyed() -> Surveyed
    ensures { SurveyTold result }
{
    let mut table = [0u8; limits::TABLE_BYTES];
    let mut other = [0u8; limits::TABLE_BYTES];
    let metres = survey_all(&mut table);
    let steps = step_all(&mut other);
    let refused = survey_badly(&mut table);
    let alike = survey_badly(&mut other);
    Surveyed {
        metres,
        steps,
        refused,
        alike,
    }
}
