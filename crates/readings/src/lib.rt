// Receiver readings: 32-bit IEEE 754 numbers of metres, and the nearest step of 100 m. Document 02, C-15.
#![tactic(auto)]

ghost use Rattle.std.specs.Prelude.{◌≡◌, ◌+◌, ◌<◌, ◌≤◌, T, length};
ghost use Rattle.std.specs.Float.Ieee.Scale.{finite};
ghost use Rattle.std.specs.Float.Ieee.Positive.{positive};
ghost use Rattle.readings.specs.Location.{steps_of, Rounded, Stepped, located_at, long_at, number_of, reading_at};

use grid::Position;

// What a receiver shows, in metres from the grid's origin.
#[derive(Clone, Copy)]
pub struct Reading {
    pub easting: f32,
    pub northing: f32,
}

// A command's position: "either steps or a pair of receiver readings".
#[derive(Clone, Copy)]
pub enum Location {
    InSteps(Position),
    InMetres(Reading),
}

// What document 02 writes for it: "a step off the grid as 32,767".
const BEYOND_STEP: u16 = 32767;

// The nearest step to a reading above zero, exact halves up; 32,767 where the grid does not reach. Readings beyond the
// grid are told first, so that remainder and step meet small numbers alone. The remainder of the whole metres by 100
// shows which side of a half the reading is on: halves lie at whole metres. Half the width is cast: so the edge stays a
// number that the check computes.
fn steps(x: f32) -> u16
    requires { T (positive x) }
    ensures { result ≡ steps_of x }
{
    let edge = (100 * (limits::HALF_WIDTH as u32) + 50) as f32;
    if x < edge {
        let metres = std::num::truncating_f32_to_u64(x);
        let below = (metres / 100) as u16;
        let rest = metres % 100;
        if rest < 50 {
            return below;
        }
        return below + 1;
    }
    BEYOND_STEP
}

// The coordinate of a reading. Neither zero is above or below zero.
pub fn coordinate(x: f32) -> u16
    requires { T (finite x) }
    ensures { Rounded x result }
{
    if 0.0 < x {
        return limits::HALF_WIDTH + steps(x);
    }
    if x < 0.0 {
        let k = steps(-x);
        if k <= limits::HALF_WIDTH {
            return limits::HALF_WIDTH - k;
        }
        return limits::HALF_WIDTH + k;
    }
    limits::HALF_WIDTH
}

// The position of two readings, in steps.
pub fn step(r: Reading) -> Position
    requires { T (finite r.easting) × T (finite r.northing) }
    ensures { Stepped r result }
{
    let east = coordinate(r.easting);
    let north = coordinate(r.northing);
    Position { east, north }
}

// Whether a reading is a finite number: neither an infinity nor no number at all.
#[tactic(auto, using(crate::proofs::Answers::finite_same, crate::proofs::Answers::finite_below, crate::proofs::Answers::finite_not))]
pub fn is_finite(x: f32) -> bool
    ensures { result ≡ finite x }
{
    x.is_finite()
}

// Where two readings are, in steps, if both are finite.
#[tactic(auto, using(crate::proofs::Answers::finite_told, crate::proofs::Answers::survey_first, crate::proofs::Answers::survey_second, crate::proofs::Answers::survey_both))]
fn survey(r: Reading) -> Option<Position>
    ensures { result ≡ located_at (Location.InMetres r) }
{
    if is_finite(r.easting) && is_finite(r.northing) {
        return Some(step(r));
    }
    None
}

// Where a command's position is, in steps, if its readings are finite.
pub fn locate(l: Location) -> Option<Position>
    ensures { result ≡ located_at l }
{
    match l {
        Location::InSteps(p) => Some(p),
        Location::InMetres(r) => survey(r),
    }
}

// The 32-bit number at byte i.
#[tactic(auto, unfolding(crate::specs::Location::long_at))]
fn long(s: &[u8], i: usize) -> u32
    requires { i + 4 ≤ length s.now }
    ensures { result ≡ long_at s.now i }
{
    let low = u32::from(words::word(s, i));
    let high = u32::from(words::word(s, i + 2));
    low + 65536 * high
}

// The number that a pattern stands for. The bits are tested before they become a float: from infinity's on they stand
// for no finite number.
pub fn number(bits: u32) -> f32
    ensures { result ≡ number_of bits }
{
    let size = bits % 0x8000_0000;
    if size < 0x7F80_0000 {
        return f32::from_bits(bits);
    }
    f32::NAN
}

// The readings at byte i.
pub fn reading_at(s: &[u8], i: usize) -> Reading
    requires { i + 8 ≤ length s.now }
    ensures { result ≡ reading_at s.now i }
{
    let easting = number(long(s, i));
    let northing = number(long(s, i + 4));
    Reading { easting, northing }
}
