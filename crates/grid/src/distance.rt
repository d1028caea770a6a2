// Squared distances, of two positions and of a position from a box.
ghost use Rattle.std.specs.Prelude.{◌≡◌, ◌+◌, ◌*◌, ◌-◌, ◌≤◌};
ghost use Rattle.limits.specs.Limits.{grid_width, max_square, max_distance};
ghost use Rattle.grid.specs.Position.{OnGrid, squared_difference, distance};
ghost use Rattle.grid.specs.Area.{AreaOnGrid, outside, area_distance};

use crate::{Area, Position};

// The square of the difference of two coordinates.
#[tactic(auto, using(crate::proofs::Squares::difference_of))]
fn squared_difference(x: u16, y: u16) -> u64
    requires { (x ≤ grid_width) × (y ≤ grid_width) }
    ensures { (result ≡ squared_difference x y) × (result ≤ max_square) }
{
    let d = u64::from(x).abs_diff(u64::from(y));
    d * d
}

// The squared distance of two positions.
#[tactic(auto, unfolding(crate::specs::Position::distance))]
pub fn between(p: Position, q: Position) -> u64
    requires { OnGrid p × OnGrid q }
    ensures { (result ≡ distance p q) × (result ≤ max_distance) }
{
    let across = squared_difference(p.east, q.east);
    let up = squared_difference(p.north, q.north);
    across + up
}

// How far x lies from the stretch from lo to hi: |p - r| of the published definition, in its order (specs/Area.antt).
// On which side of a box a position lies cannot be foreseen. So both differences are computed before one is chosen,
// and in 64 bits: then there is no branch in machine code.
#[tactic(auto, unfolding(crate::specs::Area::outside))]
fn outside(lo: u16, hi: u16, x: u16) -> u64
    ensures { result ≡ outside lo hi x }
{
    let to_lo = u64::from(lo).abs_diff(u64::from(x));
    let to_hi = u64::from(hi).abs_diff(u64::from(x));
    if x < lo {
        to_lo // below the box
    } else if hi < x {
        to_hi // above it
    } else {
        0 // within it
    }
}

// The square of `outside`.
#[tactic(auto, using(crate::proofs::Nearest::outside_square))]
fn squared_outside(lo: u16, hi: u16, x: u16) -> u64
    requires { (lo ≤ hi) × (hi ≤ grid_width) × (x ≤ grid_width) }
    ensures { (result ≡ outside lo hi x * outside lo hi x) × (result ≤ max_square) }
{
    let d = outside(lo, hi, x);
    d * d
}

// The squared distance of a position from a box: MINDIST of the published definition.
#[tactic(auto, unfolding(crate::specs::Area::area_distance))]
pub fn from_area(b: Area, q: Position) -> u64
    requires { AreaOnGrid b × OnGrid q }
    ensures { (result ≡ area_distance b q) × (result ≤ max_distance) }
{
    let across = squared_outside(b.west, b.east, q.east);
    let up = squared_outside(b.south, b.north, q.north);
    across + up
}
