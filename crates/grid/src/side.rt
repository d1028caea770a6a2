// The right-hand side of a leg. Document 02, C-11.
ghost use Rattle.std.specs.Prelude.{◌≡◌, ◌*◌, ◌^◌, ◌<◌};
ghost use Rattle.grid.specs.Side.{OnTheRight};
ghost use Rattle.grid.specs.Says.{Says};

use crate::{Leg, Position};

// The product of two coordinates.
fn product(x: u16, y: u16) -> u64
    ensures { (result ≡ x * y) × (result < 2 ^ 32) }
{
    u64::from(x) * u64::from(y)
}

// Whether a position is on the right of a leg: the sign of the cross product, with every product that has a minus on
// the other side.
#[tactic(auto, unfolding(crate::specs::Side::OnTheRight))]
pub fn on_the_right(leg: Leg, p: Position) -> bool
    ensures { Says result (OnTheRight leg p) }
{
    let s = leg.s;
    let e = leg.e;
    let plus = product(e.east, p.north) + product(e.north, s.east) + product(s.north, p.east);
    let minus = product(e.east, s.north) + product(s.east, p.north) + product(e.north, p.east);
    plus < minus
}
