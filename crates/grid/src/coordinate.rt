// Coordinates of commands, which are signed 16-bit numbers, and the test of what is on the grid.
ghost use Rattle.std.specs.Prelude.{◌≡◌};
ghost use Rattle.grid.specs.Coordinate.{from_word};
ghost use Rattle.grid.specs.Position.{OnGrid, LegOnGrid};
ghost use Rattle.grid.specs.Says.{Says};

use crate::{Leg, Position};

// The coordinate that a signed 16-bit word stands for.
#[tactic(auto, unfolding(crate::specs::Coordinate::from_word))]
pub fn from_word(w: u16) -> u16
    ensures { result ≡ from_word w }
{
    w.wrapping_add(limits::HALF_WIDTH)
}

// Whether a position is on the grid.
pub fn on_grid(p: Position) -> bool
    ensures { Says result (OnGrid p) }
{
    p.east <= limits::GRID_WIDTH && p.north <= limits::GRID_WIDTH
}

// Whether both ends of a leg are on the grid.
pub fn leg_on_grid(leg: Leg) -> bool
    ensures { Says result (LegOnGrid leg) }
{
    on_grid(leg.s) && on_grid(leg.e)
}
