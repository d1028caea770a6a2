// Positions, sites and legs on the grid; squared distances; sides of a leg; fractions.
// Document 01, "Grid and sites" and "The split list". Coordinates are counted from the grid's south-west corner.
#![tactic(auto)]

pub mod coordinate;
pub mod distance;
pub mod factor;
pub mod side;

// A pair (easting, northing).
#[derive(Clone, Copy)]
pub struct Position {
    pub east: u16,
    pub north: u16,
}

#[derive(Clone, Copy)]
pub struct Site {
    pub number: u16,
    pub position: Position,
}

// A leg runs from S to E.
#[derive(Clone, Copy)]
pub struct Leg {
    pub s: Position,
    pub e: Position,
}

// A box.
#[derive(Clone, Copy)]
pub struct Area {
    pub west: u16,
    pub south: u16,
    pub east: u16,
    pub north: u16,
}

// Squared distances from S and from E: those of a site, or the least ones of what lies in a box.
#[derive(Clone, Copy)]
pub struct Corner {
    pub a: u32,
    pub c: u32,
}

#[derive(Clone, Copy)]
pub struct Fraction {
    pub num: u64,
    pub den: u64,
}
