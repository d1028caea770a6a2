// The numbers that document 01 fixes, the grid as C-12 of document 02 has it and the work buffer as C-21 has it, and
// how many nodes the pool has, as the code uses them. specs/Limits.antt has the same for the definitions.
#![tactic(auto)]

// The largest coordinate on either side of the grid's middle, in steps of 100 m.
pub const HALF_WIDTH: u16 = 12000;

// The largest coordinate, counted from the grid's south-west corner.
pub const GRID_WIDTH: u16 = 2 * HALF_WIDTH;

// The largest site number.
pub const MAX_NUMBER: u16 = 65535;

pub const MAX_SITES: usize = 512;

// What a node may hold, and what one other than the root has to hold.
pub const MAX_ENTRIES: usize = 8;

pub const MIN_ENTRIES: usize = 3;

pub const MAX_LEVELS: usize = 6;

// The nodes of the pool.
pub const MAX_NODES: usize = 264;

pub const TABLE_BYTES: usize = 32768;

pub const WORK_BYTES: usize = 2048;
