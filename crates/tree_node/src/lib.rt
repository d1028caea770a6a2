// A node of the tree and its entries in the table's bytes, the stack of free nodes, and the tree's header.
// Follows document 01, "The tree". specs/Layout.antt says where each stands. A node's number is a plain number, and its
// bound stands in the contracts, as that of an entry's place does: both come from the table's bytes and are said of
// them, and a type around the number would be unwrapped in every clause.
#![tactic(auto)]

pub mod boxes;
pub mod free;
pub mod header;
pub mod pool;

// The tree's first byte: the number of levels. Below it the table has what the tree never touches.
const TREE_START: usize = 5184;

// The root's node.
const ROOT_START: usize = 5186;

// The number of free nodes, and the stack of their ids.
const FREE_START: usize = 5188;

const STACK_START: usize = 5190;

// The nodes: each a count of 16 bits and eight entries.
const POOL_START: usize = 6896;

const NODE_BYTES: usize = 98;

const ENTRY_BYTES: usize = 12;

// The bytes of a node's count, behind which its entries stand.
const COUNT_BYTES: usize = 2;

// Where in an entry its edges and its spare number stand, behind the reference.
const WEST_EDGE: usize = 2;

const SOUTH_EDGE: usize = 4;

const EAST_EDGE: usize = 6;

const NORTH_EDGE: usize = 8;

const ENTRY_SPARE: usize = 10;

// An entry of a node: at a leaf the number of a site, above the leaves the child node's id, and the smallest box of
// what lies under it. Coordinates are counted from the grid's south-west corner. The spare number is 0. The box comes
// first, so that a copied entry's box lies in one machine word.
#[derive(Clone, Copy, PartialEq, Eq)]
pub struct NodeEntry {
    pub west: u16,
    pub south: u16,
    pub east: u16,
    pub north: u16,
    pub reference: u16,
    pub spare: u16,
}

// The top of a tree that is not empty: the height at which the root's entries stand, 0 where they are leaf entries, and
// the root's node. An empty tree has none.
#[derive(Clone, Copy)]
pub struct Top {
    pub height: usize,
    pub node: usize,
}
