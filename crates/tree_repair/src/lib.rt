// The repair of a node one of whose children has lost an entry: "a node under 3 entries" is joined with a sibling,
// and the child's box is made anew. Follows document 01, "The tree". Guttman's paper puts the entries of such a node
// in again; here a sibling takes them or shares its own, which the paper allows beside it.
#![tactic(auto)]

pub mod join;
pub mod moves;
pub mod near;
pub mod repair;
