// A leaf entry is removed from the tree. Follows document 01, "The tree", and Guttman's deletion: find the leaf, take
// the entry, repair on the way up, shorten the tree. A node left with two entries is joined with a sibling on the
// spot, where Guttman puts its entries in again at the end.
#![tactic(auto)]

pub mod root;
pub mod take;

ghost use mathlib.Core.List.{Memᴰ};
ghost use Rattle.tree_node.specs.Header.{root_in};
ghost use Rattle.tree_rules.specs.Rooted.{Rooted, leaves_in};
ghost use Rattle.tree_remove.specs.Removal.{Removed};

use limits::TABLE_BYTES;
use tree_node::{NodeEntry, header};

// Removes one leaf entry equal to e, which stands in the table's tree.
pub fn remove(table: &mut [u8; TABLE_BYTES], e: NodeEntry)
    requires { Rooted (root_in table.old) table.old × Memᴰ e (leaves_in table.old) }
    ensures { Removed e table.old table.new }
{
    let r = header::read_root(table);
    let s = root::take_from(table, r, e);
    header::store_root(table, s);
}
