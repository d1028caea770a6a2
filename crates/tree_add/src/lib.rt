// The addition of a leaf entry. Follows Insert of Guttman's R-tree, which document 01, "The tree", names. It differs
// so: a ninth entry is never stored but handed back, and the parent deals the eight and the one (crate tree_split);
// on the way up a box grows by the new one, and is recomputed from the child's entries where the child was split. It
// never fails: that a node is free for each split, and that the levels fit, is proved.
#![tactic(auto)]

ghost use Rattle.std.specs.Prelude.{◌<◌, length};
ghost use Rattle.limits.specs.Limits.{max_sites};
ghost use Rattle.tree_node.specs.Header.{root_in};
ghost use Rattle.tree_rules.specs.Rooted.{Rooted, leaves_in};
ghost use Rattle.tree_add.specs.Added.{Added};

use limits::TABLE_BYTES;
use tree_node::{NodeEntry, header};

pub mod choose;
pub mod insert;
pub mod root;

// Adds the leaf entry e to the tree that the table's header tells.
pub fn add(table: &mut [u8; TABLE_BYTES], e: NodeEntry)
    requires { Rooted (root_in table.old) table.old × (length (leaves_in table.old) < max_sites) }
    ensures { Added e table.old table.new }
{
    let r = header::read_root(table);
    let q = root::plant(table, r, e);
    header::store_root(table, Some(q));
}
