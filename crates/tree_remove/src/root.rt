// A leaf entry is taken from under the root, which shrinks where it has to.
ghost use Rattle.std.specs.Prelude.{◌≡◌, ◌<◌, ◌≤◌, length, Some};
ghost use mathlib.Core.List.{Memᴰ};
ghost use Rattle.limits.specs.Limits.{max_nodes};
ghost use Rattle.tree_node.specs.Free.{free};
ghost use Rattle.tree_node.specs.Node.{entries};
ghost use Rattle.tree_rules.specs.Change.{Ready, Became};
ghost use Rattle.tree_rules.specs.Rooted.{tree_leaves, Rooted};
ghost use Rattle.tree_remove.specs.Removal.{TakenFrom};

use crate::take;
use limits::TABLE_BYTES;
use tree_node::{NodeEntry, Top, free, pool};

// The tree over r, whose root has lost an entry: a root that is no leaf with one entry left is replaced by its child,
// and an empty leaf by the empty tree.
fn shrink(table: &mut [u8; TABLE_BYTES], r: Top) -> Option<Top>
    requires { Ready r.height r.node table.old × ((r.height ≡ 0 → ⊥) → 1 ≤ length (entries table.old r.node))
        × (length (free table.old) < max_nodes) }
    ensures { Became (Some r) result table.old table.new }
{
    let m = pool::count(table, r.node);
    if r.height == 0 {
        if 0 < m {
            return Some(r);
        }
        free::give(table, r.node);
        return None;
    }
    if 1 < m {
        return Some(r);
    }
    let f = pool::entry_at(table, r.node, 0);
    free::give(table, r.node);
    Some(Top {
        height: r.height - 1,
        node: usize::from(f.reference),
    })
}

// Takes the leaf entry e, which stands in it, from the tree over r.
fn take_under(table: &mut [u8; TABLE_BYTES], r: Top, e: NodeEntry) -> Option<Top>
    requires { Rooted (Some r) table.old × Memᴰ e (tree_leaves (entries table.old) (Some r)) }
    ensures { TakenFrom (Some r) e result table.old table.new }
{
    if take::take(table, r.height, r.node, 0, e) {
        return shrink(table, r);
    }
    Some(r)
}

// Takes the leaf entry e, which stands in it, from the tree r.
pub fn take_from(table: &mut [u8; TABLE_BYTES], r: Option<Top>, e: NodeEntry) -> Option<Top>
    requires { Rooted r table.old × Memᴰ e (tree_leaves (entries table.old) r) }
    ensures { TakenFrom r e result table.old table.new }
{
    match r {
        None => None,
        Some(top) => take_under(table, top, e),
    }
}
