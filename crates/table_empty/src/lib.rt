// Laying out: the bytes of an empty table, and buffers set to zero.
#![tactic(auto)]

ghost use Rattle.std.specs.Prelude.{◌≡◌, length};
ghost use Rattle.limits.specs.Limits.{table_bytes, max_nodes};
ghost use Rattle.table_empty.specs.EmptyTable.{zeros, stacked, empty_table};

use limits::TABLE_BYTES;

// Sets every byte to 0.
pub fn clear(b: &mut [u8])
    ensures { b.new ≡ zeros (length b.old) }
{
    b.fill(0);
}

// Puts every node of the pool on the stack of free nodes.
fn stack_all(t: &mut [u8; TABLE_BYTES])
    ensures { t.new ≡ stacked max_nodes t.old }
{
    for k in 0..limits::MAX_NODES {
        tree_node::free::put_id(t, k, k);
    }
}

// Lays an empty table out.
pub fn lay(t: &mut [u8; TABLE_BYTES])
    ensures { t.new ≡ empty_table }
{
    clear(t);
    table_header::put_layout(t);
    stack_all(t);
    tree_node::free::put_free_count(t, limits::MAX_NODES);
}
