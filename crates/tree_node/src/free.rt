// The stack of free nodes.
ghost use Rattle.std.specs.Prelude.{◌≡◌, [], ◌+◌, ◌*◌, ◌<◌, ◌≤◌, length};
ghost use Rattle.limits.specs.Limits.{max_nodes, table_bytes};
ghost use Rattle.words.specs.Words.{word_at, put_word};
ghost use Rattle.tree_node.specs.Layout.{free_start, stack_start};
ghost use Rattle.tree_node.specs.Tally.{Within};
ghost use Rattle.tree_node.specs.Free.{free, Popped, Given, Taken};

use crate::{FREE_START, STACK_START, pool};
use limits::{MAX_NODES, TABLE_BYTES};

// How many nodes are free.
pub fn free_count(table: &[u8; TABLE_BYTES]) -> usize
    ensures { (result ≡ length (free table.now)) × (result ≤ max_nodes) }
{
    let stored = usize::from(words::word(table, FREE_START));
    if stored <= MAX_NODES {
        return stored;
    }
    0
}

// Stores how many nodes are free.
pub fn put_free_count(table: &mut [u8; TABLE_BYTES], n: usize)
    requires { n ≤ max_nodes }
    ensures { table.new ≡ put_word table.old free_start n }
{
    words::put_word(table, FREE_START, n as u16);
}

// The id that stands on k others in the stack.
pub fn id_at(table: &[u8; TABLE_BYTES], k: usize) -> usize
    requires { k < max_nodes }
    ensures { (result ≡ word_at table.now (stack_start + 2 * k)) × (result < 65536) }
{
    usize::from(words::word(table, STACK_START + 2 * k))
}

// Puts the id c on k others.
pub fn put_id(table: &mut [u8; TABLE_BYTES], k: usize, c: usize)
    requires { (k < max_nodes) × (c < max_nodes) }
    ensures { table.new ≡ put_word table.old (stack_start + 2 * k) c }
{
    words::put_word(table, STACK_START + 2 * k, c as u16);
}

// Takes a free node.
pub fn pop(table: &mut [u8; TABLE_BYTES]) -> usize
    requires { 0 < length (free table.old) }
    ensures { Popped result table.old table.new }
{
    let k = free_count(table) - 1;
    let r = id_at(table, k);
    put_free_count(table, k);
    r
}

// Gives node c back.
pub fn give(table: &mut [u8; TABLE_BYTES], c: usize)
    requires { (c < max_nodes) × (length (free table.old) < max_nodes) }
    ensures { Given c table.old table.new }
{
    let k = free_count(table);
    put_id(table, k, c);
    put_free_count(table, k + 1);
}

// Takes a free node, which gets no entries.
pub fn fresh(table: &mut [u8; TABLE_BYTES]) -> usize
    requires { (0 < length (free table.old))
        × Within max_nodes (free table.old) }
    ensures { Taken result [] table.old table.new }
{
    let r = pop(table);
    pool::clear(table, r);
    r
}
