// The tree's header, read and stored.
ghost use Rattle.std.specs.Prelude.{◌≡◌, length};
ghost use Rattle.limits.specs.Limits.{table_bytes};
ghost use Rattle.tree_node.specs.Header.{root_in, SmallRoot, Headed};

use crate::{ROOT_START, TREE_START, Top};
use limits::TABLE_BYTES;

// The top of the tree that the header tells.
pub fn read_root(table: &[u8; TABLE_BYTES]) -> Option<Top>
    ensures { result ≡ root_in table.now }
{
    let levels = usize::from(words::word(table, TREE_START));
    if levels == 0 {
        return None;
    }
    Some(Top {
        height: levels - 1,
        node: usize::from(words::word(table, ROOT_START)),
    })
}

// Stores r in the header.
pub fn store_root(table: &mut [u8; TABLE_BYTES], r: Option<Top>)
    requires { SmallRoot r }
    ensures { Headed r table.old table.new }
{
    match r {
        None => words::put_word(table, TREE_START, 0),
        Some(top) => {
            words::put_word(table, TREE_START, (top.height + 1) as u16);
            words::put_word(table, ROOT_START, top.node as u16);
        }
    }
}
