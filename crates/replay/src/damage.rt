// Calls that end with 69 and 65, on tables that were damaged.
ghost use Rattle.std.specs.Prelude.{◌≡◌, []};
ghost use Rattle.replay.specs.Replayed.{reply, said_in, length_hit, LengthHit, Stood, DamageTold};

use crate::{Heard, hear};
use limits::{TABLE_BYTES, WORK_BYTES};

// What was said of tables with a wrong length of the standing list, with a wrong flag of its leg beside it, with a
// coordinate and no leg, with a coordinate off the grid, and with a list where no site is held.
#[derive(Clone, Copy)]
pub struct Damaged {
    length: Heard<2>,
    flag: Heard<2>,
    zeros: Heard<2>,
    leg: Heard<2>,
    siteless: Heard<2>,
}

// The calls below are a function each, alike but for what they write: each is pinned by its own bytes, and one for all
// would promise nothing of what is said.

// Lays out a table, writes 65,535 for the length of its standing list, and calls.
fn hit_length(table: &mut [u8; TABLE_BYTES]) -> Heard<2>
    ensures { LengthHit result table.new }
{
    service::lay_out(table);
    words::put_word(table, 12, 65535);
    let print = [0x50u8];
    hear::<WORK_BYTES, 2>(table, &print)
}

// Writes 2 for the flag of the standing leg as well, and calls.
fn hit_flag(table: &mut [u8]) -> Heard<2>
    requires { table.old ≡ length_hit }
    ensures { said_in result ≡ reply 65 0 [] }
{
    words::put_word(table, 2, 2);
    let print = [0x50u8];
    hear::<WORK_BYTES, 2>(table, &print)
}

// Lays out a table, writes a coordinate of the standing leg, which it has not, and calls.
fn hit_zeros(table: &mut [u8; TABLE_BYTES]) -> Heard<2>
    ensures { said_in result ≡ reply 65 0 [] }
{
    service::lay_out(table);
    words::put_word(table, 4, 1);
    let print = [0x50u8];
    hear::<WORK_BYTES, 2>(table, &print)
}

// Lays out a table and sets the standing leg from (0, 0) to (10, 0).
fn stand_ten(table: &mut [u8; TABLE_BYTES])
    ensures { Stood table.new }
{
    service::lay_out(table);
    let stand = [0x53u8, 0, 0, 0, 0, 10, 0, 0, 0];
    hear::<WORK_BYTES, 2>(table, &stand);
}

// Writes a coordinate off the grid for one of that leg, and calls.
fn hit_leg(table: &mut [u8; TABLE_BYTES]) -> Heard<2>
    ensures { said_in result ≡ reply 69 0 [] }
{
    stand_ten(table);
    words::put_word(table, 4, 24001);
    let print = [0x50u8];
    hear::<WORK_BYTES, 2>(table, &print)
}

// Writes 1 for the length of its list, where no site is held, and calls.
fn hit_siteless(table: &mut [u8; TABLE_BYTES]) -> Heard<2>
    ensures { said_in result ≡ reply 69 0 [] }
{
    stand_ten(table);
    words::put_word(table, 12, 1);
    let print = [0x50u8];
    hear::<WORK_BYTES, 2>(table, &print)
}

// The calls on tables that were damaged.
pub fn call_damaged() -> Damaged
    ensures { DamageTold result }
{
    let mut table = [0u8; limits::TABLE_BYTES];
    let length = hit_length(&mut table);
    let flag = hit_flag(&mut table);
    let zeros = hit_zeros(&mut table);
    let leg = hit_leg(&mut table);
    let siteless = hit_siteless(&mut table);
    Damaged {
        length,
        flag,
        zeros,
        leg,
        siteless,
    }
}
