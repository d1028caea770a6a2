// The table's header: the number of sites, the standing leg, the length of the standing list, the layout's number,
// the tour, and the bytes that are kept for later: docs/LAYOUT.md. Each field is read and written here and nowhere
// else, but that laying out first sets the whole table to 0.
#![tactic(auto)]

ghost use Rattle.std.specs.Prelude.{◌≡◌, ◌+◌, ◌<◌, ◌≤◌, length};
ghost use Rattle.limits.specs.Limits.{table_bytes};
ghost use Rattle.words.specs.Words.{put_word};
ghost use Rattle.grid.specs.Says.{Says};
ghost use Rattle.table_header.specs.Layout.{count_start, length_start, layout_start, layout_number};
ghost use Rattle.table_header.specs.Header.{count_in, length_in, position_words, put_position, leg_in};
ghost use Rattle.table_header.specs.Header.{LegStored, ZeroFrom, FlagOk, HeaderOk};
ghost use Rattle.table_header.specs.Header.{site_number, tour_in, stored_as, put_tour, TourStored};

use book::Tour;
use grid::{Leg, Position};
use limits::TABLE_BYTES;

// Where the fields stand.
const COUNT_START: usize = 0;

const FLAG_START: usize = 2;

const LEG_START: usize = 4;

const LENGTH_START: usize = 12;

const LAYOUT_START: usize = 14;

const TOUR_START: usize = LAYOUT_START + 2;

const CORNER_START: usize = TOUR_START + 2;

const LAST_START: usize = CORNER_START + 4;

const TOUR_END: usize = LAST_START + 2;

// The bytes that are kept for later, from behind the last field up to the header's end.
const KEPT_START: usize = TOUR_END;

const KEPT_END: usize = 64;

// The number of this layout: docs/LAYOUT.md says when it goes up.
const LAYOUT_NUMBER: u16 = 2;

// The number of sites.
pub fn count(t: &[u8; TABLE_BYTES]) -> usize
    ensures { (result ≡ count_in t.now) × (result < 65536) }
{
    usize::from(words::word(t, COUNT_START))
}

// Stores the number of sites.
pub fn put_count(t: &mut [u8; TABLE_BYTES], n: u16)
    ensures { t.new ≡ put_word t.old count_start n }
{
    words::put_word(t, COUNT_START, n);
}

// The position whose two words stand at byte i.
fn position_at(t: &[u8], i: usize) -> Position
    requires { i + 4 ≤ length t.now }
    ensures { result ≡ position_words t.now i }
{
    let east = words::word(t, i);
    let north = words::word(t, i + 2);
    Position { east, north }
}

// The standing leg, or none.
pub fn leg(t: &[u8; TABLE_BYTES]) -> Option<Leg>
    ensures { result ≡ leg_in t.now }
{
    let flag = words::word(t, FLAG_START);
    if flag == 0 {
        return None;
    }
    let s = position_at(t, LEG_START);
    let e = position_at(t, LEG_START + 4);
    Some(Leg { s, e })
}

// Stores a position's two words at byte i.
fn store_position(t: &mut [u8], i: usize, p: Position)
    requires { i + 4 ≤ length t.old }
    ensures { t.new ≡ put_position t.old i p }
{
    words::put_word(t, i, p.east);
    words::put_word(t, i + 2, p.north);
}

// Stores the standing leg.
pub fn store_leg(t: &mut [u8; TABLE_BYTES], leg: Leg)
    ensures { LegStored leg t.old t.new }
{
    words::put_word(t, FLAG_START, 1);
    store_position(t, LEG_START, leg.s);
    store_position(t, LEG_START + 4, leg.e);
}

// The number of entries of the standing list.
pub fn length(t: &[u8; TABLE_BYTES]) -> usize
    ensures { (result ≡ length_in t.now) × (result < 65536) }
{
    usize::from(words::word(t, LENGTH_START))
}

// Stores it.
pub fn put_length(t: &mut [u8; TABLE_BYTES], k: u16)
    ensures { t.new ≡ put_word t.old length_start k }
{
    words::put_word(t, LENGTH_START, k);
}

// Stores the layout's number.
pub fn put_layout(t: &mut [u8; TABLE_BYTES])
    ensures { t.new ≡ put_word t.old layout_start layout_number }
{
    words::put_word(t, LAYOUT_START, LAYOUT_NUMBER);
}

// Whether every byte from lo up to hi is 0.
fn zero_from(t: &[u8], lo: usize, hi: usize) -> bool
    requires { (lo ≤ hi) × (hi ≤ length t.now) }
    ensures { Says result (ZeroFrom t.now lo hi) }
{
    for i in lo..hi {
        if t[i] != 0 {
            return false;
        }
    }
    true
}

// Whether the flag at byte i is 0 or 1, and where it is 0, every byte from lo up to hi is 0.
fn flag_ok(t: &[u8], i: usize, lo: usize, hi: usize) -> bool
    requires { (i + 2 ≤ length t.now) × (lo ≤ hi) × (hi ≤ length t.now) }
    ensures { Says result (FlagOk t.now i lo hi) }
{
    let flag = words::word(t, i);
    if flag == 0 {
        return zero_from(t, lo, hi);
    }
    flag == 1
}

// Whether the header keeps its layout.
pub fn header_ok(t: &[u8; TABLE_BYTES]) -> bool
    ensures { Says result (HeaderOk t.now) }
{
    words::word(t, LAYOUT_START) == LAYOUT_NUMBER
        && flag_ok(t, FLAG_START, LEG_START, LENGTH_START)
        && flag_ok(t, TOUR_START, CORNER_START, TOUR_END)
        && zero_from(t, KEPT_START, KEPT_END)
}

// The number of a site, or none where it is 0: site numbers begin at 1.
fn site_number(n: u16) -> Option<u16>
    ensures { result ≡ site_number n }
{
    if n == 0 { None } else { Some(n) }
}

// The tour, or none.
pub fn tour(t: &[u8; TABLE_BYTES]) -> Option<Tour>
    ensures { result ≡ tour_in t.now }
{
    let flag = words::word(t, TOUR_START);
    if flag == 0 {
        return None;
    }
    let corner = position_at(t, CORNER_START);
    let last = site_number(words::word(t, LAST_START));
    Some(Tour { corner, last })
}

// Stores a tour's words: flag, corner, number.
fn put_tour(t: &mut [u8; TABLE_BYTES], flag: u16, corner: Position, last: u16)
    ensures { t.new ≡ put_tour t.old flag corner last }
{
    words::put_word(t, TOUR_START, flag);
    store_position(t, CORNER_START, corner);
    words::put_word(t, LAST_START, last);
}

// Stores the tour, or that there is none. A remembered number 0 is stored as no site.
pub fn store_tour(t: &mut [u8; TABLE_BYTES], tour: Option<Tour>)
    ensures { TourStored (stored_as tour) t.old t.new }
{
    match tour {
        None => {
            let nowhere = Position { east: 0, north: 0 };
            put_tour(t, 0, nowhere, 0);
        }
        Some(k) => put_tour(t, 1, k.corner, k.last.unwrap_or(0)),
    }
}
