// Changes of the site array: a record is put between others, taken out, or given another position.
ghost use Rattle.std.specs.Prelude.{◌+◌, ◌<◌, ◌≤◌, length};
ghost use Rattle.limits.specs.Limits.{max_sites};
ghost use Rattle.table_header.specs.Header.{count_in};
ghost use Rattle.table_sites.specs.Layout.{site_bytes};
ghost use Rattle.table_sites.specs.Lines.{lines_in, Array};
ghost use Rattle.table_sites.specs.Changes.{inserted, deleted, placed, ArrayChanged, PutPosition, PutSite};

use crate::{EAST_OFFSET, NORTH_OFFSET, SITE_BYTES, SITE_START, SPARE_OFFSET};
use grid::{Position, Site};
use limits::TABLE_BYTES;

// Gives the record at byte i a position.
fn put_position(t: &mut [u8], i: usize, position: Position)
    requires { i + site_bytes ≤ length t.old }
    ensures { PutPosition i position t.old t.new }
{
    words::put_word(t, i + EAST_OFFSET, position.east);
    words::put_word(t, i + NORTH_OFFSET, position.north);
}

// Stores a site in the record at byte i.
fn put_site(t: &mut [u8], i: usize, site: Site)
    requires { i + site_bytes ≤ length t.old }
    ensures { PutSite i site t.old t.new }
{
    words::put_word(t, i, site.number);
    put_position(t, i, site.position);
    words::put_word(t, i + SPARE_OFFSET, 0);
}

// Puts a site before record k: the records from k on go up by one.
pub fn insert(t: &mut [u8; TABLE_BYTES], k: usize, site: Site)
    requires { Array t.old × (count_in t.old < max_sites) × (k ≤ count_in t.old) }
    ensures { ArrayChanged (inserted k site (lines_in t.old)) t.old t.new }
{
    let n = table_header::count(t);
    let to = SITE_START + SITE_BYTES * k;
    // Proved to lose no bit, as below: a `try_from` would test what is known.
    let more = (n + 1) as u16;
    words::shift(t, to, to + SITE_BYTES, SITE_BYTES * (n - k));
    put_site(t, to, site);
    table_header::put_count(t, more);
}

// Takes record k out: the records behind it go down by one.
pub fn delete(t: &mut [u8; TABLE_BYTES], k: usize)
    requires { Array t.old × (k < count_in t.old) }
    ensures { ArrayChanged (deleted k (lines_in t.old)) t.old t.new }
{
    let n = table_header::count(t);
    let rest = n - 1;
    let at = SITE_START + SITE_BYTES * k;
    let fewer = rest as u16;
    words::shift(t, at + SITE_BYTES, at, SITE_BYTES * (rest - k));
    table_header::put_count(t, fewer);
}

// Gives record k another position.
pub fn place(t: &mut [u8; TABLE_BYTES], k: usize, position: Position)
    requires { Array t.old × (k < count_in t.old) }
    ensures { ArrayChanged (placed k position (lines_in t.old)) t.old t.new }
{
    let at = SITE_START + SITE_BYTES * k;
    put_position(t, at, position);
}
