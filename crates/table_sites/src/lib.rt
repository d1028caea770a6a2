// The site array of the table, sorted by site number: it is the site book's lines. Document 01, "The site book";
// docs/LAYOUT.md. A record is a site's number, its easting and its northing, and a word that is 0, 16 bits each.
#![tactic(auto)]

ghost use Rattle.std.specs.Prelude.{◌≡◌, ◌*◌, ◌-◌, ◌<◌, ◌≤◌};
ghost use Rattle.limits.specs.Limits.{max_sites};
ghost use Rattle.words.specs.Words.{word_at};
ghost use Rattle.table_sites.specs.Layout.{record_start};
ghost use Rattle.table_sites.specs.Lines.{lines_in, line_at, Array, FoundAs, Narrowed};

use grid::Site;
use limits::TABLE_BYTES;

pub mod change;
pub mod rules;

// Where the first record stands, and the bytes of a record: record k begins at SITE_START + SITE_BYTES * k.
const SITE_START: usize = 64;

const SITE_BYTES: usize = 8;

// Where in a record its easting, its northing and the word that is 0 stand.
const EAST_OFFSET: usize = 2;

const NORTH_OFFSET: usize = 4;

const SPARE_OFFSET: usize = 6;

// The number in record k.
pub fn number(t: &[u8; TABLE_BYTES], k: usize) -> u16
    requires { k < max_sites }
    ensures { result ≡ word_at t.now (record_start k) }
{
    let i = SITE_START + SITE_BYTES * k;
    words::word(t, i)
}

// The site of record k.
pub fn line(t: &[u8; TABLE_BYTES], k: usize) -> Site
    requires { k < max_sites }
    ensures { result ≡ line_at t.now k }
{
    list_row::site_at_byte(t, SITE_START + SITE_BYTES * k)
}

// The place of record k: half the byte at which it begins.
pub fn place_of_record(k: usize) -> usize
    requires { k ≤ max_sites }
    ensures { 2 * result ≡ record_start k }
{
    let start = SITE_START + SITE_BYTES * k;
    start / 2
}

// The record at which number n stands if no lower number is missing, or else the last one. Any record would do.
fn guess(k: usize, n: u16) -> usize
    requires { 0 < k }
    ensures { result < k }
{
    usize::from(n).saturating_sub(1).min(k - 1)
}

// Where number n stands, by bisection of the records from `from` up to `to`.
fn bisect(t: &[u8; TABLE_BYTES], n: u16, from: usize, to: usize) -> Result<usize, usize>
    requires { Array t.now × Narrowed t.now n from to }
    ensures { FoundAs result n (lines_in t.now) }
{
    let mut lo = from;
    let mut hi = to;
    while lo < hi {
        let mid = lo + (hi - lo) / 2;
        let m = number(t, mid);
        if m == n {
            return Ok(mid);
        }
        if m < n {
            lo = mid + 1;
            continue;
        }
        hi = mid;
    }
    Err(lo)
}

// The record, of those from lo up to hi, at which number n stands if the numbers rise evenly to m, that of record hi.
// Any of them would do.
fn share(n: u16, m: u16, lo: usize, hi: usize) -> usize
    requires { (n < m) × (lo < hi) × (hi ≤ max_sites) }
    ensures { (lo ≤ result) × (result < hi) }
{
    let past = usize::from(n) * (hi + 1) / usize::from(m);
    past.saturating_sub(1).max(lo).min(hi - 1)
}

// Where number n stands, of the records from `from` up to `to`: a look at the first, and on in steps that double.
fn climb(t: &[u8; TABLE_BYTES], n: u16, from: usize, to: usize) -> Result<usize, usize>
    requires { Array t.now × Narrowed t.now n from to }
    ensures { FoundAs result n (lines_in t.now) }
{
    let mut lo = from;
    let mut step = 0;
    while step < to - lo {
        let mid = lo + step;
        let m = number(t, mid);
        if m == n {
            return Ok(mid);
        }
        if n < m {
            return bisect(t, n, lo, mid);
        }
        lo = mid + 1;
        step = 2 * step + 1;
    }
    bisect(t, n, lo, to)
}

// The same from the last one down. Bounds, steps and comparison all turn round, so that one function for both, with a
// closure for each, would be no plainer.
fn fall(t: &[u8; TABLE_BYTES], n: u16, from: usize, to: usize) -> Result<usize, usize>
    requires { Array t.now × Narrowed t.now n from to }
    ensures { FoundAs result n (lines_in t.now) }
{
    let mut hi = to;
    let mut step = 1;
    while step <= hi - from {
        let mid = hi - step;
        let x = number(t, mid);
        if x == n {
            return Ok(mid);
        }
        if x < n {
            return bisect(t, n, mid + 1, hi);
        }
        hi = mid;
        step = 2 * step;
    }
    bisect(t, n, from, hi)
}

// Where number n stands, of the records from lo up to hi, whose number is m. Where numbers are spread evenly the
// first look finds it, or is a few records off.
fn find_spread(t: &[u8; TABLE_BYTES], n: u16, lo: usize, hi: usize, m: u16) -> Result<usize, usize>
    requires { Array t.now × Narrowed t.now n lo hi × (n < m) }
    ensures { FoundAs result n (lines_in t.now) }
{
    if lo == hi {
        return Err(lo);
    }
    let mid = share(n, m, lo, hi);
    let x = number(t, mid);
    if x == n {
        return Ok(mid);
    }
    if x < n {
        return climb(t, n, mid + 1, hi);
    }
    fall(t, n, lo, mid)
}

// Where number n stands. Numbers are often given one after the other: then the first look finds it, or leaves a few
// records. Else they are taken for evenly spread. A bisection of all records takes steps that cannot be foreseen.
pub fn find(t: &[u8; TABLE_BYTES], n: u16) -> Result<usize, usize>
    requires { Array t.now }
    ensures { FoundAs result n (lines_in t.now) }
{
    let k = table_header::count(t);
    if k == 0 {
        return Err(0);
    }
    let at = guess(k, n);
    let first = number(t, at);
    if first == n {
        return Ok(at);
    }
    if first < n {
        return bisect(t, n, at + 1, k);
    }
    // Numbers rise by one at least, so that n stands at no lower record.
    let from = at.saturating_sub(usize::from(first - n));
    find_spread(t, n, from, at, first)
}

// Record j where `there` says so, else record k. A choice of values: it falls either way as often, so that a branch
// would be foreseen half the time.
fn either(there: bool, j: usize, k: usize) -> usize
    requires { k ≤ j }
    ensures { result ≤ j }
{
    if there { j } else { k }
}

// Where number n stands, looked for at record k and at the one behind it first. Any k would do.
pub fn find_near(t: &[u8; TABLE_BYTES], n: u16, k: usize) -> Result<usize, usize>
    requires { Array t.now }
    ensures { FoundAs result n (lines_in t.now) }
{
    let c = table_header::count(t);
    if k < c {
        let j = (k + 1).min(c - 1);
        let at = either(number(t, j) == n, j, k);
        let m = number(t, at);
        if m == n {
            return Ok(at);
        }
    }
    bisect(t, n, 0, c)
}
