// The records of a report, and their sizes: 2B of an accepted change, 21 of a refusal, 3D of the list in a row.
// Document 01, "Buffers and batches".
#![tactic(auto)]

ghost use Rattle.std.specs.Prelude.{◌≡◌, ◌+◌, ◌*◌, ◌-◌, ◌%◌, ◌^◌, ◌<◌, ◌≤◌, length};
ghost use Rattle.limits.specs.Limits.{max_sites};
ghost use Rattle.grid.specs.Fraction.{lowest};
ghost use Rattle.records.specs.Bytes.{bytes4, write};
ghost use Rattle.records.specs.ListRecord.{entry_bytes, list_bytes, record_bytes, entry_size, list_size};
ghost use Rattle.book.specs.Reply.{done, refused, record_of, record_size};
ghost use Rattle.list_row.specs.Entries.{start_at, row_entry, entries_from};
ghost use Rattle.call_record.specs.Starts.{RatioAt, start_bytes};

use book::Cause;
use grid::Fraction;
use list_row::{Row, Vertex};

// What each record begins with: 2B of an accepted change, 21 of a refusal, 3D of a list.
const DONE_MARK: u8 = 0x2B;

const REFUSAL_MARK: u8 = 0x21;

const LIST_MARK: u8 = 0x3D;

// The bytes of a record 2B.
pub const DONE_SIZE: usize = 1;

// The bytes of a record 21.
pub const REFUSAL_SIZE: usize = 2;

// The bytes of a record 3D before its entries: mark and count.
const HEAD_SIZE: usize = 3;

// The bytes of an entry: number, numerator and denominator.
const ENTRY_SIZE: usize = 10;

// The bytes of a record 3D of k entries.
pub fn list_size(k: usize) -> usize
    requires { k ≤ max_sites }
    ensures { result ≡ list_size k }
{
    HEAD_SIZE + ENTRY_SIZE * k
}

// Writes the record of an accepted change.
pub fn put_done(report: &mut [u8], at: usize)
    requires { at + record_size done ≤ length report.old }
    ensures { report.new ≡ write report.old at (record_of done) }
{
    report[at] = DONE_MARK;
}

// Writes the record of a refusal.
pub fn put_refusal(cause: Cause, report: &mut [u8], at: usize)
    requires { at + record_size (refused cause) ≤ length report.old }
    ensures { report.new ≡ write report.old at (record_of (refused cause)) }
{
    let number = u8::from(cause);
    report[at] = REFUSAL_MARK;
    report[at + 1] = number;
}

// The number of entries, as the record has it.
fn count_of(k: usize) -> u16
    requires { k ≤ max_sites }
    ensures { result ≡ k }
{
    k as u16
}

// Where v takes over from u, not yet in lowest terms.
fn ratio_of(u: Vertex, v: Vertex) -> Fraction
    requires { (u.a < v.a) × (v.c < u.c) × (v.a < 2 ^ 31) × (u.c < 2 ^ 31) }
    ensures { (result.num ≡ v.a - u.a) × (result.den ≡ (v.a - u.a) + (u.c - v.c)) }
{
    let rise = u64::from(v.a - u.a);
    let fall = u64::from(u.c - v.c);
    Fraction {
        num: rise,
        den: rise + fall,
    }
}

// Where the stretch of the vertex at i starts, not yet in lowest terms.
fn ratio_in(row: Row, i: usize) -> Fraction
    requires { i < row.k }
    ensures { let r = row.entry in RatioAt r.leg r.t.now r.places.now i result }
{
    if i == 0 {
        return Fraction { num: 0, den: 1 };
    }
    ratio_of(row.vertex(i - 1), row.vertex(i))
}

// Where the stretch of the vertex at i starts.
fn start_of(row: Row, i: usize) -> Fraction
    requires { i < row.k }
    ensures { let r = row.entry in result ≡ start_at r.leg r.t.now r.places.now i }
{
    let q = ratio_in(row, i);
    grid::factor::lowest_terms(q.num, q.den)
}

// Writes x in 32 bits.
fn put_long(b: &mut [u8], at: usize, x: u64)
    requires { at + 4 ≤ length b.old }
    ensures { b.new ≡ write b.old at (bytes4 x) }
{
    let [first, second, third, fourth, ..] = x.to_le_bytes();
    b[at] = first;
    b[at + 1] = second;
    b[at + 2] = third;
    b[at + 3] = fourth;
}

// Writes a site's number and its start.
fn put_start(report: &mut [u8], at: usize, number: u16, start: Fraction)
    requires { at + entry_size ≤ length report.old }
    ensures { report.new ≡ write report.old at (start_bytes number start) }
{
    words::put_word(report, at, number);
    put_long(report, at + 2, start.num);
    put_long(report, at + 6, start.den);
}

// Writes the entry of the vertex at i.
fn put_entry(row: Row, i: usize, report: &mut [u8], at: usize)
    requires { (i < row.k) × (at + entry_size ≤ length report.old) }
    ensures { let r = row.entry in report.new ≡ write report.old at
        (entry_bytes (row_entry r.leg r.t.now r.places.now i)) }
{
    put_start(report, at, row.number(i), start_of(row, i));
}

// Writes n with the start p and m with the start q, both in lowest terms.
fn put_starts(report: &mut [u8], at: usize, n: u16, m: u16, p: Fraction, q: Fraction)
    requires { (at + 2 * entry_size ≤ length report.old) × (0 < p.den) × (0 < q.den)
        × (p.num + q.num < 2 ^ 64) }
    ensures { report.new ≡ write
        (write report.old at (start_bytes n (lowest p.num p.den)))
        (at + entry_size) (start_bytes m (lowest q.num q.den)) }
{
    let (first, second) = grid::factor::lowest_two(p, q);
    put_start(report, at, n, first);
    put_start(report, at + ENTRY_SIZE, m, second);
}

// Writes the entries of the vertices at i and i + 1: two starts are reduced together, which takes less time than one
// after the other.
fn put_two(row: Row, i: usize, report: &mut [u8], at: usize)
    requires { (i + 1 < row.k) × (at + 2 * entry_size ≤ length report.old) }
    ensures { let r = row.entry in report.new ≡ write
        (write report.old at (entry_bytes (row_entry r.leg r.t.now r.places.now i)))
        (at + entry_size) (entry_bytes (row_entry r.leg r.t.now r.places.now (i + 1))) }
{
    let j = i + 1;
    let p = ratio_in(row, i);
    let q = ratio_in(row, j);
    put_starts(report, at, row.number(i), row.number(j), p, q);
}

// Writes the entries from the one at j on.
fn put_entries(row: Row, j: usize, report: &mut [u8], at: usize)
    requires { (j ≤ row.k) × (at + entry_size * (row.k - j) ≤ length report.old) }
    ensures { let r = row.entry in report.new ≡ write report.old at
        (list_bytes (entries_from r.leg r.t.now r.places.now j r.k)) }
{
    let n = row.k - j;
    for pair in 0..n / 2 {
        put_two(row, j + 2 * pair, report, at + 2 * ENTRY_SIZE * pair);
    }
    if n % 2 == 1 {
        put_entry(row, row.k - 1, report, at + ENTRY_SIZE * (n - 1));
    }
}

// Writes the list in a row as a record, from the entry at j on, and says where the record ends.
pub fn put_list(row: Row, j: usize, report: &mut [u8], at: usize) -> usize
    requires { (j ≤ row.k) × (at + list_size (row.k - j) ≤ length report.old) }
    ensures wrote { let r = row.entry in report.new ≡ write report.old at
        (record_bytes (entries_from r.leg r.t.now r.places.now j r.k)) }
    ensures upto { result ≡ at + list_size (row.entry.k - j) }
{
    let n = row.k - j;
    report[at] = LIST_MARK;
    words::put_word(report, at + 1, count_of(n));
    put_entries(row, j, report, at + HEAD_SIZE);
    at + list_size(n)
}
