// Inserting a site into the list in a row, in place. Follows Handle_Leaf_Entry of document 002 (figure 4.6): on
// either side the neighbour is the last vertex that is not taken over, and no breakpoint is made at 0 or at 1. What
// stays on the right moves up to the site or makes room for it.
#![tactic(auto)]

ghost use Rattle.std.specs.Prelude.{◌≡◌, ◌+◌, ◌*◌, ◌-◌, ◌^◌, ◌<◌, ◌≤◌};
ghost use Rattle.words.specs.Words.{Copied};
ghost use Rattle.grid.specs.Position.{LegOnGrid};
ghost use Rattle.grid.specs.Says.{Says};
ghost use Rattle.split.specs.Hull.{Under};
ghost use Rattle.split.specs.SplitOf.{Hides};
ghost use Rattle.list_row.specs.Places.{HasSite};
ghost use Rattle.list_row.specs.Vertices.{point_at, IsVertex, place_at, vertex_in, stack, Held, Cut};
ghost use Rattle.list_insert.specs.Insertion.{RowRoom, BendsInHand, Placed, Stays, Tangent, Between};
ghost use Rattle.list_insert.specs.Insertion.{BelowChord, Spliced, Inserted};

use grid::Leg;
use list_row::{Row, Vertex};

// Whether u hides x, which is not left of it.
fn hides(t: &[u8], leg: Leg, u: Vertex, x: Vertex) -> bool
    requires hider { IsVertex leg t.now u.place u × HasSite t.now u.place }
    requires hidden { IsVertex leg t.now x.place x × HasSite t.now x.place }
    ensures { Says result
        (Hides (point_at leg t.now u.place) (point_at leg t.now x.place)) }
{
    if x.c < u.c {
        return false;
    }
    if u.c < x.c {
        return true;
    }
    if u.a < x.a {
        return true;
    }
    list_row::comes_first(t, leg, u.place, x.place)
}

// Whether the breakpoint of s and u comes before that of u and x.
fn bends(s: Vertex, u: Vertex, x: Vertex) -> bool
    requires rising { (s.a ≤ u.a) × (u.a ≤ x.a) × (x.a < 2 ^ 31) }
    requires falling { (x.c ≤ u.c) × (u.c ≤ s.c) × (s.c < 2 ^ 31) }
    ensures { Says result (BendsInHand s u x) }
{
    let before = list_row::product(u.a - s.a, u.c - x.c);
    let after = list_row::product(x.a - u.a, s.c - u.c);
    before < after
}

// Whether x may stand on the first j, of which u is the last.
fn stands(row: Row, j: usize, u: Vertex, x: Vertex) -> bool
    requires within { (0 < j) × (j ≤ row.k) }
    requires vertex { IsVertex row.leg row.t.now (place_at row.places.now (j - 1)) u
        × IsVertex row.leg row.t.now x.place x }
    ensures { let r = row.entry in Says result
        (Under (point_at r.leg r.t.now x.place) (stack r.leg r.t.now r.places.now j)) }
{
    if x.a <= u.a {
        return false;
    }
    if u.c <= x.c {
        return false;
    }
    if j == 1 {
        return true;
    }
    let s = row.vertex(j - 2);
    bends(s, u, x)
}

// Drops from the end what x takes over, and says on how many x goes: on none where another hides it.
fn place(row: Row, x: Vertex) -> Option<usize>
    requires { IsVertex row.leg row.t.now x.place x × HasSite row.t.now x.place }
    ensures { let r = row.entry in
        Placed r.leg r.t.now r.places.now r.k (point_at r.leg r.t.now x.place) result }
{
    for i in (0..row.k).rev() {
        let j = i + 1;
        let u = row.vertex(i);
        if hides(row.t, row.leg, u, x) {
            return None;
        }
        if stands(row, j, u, x) {
            return Some(j);
        }
    }
    Some(0)
}

// Whether the vertex at i, which is right of x, stays behind it: it lies below x, and the breakpoints rise.
fn stays(row: Row, i: usize, x: Vertex) -> bool
    requires within { i < row.k }
    requires vertex { IsVertex row.leg row.t.now x.place x
        × (x.a < (vertex_in row.leg row.t.now row.places.now i).a) }
    ensures { let r = row.entry in Says result
        (Stays r.leg r.t.now r.places.now r.k (point_at r.leg r.t.now x.place) i) }
{
    let u = row.vertex(i);
    if x.c <= u.c {
        return false;
    }
    let next = i + 1;
    if next == row.k {
        return true;
    }
    let v = row.vertex(next);
    bends(x, u, v)
}

// The first from n on, where those right of x begin, that stays; the row's length where none does.
fn right_tangent(row: Row, n: usize, x: Vertex) -> usize
    requires { IsVertex row.leg row.t.now x.place x × Cut row.leg row.t.now row.places.now row.k x.a n }
    ensures { let r = row.entry in
        Tangent r.leg r.t.now r.places.now r.k n (point_at r.leg r.t.now x.place) result }
{
    for i in n..row.k {
        if stays(row, i, x) {
            return i;
        }
    }
    row.k
}

// Whether x is strictly below the chord of its neighbours, the vertices at j - 1 and at i. A missing neighbour leaves
// it at an end of the list.
fn below_chord(row: Row, j: usize, i: usize, x: Vertex) -> bool
    requires within { (j ≤ row.k) × (i ≤ row.k) }
    requires vertex { IsVertex row.leg row.t.now x.place x
        × Between row.leg row.t.now row.places.now row.k j i (point_at row.leg row.t.now x.place) }
    ensures { let r = row.entry in Says result
        (BelowChord r.leg r.t.now r.places.now r.k j i (point_at r.leg r.t.now x.place)) }
{
    if j == 0 {
        return true;
    }
    if i == row.k {
        return true;
    }
    let s = row.vertex(j - 1);
    let u = row.vertex(i);
    bends(s, x, u)
}

// Moves the places from i up to k behind j. Most often they make room for one: a distance that the compiler knows lets
// it move many bytes at once.
fn shift(row: &mut [u8], k: usize, j: usize, i: usize)
    requires { (j ≤ i) × (i ≤ k) × RowRoom k row.old }
    ensures { Copied row.old (2 * i) row.old (2 * j + 2) (2 * (k - i))
        row.new }
{
    let n = 2 * (k - i);
    let from = 2 * i;
    if i == j {
        words::shift(row, from, from + 2, n);
        return;
    }
    words::shift(row, from, 2 * j + 2, n);
}

// Puts place p behind the first j, and the places from i up to k behind it.
fn splice(row: &mut [u8], k: usize, j: usize, i: usize, p: usize) -> usize
    requires { (j ≤ i) × (i ≤ k) × RowRoom k row.old × (p < 65536) }
    ensures count { result ≡ j + 1 + (k - i) }
    ensures spliced { Spliced row.old k j i p row.new }
{
    shift(row, k, j, i);
    list_row::put_place(row, j, p);
    j + 1 + (k - i)
}

// Inserts x into the list in the first k of the row that begins the work buffer; n of them are not right of it.
pub fn insert(t: &[u8], work: &mut [u8], leg: Leg, k: usize, n: usize, x: Vertex) -> usize
    requires held { Held leg t.now work.old k × LegOnGrid leg × RowRoom k work.old
        × Cut leg t.now work.old k x.a n }
    requires vertex { IsVertex leg t.now x.place x × HasSite t.now x.place }
    ensures { Inserted leg t.now work.old k (point_at leg t.now x.place)
        work.new result }
{
    let left = Row {
        t,
        places: work,
        leg,
        k: n,
    };
    let Some(j) = place(left, x) else {
        return k;
    };
    let row = Row {
        t,
        places: work,
        leg,
        k,
    };
    let i = right_tangent(row, n, x);
    if !below_chord(row, j, i, x) {
        return k;
    }
    splice(work, k, j, i, x.place)
}
