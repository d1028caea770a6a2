// Skipping what cannot enter the list in a row, and dealing with a site: skipping it or inserting it. One witness is
// enough for a skip: the vertex before the cut, or the one edge at the cut. Ties are no skip (document 01, "Where a
// list goes astray"; heuristic 2 of document 002 skips them). A list only falls as sites are added, so what was a
// witness stays one.
#![tactic(auto)]

ghost use Rattle.std.specs.Prelude.{◌≡◌, ◌+◌, ◌*◌, ◌^◌, ◌<◌, ◌≤◌, length};
ghost use Rattle.grid.specs.Position.{LegOnGrid};
ghost use Rattle.grid.specs.Says.{If};
ghost use Rattle.split.specs.Skip.{Shut};
ghost use Rattle.list_row.specs.Places.{HasSite};
ghost use Rattle.list_row.specs.Vertices.{IsVertex, row_bytes, Held, Cut};
ghost use Rattle.list_skip.specs.Skipping.{SmallCorner, SmallEdge, EdgeShuts, KnowsNothing};
ghost use Rattle.list_skip.specs.Skipping.{SmallGap, SeenAt, Looked, Space, Dealt};

use grid::{Corner, Leg};
use list_row::{Gap, Row, Vertex};

// Whether v is as low as the corner in both, and lower in one. A tie shuts nothing out: there the tie rule decides.
pub fn lower(v: Corner, corner: Corner) -> bool
    requires { SmallCorner v × SmallCorner corner }
    ensures { If result (Shut v v corner.a corner.c) }
{
    v.a <= corner.a && v.c <= corner.c && v.a + v.c < corner.a + corner.c
}

// What is compared at the weights m and n.
fn weigh(m: u32, n: u32, a: u32, c: u32) -> u64
    requires { (m < 2 ^ 31) × (n < 2 ^ 31) × (a < 2 ^ 31) × (c < 2 ^ 31) }
    ensures { result ≡ m * a + n * c }
{
    list_row::product(m, a) + list_row::product(n, c)
}

// Whether the corner is strictly above the edge of u and v.
fn above(u: Corner, v: Corner, corner: Corner) -> bool
    requires { SmallCorner u × SmallCorner v × SmallCorner corner }
    ensures { If result (Shut u v corner.a corner.c) }
{
    if v.a <= u.a {
        return false;
    }
    if u.c <= v.c {
        return false;
    }
    if corner.a < u.a {
        return false;
    }
    if corner.c < v.c {
        return false;
    }
    let fall = u.c - v.c;
    let rise = v.a - u.a;
    let edge = weigh(fall, rise, v.a, v.c);
    let here = weigh(fall, rise, corner.a, corner.c);
    edge < here
}

// Two sites that were listed when they were looked at, by their squared distances: what is known of a list without
// reading it.
#[derive(Clone, Copy)]
pub struct Edge {
    pub left: Corner,
    pub right: Corner,
}

// More than any squared distance.
const FAR: u32 = u32::MAX / 2;

// The edge that shuts nothing out. No Option of an edge: what is known of nothing is an edge like any other, so that
// tests of it need no case and no branch.
pub fn no_edge() -> Edge
    ensures { KnowsNothing result }
{
    Edge {
        left: Corner { a: FAR, c: FAR },
        right: Corner { a: FAR, c: FAR },
    }
}

// Whether the edge's left end or the edge itself shuts the corner out. No memory is read.
pub fn shuts(edge: Edge, corner: Corner) -> bool
    requires { SmallEdge edge × SmallCorner corner }
    ensures { If result (EdgeShuts edge corner.a corner.c) }
{
    lower(edge.left, corner) || above(edge.left, edge.right, corner)
}

// What a look at a corner found: whether the list shuts it out, its cut, and the edge there. The cut is no Option: it
// is told of a corner that is shut out, too.
#[derive(Clone, Copy)]
pub struct Seen {
    pub shut: bool,
    pub cut: usize,
    pub edge: Edge,
}

// What the vertices about the cut of a corner tell; an empty row has none, and knows nothing.
fn tell(gap: Option<Gap>, corner: Corner) -> Seen
    requires { SmallGap gap × SmallCorner corner }
    ensures { SeenAt gap corner result }
{
    let Some(gap) = gap else {
        return Seen {
            shut: false,
            cut: 0,
            edge: no_edge(),
        };
    };
    let edge = Edge {
        left: Corner {
            a: gap.left.a,
            c: gap.left.c,
        },
        right: Corner {
            a: gap.right.a,
            c: gap.right.c,
        },
    };
    Seen {
        shut: shuts(edge, corner),
        cut: gap.n,
        edge,
    }
}

// Looks whether the list shuts out all that is at or beyond the corner, whose cut is about `near`.
pub fn covers(row: Row, corner: Corner, near: usize) -> Seen
    requires { SmallCorner corner }
    ensures { let r = row.entry in Looked r.leg r.t.now r.places.now r.k corner result }
{
    tell(row.cut_near(corner.a, near), corner)
}

// Deals with the site x, of which n of the list are not right: the row that begins the work buffer becomes the list
// of one site more.
pub fn deal_vertex(t: &[u8], leg: Leg, x: Vertex, work: &mut [u8], k: usize, n: usize) -> usize
    requires held { Held leg t.now work.old k × LegOnGrid leg × HasSite t.now x.place
        × IsVertex leg t.now x.place x }
    requires space { Space leg t.now work.old k x.place × (row_bytes ≤ length work.old)
        × Cut leg t.now work.old k x.a n }
    ensures { Dealt leg t.now work.old k x.place work.new result }
{
    if k == limits::MAX_SITES {
        return k;
    }
    list_insert::insert(t, work, leg, k, n, x)
}

// Deals with the site at p, skipping it or inserting it. Not by `covers`, which looks about a guess: with one caller
// that one is compiled into the search.
pub fn deal(t: &[u8], leg: Leg, p: usize, work: &mut [u8], k: usize) -> usize
    requires held { Held leg t.now work.old k × LegOnGrid leg × HasSite t.now p }
    requires space { Space leg t.now work.old k p × (row_bytes ≤ length work.old) }
    ensures { Dealt leg t.now work.old k p work.new result }
{
    let x = list_row::vertex_at(t, leg, p);
    let row = Row {
        t,
        places: work,
        leg,
        k,
    };
    let corner = Corner { a: x.a, c: x.c };
    let seen = tell(row.cut(x.a), corner);
    if seen.shut {
        return k;
    }
    deal_vertex(t, leg, x, work, k, seen.cut)
}
