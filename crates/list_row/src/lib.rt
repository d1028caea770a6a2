// Split lists in rows of places. A place is half the byte offset of a site record; a row is 16-bit places, one after
// the other, the vertex that is nearest to S first.
#![tactic(auto)]

ghost use Rattle.std.specs.Prelude.{◌≡◌, ◌+◌, ◌*◌, ◌-◌, ◌^◌, ◌<◌, ◌≤◌, length};
ghost use Rattle.grid.specs.Position.{LegOnGrid};
ghost use Rattle.grid.specs.Says.{Says};
ghost use Rattle.split.specs.SplitList.{rank};
ghost use Rattle.list_row.specs.Places.{site_at_byte, site_at, HasSite};
ghost use Rattle.list_row.specs.Vertices.{IsVertex, place_at, put_place, Held, Cut, CutBetween};
ghost use Rattle.list_row.specs.Gaps.{Stands, About, Cuts};
ghost use Rattle.list_row.specs.Alike.{held_alike};

use grid::{Leg, Position, Site};

// The bytes of a row that holds every site. That a buffer has so many stands in the contracts: it may have more, and a
// type of one length would ask more of callers.
pub const ROW_BYTES: usize = 2 * limits::MAX_SITES;

// A site in hand: its place, its squared distances from S and from E.
#[derive(Clone, Copy)]
pub struct Vertex {
    pub place: usize,
    pub a: u32,
    pub c: u32,
}

// The product of two differences of squared distances, in 64 bits. grid::side has one of numbers of 16 bits, with their
// bound: a function for both would have to say of each type which numbers it has.
pub fn product(x: u32, y: u32) -> u64
    requires { x * y < 2 ^ 64 }
    ensures { result ≡ x * y }
{
    u64::from(x) * u64::from(y)
}

// The site whose three words begin at byte i, wherever they lie.
#[tactic(auto, unfolding(crate::specs::Places::site_at_byte))]
pub fn site_at_byte(t: &[u8], i: usize) -> Site
    requires { i + 6 ≤ length t.now }
    ensures { result ≡ site_at_byte t.now i }
{
    let number = words::word(t, i);
    let east = words::word(t, i + 2);
    let north = words::word(t, i + 4);
    Site {
        number,
        position: Position { east, north },
    }
}

// The site at a place.
pub fn site_at(t: &[u8], p: usize) -> Site
    requires { (p < 65536) × (2 * p + 6 ≤ length t.now) }
    ensures { result ≡ site_at t.now p }
{
    site_at_byte(t, 2 * p)
}

// The site at a place, measured from the leg's ends.
pub fn vertex_at(t: &[u8], leg: Leg, p: usize) -> Vertex
    requires { HasSite t.now p × LegOnGrid leg }
    ensures { IsVertex leg t.now p result }
{
    let site = site_at(t, p);
    let a = grid::distance::between(site.position, leg.s) as u32;
    let c = grid::distance::between(site.position, leg.e) as u32;
    Vertex { place: p, a, c }
}

// What decides a tie: the least comes first. On the right of the leg it is the site's number, elsewhere it is above all
// of those. The tie rule, which no other function knows; only a tie asks for it.
fn rank(leg: Leg, site: Site) -> u32
    ensures { result ≡ rank leg site }
{
    let number = u32::from(site.number);
    if grid::side::on_the_right(leg, site.position) {
        return number;
    }
    u32::from(limits::MAX_NUMBER) + 1 + number
}

// Whether of two sites that tie along the whole leg the one at p comes first, or has the same rank: then the one at q
// is not listed.
pub fn comes_first(t: &[u8], leg: Leg, p: usize, q: usize) -> bool
    requires { HasSite t.now p × HasSite t.now q }
    ensures { Says result (rank leg (site_at t.now p) ≤ rank leg (site_at t.now q)) }
{
    let m = rank(leg, site_at(t, p));
    let n = rank(leg, site_at(t, q));
    m <= n
}

// The number of the site that stands in a row at i. A row that is in the course of being spent is no `Row`.
pub fn number_in(t: &[u8], row: &[u8], i: usize) -> u16
    requires { (2 * i + 2 ≤ length row.now) × HasSite t.now (place_at row.now i) }
    ensures { (result ≡ (site_at t.now (place_at row.now i)).number) × (result < 65536) }
{
    let p = usize::from(words::word(row, 2 * i));
    words::word(t, 2 * p)
}

// Puts place p into a row at i.
pub fn put_place(row: &mut [u8], i: usize, p: usize)
    requires { (2 * i + 2 ≤ length row.old) × (p < 65536) }
    ensures { row.new ≡ put_place row.old i p }
{
    words::put_word(row, 2 * i, p as u16);
}

// Where a bisection of lo to hi looks next: at the ends of the k first, where a site that comes in the order of the
// row goes. Which one needs no proof.
fn probe(lo: usize, hi: usize, k: usize) -> usize
    requires { (lo < hi) × (hi ≤ k) }
    ensures { (lo ≤ result) × (result < hi) }
{
    if hi == k {
        return k - 1;
    }
    if lo == 0 {
        return 0;
    }
    lo + (hi - lo) / 2
}

// A cut, and two vertices of the row about it: the last that is not right of the cut and the first that is; at an end
// of the row, that end twice.
#[derive(Clone, Copy)]
pub struct Gap {
    pub n: usize,
    pub left: Vertex,
    pub right: Vertex,
}

// So many steps from a guess; then a bisection is quicker, however wrong the guess is.
const STEPS: usize = 8;

// The list of a leg as it is read: the table, and a row whose first k places are the vertices of a hull. Functions that
// write the row take its bytes, which are lent to them alone, and make a `Row` of them for what they read.
#[derive(Clone, Copy)]
pub struct Row<'a> {
    pub t: &'a [u8],
    pub places: &'a [u8],
    pub leg: Leg,
    pub k: usize,
    pub ghost held: { Held leg t.now places.now k } by { held_alike leg t.now places.now k },
    pub ghost on_grid: { LegOnGrid leg },
}

impl<'a> Row<'a> {
    // The vertex that stands at i.
    pub fn vertex(self, i: usize) -> Vertex
        requires { i < self.k }
        ensures { let r = self.entry in IsVertex r.leg r.t.now (place_at r.places.now i) result }
    {
        let p = usize::from(words::word(self.places, 2 * i));
        vertex_at(self.t, self.leg, p)
    }

    // The number of the site that stands at i.
    pub fn number(self, i: usize) -> u16
        requires { i < self.k }
        ensures { let r = self.entry in
            (result ≡ (site_at r.t.now (place_at r.places.now i)).number) × (result < 65536) }
    {
        number_in(self.t, self.places, i)
    }

    // How many are not right of a, by bisection from lo to hi.
    fn bisect(self, a: u32, from: usize, to: usize) -> usize
        requires { CutBetween self.leg self.t.now self.places.now self.k a from to }
        ensures { let r = self.entry in Cut r.leg r.t.now r.places.now r.k a result }
    {
        let mut lo = from;
        let mut hi = to;
        while lo < hi {
            let mid = probe(lo, hi, self.k);
            let u = self.vertex(mid);
            if u.a <= a {
                lo = mid + 1;
                continue;
            }
            hi = mid;
        }
        lo
    }

    // The cut at a, by bisection from lo to hi.
    fn bisected(self, a: u32, lo: usize, hi: usize) -> Gap
        requires { (0 < self.k) × CutBetween self.leg self.t.now self.places.now self.k a lo hi }
        ensures { let r = self.entry in About r.leg r.t.now r.places.now r.k a result }
    {
        let n = self.bisect(a, lo, hi);
        Gap {
            n,
            left: self.vertex(n.saturating_sub(1)),
            right: self.vertex(n.min(self.k - 1)),
        }
    }

    // The cut at a, by bisection: of it nothing is known. An empty row has no vertex about it.
    pub fn cut(self, a: u32) -> Option<Gap>
        ensures { let r = self.entry in Cuts r.leg r.t.now r.places.now r.k a result }
    {
        if self.k == 0 {
            return None;
        }
        Some(self.bisected(a, 0, self.k))
    }

    // The cut at a: at least n, before which u stands, and rising one by one.
    fn climb(self, a: u32, n: usize, u: Vertex) -> Gap
        requires { CutBetween self.leg self.t.now self.places.now self.k a n self.k
            × Stands self.leg self.t.now self.places.now self.k u }
        ensures { let r = self.entry in About r.leg r.t.now r.places.now r.k a result }
    {
        let end = self.k.min(n + STEPS);
        let mut last = u;
        for i in n..end {
            let v = self.vertex(i);
            if a < v.a {
                return Gap {
                    n: i,
                    left: last,
                    right: v,
                };
            }
            last = v;
        }
        if end == self.k {
            return Gap {
                n: end,
                left: last,
                right: last,
            };
        }
        self.bisected(a, end, self.k)
    }

    // The cut at a: at most n, where v stands, and falling one by one.
    fn fall(self, a: u32, n: usize, v: Vertex) -> Gap
        requires { CutBetween self.leg self.t.now self.places.now self.k a 0 n
            × Stands self.leg self.t.now self.places.now self.k v }
        ensures { let r = self.entry in About r.leg r.t.now r.places.now r.k a result }
    {
        let end = n.saturating_sub(STEPS);
        let mut first = v;
        for i in (end..n).rev() {
            let u = self.vertex(i);
            if u.a <= a {
                return Gap {
                    n: i + 1,
                    left: u,
                    right: first,
                };
            }
            first = u;
        }
        if end == 0 {
            return Gap {
                n: 0,
                left: first,
                right: first,
            };
        }
        self.bisected(a, 0, end)
    }

    // The cut at a, which is about `near`: steps that are few and can be foreseen are quicker than a bisection. The two
    // vertices about the guess are read together, since neither waits for the other.
    pub fn cut_near(self, a: u32, near: usize) -> Option<Gap>
        ensures { let r = self.entry in Cuts r.leg r.t.now r.places.now r.k a result }
    {
        if self.k == 0 {
            return None;
        }
        let i = near.min(self.k - 1);
        let j = i.saturating_sub(1);
        let v = self.vertex(i);
        let u = self.vertex(j);
        if v.a <= a {
            return Some(self.climb(a, i + 1, v));
        }
        if u.a <= a {
            return Some(Gap {
                n: i,
                left: u,
                right: v,
            });
        }
        Some(self.fall(a, j, u))
    }
}
