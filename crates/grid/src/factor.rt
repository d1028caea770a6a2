// Fractions without common factor.
ghost use Rattle.std.specs.Prelude.{◌≡◌, ◌+◌, ◌^◌, ◌<◌};
ghost use Rattle.grid.specs.Fraction.{gcd_of, lowest};
ghost use Rattle.grid.specs.Euclid.{NearestRest, Stepped, divisor_of, kept_of};

use crate::Fraction;

// How far x is from the nearest multiple of y.
fn nearest_rest(x: u64, y: u64) -> u64
    requires { 0 < y }
    ensures { NearestRest x y result }
{
    let rest = x % y;
    rest.min(y - rest)
}

// The greatest common factor, by Euclid's rule with the nearest multiple: that takes a third fewer divisions than the
// multiple below.
#[tactic(auto, using(crate::proofs::Factors::same, crate::proofs::Factors::step_near, crate::proofs::LowestTerms::gcd_done))]
pub fn gcd(a: u64, b: u64) -> u64
    ensures { result ≡ gcd_of a b }
{
    let mut x = a;
    let mut y = b;
    while y != 0 {
        let r = nearest_rest(x, y);
        x = y;
        y = r;
    }
    x
}

// n / d, divided by the greatest common factor f.
#[tactic(auto, using(crate::proofs::LowestTerms::gcd_positive, crate::proofs::LowestTerms::lowest_by))]
fn divided(n: u64, d: u64, f: u64) -> Fraction
    requires { (0 < d) × (f ≡ gcd_of d n) }
    ensures { result ≡ lowest n d }
{
    let num = n / f;
    let den = d / f;
    Fraction { num, den }
}

// n / d without common factor.
pub fn lowest_terms(n: u64, d: u64) -> Fraction
    requires { 0 < d }
    ensures { result ≡ lowest n d }
{
    let f = gcd(d, n);
    divided(n, d, f)
}

// Two numbers.
#[derive(Clone, Copy)]
struct Pair {
    x: u64,
    y: u64,
}

// What a step divides by: 1 after the end, where the rest is to be 0.
#[tactic(auto, using(crate::proofs::InStep::divisor_max))]
fn divisor_of(y: u64) -> u64
    ensures { result ≡ divisor_of y }
{
    y.max(1)
}

// What a step leaves of x: all of it after the end.
#[tactic(auto, unfolding(crate::specs::Euclid::kept_of))]
fn kept_of(x: u64, y: u64) -> u64
    ensures { result ≡ kept_of x y }
{
    if y == 0 { x } else { y }
}

// A step of Euclid's rule, without a branch: after the end it changes nothing.
#[tactic(auto, using(crate::proofs::InStep::divisor_positive, crate::proofs::InStep::stepped))]
fn step(p: Pair) -> Pair
    ensures { Stepped p.x p.y result.x result.y }
{
    let rest = nearest_rest(p.x, divisor_of(p.y));
    Pair {
        x: kept_of(p.x, p.y),
        y: rest,
    }
}

// The greatest common factors of two pairs. A division waits for the one before it: those of the other pair fill the
// wait.
#[tactic(auto, using(crate::proofs::InStep::in_step, crate::proofs::InStep::both_fall, crate::proofs::InStep::both_done))]
fn gcd_two(a: Pair, b: Pair) -> Pair
    requires { a.y + b.y < 2 ^ 64 }
    ensures { (result.x ≡ gcd_of a.x a.y) × (result.y ≡ gcd_of b.x b.y) }
{
    let mut p = a;
    let mut q = b;
    while p.y + q.y != 0 {
        p = step(p);
        q = step(q);
    }
    Pair { x: p.x, y: q.x }
}

// Two fractions without common factor, for less than twice the time of one.
pub fn lowest_two(s: Fraction, t: Fraction) -> (Fraction, Fraction)
    requires { (0 < s.den) × (0 < t.den) × (s.num + t.num < 2 ^ 64) }
    ensures { (result.0 ≡ lowest s.num s.den) × (result.1 ≡ lowest t.num t.den) }
{
    let f = gcd_two(Pair { x: s.den, y: s.num }, Pair { x: t.den, y: t.num });
    (divided(s.num, s.den, f.x), divided(t.num, t.den, f.y))
}
