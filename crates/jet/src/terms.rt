// The sums over the positions not above m that the coefficient rules share. `next` leads from one of these to the
// following; nothing is counted, so that a `for` would be no plainer than the `while`.
ghost use Rattle.std.specs.Prelude.{◌≡◌, ◌-◌, ◌<◌, true, drop};
ghost use mathlib.Core.List.{foldl};
ghost use Rattle.float.specs.Ops.{◌⊕◌, ◌⊗◌};
ghost use Rattle.jet.specs.Positions.{positions, not_above, among, pairs_of, weight_of};
ghost use Rattle.jet.specs.Coefficients.{at, less};

use crate::POSITION_COUNT;
use crate::positions::next;

// x plus a(p) * b(m - p) for each p not above m but the first, in turn.
pub fn plus(x: f64, a: &[f64; POSITION_COUNT], b: &[f64; POSITION_COUNT], m: usize) -> f64
    requires { m < positions }
    ensures { result ≡ foldl (λ s p. s ⊕ at a.now p ⊗ at b.now (m - p)) x (drop 1 (pairs_of m)) }
{
    let mut s = x;
    let mut p: usize = 0;
    while p < m {
        p = next(p, m);
        s = s + a[p] * b[m - p];
    }
    s
}

// x less a(p) * b(m - p) for each p not above m and before it, from `first` on, in turn.
pub fn minus(
    x: f64,
    a: &[f64; POSITION_COUNT],
    b: &[f64; POSITION_COUNT],
    m: usize,
    first: usize,
) -> f64
    requires { (m < positions) × (not_above first m ≡ true) }
    ensures { result ≡ less (λ p. at a.now p ⊗ at b.now (m - p)) x (among (m - first) first m) }
{
    let mut s = x;
    let mut p = first;
    while p < m {
        s = s - a[p] * b[m - p];
        p = next(p, m);
    }
    s
}

// The degree sum of a position.
pub fn weight(m: usize) -> f64
    requires { m < positions }
    ensures { result ≡ weight_of m }
{
    (m % 4 + m / 4 % 2 + m / 8 % 2 + m / 16) as f64
}
