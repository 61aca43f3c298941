// The root and the logarithm of a jet. As in arith.rt, a function `.._to` copies its operand where the loop needs it:
// with `&a.c`, `ln_to` at n = 4 takes 62.2 ns, not 53.7.
ghost use Rattle.std.specs.Prelude.{◌≡◌, ◌≤◌};
ghost use Rattle.jet.specs.Positions.{positions};
ghost use Rattle.jet.specs.Coefficients.{root_of, logarithm_of, cut};

use crate::four::{ln_4, sqrt_4};
use crate::positions::next;
use crate::terms::{minus, weight};
use crate::{Jet, POSITION_COUNT};

// The coefficients of a root at positions below `end`.
fn root(end: usize, x: &[f64; POSITION_COUNT]) -> Jet
    requires { end ≤ positions }
    ensures { result.c ≡ cut end (root_of x.now) }
{
    let mut r = [0.0; POSITION_COUNT];
    if end == 0 {
        return Jet { c: r };
    }
    r[0] = float::sqrt(x[0]);
    let d = 2.0 * r[0];
    for m in 1..end {
        r[m] = minus(x[m], &r, &r, m, next(0, m)) / d;
    }
    Jet { c: r }
}

pub fn sqrt_to(n: usize, a: Jet) -> Jet
    ensures { result.c ≡ cut n (root_of a.c) }
{
    if n == 4 {
        return sqrt_4(a);
    }
    let x = a.c;
    root(n.min(POSITION_COUNT), &x)
}

pub fn sqrt(a: Jet) -> Jet
    ensures { result.c ≡ root_of a.c }
{
    root(POSITION_COUNT, &a.c)
}

// The coefficients of a logarithm at positions below `end`. wl holds them, each times its weight.
fn logarithm(end: usize, x: &[f64; POSITION_COUNT]) -> Jet
    requires { end ≤ positions }
    ensures { result.c ≡ cut end (logarithm_of x.now) }
{
    let mut l = [0.0; POSITION_COUNT];
    let mut wl = [0.0; POSITION_COUNT];
    if end == 0 {
        return Jet { c: l };
    }
    l[0] = float::ln(x[0]);
    for m in 1..end {
        let w = weight(m);
        let v = minus(w * x[m], &wl, x, m, next(0, m)) / (w * x[0]);
        l[m] = v;
        wl[m] = w * v;
    }
    Jet { c: l }
}

pub fn ln_to(n: usize, a: Jet) -> Jet
    ensures { result.c ≡ cut n (logarithm_of a.c) }
{
    if n == 4 {
        return ln_4(a);
    }
    let x = a.c;
    logarithm(n.min(POSITION_COUNT), &x)
}

pub fn ln(a: Jet) -> Jet
    ensures { result.c ≡ logarithm_of a.c }
{
    logarithm(POSITION_COUNT, &a.c)
}
