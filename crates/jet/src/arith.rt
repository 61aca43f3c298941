// Numbers as jets, and the arithmetic of jets. A function `.._to` works out the coefficients at positions below n
// and leaves +0 at the others. Its loop is a function of its own: n = 4 goes without one, and then no jet is copied for it.
// With `&a.c` in place of the copies `x` and `y`, `mul_to` at n = 4 takes 27.5 ns, not 16.2, and `div_to` 29.6, not 17.9.
ghost use Rattle.std.specs.Prelude.{◌≡◌, ◌≤◌, ◌<◌, []};
ghost use Rattle.jet.specs.Positions.{positions};
ghost use Rattle.jet.specs.Coefficients.{coefficient_of, number_of, marked_of, with_mark_of, sum_of, difference_of, negation_of, product_of, quotient_of, recip_of, square_of, factorial_of, derivative_at, derivative_of, cut};

use crate::four::{div_4, mul_4};
use crate::terms::{minus, plus};
use crate::{Jet, POSITION_COUNT};

// The coefficient at position m; beyond the last one NaN.
pub fn coefficient(a: Jet, m: usize) -> f64
    ensures { result ≡ coefficient_of a.c m }
{
    a.c.get(m).copied().unwrap_or(f64::NAN)
}

// A plain number.
pub fn number(x: f64) -> Jet
    ensures { result.c ≡ number_of x }
{
    let mut c = [0.0; POSITION_COUNT];
    c[0] = x;
    Jet { c }
}

// A number with 1 at the position of a mark: 1 for e0, 4 for e1, 8 for e2, 16 for e3.
pub fn marked(m: usize, x: f64) -> Jet
    ensures { result.c ≡ marked_of m x }
{
    with_mark(m, number(x))
}

// A jet with 1 at the position of a mark.
pub fn with_mark(m: usize, a: Jet) -> Jet
    ensures { result.c ≡ with_mark_of m a.c }
{
    let mut c = a.c;
    if m < POSITION_COUNT {
        c[m] = 1.0;
    }
    Jet { c }
}

pub fn add(a: Jet, b: Jet) -> Jet
    ensures { result.c ≡ sum_of a.c b.c }
{
    let mut c = [0.0; POSITION_COUNT];
    for m in 0..POSITION_COUNT {
        c[m] = a.c[m] + b.c[m];
    }
    Jet { c }
}

pub fn sub(a: Jet, b: Jet) -> Jet
    ensures { result.c ≡ difference_of a.c b.c }
{
    let mut c = [0.0; POSITION_COUNT];
    for m in 0..POSITION_COUNT {
        c[m] = a.c[m] - b.c[m];
    }
    Jet { c }
}

pub fn neg(a: Jet) -> Jet
    ensures { result.c ≡ negation_of a.c }
{
    let mut c = [0.0; POSITION_COUNT];
    for m in 0..POSITION_COUNT {
        c[m] = -a.c[m];
    }
    Jet { c }
}

// The coefficients of a product at positions below `end`.
fn product(end: usize, x: &[f64; POSITION_COUNT], y: &[f64; POSITION_COUNT]) -> Jet
    requires { end ≤ positions }
    ensures { result.c ≡ cut end (product_of x.now y.now) }
{
    let mut c = [0.0; POSITION_COUNT];
    for m in 0..end {
        c[m] = plus(x[0] * y[m], x, y, m);
    }
    Jet { c }
}

pub fn mul_to(n: usize, a: Jet, b: Jet) -> Jet
    ensures { result.c ≡ cut n (product_of a.c b.c) }
{
    if n == 4 {
        return mul_4(a, b);
    }
    let x = a.c;
    let y = b.c;
    product(n.min(POSITION_COUNT), &x, &y)
}

pub fn mul(a: Jet, b: Jet) -> Jet
    ensures { result.c ≡ product_of a.c b.c }
{
    product(POSITION_COUNT, &a.c, &b.c)
}

// The coefficients of a quotient at positions below `end`.
fn quotient(end: usize, x: &[f64; POSITION_COUNT], y: &[f64; POSITION_COUNT]) -> Jet
    requires { end ≤ positions }
    ensures { result.c ≡ cut end (quotient_of x.now y.now) }
{
    let mut q = [0.0; POSITION_COUNT];
    for m in 0..end {
        q[m] = minus(x[m], &q, y, m, 0) / y[0];
    }
    Jet { c: q }
}

pub fn div_to(n: usize, a: Jet, b: Jet) -> Jet
    ensures { result.c ≡ cut n (quotient_of a.c b.c) }
{
    if n == 4 {
        return div_4(a, b);
    }
    let x = a.c;
    let y = b.c;
    quotient(n.min(POSITION_COUNT), &x, &y)
}

pub fn div(a: Jet, b: Jet) -> Jet
    ensures { result.c ≡ quotient_of a.c b.c }
{
    quotient(POSITION_COUNT, &a.c, &b.c)
}

// 1 over a.
pub fn recip(a: Jet) -> Jet
    ensures { result.c ≡ recip_of a.c }
{
    div(number(1.0), a)
}

// `powi(2)`.
pub fn square(a: Jet) -> Jet
    ensures { result.c ≡ square_of a.c }
{
    mul(a, a)
}

// k factorial.
fn factorial(k: usize) -> f64
    requires { k ≤ 3 }
    ensures { result ≡ factorial_of k }
{
    match k {
        3 => 6.0,
        2 => 2.0,
        _ => 1.0,
    }
}

// The coefficient m of the k-th derivative by e0.
fn derivative_at(k: usize, a: &[f64; POSITION_COUNT], m: usize) -> f64
    requires { m < positions }
    ensures { result ≡ derivative_at k a.now [] m }
{
    if 3 < k {
        return 0.0;
    }
    if m % 4 != 0 {
        return 0.0;
    }
    factorial(k) * a[m + k]
}

// The k-th derivative by e0, free of e0.
pub fn derivative(k: usize, a: Jet) -> Jet
    ensures { result.c ≡ derivative_of k a.c }
{
    let mut c = [0.0; POSITION_COUNT];
    for m in 0..POSITION_COUNT {
        c[m] = derivative_at(k, &a.c, m);
    }
    Jet { c }
}
