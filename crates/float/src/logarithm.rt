// The natural logarithm of an f64, by the rule of specs/Ln.antt.
ghost use Rattle.std.specs.Prelude.{◌≡◌, ◌+◌, ◌*◌, ◌^◌, ◌≤◌, ◌<◌};
ghost use Rattle.std.specs.Float.{binary64};
ghost use Rattle.std.specs.Float.Ieee.{of_bits, of_int, minus};
ghost use Rattle.float.specs.Ln.{odd_recip, series, combined, reduced_ln, ln_of};

use crate::parts::{HIDDEN_BIT, INFINITY_BITS, split};

// 1 / (2k + 1)
fn odd_recip(k: u64) -> f64
    requires { k ≤ 10 }
    ensures { result ≡ odd_recip k }
{
    1.0 / ((2 * k + 1) as f64)
}

// The sum of z ^ k / (2k + 1) for k up to 10, at z = s * s.
fn series(s: f64) -> f64
    ensures { result ≡ series s }
{
    let z = s * s;
    let mut h = odd_recip(10);
    for k in (0..10).rev() {
        h = h * z + odd_recip(k);
    }
    h
}

// j - 1074
fn exponent(j: u64) -> f64
    requires { j < 4096 }
    ensures { result ≡ of_int binary64 (minus j 1074) }
{
    (j as i64 - 1074) as f64
}

// ln 2 in two parts: the first ends in zeros, so that e times it is exact.
fn combined(e: f64, s: f64, h: f64) -> f64
    ensures { result ≡ combined e s h }
{
    e * 0.6931471803691238 + (e * 0.00000000019082149292705877 + 2.0 * s * h)
}

// The logarithm of m * 2 ^ (j - 1074), for an m from √½ to √2.
fn reduced(m: f64, j: u64) -> f64
    requires { j < 4096 }
    ensures { result ≡ reduced_ln m (minus j 1074) }
{
    let s = (m - 1.0) / (m + 1.0);
    combined(exponent(j), s, series(s))
}

// The logarithm of a number above zero, from its bit pattern.
fn of_bits(b: u64) -> f64
    requires { (0 < b) × (b < 2047 * 2 ^ 52) }
    ensures { result ≡ ln_of (of_bits binary64 b) }
{
    let p = split(b);
    let m = p.m;
    let j = p.j;
    let t = f64::from_bits(1022 * HIDDEN_BIT + m);
    if 1.4142135623730951 <= t {
        reduced(t * 0.5, j + 1)
    } else {
        reduced(t, j)
    }
}

pub fn ln(x: f64) -> f64
    ensures { result ≡ ln_of x }
{
    if x.is_nan() {
        return x;
    }
    if x < 0.0 {
        return f64::NAN;
    }
    if x == 0.0 {
        return f64::NEG_INFINITY;
    }
    let b = f64::to_bits(x);
    if b < INFINITY_BITS {
        return of_bits(b);
    }
    x
}
