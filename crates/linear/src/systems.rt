// The 2 by 2 and 3 by 3 solves and the norm of document 01's stand-ins.
ghost use Rattle.std.specs.Prelude.{◌≡◌, ◌<◌, fold};
ghost use Rattle.float.specs.Ops.{◌⊕◌, ◌⊗◌};
ghost use Rattle.linear.specs.Linear.{eliminated, solve2, norm_of, pivot_row, lower_row, lower_right, eliminated3, solve3 as solve3_of};

use crate::types::ZeroPivot;

// The rows (a, b | r) and (c, d | s), with a the pivot.
fn eliminate(a: f64, b: f64, r: f64, c: f64, d: f64, s: f64) -> Result<[f64; 2], ZeroPivot>
    ensures { result ≡ eliminated a b r c d s }
{
    if a == 0.0 {
        return Err(ZeroPivot);
    }
    let f = c / a;
    let pivot = d - f * b;
    if pivot == 0.0 {
        return Err(ZeroPivot);
    }
    let y = (s - f * r) / pivot;
    Ok([(r - b * y) / a, y])
}

// The unknowns of m with the right side r. The rows are swapped as they are passed.
pub fn solve(m: [[f64; 2]; 2], r: [f64; 2]) -> Result<[f64; 2], ZeroPivot>
    ensures { result ≡ solve2 m r }
{
    if float::abs(m[0][0]) < float::abs(m[1][0]) {
        return eliminate(m[1][0], m[1][1], r[1], m[0][0], m[0][1], r[0]);
    }
    eliminate(m[0][0], m[0][1], r[0], m[1][0], m[1][1], r[1])
}

// The squares of v, added to sum one by one.
fn add_squares(sum: f64, v: &[f64]) -> f64
    ensures { result ≡ fold (λ sum x. sum ⊕ x ⊗ x) sum v.now }
{
    v.iter().fold(sum, |sum, x| sum + *x * *x)
}

// The root of the sum of squares, added up from the first.
pub fn norm(v: &[f64]) -> f64
    ensures { result ≡ norm_of v.now }
{
    let Some((first, rest)) = v.split_first() else {
        return float::sqrt(0.0);
    };
    float::sqrt(add_squares(*first * *first, rest))
}

// The row of the largest first entry, the upper one on equality.
fn pivot_row(m: [[f64; 3]; 3]) -> usize
    ensures row { result ≡ pivot_row m }
    ensures low { result < 3 }
{
    let first = float::abs(m[0][0]);
    let second = float::abs(m[1][0]);
    let third = float::abs(m[2][0]);
    if first < second {
        if second < third {
            return 2;
        }
        return 1;
    }
    if first < third {
        return 2;
    }
    0
}

// Row i and its right side, less their factor of the first row, without the first column.
fn lower(m: [[f64; 3]; 3], r: [f64; 3], i: usize) -> ([f64; 2], f64)
    requires { i < 3 }
    ensures row { result.0 ≡ lower_row m i }
    ensures right { result.1 ≡ lower_right m r i }
{
    let factor = m[i][0] / m[0][0];
    let row = [m[i][1] - factor * m[0][1], m[i][2] - factor * m[0][2]];
    (row, r[i] - factor * r[0])
}

// The unknowns, the pivot's row standing first.
fn eliminate3(m: [[f64; 3]; 3], r: [f64; 3]) -> Result<[f64; 3], ZeroPivot>
    ensures { result ≡ eliminated3 m r }
{
    if m[0][0] == 0.0 {
        return Err(ZeroPivot);
    }
    let (second, second_right) = lower(m, r, 1);
    let (third, third_right) = lower(m, r, 2);
    let [y, z] = solve([second, third], [second_right, third_right])?;
    let x = (r[0] - m[0][1] * y - m[0][2] * z) / m[0][0];
    Ok([x, y, z])
}

// The unknowns of m with the right side r: one pivot step, and what is left is `solve`'s, so no loop over columns is shared.
pub fn solve3(mut m: [[f64; 3]; 3], mut r: [f64; 3]) -> Result<[f64; 3], ZeroPivot>
    ensures { result ≡ solve3_of m r }
{
    let i = pivot_row(m);
    m.swap(0, i);
    r.swap(0, i);
    eliminate3(m, r)
}
