// The coefficients of first order in e1, e2 and e3 at positions below W: up to 20 without a loop or a table, those along e0 and those along e0 beside e1 (4 to 7), e2 (8 to 11)
// or e3 (16 to 19). The evaluations need no others: four along the density, twelve where two unknowns are marked, twenty where three are. The first four are `jet`'s; beside a
// mark the same four terms stand for each mark.
#![tactic(auto)]

ghost use Rattle.std.specs.Prelude.{◌≡◌, ◌≤◌};
ghost use Rattle.float.specs.Root.{root};
ghost use Rattle.jet.specs.Coefficients.{at, Upto, sum_of, difference_of, product_of, quotient_of, root_of, logarithm_of};
ghost use Rattle.jet_gradient.specs.Beside.{four_at, joined_of, sum_beside, difference_beside, product_beside, quotient_beside, root_beside, logarithm_beside};

use jet::Jet;

// Four coefficients along e0, or along e0 beside another mark.
#[derive(Clone, Copy)]
struct Four {
    c0: f64,
    c1: f64,
    c2: f64,
    c3: f64,
}

const NO_FOUR: Four = Four {
    c0: 0.0,
    c1: 0.0,
    c2: 0.0,
    c3: 0.0,
};

impl Four {
    // The four of a from position i.
    fn at(a: Jet, i: usize) -> Four
        requires { i ≤ 28 }
        ensures { result ≡ four_at a.c i }
    {
        Four {
            c0: a.c[i],
            c1: a.c[i + 1],
            c2: a.c[i + 2],
            c3: a.c[i + 3],
        }
    }
}

// The jet with these coefficients along e0, beside e1, beside e2 and beside e3, and +0 at the other positions.
fn joined(l: Four, u: Four, v: Four, z: Four) -> Jet
    ensures { result.c ≡ joined_of l u v z }
{
    let mut c = [0.0; 32];
    c[0] = l.c0;
    c[1] = l.c1;
    c[2] = l.c2;
    c[3] = l.c3;
    c[4] = u.c0;
    c[5] = u.c1;
    c[6] = u.c2;
    c[7] = u.c3;
    c[8] = v.c0;
    c[9] = v.c1;
    c[10] = v.c2;
    c[11] = v.c3;
    c[16] = z.c0;
    c[17] = z.c1;
    c[18] = z.c2;
    c[19] = z.c3;
    Jet { c }
}

// The sum's four from position m, and the difference's.
fn sum_from(a: Jet, b: Jet, m: usize) -> Four
    requires { m ≤ 28 }
    ensures { result ≡ sum_beside (four_at a.c m) (four_at b.c m) }
{
    let x = Four::at(a, m);
    let y = Four::at(b, m);
    Four {
        c0: x.c0 + y.c0,
        c1: x.c1 + y.c1,
        c2: x.c2 + y.c2,
        c3: x.c3 + y.c3,
    }
}

fn difference_from(a: Jet, b: Jet, m: usize) -> Four
    requires { m ≤ 28 }
    ensures { result ≡ difference_beside (four_at a.c m) (four_at b.c m) }
{
    let x = Four::at(a, m);
    let y = Four::at(b, m);
    Four {
        c0: x.c0 - y.c0,
        c1: x.c1 - y.c1,
        c2: x.c2 - y.c2,
        c3: x.c3 - y.c3,
    }
}

// The product's four beside the mark at position m.
fn product_from(a: Jet, b: Jet, m: usize) -> Four
    requires { m ≤ 28 }
    ensures { result ≡ product_beside (four_at a.c 0) (four_at a.c m) (four_at b.c 0) (four_at b.c m) }
{
    let x = Four::at(a, 0);
    let u = Four::at(a, m);
    let y = Four::at(b, 0);
    let w = Four::at(b, m);
    Four {
        c0: x.c0 * w.c0 + u.c0 * y.c0,
        c1: x.c0 * w.c1 + x.c1 * w.c0 + u.c0 * y.c1 + u.c1 * y.c0,
        c2: x.c0 * w.c2 + x.c1 * w.c1 + x.c2 * w.c0 + u.c0 * y.c2 + u.c1 * y.c1 + u.c2 * y.c0,
        c3: x.c0 * w.c3
            + x.c1 * w.c2
            + x.c2 * w.c1
            + x.c3 * w.c0
            + u.c0 * y.c3
            + u.c1 * y.c2
            + u.c2 * y.c1
            + u.c3 * y.c0,
    }
}

// The quotient's four beside the mark at position m, where it is q along e0.
fn quotient_from(a: Jet, q: Four, b: Jet, m: usize) -> Four
    requires { m ≤ 28 }
    ensures { result ≡ quotient_beside (four_at a.c m) q (four_at b.c 0) (four_at b.c m) }
{
    let u = Four::at(a, m);
    let y = Four::at(b, 0);
    let w = Four::at(b, m);
    let c0 = (u.c0 - q.c0 * w.c0) / y.c0;
    let c1 = (u.c1 - q.c0 * w.c1 - q.c1 * w.c0 - c0 * y.c1) / y.c0;
    let c2 = (u.c2 - q.c0 * w.c2 - q.c1 * w.c1 - q.c2 * w.c0 - c0 * y.c2 - c1 * y.c1) / y.c0;
    let c3 = (u.c3
        - q.c0 * w.c3
        - q.c1 * w.c2
        - q.c2 * w.c1
        - q.c3 * w.c0
        - c0 * y.c3
        - c1 * y.c2
        - c2 * y.c1)
        / y.c0;
    Four { c0, c1, c2, c3 }
}

// The root's four beside the mark at position m, where it is r along e0.
fn root_from(a: Jet, r: Four, m: usize) -> Four
    requires { m ≤ 28 }
    ensures { result ≡ root_beside (four_at a.c m) r }
{
    let u = Four::at(a, m);
    let d = 2.0 * r.c0;
    let c0 = u.c0 / d;
    let c1 = (u.c1 - r.c1 * c0 - c0 * r.c1) / d;
    let c2 = (u.c2 - r.c1 * c1 - r.c2 * c0 - c0 * r.c2 - c1 * r.c1) / d;
    let c3 = (u.c3 - r.c1 * c2 - r.c2 * c1 - r.c3 * c0 - c0 * r.c3 - c1 * r.c2 - c2 * r.c1) / d;
    Four { c0, c1, c2, c3 }
}

// The logarithm's four beside the mark at position m, where it is l along e0. The weights are 1 to 3 along e0, and 1 to 4 beside the mark.
fn logarithm_from(a: Jet, l: Four, m: usize) -> Four
    requires { m ≤ 28 }
    ensures { result ≡ logarithm_beside (four_at a.c 0) (four_at a.c m) l }
{
    let x = Four::at(a, 0);
    let u = Four::at(a, m);
    let c0 = 1.0 * u.c0 / (1.0 * x.c0);
    let c1 = (2.0 * u.c1 - 1.0 * l.c1 * u.c0 - 1.0 * c0 * x.c1) / (2.0 * x.c0);
    let c2 = (3.0 * u.c2
        - 1.0 * l.c1 * u.c1
        - 2.0 * l.c2 * u.c0
        - 1.0 * c0 * x.c2
        - 2.0 * c1 * x.c1)
        / (3.0 * x.c0);
    let c3 = (4.0 * u.c3
        - 1.0 * l.c1 * u.c2
        - 2.0 * l.c2 * u.c1
        - 3.0 * l.c3 * u.c0
        - 1.0 * c0 * x.c3
        - 2.0 * c1 * x.c2
        - 3.0 * c2 * x.c1)
        / (4.0 * x.c0);
    Four { c0, c1, c2, c3 }
}

// W is a constant, so that no test of it is left where a function is used.
pub fn add<const W: usize>(a: Jet, b: Jet) -> Jet
    ensures { Upto W result.c (sum_of a.c b.c) }
{
    if W > 20 {
        return jet::add(a, b);
    }
    let l = sum_from(a, b, 0);
    if W <= 4 {
        return joined(l, NO_FOUR, NO_FOUR, NO_FOUR);
    }
    let u = sum_from(a, b, 4);
    let v = sum_from(a, b, 8);
    if W <= 12 {
        return joined(l, u, v, NO_FOUR);
    }
    joined(l, u, v, sum_from(a, b, 16))
}

pub fn sub<const W: usize>(a: Jet, b: Jet) -> Jet
    ensures { Upto W result.c (difference_of a.c b.c) }
{
    if W > 20 {
        return jet::sub(a, b);
    }
    let l = difference_from(a, b, 0);
    if W <= 4 {
        return joined(l, NO_FOUR, NO_FOUR, NO_FOUR);
    }
    let u = difference_from(a, b, 4);
    let v = difference_from(a, b, 8);
    if W <= 12 {
        return joined(l, u, v, NO_FOUR);
    }
    joined(l, u, v, difference_from(a, b, 16))
}

pub fn mul<const W: usize>(a: Jet, b: Jet) -> Jet
    ensures { Upto W result.c (product_of a.c b.c) }
{
    if W > 20 {
        return jet::mul(a, b);
    }
    let low = jet::mul_4(a, b);
    if W <= 4 {
        return low;
    }
    let l = Four::at(low, 0);
    let u = product_from(a, b, 4);
    let v = product_from(a, b, 8);
    if W <= 12 {
        return joined(l, u, v, NO_FOUR);
    }
    joined(l, u, v, product_from(a, b, 16))
}

pub fn div<const W: usize>(a: Jet, b: Jet) -> Jet
    ensures { Upto W result.c (quotient_of a.c b.c) }
{
    if W > 20 {
        return jet::div(a, b);
    }
    let low = jet::div_4(a, b);
    if W <= 4 {
        return low;
    }
    let q = Four::at(low, 0);
    let u = quotient_from(a, q, b, 4);
    let v = quotient_from(a, q, b, 8);
    if W <= 12 {
        return joined(q, u, v, NO_FOUR);
    }
    joined(q, u, v, quotient_from(a, q, b, 16))
}

// The root of a, from the root r0 of its first coefficient.
pub fn sqrt_from<const W: usize>(r0: f64, a: Jet) -> Jet
    requires { r0 ≡ root (at a.c 0) }
    ensures { Upto W result.c (root_of a.c) }
{
    if W > 20 {
        return jet::sqrt(a);
    }
    let low = jet::sqrt_4_from(r0, a);
    if W <= 4 {
        return low;
    }
    let r = Four::at(low, 0);
    let u = root_from(a, r, 4);
    let v = root_from(a, r, 8);
    if W <= 12 {
        return joined(r, u, v, NO_FOUR);
    }
    joined(r, u, v, root_from(a, r, 16))
}

pub fn sqrt<const W: usize>(a: Jet) -> Jet
    ensures { Upto W result.c (root_of a.c) }
{
    sqrt_from::<W>(float::sqrt(a.c[0]), a)
}

pub fn ln<const W: usize>(a: Jet) -> Jet
    ensures { Upto W result.c (logarithm_of a.c) }
{
    if W > 20 {
        return jet::ln(a);
    }
    let low = jet::ln_4(a);
    if W <= 4 {
        return low;
    }
    let l = Four::at(low, 0);
    let u = logarithm_from(a, l, 4);
    let v = logarithm_from(a, l, 8);
    if W <= 12 {
        return joined(l, u, v, NO_FOUR);
    }
    joined(l, u, v, logarithm_from(a, l, 16))
}
