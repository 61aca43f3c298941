// `smallest_ev` of num_dual's linalg for a symmetric 2 by 2 matrix of jets, by document 02's rules, in the coefficients of first
// order below W. Branches look at position 0.
ghost use Rattle.std.specs.Prelude.{◌≤◌};
ghost use Rattle.jet.specs.Coefficients.{Upto};
ghost use Rattle.linear.specs.SmallestEv.{smallest_of, length_of, Smallest};

use crate::types::Eigenpair;
use jet::Jet;
use jet_gradient::{add, div, mul, sqrt, sub};

// The smallest eigenvalue.
fn smallest<const W: usize>(m11: Jet, m12: Jet, m22: Jet) -> Jet
    ensures { Upto W result.c (smallest_of m11.c m12.c m22.c) }
{
    let d = sub::<W>(m11, m22);
    let mixed = mul::<W>(mul::<W>(jet::number(4.0), m12), m12);
    let root = sqrt::<W>(add::<W>(mul::<W>(d, d), mixed));
    mul::<W>(sub::<W>(add::<W>(m11, m22), root), jet::number(0.5))
}

fn length<const W: usize>(x: Jet, y: Jet) -> Jet
    ensures { Upto W result.c (length_of x.c y.c) }
{
    sqrt::<W>(add::<W>(mul::<W>(x, x), mul::<W>(y, y)))
}

pub fn smallest_ev<const W: usize>(m11: Jet, m12: Jet, m22: Jet) -> Eigenpair
    ensures { Smallest W m11.c m12.c m22.c result }
{
    let l = smallest::<W>(m11, m12, m22);
    if m12.c[0] == 0.0 {
        if m11.c[0] <= m22.c[0] {
            return Eigenpair {
                l,
                u1: jet::number(1.0),
                u2: jet::number(0.0),
            };
        }
        return Eigenpair {
            l,
            u1: jet::number(0.0),
            u2: jet::number(1.0),
        };
    }
    let y = sub::<W>(l, m11);
    let size = length::<W>(m12, y);
    Eigenpair {
        l,
        u1: div::<W>(m12, size),
        u2: div::<W>(y, size),
    }
}
