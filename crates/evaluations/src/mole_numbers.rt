// What the conditions of one component and of two share: an entry of the matrix M, mole numbers moved along the eigenvector, and
// their ideal gas; in the coefficients of first order below W.
ghost use Rattle.jet.specs.Coefficients.{Upto, number_of};
ghost use Rattle.jet.specs.Ops.{◌⊞◌, ◌⊠◌};
ghost use Rattle.evaluations.specs.Critical.{moved as moved_of, ideal_term};

use jet::{Jet, number};
use jet_gradient::{add, div, ln, mul, sqrt, sub};

// The entry of M for the second derivative h and the roots of two fractions; one is the identity's.
pub fn entry<const W: usize>(h: Jet, si: Jet, sj: Jet, one: f64) -> Jet
    ensures { Upto W result.c (h.c ⊠ (si.c ⊠ sj.c) ⊞ number_of one) }
{
    let z_mix = mul::<W>(si, sj);
    add::<W>(mul::<W>(h, z_mix), number(one))
}

// The fraction z moved by s = 0 + e0 along the entry u of the eigenvector.
pub fn moved<const W: usize>(z: Jet, u: Jet) -> Jet
    ensures { Upto W result.c (moved_of z.c u.c) }
{
    let direction = mul::<W>(sqrt::<W>(z), u);
    add::<W>(z, mul::<W>(direction, jet::marked(1, 0.0)))
}

// The ideal gas' term of a component.
pub fn ideal_gas<const W: usize>(n: Jet, v: Jet) -> Jet
    ensures { Upto W result.c (ideal_term n.c v.c) }
{
    if n.c[0] == 0.0 {
        return mul::<W>(n, number(0.0));
    }
    let l = ln::<W>(div::<W>(n, v));
    mul::<W>(n, sub::<W>(l, number(1.0)))
}
