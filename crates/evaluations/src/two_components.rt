// The conditions of two components at their fractions z1 and z2, from four energies at one temperature: three for the matrix M, one along its eigenvector.
ghost use Rattle.std.specs.Prelude.{◌≡◌};
ghost use Rattle.jet.specs.Coefficients.{Upto, derivative_of};
ghost use Rattle.eos.specs.Jets.{pair_of};
ghost use Rattle.eos.specs.Helmholtz.{aks_of, AkRoots};
ghost use Rattle.evaluations.specs.Critical.{energy_over_t, dmu_dn, matrix as matrix_of, eigenvalue, third_derivative};
ghost use Rattle.evaluations.specs.Entries.{Width, Entries, third_at};

use crate::mole_numbers::{entry, ideal_gas, moved};
use crate::types::{ConditionJets, SymmetricMatrix};
use eos::helmholtz::{ak_roots, helmholtz_of_two};
use eos::{Blend, PairRoots};
use jet::{Jet, number};
use jet_gradient::{add, div, mul, sqrt, sub};
use linear::smallest_ev;

// Two components at the temperature t, in the coefficients of first order below W: a multiple of four, since then a derivative by e0 has the same ones as what it is of.
#[derive(Drop)]
pub struct TwoComponents<const W: usize> {
    pub blend: Blend,
    pub t: Jet,
    pub root: PairRoots,
    pub ghost roots: { AkRoots W (aks_of blend t.c) root },
    pub ghost width: { Width W },
}

impl<const W: usize> TwoComponents<W> {
    pub fn at(blend: Blend, t: Jet) -> Self
        requires { Width W }
        ensures { (result.blend ≡ blend) × (result.t ≡ t) }
    {
        TwoComponents {
            blend,
            t,
            root: ak_roots::<W>(blend, t),
        }
    }

    fn energy_over_t(&self, v: Jet, n1: Jet, n2: Jet) -> Jet
        ensures { Upto W result.c (energy_over_t self.now.blend 2 self.now.t.c v.c (pair_of n1.c n2.c)) }
    {
        let a = helmholtz_of_two::<W>(self.blend, self.root, self.t, v, n1, n2);
        div::<W>(a, self.t)
    }

    // The second derivative by e0 at the mole numbers n1 and n2.
    fn second(&self, v: Jet, n1: Jet, n2: Jet) -> Jet
        ensures { Upto W result.c (derivative_of 2 (energy_over_t self.now.blend 2 self.now.t.c v.c (pair_of n1.c n2.c))) }
    {
        jet::derivative(2, self.energy_over_t(v, n1, n2))
    }

    // Second derivatives in the directions (1,0), (0,1) and (1,1).
    fn dmu_dn(&self, v: Jet, z1: Jet, z2: Jet) -> SymmetricMatrix
        ensures { Entries W (dmu_dn self.now.blend 2 self.now.t.c v.c (pair_of z1.c z2.c)) result }
    {
        let n1 = jet::with_mark(1, z1);
        let n2 = jet::with_mark(1, z2);
        let h11 = self.second(v, n1, z2);
        let h22 = self.second(v, z1, n2);
        let h = self.second(v, n1, n2);
        let mixed = sub::<W>(sub::<W>(h, h11), h22);
        SymmetricMatrix {
            m11: h11,
            m12: mul::<W>(mixed, number(0.5)),
            m22: h22,
        }
    }

    // M.
    fn matrix(&self, v: Jet, z1: Jet, z2: Jet) -> SymmetricMatrix
        ensures { Entries W (matrix_of self.now.blend 2 self.now.t.c v.c (pair_of z1.c z2.c)) result }
    {
        let s1 = sqrt::<W>(z1);
        let s2 = sqrt::<W>(z2);
        let h = self.dmu_dn(v, z1, z2);
        SymmetricMatrix {
            m11: entry::<W>(h.m11, s1, s1, 1.0),
            m12: entry::<W>(h.m12, s1, s2, 0.0),
            m22: entry::<W>(h.m22, s2, s2, 1.0),
        }
    }

    // The third derivative by s at the mole numbers n1 and n2, moved along the eigenvector.
    fn third(&self, v: Jet, n1: Jet, n2: Jet) -> Jet
        ensures { Upto W result.c (third_at self.now.blend self.now.t.c v.c n1.c n2.c) }
    {
        let a = self.energy_over_t(v, n1, n2);
        let ig = add::<W>(ideal_gas::<W>(n1, v), ideal_gas::<W>(n2, v));
        jet::derivative(3, add::<W>(a, ig))
    }

    pub fn conditions(&self, v: Jet, z1: Jet, z2: Jet) -> ConditionJets
        ensures { Upto W result.l.c (eigenvalue self.now.blend 2 self.now.t.c v.c (pair_of z1.c z2.c)) × Upto W result.c2.c (third_derivative self.now.blend 2 self.now.t.c v.c (pair_of z1.c z2.c)) }
    {
        let m = self.matrix(v, z1, z2);
        let e = smallest_ev::<W>(m.m11, m.m12, m.m22);
        ConditionJets {
            l: e.l,
            c2: self.third(v, moved::<W>(z1, e.u1), moved::<W>(z2, e.u2)),
        }
    }
}
