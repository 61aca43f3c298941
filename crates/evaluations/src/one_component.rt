// The conditions of one component: the first of the blend, with its fraction. A component alone has fraction 1, for which
// one energy serves both conditions. They read positions 0, 4 and 8 of derivatives by e0, so that twelve positions are enough.
ghost use Rattle.std.specs.Prelude.{◌≡◌, true, eqb};
ghost use Rattle.std.specs.Float.{binary64};
ghost use Rattle.std.specs.Float.Ieee.{to_bits};
ghost use Rattle.float.specs.Ops.{f1};
ghost use Rattle.jet.specs.Coefficients.{Upto, number_of};
ghost use Rattle.eos.specs.Cubic.{nth};
ghost use Rattle.evaluations.specs.Critical.{energy_over_t, along, eigenvalue, moved as moved_of, third_derivative, fractions_of};

use crate::mole_numbers::{entry, ideal_gas, moved};
use crate::types::ConditionJets;
use eos::Blend;
use eos::helmholtz::helmholtz_of_one;
use jet::{Jet, marked, number};
use jet_gradient::{add, div, sqrt};

fn energy_over_t(blend: Blend, t: Jet, v: Jet, n: Jet) -> Jet
    ensures { Upto 12 result.c (energy_over_t blend 1 t.c v.c (λ i. n.c)) }
{
    div::<12>(helmholtz_of_one::<12>(blend, t, v, n), t)
}

// A mole number of 1, which moves by its own mark: the moved and the marked one are then the same jet.
fn is_one(z: f64) -> bool
    ensures { (result ≡ eqb (to_bits binary64 z) 0x3ff0_0000_0000_0000) × (result ≡ true → z ≡ f1) }
{
    float::to_bits(z) == 0x3ff0_0000_0000_0000
}

// The mole number moved along the eigenvector 1.
fn moved_along_one(z: f64) -> Jet
    ensures { Upto 12 result.c (moved_of (number_of z) (number_of f1)) }
{
    if is_one(z) {
        return marked(1, z);
    }
    moved::<12>(number(z), number(1.0))
}

// One component at the temperature t and the molar volume v, with its energy over t at the marked mole number.
#[derive(Drop)]
pub struct OneComponent {
    pub blend: Blend,
    pub t: Jet,
    pub v: Jet,
    pub energy: Jet,
    pub ghost marked: { Upto 12 energy.c (energy_over_t blend 1 t.c v.c (along (fractions_of blend) (eqb 0))) },
}

impl OneComponent {
    pub fn at(blend: Blend, t: Jet, v: Jet) -> Self
        ensures { (result.blend ≡ blend) × (result.t ≡ t) × (result.v ≡ v) }
    {
        OneComponent {
            blend,
            t,
            v,
            energy: energy_over_t(blend, t, v, marked(1, blend.x[0])),
        }
    }

    // The smallest eigenvalue of M, its only entry.
    pub fn smallest(&self) -> Jet
        ensures { Upto 12 result.c (eigenvalue self.now.blend 1 self.now.t.c self.now.v.c (fractions_of self.now.blend)) }
    {
        let s = sqrt::<12>(number(self.blend.x[0]));
        entry::<12>(jet::derivative(2, self.energy), s, s, 1.0)
    }

    // The energy over t at the moved mole number n.
    fn moved_energy(&self, n: Jet) -> Jet
        requires { Upto 12 n.c (moved_of (number_of (nth self.now.blend.x 0)) (number_of f1)) }
        ensures { Upto 12 result.c (energy_over_t self.now.blend 1 self.now.t.c self.now.v.c (λ i. n.c)) }
    {
        if is_one(self.blend.x[0]) {
            return self.energy;
        }
        energy_over_t(self.blend, self.t, self.v, n)
    }

    fn third_derivative(&self) -> Jet
        ensures { Upto 12 result.c (third_derivative self.now.blend 1 self.now.t.c self.now.v.c (fractions_of self.now.blend)) }
    {
        let n = moved_along_one(self.blend.x[0]);
        let a = self.moved_energy(n);
        jet::derivative(3, add::<12>(a, ideal_gas::<12>(n, self.v)))
    }

    pub fn conditions(&self) -> ConditionJets
        ensures { Upto 12 result.l.c (eigenvalue self.now.blend 1 self.now.t.c self.now.v.c (fractions_of self.now.blend)) × Upto 12 result.c2.c (third_derivative self.now.blend 1 self.now.t.c self.now.v.c (fractions_of self.now.blend)) }
    {
        ConditionJets {
            l: self.smallest(),
            c2: self.third_derivative(),
        }
    }
}
