// The evaluations of `critical_point_binary_t` and `critical_point_binary_p` of state/critical_point.rs: the conditions of two components
// at two partial densities. Two unknowns carry e1 and e2, and positions below 12 are enough; three carry e3 too, and those of
// first order below 20 are.
ghost use Rattle.std.specs.Prelude.{◌≡◌};
ghost use Rattle.jet.specs.Coefficients.{Upto};
ghost use Rattle.evaluations.specs.CriticalBinary.{binary_eigenvalue, binary_third, criticality_conditions_t, pressure_condition, condition_of, criticality_conditions_p};
ghost use Rattle.evaluations.specs.Entries.{StateOf};

use crate::critical_point::criticality;
use crate::two_components::TwoComponents;
use crate::types::{BinaryState, Condition, ConditionJets, Criticality, PressureCriticality};
use eos::Blend;
use eos::helmholtz::helmholtz_of_two;
use jet::{Jet, marked, number};
use jet_gradient::{add, div, mul};

// Density, molar volume and fractions of the partial densities rho0 and rho1.
fn state<const W: usize>(rho0: Jet, rho1: Jet) -> BinaryState
    ensures { StateOf W rho0.c rho1.c result }
{
    let density = add::<W>(rho0, rho1);
    BinaryState {
        density,
        v: div::<W>(number(1.0), density),
        z0: div::<W>(rho0, density),
        z1: div::<W>(rho1, density),
    }
}

// The two conditions at the state of rho0 and rho1.
fn conditions<const W: usize>(pair: &TwoComponents<W>, rho0: Jet, rho1: Jet) -> ConditionJets
    ensures { Upto W result.l.c (binary_eigenvalue pair.now.blend pair.now.t.c rho0.c rho1.c) × Upto W result.c2.c (binary_third pair.now.blend pair.now.t.c rho0.c rho1.c) }
{
    let s = state::<W>(rho0, rho1);
    pair.conditions(s.v, s.z0, s.z1)
}

pub fn criticality_conditions_t(blend: Blend, temperature: f64, rho0: f64, rho1: f64) -> Criticality
    ensures { result ≡ criticality_conditions_t blend temperature rho0 rho1 }
{
    let pair = TwoComponents::<12>::at(blend, number(temperature));
    criticality(conditions(&pair, marked(4, rho0), marked(8, rho1)))
}

// The condition of the pressure: what it is less what it comes to.
fn pressure_condition<const W: usize>(
    pair: &TwoComponents<W>,
    pressure: f64,
    rho0: Jet,
    rho1: Jet,
) -> Jet
    ensures { Upto W result.c (pressure_condition pair.now.blend pressure pair.now.t.c rho0.c rho1.c) }
{
    let s = state::<W>(rho0, rho1);
    let v = jet::with_mark(1, s.v);
    let a = helmholtz_of_two::<W>(pair.blend, pair.root, pair.t, v, s.z0, s.z1);
    let da = jet::derivative(1, a);
    let p_calc = add::<W>(jet::neg(da), mul::<W>(s.density, pair.t));
    add::<W>(jet::neg(p_calc), number(pressure))
}

// A condition with its derivatives by e1, e2 and e3.
fn condition(x: Jet) -> Condition
    ensures { result ≡ condition_of x.c }
{
    let c = x.c;
    Condition {
        value: c[0],
        d0: c[4],
        d1: c[8],
        d2: c[16],
    }
}

pub fn criticality_conditions_p(
    blend: Blend,
    pressure: f64,
    temperature: f64,
    rho0: f64,
    rho1: f64,
) -> PressureCriticality
    ensures { result ≡ criticality_conditions_p blend pressure temperature rho0 rho1 }
{
    let r0 = marked(8, rho0);
    let r1 = marked(16, rho1);
    let pair = TwoComponents::<20>::at(blend, marked(4, temperature));
    let c = conditions(&pair, r0, r1);
    let p = pressure_condition(&pair, pressure, r0, r1);
    PressureCriticality {
        l: condition(c.l),
        c2: condition(c.c2),
        p: condition(p),
    }
}
