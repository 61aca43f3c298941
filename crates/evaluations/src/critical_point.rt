// `criticality_conditions` and `stability_condition` of state/critical_point.rs, of a blend of two components, or else of the first
// component of a blend, with derivatives by temperature and density.
ghost use Rattle.std.specs.Prelude.{◌≡◌};
ghost use Rattle.jet.specs.Coefficients.{Upto, marked_of, recip_of};
ghost use Rattle.evaluations.specs.Critical.{eigenvalue, third_derivative, critical_count, fractions_of, criticality_of, criticality_conditions, stability_condition};

use crate::one_component::OneComponent;
use crate::two_components::TwoComponents;
use crate::types::{ConditionJets, Criticality, Stability};
use eos::Blend;
use jet::{Jet, marked, number};
use jet_gradient::div;

// The molar volume, with its density marked.
fn volume(density: f64) -> Jet
    ensures { Upto 12 result.c (recip_of (marked_of 8 density)) }
{
    div::<12>(number(1.0), marked(8, density))
}

fn conditions(blend: Blend, t: Jet, v: Jet) -> ConditionJets
    ensures { Upto 12 result.l.c (eigenvalue blend (critical_count blend) t.c v.c (fractions_of blend)) × Upto 12 result.c2.c (third_derivative blend (critical_count blend) t.c v.c (fractions_of blend)) }
{
    if blend.n == 2 {
        let pair = TwoComponents::<12>::at(blend, t);
        return pair.conditions(v, number(blend.x[0]), number(blend.x[1]));
    }
    OneComponent::at(blend, t, v).conditions()
}

// The two conditions with their derivatives by the unknowns that carry e1 and e2.
pub fn criticality(c: ConditionJets) -> Criticality
    ensures { result ≡ criticality_of c.l.c c.c2.c }
{
    let f = c.l.c;
    let g = c.c2.c;
    Criticality {
        l: f[0],
        c2: g[0],
        dl_d0: f[4],
        dl_d1: f[8],
        dc2_d0: g[4],
        dc2_d1: g[8],
    }
}

pub fn criticality_conditions(blend: Blend, temperature: f64, density: f64) -> Criticality
    ensures { result ≡ criticality_conditions blend temperature density }
{
    let t = marked(4, temperature);
    let v = volume(density);
    criticality(conditions(blend, t, v))
}

pub fn stability_condition(blend: Blend, temperature: f64, density: f64) -> Stability
    ensures { result ≡ stability_condition blend temperature density }
{
    let t = number(temperature);
    let v = volume(density);
    let l = OneComponent::at(blend, t, v).smallest();
    Stability {
        f: l.c[0],
        df: l.c[8],
    }
}
