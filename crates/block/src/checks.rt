// The checks 12 and 14 to 17 of the supplier's data: one component, one fraction, the sum of the fractions, the conditions, the choice.
ghost use Rattle.std.specs.Prelude.{◌≡◌, ◌+◌, ◌≤◌, true, false, length, MatchOption};
ghost use Rattle.float.specs.Sign.{finite_of};
ghost use Rattle.buf.specs.Bytes.{f64_at};
ghost use Rattle.eos.specs.Cubic.{component_of};
ghost use Rattle.block.specs.Checks.{positive as positive_of, plus_zero, parameters_fit, component_fits, fraction_fits, fraction_sum, near_one, sum_fits, temperature_fits, conditions_fit, choices as choices_of, choice_fits};

use crate::numbers::{optional_temperature, reads_fractions};
use crate::types::Conditions;
use eos::Component;
use schedule::Kind;

#[tactic(auto, unfolding(crate::specs::Checks::positive))]
pub fn positive(x: f64) -> bool
    ensures { result ≡ positive_of x }
{
    float::is_finite(x) && 0.0 < x
}

#[tactic(auto, unfolding(crate::specs::Checks::plus_zero))]
pub fn is_plus_zero(x: f64) -> bool
    ensures { result ≡ plus_zero x }
{
    float::to_bits(x) == 0
}

#[tactic(auto, unfolding(crate::specs::Checks::parameters_fit))]
fn parameters_fit(c: Component) -> bool
    ensures { result ≡ parameters_fit c }
{
    float::is_finite(c.kappa) && positive(c.a) && positive(c.b)
}

// The float at an index, if it is finite.
pub fn finite_at(s: &[u8], at: usize) -> Option<f64>
    requires { at + 8 ≤ length s.now }
    ensures { MatchOption result (finite_of (f64_at s.now at) ≡ false) (λ x. (finite_of (f64_at s.now at) ≡ true) × (x ≡ f64_at s.now at)) }
{
    if buf::is_finite_at(s, at) {
        Some(buf::get_finite(s, at))
    } else {
        None
    }
}

// The float at an index, if it is finite and positive.
#[tactic(auto, unfolding(crate::specs::Checks::positive))]
fn positive_at(s: &[u8], at: usize) -> Option<f64>
    requires { at + 8 ≤ length s.now }
    ensures { MatchOption result (positive_of (f64_at s.now at) ≡ false) (λ x. (positive_of (f64_at s.now at) ≡ true) × (x ≡ f64_at s.now at)) }
{
    let x = finite_at(s, at)?;
    (0.0 < x).then_some(x)
}

// The component of the three numbers from index from, if it passes check 12.
#[tactic(auto, unfolding(crate::specs::Checks::component_fits))]
pub fn component(s: &[u8], from: usize) -> Option<Component>
    requires { from + 24 ≤ length s.now }
    ensures { let fits = component_fits (f64_at s.now from) (f64_at s.now (from + 8)) (f64_at s.now (from + 16)) in
        MatchOption result (fits ≡ false) (λ c. (fits ≡ true) × (c ≡ component_of (f64_at s.now from) (f64_at s.now (from + 8)) (f64_at s.now (from + 16)))) }
{
    let tc = positive_at(s, from)?;
    let pc = positive_at(s, from + 8)?;
    let acentric_factor = finite_at(s, from + 16)?;
    let c = eos::component(tc, pc, acentric_factor);
    parameters_fit(c).then_some(c)
}

#[tactic(auto, unfolding(crate::specs::Checks::fraction_fits))]
pub fn fraction_fits(x: f64) -> bool
    ensures { result ≡ fraction_fits x }
{
    float::is_finite(x) && !float::is_negative(x)
}

// The sum of the fractions, from the first.
#[tactic(auto, using(eos::proofs::Folds::fold_end), unfolding(crate::specs::Checks::fraction_sum, eos::specs::Indices::total))]
fn fraction_sum(n: usize, x: &[f64; 8]) -> f64
    requires { (1 ≤ n) × (n ≤ 8) }
    ensures { result ≡ fraction_sum n x.now }
{
    let mut s = x[0];
    for i in 1..n {
        s += x[i];
    }
    s
}

#[tactic(auto, unfolding(crate::specs::Checks::near_one))]
fn near_one(sum: f64) -> bool
    ensures { result ≡ near_one sum }
{
    float::abs(sum - 1.0) <= 1e-9
}

#[tactic(auto, unfolding(crate::specs::Checks::sum_fits))]
pub fn sum_fits(kind: u64, n: usize, x: &[f64; 8]) -> bool
    requires { (1 ≤ n) × (n ≤ 8) }
    ensures { result ≡ sum_fits kind n x.now }
{
    !reads_fractions(kind) || near_one(fraction_sum(n, x))
}

#[tactic(auto, unfolding(crate::specs::Checks::temperature_fits))]
fn temperature_fits(kind: u64, t: f64) -> bool
    ensures { result ≡ temperature_fits kind t }
{
    positive(t) || (optional_temperature(kind) && is_plus_zero(t))
}

#[tactic(auto, unfolding(crate::specs::Checks::conditions_fit))]
pub fn conditions_fit(kind: u64, c: Conditions) -> bool
    ensures { result ≡ conditions_fit kind c }
{
    temperature_fits(kind, c.temperature)
        && float::is_finite(c.pressure)
        && float::is_finite(c.start)
}

#[tactic(auto, unfolding(crate::specs::Checks::choices))]
fn choices(kind: u64, n: u64) -> u64
    ensures { result ≡ choices_of kind n }
{
    match Kind::try_from(kind) {
        Ok(Kind::Density) => 3,
        Ok(Kind::SpinodalBranch) => 2,
        _ if reads_fractions(kind) => 1,
        _ => n,
    }
}

#[tactic(auto, unfolding(crate::specs::Checks::choice_fits))]
pub fn choice_fits(kind: u64, n: u64, choice: u64) -> bool
    ensures { result ≡ choice_fits kind n choice }
{
    choice < choices(kind, n)
}
