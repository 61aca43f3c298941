// The numbers of a blend, read from a block into one of zeros, each with its check: 12, 13 and 14.
ghost use Rattle.std.specs.Prelude.{◌≡◌, ◌+◌, ◌-◌, ◌*◌, ◌/◌, ◌%◌, ◌≤◌, ◌<◌, true, cond, length, replicate};
ghost use Rattle.float.specs.Ops.{f0};
ghost use Rattle.eos.specs.Cubic.{element_of, alone};
ghost use Rattle.block.specs.Lists.{tabulate};
ghost use Rattle.block.specs.Numbers.{floats_at, coefficient_count, interaction_count, reads_fractions, fraction_count};
ghost use Rattle.block.specs.Blend.{interaction_at, empty_blend, with_components, with_interactions, with_fractions, with_component_alone};
ghost use Rattle.block.specs.Checks.{components_fit, interactions_fit, fractions_fit};

use crate::checks::{component, finite_at, fraction_fits};
use crate::numbers::{fraction_count, reads_fractions};
use eos::Blend;

// The components into a blend that has none yet. Where one does not fit, the blend is left half read.
pub fn read_blend_components(n: usize, block: &[u8], at: usize, blend: &mut Blend) -> bool
    requires { (n ≤ 8) × (at + 24 * n ≤ length block.now) × (blend.old.tc ≡ replicate 8 f0) × (blend.old.a ≡ replicate 8 f0) × (blend.old.b ≡ replicate 8 f0) × (blend.old.kappa ≡ replicate 8 f0) }
    ensures fits { result ≡ components_fit n (floats_at (coefficient_count n) block.now at) }
    ensures read { result ≡ true → blend.new ≡ with_components n (floats_at (coefficient_count n) block.now at) blend.old }
    ensures kept { blend.new ≡ record blend.old { tc = blend.new.tc; a = blend.new.a; b = blend.new.b; kappa = blend.new.kappa } }
{
    for i in 0..n {
        let Some(c) = component(block, at + 24 * i) else {
            return false;
        };
        blend.tc[i] = c.tc;
        blend.a[i] = c.a;
        blend.b[i] = c.b;
        blend.kappa[i] = c.kappa;
    }
    true
}

// The interactions stand by rows, those with the j above i in row i.
#[tactic(auto, using(crate::proofs::Sizes::place_below))]
fn read_interactions(n: usize, block: &[u8], at: usize, k_ij: &mut [f64; 64]) -> bool
    requires { (1 ≤ n) × (n ≤ 8) × (at + 4 * (n * (n - 1)) ≤ length block.now) × (k_ij.old ≡ replicate 64 f0) }
    ensures { (result ≡ interactions_fit n (floats_at (interaction_count n) block.now at)) × (result ≡ true → k_ij.new ≡ tabulate 64 (λ q. interaction_at n (floats_at (interaction_count n) block.now at) (q / 8) (q % 8))) }
{
    let mut place: usize = 0;
    for i in 0..n {
        for j in i + 1..n {
            let Some(k) = finite_at(block, at + 8 * place) else {
                return false;
            };
            k_ij[8 * i + j] = k;
            k_ij[8 * j + i] = k;
            place += 1;
        }
    }
    true
}

// The same check without the matrix, for the kinds that search one component.
fn interactions_fit(n: usize, block: &[u8], at: usize) -> bool
    requires { (1 ≤ n) × (n ≤ 8) × (at + 4 * (n * (n - 1)) ≤ length block.now) }
    ensures { result ≡ interactions_fit n (floats_at (interaction_count n) block.now at) }
{
    (0..n * (n - 1) / 2).all(|i| buf::is_finite_at(block, at + 8 * i))
}

// The interactions that a kind searches with: those of the whole blend, or none.
pub fn read_blend_interactions(
    kind: u64,
    n: usize,
    block: &[u8],
    at: usize,
    blend: &mut Blend,
) -> bool
    requires { (1 ≤ n) × (n ≤ 8) × (at + 4 * (n * (n - 1)) ≤ length block.now) × (blend.old.k_ij ≡ replicate 64 f0) }
    ensures fits { result ≡ interactions_fit n (floats_at (interaction_count n) block.now at) }
    ensures read { result ≡ true → blend.new ≡ cond (reads_fractions kind) (with_interactions n (floats_at (interaction_count n) block.now at) blend.old) blend.old }
    ensures kept { blend.new ≡ record blend.old { k_ij = blend.new.k_ij } }
{
    if reads_fractions(kind) {
        read_interactions(n, block, at, &mut blend.k_ij)
    } else {
        interactions_fit(n, block, at)
    }
}

// The fractions that a kind reads: those of the whole blend, or none.
pub fn read_blend_fractions(kind: u64, n: usize, block: &[u8], at: usize, blend: &mut Blend) -> bool
    requires { (n ≤ 8) × (at + 8 * n ≤ length block.now) × (blend.old.x ≡ replicate 8 f0) }
    ensures fits { result ≡ fractions_fit n (floats_at (fraction_count kind n) block.now at) }
    ensures read { result ≡ true → blend.new ≡ with_fractions (floats_at (fraction_count kind n) block.now at) blend.old }
    ensures kept { blend.new ≡ record blend.old { x = blend.new.x } }
{
    let count = fraction_count(kind, n);
    for i in 0..count {
        let fraction = buf::get_f64(block, at + 8 * i);
        if !fraction_fits(fraction) {
            return false;
        }
        blend.x[i] = fraction;
    }
    true
}

// Element i of a row comes first and alone.
#[tactic(auto, unfolding(eos::specs::Cubic::element_of))]
fn keep_alone(row: &mut [f64; 8], i: usize)
    requires { i < 8 }
    ensures { row.new ≡ alone (element_of row.old i) }
{
    *row = [row[i], 0.0, 0.0, 0.0, 0.0, 0.0, 0.0, 0.0];
}

// Component i comes first and alone, with fraction 1. The interactions stay.
pub fn keep_component_alone(i: usize, blend: &mut Blend)
    requires { i < 8 }
    ensures { blend.new ≡ with_component_alone i blend.old }
{
    blend.n = 1;
    keep_alone(&mut blend.tc, i);
    keep_alone(&mut blend.a, i);
    keep_alone(&mut blend.b, i);
    keep_alone(&mut blend.kappa, i);
    blend.x = [1.0, 0.0, 0.0, 0.0, 0.0, 0.0, 0.0, 0.0];
}

#[tactic(auto, unfolding(crate::specs::Blend::empty_blend))]
pub fn empty() -> Blend
    ensures { result ≡ empty_blend }
{
    let zeros = [0.0; 8];
    let k_ij = [0.0; 64];
    Blend {
        n: 0,
        tc: zeros,
        a: zeros,
        b: zeros,
        kappa: zeros,
        k_ij,
        x: zeros,
    }
}
