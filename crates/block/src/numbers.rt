// Which numbers a job reads, and the conditions.
// A kind comes as its number: the clauses of `reads_fractions`, `conditions` and the checks say what they answer for any number.
ghost use Rattle.std.specs.Prelude.{◌≡◌, ◌+◌, ◌≤◌, length};
ghost use Rattle.buf.specs.Bytes.{u64_at, f64_at};
ghost use Rattle.block.specs.Numbers.{reads_fractions, fraction_count, optional_temperature, optional_start, uses_choice, uses_pressure, uses_start, used_choice, used_pressure, used_start, conditions_of};

use crate::types::Conditions;
use schedule::Kind;

#[tactic(auto, unfolding(crate::specs::Numbers::reads_fractions))]
pub fn reads_fractions(kind: u64) -> bool
    ensures { result ≡ reads_fractions kind }
{
    !matches!(
        Kind::try_from(kind),
        Ok(Kind::CriticalPoint | Kind::StabilitySpinodals)
    )
}

#[tactic(auto, unfolding(crate::specs::Numbers::fraction_count))]
pub fn fraction_count(kind: u64, n: usize) -> usize
    ensures { result ≡ fraction_count kind n }
{
    if reads_fractions(kind) { n } else { 0 }
}

#[tactic(auto, unfolding(crate::specs::Numbers::optional_temperature))]
pub fn optional_temperature(kind: u64) -> bool
    ensures { result ≡ optional_temperature kind }
{
    matches!(
        Kind::try_from(kind),
        Ok(Kind::CriticalPoint | Kind::BlendCriticalPoint | Kind::CriticalPointAtPressure)
    )
}

#[tactic(auto, unfolding(crate::specs::Numbers::optional_start))]
fn optional_start(kind: u64) -> bool
    ensures { result ≡ optional_start kind }
{
    matches!(Kind::try_from(kind), Ok(Kind::CriticalPointAtTemperature))
        || optional_temperature(kind)
}

#[tactic(auto, unfolding(crate::specs::Numbers::uses_choice))]
fn uses_choice(kind: u64) -> bool
    ensures { result ≡ uses_choice kind }
{
    matches!(
        Kind::try_from(kind),
        Ok(Kind::Density | Kind::SpinodalBranch)
    ) || !reads_fractions(kind)
}

// By number, since the definition takes in 0, which no `Kind` has.
#[tactic(auto, unfolding(crate::specs::Numbers::uses_pressure))]
fn uses_pressure(kind: u64) -> bool
    ensures { result ≡ uses_pressure kind }
{
    kind <= 2 || kind == 9
}

#[tactic(auto, unfolding(crate::specs::Numbers::uses_start))]
fn uses_start(kind: u64, choice: u64) -> bool
    ensures { result ≡ uses_start kind choice }
{
    match Kind::try_from(kind) {
        Ok(Kind::Density) => choice == 2,
        Ok(Kind::PressureSpinodal) => true,
        _ => optional_start(kind),
    }
}

#[tactic(auto, unfolding(crate::specs::Numbers::conditions_of, crate::specs::Numbers::conditions_at, crate::specs::Numbers::used, crate::specs::Numbers::used_choice, crate::specs::Numbers::used_pressure, crate::specs::Numbers::used_start))]
pub fn conditions(kind: u64, block: &[u8], at: usize) -> Conditions
    requires { at + 32 ≤ length block.now }
    ensures { result ≡ conditions_of kind block.now at }
{
    let choice = if uses_choice(kind) {
        buf::get_u64(block, at)
    } else {
        0
    };
    let temperature = buf::get_f64(block, at + 8);
    let pressure = if uses_pressure(kind) {
        buf::get_f64(block, at + 16)
    } else {
        0.0
    };
    let start = if uses_start(kind, choice) {
        buf::get_f64(block, at + 24)
    } else {
        0.0
    };
    Conditions {
        choice,
        temperature,
        pressure,
        start,
    }
}
