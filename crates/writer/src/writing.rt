// A request's numbers checked by the board's reader and written into a buffer, or the first refusal and the buffer as it was.
ghost use Rattle.std.specs.Prelude.{◌≡◌, ◌≤◌};
ghost use Rattle.reader.specs.Reading.{refusal_of};
ghost use Rattle.writer.specs.Packed.{filed_by};
ghost use Rattle.writer.specs.Written.{counts_fit};
ghost use Rattle.writer.specs.Laws.{Answers};

use crate::packing::fill;
use block::Conditions;
use reader::Refusal;

#[tactic(auto, using(block::proofs::Sizes::product), unfolding(crate::specs::Written::counts_fit))]
fn counts_fit(n: u64, coefficients: &[f64], interactions: &[f64], fractions: &[f64]) -> bool
    requires { (1 ≤ n) × (n ≤ 8) }
    ensures { result ≡ counts_fit n coefficients.now interactions.now fractions.now }
{
    let count = n as usize;
    coefficients.len() == 3 * count
        && interactions.len() == count * (count - 1) / 2
        && fractions.len() == count
}

// The number of a refusal, or 0.
#[tactic(auto, unfolding(reader::specs::Reading::refusal_of))]
pub fn number(answer: Result<(), Refusal>) -> u64
    ensures { result ≡ refusal_of answer }
{
    match answer {
        Ok(()) => 0,
        Err(refusal) => u64::from(refusal),
    }
}

// The block is made apart from the buffer and read as the board would read it, so that nothing is written before every check has passed.
pub fn write_block(
    kind: u64,
    n: u64,
    coefficients: &[f64],
    interactions: &[f64],
    fractions: &[f64],
    c: Conditions,
    buffer: &mut [u8],
) -> Result<(), Refusal>
    ensures { Answers kind n (filed_by coefficients.now interactions.now fractions.now c) buffer.old (refusal_of result) buffer.new }
{
    if !schedule::kind_fits(kind) {
        return Err(Refusal::Kind);
    }
    if !schedule::count_fits(kind, n) {
        return Err(Refusal::Count);
    }
    if buffer.len() != 640 {
        return Err(Refusal::BlockLength);
    }
    if !counts_fit(n, coefficients, interactions, fractions) {
        return Err(Refusal::Pairs);
    }
    let mut block = [0u8; 640];
    fill(n, coefficients, interactions, fractions, c, &mut block);
    let job = reader::view(kind, n, &block);
    job.task?;
    buf::put_part(buffer, 0, &block);
    Ok(())
}
