// A whole job answered at once.
ghost use Rattle.std.specs.Prelude.{◌≡◌, length};
ghost use Rattle.records.specs.Answered.{number_of, answered, fits as fits_of};

use crate::outcomes::run_job;
use crate::types::Unanswered;
use crate::writer::write_sealed;

#[tactic(auto, unfolding(crate::specs::Answered::number_of))]
pub fn number(answered: Result<(), Unanswered>) -> u64
    ensures { result ≡ number_of answered }
{
    match answered {
        Ok(()) => 0,
        Err(refusal) => u64::from(refusal),
    }
}

// Whether a request can be answered in a record of this size.
#[tactic(auto, unfolding(crate::specs::Answered::fits))]
pub fn fits(kind: u64, n: u64, block: &[u8], record: &[u8]) -> Result<(), Unanswered>
    ensures { result ≡ fits_of kind n (length block.now) (length record.now) }
{
    if !schedule::kind_fits(kind) {
        return Err(Unanswered::BadKind);
    }
    if !schedule::count_fits(kind, n) {
        return Err(Unanswered::BadCount);
    }
    if block.len() != 640 {
        return Err(Unanswered::BadBlockLength);
    }
    if record.len() < 64 {
        return Err(Unanswered::ShortRecord);
    }
    Ok(())
}

// Runs the job of a request to its end and writes the sealed part of the record, bytes 16 to 63. A refusal changes nothing.
pub fn answer(kind: u64, n: u64, block: &[u8], record: &mut [u8]) -> Result<(), Unanswered>
    ensures { (result ≡ (answered kind n block.now «record».old).answer) × («record».new ≡ (answered kind n block.now «record».old).bytes) }
{
    fits(kind, n, block, record)?;
    let job = reader::view(kind, n, block);
    write_sealed(record, run_job(job));
    Ok(())
}
