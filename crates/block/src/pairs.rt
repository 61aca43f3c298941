// The four pairs of offset and length at the start of a block: check 11.
// Slices of 640 bytes and no `&[u8; 640]`: callers of `pairs_fit` and `offset` hand slices whose length they tested, and a conversion here would test it again.
ghost use Rattle.std.specs.Prelude.{◌≡◌, ◌+◌, ◌≤◌, ◌<◌, length};
ghost use Rattle.buf.specs.Bytes.{num_at};
ghost use Rattle.block.specs.Pairs.{offset_of, lengths_fit, offsets_fit, pairs_fit};

#[tactic(auto, using(buf::proofs::Laws::num_at_lt))]
fn u16_at(block: &[u8], at: usize) -> u64
    requires { at + 2 ≤ length block.now }
    ensures { (result ≡ num_at 2 block.now at) × (result < 65536) }
{
    buf::get_num(block, at, 2)
}

#[tactic(auto, unfolding(crate::specs::Pairs::lengths_fit, crate::specs::Pairs::offset_of, crate::specs::Pairs::length_of))]
fn lengths_fit(n: u64, block: &[u8]) -> bool
    requires { (1 ≤ n) × (n ≤ 8) × (length block.now ≡ 640) }
    ensures { result ≡ lengths_fit n block.now }
{
    u16_at(block, 2) == 24 * n
        && u16_at(block, 6) == 4 * (n * (n - 1))
        && u16_at(block, 10) == 8 * n
        && u16_at(block, 14) == 32
}

#[tactic(auto, unfolding(crate::specs::Pairs::offsets_fit, crate::specs::Pairs::offset_of, crate::specs::Pairs::length_of))]
fn offsets_fit(block: &[u8]) -> bool
    requires { length block.now ≡ 640 }
    ensures { result ≡ offsets_fit block.now }
{
    let coefficients = u16_at(block, 0);
    let interactions = u16_at(block, 4);
    let fractions = u16_at(block, 8);
    let conditions = u16_at(block, 12);
    16 <= coefficients
        && coefficients + u16_at(block, 2) <= interactions
        && interactions + u16_at(block, 6) <= fractions
        && fractions + u16_at(block, 10) <= conditions
        && conditions + u16_at(block, 14) <= 640
}

#[tactic(auto, unfolding(crate::specs::Pairs::pairs_fit))]
pub fn pairs_fit(n: u64, block: &[u8]) -> bool
    requires { (1 ≤ n) × (n ≤ 8) × (length block.now ≡ 640) }
    ensures { result ≡ pairs_fit n block.now }
{
    lengths_fit(n, block) && offsets_fit(block)
}

// Where the part of the pair i starts.
#[tactic(auto, unfolding(crate::specs::Pairs::offset_of))]
pub fn offset(block: &[u8], i: usize) -> usize
    requires { (i ≤ 3) × (length block.now ≡ 640) }
    ensures { result ≡ offset_of block.now i }
{
    u16_at(block, 4 * i) as usize
}
