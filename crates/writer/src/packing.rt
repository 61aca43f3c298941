// A block's four pairs and four parts, one after the other from its first byte.
ghost use Rattle.std.specs.Prelude.{◌≡◌, ◌+◌, ◌*◌, ◌≤◌, true, length, T};
ghost use Rattle.std.specs.Float.{binary64};
ghost use Rattle.std.specs.Float.Ieee.{fits};
ghost use Rattle.buf.specs.Bytes.{splice, put_f64};
ghost use Rattle.block.specs.Pairs.{interactions_length};
ghost use Rattle.writer.specs.Packed.{filed_by, interactions_from, fractions_from, conditions_from, pair_bytes, pairs_bytes, floats_bytes, condition_bytes, filled};
ghost use Rattle.writer.specs.Written.{counts_fit};
ghost use Rattle.writer.specs.Laws.{Binary64, ConditionsRepresentable, Representable};

use block::Conditions;

fn interactions_size(n: u64) -> u64
    requires { (1 ≤ n) × (n ≤ 8) }
    ensures { (result ≡ interactions_length n) × (result ≤ 224) }
{
    4 * (n * (n - 1))
}

// Where the parts after the first begin.
fn interactions_from(n: u64) -> u64
    requires { (1 ≤ n) × (n ≤ 8) }
    ensures { (result ≡ interactions_from n) × (result ≤ 208) }
{
    16 + 24 * n
}

fn fractions_from(n: u64) -> u64
    requires { (1 ≤ n) × (n ≤ 8) }
    ensures { (result ≡ fractions_from n) × (result ≤ 432) }
{
    interactions_from(n) + interactions_size(n)
}

fn conditions_from(n: u64) -> u64
    requires { (1 ≤ n) × (n ≤ 8) }
    ensures { (result ≡ conditions_from n) × (result ≤ 496) }
{
    fractions_from(n) + 8 * n
}

fn put_pair(block: &mut [u8], at: usize, offset: u64, size: u64)
    requires { at + 4 ≤ length block.old }
    ensures { block.new ≡ splice block.old at (pair_bytes offset size) }
{
    buf::put_num(block, at, 2, offset);
    buf::put_num(block, at + 2, 2, size);
}

fn put_pairs(n: u64, block: &mut [u8])
    requires { (1 ≤ n) × (n ≤ 8) × (length block.old ≡ 640) }
    ensures { block.new ≡ splice block.old 0 (pairs_bytes n) }
{
    put_pair(block, 0, 16, 24 * n);
    put_pair(block, 4, interactions_from(n), interactions_size(n));
    put_pair(block, 8, fractions_from(n), 8 * n);
    put_pair(block, 12, conditions_from(n), 32);
}

// The contract also says that the float is one of binary64, as every f64 is: what is written is then what is read back.
fn put_float(block: &mut [u8], at: usize, x: f64)
    requires { at + 8 ≤ length block.old }
    ensures { (block.new ≡ put_f64 block.old at x) × (T (fits binary64 x)) }
{
    buf::put_f64(block, at, x)
}

fn put_floats(block: &mut [u8], at: usize, list: &[f64])
    requires { at + 8 * length list.now ≤ length block.old }
    ensures { (block.new ≡ splice block.old at (floats_bytes list.now)) × (Binary64 list.now) }
{
    for i in 0..list.len() {
        put_float(block, at + 8 * i, list[i]);
    }
}

fn put_conditions(block: &mut [u8], at: usize, c: Conditions)
    requires { at + 32 ≤ length block.old }
    ensures { (block.new ≡ splice block.old at (condition_bytes c)) × (ConditionsRepresentable c) }
{
    buf::put_u64(block, at, c.choice);
    put_float(block, at + 8, c.temperature);
    put_float(block, at + 16, c.pressure);
    put_float(block, at + 24, c.start);
}

// The pairs and the parts of lists whose lengths fit n.
pub fn fill(
    n: u64,
    coefficients: &[f64],
    interactions: &[f64],
    fractions: &[f64],
    c: Conditions,
    block: &mut [u8],
)
    requires { (1 ≤ n) × (n ≤ 8) × (length block.old ≡ 640) × (counts_fit n coefficients.now interactions.now fractions.now ≡ true) }
    ensures { (block.new ≡ splice block.old 0 (filled n (filed_by coefficients.now interactions.now fractions.now c))) × (Representable (filed_by coefficients.now interactions.now fractions.now c)) }
{
    put_pairs(n, block);
    put_floats(block, 16, coefficients);
    put_floats(block, interactions_from(n) as usize, interactions);
    put_floats(block, fractions_from(n) as usize, fractions);
    put_conditions(block, conditions_from(n) as usize, c);
}
