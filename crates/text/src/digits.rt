// A number's digits, in ASCII.
ghost use Rattle.std.specs.Prelude.{◌≡◌, ◌+◌, ◌≤◌, ◌<◌, length};
ghost use Rattle.buf.specs.Bytes.{splice};
ghost use Rattle.text.specs.Digits.{glyph as glyph_of, digits, width as width_of};

fn glyph(d: u64) -> u8
    requires { d < 16 }
    ensures { result ≡ glyph_of d }
{
    if d < 10 {
        b'0' + d as u8
    } else {
        b'A' - 10 + d as u8
    }
}

// How many decimal digits n has.
pub fn width(n: u64) -> usize
    ensures { (result ≡ width_of n) × (result ≤ 20) }
{
    let mut rest = n;
    for k in 1..20 {
        if rest < 10 {
            return k;
        }
        rest /= 10;
    }
    20
}

// Stores the last `count` digits of n from index at, the most significant first.
pub fn put_digits(out: &mut [u8], at: usize, base: u64, count: usize, n: u64)
    requires { (at + count ≤ length out.old) × (0 < base) × (base ≤ 16) }
    ensures { out.new ≡ splice out.old at (digits base count n) }
{
    let mut rest = n;
    for i in (0..count).rev() {
        out[at + i] = glyph(rest % base);
        rest /= base;
    }
}
