// Little-endian numbers, floats and parts in a slice of bytes. specs/Bytes.antt says what each is, for any list.
#![tactic(auto)]

ghost use Rattle.std.specs.Prelude.{◌≡◌, ◌+◌, ◌≤◌, ◌<◌, true, length};
ghost use Rattle.float.specs.Sign.{finite_of};
ghost use Rattle.buf.specs.Bytes.{num_at, put_num, splice, u64_at, put_u64, f64_at, put_f64};

// The number of k bytes at index at.
pub fn get_num(s: &[u8], at: usize, k: usize) -> u64
    requires { (at + k ≤ length s.now) × (k ≤ 8) }
    ensures { result ≡ num_at k s.now at }
{
    let mut v: u64 = 0;
    for i in (0..k).rev() {
        v = v * 256 + u64::from(s[at + i]);
    }
    v
}

// Stores the k low bytes of v from index at.
pub fn put_num(s: &mut [u8], at: usize, k: usize, v: u64)
    requires { at + k ≤ length s.old }
    ensures { s.new ≡ put_num k s.old at v }
{
    let mut x = v;
    for i in 0..k {
        s[at + i] = (x % 256) as u8;
        x /= 256;
    }
}

// Stores all of b from index at. By `copy_from_slice` the library for C would need memmove from outside.
pub fn put_part(s: &mut [u8], at: usize, b: &[u8])
    requires { at + length b.now ≤ length s.old }
    ensures { s.new ≡ splice s.old at b.now }
{
    for i in 0..b.len() {
        s[at + i] = b[i];
    }
}

// The compiler makes one load of it.
pub fn get_u64(s: &[u8], at: usize) -> u64
    requires { at + 8 ≤ length s.now }
    ensures { result ≡ u64_at s.now at }
{
    let bytes = s[at..].first_chunk::<8>().unwrap();
    u64::from_le_bytes(*bytes)
}

pub fn put_u64(s: &mut [u8], at: usize, v: u64)
    requires { at + 8 ≤ length s.old }
    ensures { s.new ≡ put_u64 s.old at v }
{
    s[at..at + 8].copy_from_slice(&v.to_le_bytes());
}

// Every NaN pattern gives the one NaN.
pub fn get_f64(s: &[u8], at: usize) -> f64
    requires { at + 8 ≤ length s.now }
    ensures { result ≡ f64_at s.now at }
{
    float::from_bits(get_u64(s, at))
}

// Whether the float at index at is finite.
pub fn is_finite_at(s: &[u8], at: usize) -> bool
    requires { at + 8 ≤ length s.now }
    ensures { result ≡ finite_of (f64_at s.now at) }
{
    float::finite_bits(get_u64(s, at))
}

// A float that is known to be finite.
pub fn get_finite(s: &[u8], at: usize) -> f64
    requires { (at + 8 ≤ length s.now) × (finite_of (f64_at s.now at) ≡ true) }
    ensures { result ≡ f64_at s.now at }
{
    float::from_finite_bits(get_u64(s, at))
}

// NaN is stored as the one pattern 7FF8000000000000.
pub fn put_f64(s: &mut [u8], at: usize, x: f64)
    requires { at + 8 ≤ length s.old }
    ensures { s.new ≡ put_f64 s.old at x }
{
    put_u64(s, at, float::to_bits(x))
}
