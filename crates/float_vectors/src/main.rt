// Reads bit patterns, one to a line as 16 hexadecimal digits, and prints what the crate `float` makes of each value x:
// the bits of its square root and logarithm; and for each of the first 256 lines also those of x itself, abs, signum, max
// and min of the value of the line before and x, and 1 or 0 for a minus sign and for finite.
#![tactic(auto)]

ghost use Rattle.std.specs.Prelude.{◌≤◌, ◌<◌, length};

use std::io::{self, Cursor, Read, Write};

// The longest line: 7 words of 16 digits and two digits, and what stands after each.
const MOST_LENGTH: usize = 123;

// What the input has beyond these bytes is not read.
const MOST_BYTES: usize = 65536;

// Reads until `s` is full, the input ends or a read fails. Answers how many bytes there were.
fn read_full(input: &mut impl Read, s: &mut [u8]) -> usize
    ensures { result ≤ length s.old }
{
    let mut done = 0;
    while done < s.len() {
        match input.read(&mut s[done..]) {
            Ok(got) if 0 < got => done += got,
            _ => break,
        }
    }
    done
}

// '0' to '9' and 'a' to 'f'. Not from_str_radix: each other byte has a value too.
fn digit(c: u8) -> u64
    ensures { result < 16 }
{
    let d = if c < b'a' { c } else { c % 16 + 9 };
    u64::from(d % 16)
}

// The value whose bit pattern the first 16 bytes of a line spell.
fn value(line: &[u8]) -> f64 {
    let digits = line.iter().take(16);
    float::from_bits(digits.fold(0u64, |bits, c| bits << 4 | digit(*c)))
}

fn print_functions(out: &mut impl Write, x: f64) -> io::Result<()> {
    let sqrt = float::to_bits(float::sqrt(x));
    let ln = float::to_bits(float::ln(x));
    write!(out, "{sqrt:016x} {ln:016x}")
}

fn print_selections(out: &mut impl Write, before: f64, x: f64) -> io::Result<()> {
    for y in [
        x,
        float::abs(x),
        float::signum(x),
        float::max(before, x),
        float::min(before, x),
    ] {
        write!(out, " {:016x}", float::to_bits(y))?;
    }
    write!(
        out,
        " {} {}",
        u8::from(float::is_negative(x)),
        u8::from(float::is_finite(x))
    )
}

// In one piece.
fn print_line(out: &mut impl Write, before: f64, x: f64, is_long: bool) -> io::Result<()> {
    let mut line = Cursor::new([0u8; MOST_LENGTH]);
    print_functions(&mut line, x)?;
    if is_long {
        print_selections(&mut line, before, x)?;
    }
    writeln!(line)?;
    let end = line.position() as usize;
    out.write_all(line.get_ref().get(..end).unwrap_or(&[]))
}

// A failed write is not told.
fn main(rt: HostRuntime) {
    let mut input = [0u8; MOST_BYTES];
    let count = read_full(&mut rt.stdin(), &mut input);
    let mut out = io::writer(&rt);
    let mut before = 0.0;
    for (i, line) in input[..count].chunks_exact(17).enumerate() {
        let x = value(line);
        print_line(&mut out, before, x, i < 256).unwrap_or(());
        before = x;
    }
}
