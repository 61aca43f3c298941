// The line of a record.
ghost use Rattle.std.specs.Prelude.{◌≡◌, ◌+◌, ◌≤◌, length};
ghost use Rattle.buf.specs.Bytes.{splice};
ghost use Rattle.text.specs.Line.{number_text, word_text, line_of};

use crate::digits::{put_digits, width};

// Stores n in decimal and then the byte `after`, from index at. Answers where they end.
pub fn put_number(out: &mut [u8], at: usize, n: u64, after: u8) -> usize
    requires { at + 21 ≤ length out.old }
    ensures { (out.new ≡ splice out.old at (number_text n after)) × (result ≡ at + length (number_text n after)) × (result ≤ at + 21) }
{
    let count = width(n);
    put_digits(out, at, 10, count, n);
    let end = at + count;
    out[end] = after;
    end + 1
}

// Stores 16 hexadecimal digits and a space.
fn put_word(out: &mut [u8], at: usize, n: u64) -> usize
    requires { at + 17 ≤ length out.old }
    ensures { (out.new ≡ splice out.old at (word_text n)) × (result ≡ at + 17) }
{
    put_digits(out, at, 16, 16, n);
    out[at + 16] = b' ';
    at + 17
}

// Stores the line of a record of this kind at the start of `out`. Answers its length.
pub fn put_line(out: &mut [u8], kind: u64, record: &[u8]) -> usize
    requires { (114 ≤ length out.old) × (64 ≤ length «record».now) }
    ensures { (out.new ≡ splice out.old 0 (line_of kind «record».now)) × (result ≡ length (line_of kind «record».now)) × (result ≤ 114) }
{
    let status = buf::get_u64(record, 16);
    let first = buf::get_u64(record, 24);
    let second = buf::get_u64(record, 32);
    let third = buf::get_u64(record, 40);
    let evaluations = buf::get_u64(record, 48);
    let a = put_number(out, 0, kind, b' ');
    let b = put_number(out, a, status, b' ');
    let c = put_word(out, b, first);
    let d = put_word(out, c, second);
    let e = put_word(out, d, third);
    put_number(out, e, evaluations, b'\n')
}
