// Reads operations on jets, 513 bytes each: an operation byte, then the 32 coefficients of the first operand and of the
// second as bit patterns, little-endian (zeros for an operation on one jet). Prints the result's 32 patterns, a line each.
// README.md has the operation bytes.
#![tactic(auto)]

use jet::Jet;
use std::io::{self, Cursor, Read, Write};

// 32 words of 16 digits, and what stands after each.
const LINE_LENGTH: usize = 544;

// What an operation byte asks for: a whole jet, a derivative by a mark, or the first coefficients.
#[derive(Clone, Copy)]
enum Operation {
    Add,
    Sub,
    Neg,
    Mul,
    Div,
    Recip,
    Sqrt,
    Ln,
    Square,
    Derivative(usize),
    MulTo(usize),
    DivTo(usize),
    SqrtTo(usize),
    LnTo(usize),
}

// Each byte asks for an operation.
impl From<u8> for Operation {
    fn from(byte: u8) -> Operation {
        match byte {
            0 => Operation::Add,
            1 => Operation::Sub,
            2 => Operation::Neg,
            3 => Operation::Mul,
            4 => Operation::Div,
            5 => Operation::Recip,
            6 => Operation::Sqrt,
            7 => Operation::Ln,
            8 => Operation::Square,
            9 => Operation::Derivative(1),
            10 => Operation::Derivative(2),
            11..=15 => Operation::Derivative(3),
            _ => {
                let n = match byte / 16 {
                    1 => 0,
                    2 => 1,
                    3 => 4,
                    4 => 16,
                    _ => 40,
                };
                match byte % 16 {
                    3 => Operation::MulTo(n),
                    4 => Operation::DivTo(n),
                    6 => Operation::SqrtTo(n),
                    _ => Operation::LnTo(n),
                }
            }
        }
    }
}

impl Operation {
    fn apply(self, a: Jet, b: Jet) -> Jet {
        match self {
            Operation::Add => jet::add(a, b),
            Operation::Sub => jet::sub(a, b),
            Operation::Neg => jet::neg(a),
            Operation::Mul => jet::mul(a, b),
            Operation::Div => jet::div(a, b),
            Operation::Recip => jet::recip(a),
            Operation::Sqrt => jet::sqrt(a),
            Operation::Ln => jet::ln(a),
            Operation::Square => jet::square(a),
            Operation::Derivative(k) => jet::derivative(k, a),
            Operation::MulTo(n) => jet::mul_to(n, a, b),
            Operation::DivTo(n) => jet::div_to(n, a, b),
            Operation::SqrtTo(n) => jet::sqrt_to(n, a),
            Operation::LnTo(n) => jet::ln_to(n, a),
        }
    }
}

fn read_operation(input: &mut impl Read) -> io::Result<Operation> {
    let mut bytes = [0u8; 1];
    input.read_exact(&mut bytes)?;
    Ok(Operation::from(bytes[0]))
}

fn read_float(input: &mut impl Read) -> io::Result<f64> {
    let mut bytes = [0u8; 8];
    input.read_exact(&mut bytes)?;
    Ok(float::from_bits(u64::from_le_bytes(bytes)))
}

fn read_jet(input: &mut impl Read) -> io::Result<Jet> {
    let mut c = [0.0; 32];
    for x in c.iter_mut() {
        *x = read_float(input)?;
    }
    Ok(Jet { c })
}

fn print_line(out: &mut impl Write, a: Jet) -> io::Result<()> {
    for (m, x) in a.c.iter().enumerate() {
        if m > 0 {
            write!(out, " ")?;
        }
        write!(out, "{:016x}", float::to_bits(*x))?;
    }
    writeln!(out)
}

// Reads a whole operation, and then prints its line in one piece. A failed write is not told.
fn run_one(input: &mut impl Read, out: &mut impl Write) -> io::Result<()> {
    let mut bytes = [0u8; 513];
    input.read_exact(&mut bytes)?;
    let mut rest = &bytes[..];
    let operation = read_operation(&mut rest)?;
    let a = read_jet(&mut rest)?;
    let b = read_jet(&mut rest)?;
    let mut line = Cursor::new([0u8; LINE_LENGTH]);
    print_line(&mut line, operation.apply(a, b))?;
    out.write_all(line.get_ref()).unwrap_or(());
    Ok(())
}

// Runs operations until one is cut off or a read fails. A loop has to end, and no input uses up this count.
fn main(rt: HostRuntime) {
    let mut input = rt.stdin();
    let mut out = io::writer(&rt);
    for _ in 0..u64::MAX {
        if run_one(&mut input, &mut out).is_err() {
            break;
        }
    }
}
