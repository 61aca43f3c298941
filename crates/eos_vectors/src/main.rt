// Reads evaluations and prints what each yields as words of 16 hexadecimal digits, a line each. An evaluation is its byte,
// the number of components N in a byte, and floats as bit patterns, little-endian: critical temperature, critical pressure
// and acentric factor of each component; the interactions k_ij by rows, i below j; the fractions; temperature; density.
// In 7 and 8 two partial densities stand for the fractions and the pressure for the density. README.md has the evaluation
// bytes.
#![tactic(auto)]

ghost use Rattle.std.specs.Prelude.{◌≤◌, IsTrue};

use eos::Blend;
use evaluations::{Criticality, Pressure, PressureCriticality, Stability};
use std::io::{self, Cursor, ErrorKind, Read, Write};

// The longest line: 12 words of 16 digits, and what stands after each.
const MOST_LENGTH: usize = 204;

// In the order of their bytes.
#[derive(Clone, Copy)]
enum Evaluation {
    Slope,
    Curvature,
    ChemicalPotential,
    Criticality,
    Stability,
    BinaryCriticality,
    CriticalityT,
    CriticalityP,
}

impl TryFrom<u8> for Evaluation {
    type Error = io::Error;

    fn try_from(byte: u8) -> io::Result<Evaluation> {
        match byte {
            1 => Ok(Evaluation::Slope),
            2 => Ok(Evaluation::Curvature),
            3 => Ok(Evaluation::ChemicalPotential),
            4 => Ok(Evaluation::Criticality),
            5 => Ok(Evaluation::Stability),
            6 => Ok(Evaluation::BinaryCriticality),
            7 => Ok(Evaluation::CriticalityT),
            8 => Ok(Evaluation::CriticalityP),
            _ => Err(io::Error::from(ErrorKind::InvalidData)),
        }
    }
}

impl Evaluation {
    // Whether it is there for n components.
    fn takes(self, n: usize) -> bool
        ensures { IsTrue result → n ≤ 8 }
    {
        match self {
            Evaluation::BinaryCriticality | Evaluation::CriticalityT | Evaluation::CriticalityP => {
                n == 2
            }
            _ => 1 <= n && n <= 8,
        }
    }
}

// How many interactions n components have.
fn pairs(n: usize) -> usize
    ensures { result ≤ 28 }
{
    match n {
        1 => 0,
        2 => 1,
        3 => 3,
        4 => 6,
        5 => 10,
        6 => 15,
        7 => 21,
        _ => 28,
    }
}

fn read_float(input: &mut impl Read) -> io::Result<f64> {
    let mut bytes = [0u8; 8];
    input.read_exact(&mut bytes)?;
    Ok(float::from_bits(u64::from_le_bytes(bytes)))
}

// The interactions, k_ji the same as k_ij, and 0 elsewhere.
fn read_interactions(input: &mut impl Read, n: usize) -> io::Result<[f64; 64]>
    requires { n ≤ 8 }
{
    let mut k_ij = [0.0; 64];
    for i in 0..n {
        for j in i + 1..n {
            let k = read_float(input)?;
            k_ij[8 * i + j] = k;
            k_ij[8 * j + i] = k;
        }
    }
    Ok(k_ij)
}

fn read_blend(input: &mut impl Read, n: usize) -> io::Result<Blend>
    requires { n ≤ 8 }
{
    let mut tc = [0.0; 8];
    let mut a = [0.0; 8];
    let mut b = [0.0; 8];
    let mut kappa = [0.0; 8];
    for i in 0..n {
        let critical_temperature = read_float(input)?;
        let critical_pressure = read_float(input)?;
        let acentric_factor = read_float(input)?;
        let c = eos::component(critical_temperature, critical_pressure, acentric_factor);
        tc[i] = c.tc;
        a[i] = c.a;
        b[i] = c.b;
        kappa[i] = c.kappa;
    }
    let k_ij = read_interactions(input, n)?;
    let mut x = [0.0; 8];
    for i in 0..n {
        x[i] = read_float(input)?;
    }
    Ok(Blend {
        n,
        tc,
        a,
        b,
        kappa,
        k_ij,
        x,
    })
}

fn print_row(out: &mut impl Write, row: &[f64]) -> io::Result<()> {
    for (i, x) in row.iter().enumerate() {
        if i > 0 {
            write!(out, " ")?;
        }
        write!(out, "{:016X}", float::to_bits(*x))?;
    }
    writeln!(out)
}

fn print_pressure(out: &mut impl Write, y: Pressure) -> io::Result<()> {
    print_row(out, &[y.p, y.dp_drho, y.d2p_drho2])
}

fn print_criticality(out: &mut impl Write, y: Criticality) -> io::Result<()> {
    print_row(out, &[y.l, y.c2, y.dl_d0, y.dl_d1, y.dc2_d0, y.dc2_d1])
}

fn print_pressure_criticality(out: &mut impl Write, y: PressureCriticality) -> io::Result<()> {
    let PressureCriticality { l, c2, p } = y;
    print_row(
        out,
        &[
            l.value, c2.value, p.value, l.d0, l.d1, l.d2, c2.d0, c2.d1, c2.d2, p.d0, p.d1, p.d2,
        ],
    )
}

fn print_stability(out: &mut impl Write, y: Stability) -> io::Result<()> {
    print_row(out, &[y.f, y.df])
}

// The first component with fraction 1, as kinds 5 and 6 search it; the others stand beside it unread.
fn first_component(blend: Blend) -> Blend {
    Blend {
        n: 1,
        x: [1.0; 8],
        ..blend
    }
}

fn print_evaluation(
    out: &mut impl Write,
    evaluation: Evaluation,
    blend: Blend,
    t: f64,
    rho: f64,
) -> io::Result<()> {
    let rhos = blend.x;
    match evaluation {
        Evaluation::Slope => print_pressure(out, evaluations::p_dpdrho(blend, t, rho)),
        Evaluation::Curvature => print_pressure(out, evaluations::p_dpdrho_d2pdrho2(blend, t, rho)),
        Evaluation::ChemicalPotential => {
            print_row(out, &[evaluations::chemical_potential(blend, t, rho)])
        }
        Evaluation::Criticality => {
            print_criticality(
                out,
                evaluations::criticality_conditions(first_component(blend), t, rho),
            )
        }
        Evaluation::Stability => {
            print_stability(
                out,
                evaluations::stability_condition(first_component(blend), t, rho),
            )
        }
        Evaluation::BinaryCriticality => {
            print_criticality(out, evaluations::criticality_conditions(blend, t, rho))
        }
        Evaluation::CriticalityT => print_criticality(
            out,
            evaluations::criticality_conditions_t(blend, t, rhos[0], rhos[1]),
        ),
        Evaluation::CriticalityP => print_pressure_criticality(
            out,
            evaluations::criticality_conditions_p(blend, rho, t, rhos[0], rhos[1]),
        ),
    }
}

// Reads a whole evaluation, and then prints its line in one piece. Two bytes that ask for none are invalid data. A failed write is not told.
fn run_one(input: &mut impl Read, out: &mut impl Write) -> io::Result<()> {
    let mut head = [0u8; 2];
    input.read_exact(&mut head)?;
    let evaluation = Evaluation::try_from(head[0])?;
    let n = usize::from(head[1]);
    if !evaluation.takes(n) {
        return Err(io::Error::from(ErrorKind::InvalidData));
    }
    let mut bytes = [0u8; 496];
    let size = 8 * (4 * n + pairs(n) + 2);
    input.read_exact(&mut bytes[..size])?;
    let mut rest = &bytes[..size];
    let blend = read_blend(&mut rest, n)?;
    let t = read_float(&mut rest)?;
    let rho = read_float(&mut rest)?;
    let mut line = Cursor::new([0u8; MOST_LENGTH]);
    print_evaluation(&mut line, evaluation, blend, t, rho)?;
    let end = line.position() as usize;
    out.write_all(line.get_ref().get(..end).unwrap_or(&[]))
        .unwrap_or(());
    Ok(())
}

// Runs evaluations until one is cut off, a read fails or its two bytes ask for none. A loop has to end, and no input uses up this
// count.
fn main(rt: HostRuntime) {
    let mut input = rt.stdin();
    let mut out = io::writer(&rt);
    for _ in 0..u64::MAX {
        if run_one(&mut input, &mut out).is_err() {
            break;
        }
    }
}
