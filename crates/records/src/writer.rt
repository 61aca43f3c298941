// The record's bytes, written into a lent buffer: these and no others.
ghost use Rattle.std.specs.Prelude.{◌≡◌, ◌≤◌, length};
ghost use Rattle.buf.specs.Bytes.{splice};
ghost use Rattle.records.specs.Record.{public_bytes, sealed_bytes, record_bytes, sealed_at};

use crate::types::Outcome;

// The sealed part, from byte 16.
pub fn write_sealed(record: &mut [u8], outcome: Outcome)
    requires { 64 ≤ length «record».old }
    ensures { «record».new ≡ splice «record».old sealed_at (sealed_bytes outcome) }
{
    let values = outcome.values;
    buf::put_u64(record, 16, outcome.status);
    buf::put_f64(record, 24, values.first);
    buf::put_f64(record, 32, values.second);
    buf::put_f64(record, 40, values.third);
    buf::put_u64(record, 48, outcome.evaluations);
    buf::put_u64(record, 56, 0);
}

// The public part.
fn write_public(record: &mut [u8], ticket: u64, kind: u64, queue: u64)
    requires { 64 ≤ length «record».old }
    ensures { «record».new ≡ splice «record».old 0 (public_bytes ticket kind queue) }
{
    buf::put_u64(record, 0, ticket);
    buf::put_num(record, 8, 1, kind);
    buf::put_num(record, 9, 1, queue);
    buf::put_num(record, 10, 6, 0);
}

// All 64 bytes.
pub fn write_record(record: &mut [u8], ticket: u64, kind: u64, queue: u64, outcome: Outcome)
    requires { 64 ≤ length «record».old }
    ensures { «record».new ≡ splice «record».old 0 (record_bytes ticket kind queue outcome) }
{
    write_public(record, ticket, kind, queue);
    write_sealed(record, outcome);
}
