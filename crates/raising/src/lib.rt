// A record of the second file, written with its numbers raised.
#![tactic(auto)]

ghost use Rattle.std.specs.Prelude.{◌≡◌, ◌∷◌, ◌++◌, ◌+◌, ◌/◌, ◌%◌, ◌≤◌, length, drop};
ghost use Rattle.record.specs.Bytes.{record_bytes};
ghost use Rattle.record.specs.Record.{field_of, decoded};
ghost use Rattle.record.specs.declared.Form.TheVariants.{Old};
ghost use Rattle.merging.specs.Merging.{raised_by, shifted};
ghost use Rattle.raising.specs.Wrapped.{wrapped};

use record::{count, field, kind};

// By how much field i of a record is raised: an argument row by the first's rows, a literal by twice that, the clause of a window by the first's clauses.
fn raised_by(part: &[u8], i: u8, rows: u16, clauses: u16) -> u32
    ensures { result ≡ raised_by rows clauses (decoded part.now) i }
{
    match kind(part) {
        3 if 1 <= i && i <= count(part) => rows as u32,
        4 if i < count(part) => 2 * (rows as u32),
        8 if i == 0 => clauses as u32,
        _ => 0,
    }
}

// Field i of a record, raised.
fn raised_field(part: &[u8], i: u8, rows: u16, clauses: u16) -> u32
    ensures { result ≡ field_of part.now i + raised_by rows clauses (decoded part.now) i }
{
    (field(part, i) as u32) + raised_by(part, i, rows, clauses)
}

// A number in two bytes, the low one first.
fn put_number(output: &mut [u8], n: u32)
    requires { 2 ≤ length output.old }
    ensures { output.new ≡ (n % 256) ∷ (n / 256 % 256) ∷ drop 2 output.old }
{
    output[..2].copy_from_slice(&n.to_le_bytes()[..2]);
}

// The first record of the rest of a file, shifted, to the first sixteen bytes of an output.
pub fn put_shifted(rest: &[u8], rows: u16, clauses: u16, output: &mut [u8])
    requires { 16 ≤ length output.old }
    ensures { output.new ≡ record_bytes Old (wrapped (shifted rows clauses (decoded rest.now))) ++ drop 16 output.old }
{
    output[0] = kind(rest);
    output[1] = count(rest);
    for i in 0..7u8 {
        let at = 2 + 2 * (i as usize);
        put_number(&mut output[at..], raised_field(rest, i, rows, clauses));
    }
}
