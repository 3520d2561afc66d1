// A record written with its numbers closed up. In specs/, `ClosedField` has it field by field; what a record becomes stands in the crate trimming.
#![tactic(auto)]

ghost use Rattle.std.specs.Prelude.{◌≡◌, [], ◌+◌, ◌%◌, ◌≤◌, length};
ghost use Rattle.record.specs.Bytes.{low_then_high, record_bytes};
ghost use Rattle.record.specs.Record.{decoded};
ghost use Rattle.record.specs.declared.Form.TheVariants.{Old};
ghost use Rattle.trimming.specs.Trimming.{closed_record};
ghost use Rattle.marking.specs.Marking.{by_records};
ghost use Rattle.raising.specs.Wrapped.{wrapped};
ghost use Rattle.placing.specs.Placing.{placed_at};
ghost use Rattle.close_up.specs.ClosedField.{closed_number, closed_field, FieldsPlaceable};

use naming::recorded::record_named;
use naming::{Named, named_in};
use placing::put_pair;
use record::{count, field, kind};
use tables::cell;

// The number of a field closed up: what the record of the thing named got. A literal keeps its sign.
fn closed_number(
    what: Named,
    n: u16,
    symbols: &[u16],
    rows: &[u16],
    clauses: &[u16],
    numbers: &[u16],
) -> u16
    ensures { result ≡ closed_number (by_records symbols.now rows.now clauses.now numbers.now) what n % 65536 }
{
    let k = record_named(what, n, symbols, rows, clauses);
    let new = cell(numbers, k as usize);
    match what {
        Named::Nothing => n,
        Named::Symbol => new,
        Named::Row => new,
        Named::Literal => ((2 * u32::from(new) + u32::from(n % 2)) % 65536) as u16,
        Named::Clause => new,
    }
}

// Field i of a record, closed up.
fn closed_field(
    part: &[u8],
    i: u8,
    symbols: &[u16],
    rows: &[u16],
    clauses: &[u16],
    numbers: &[u16],
) -> u16
    ensures { result ≡ closed_field (by_records symbols.now rows.now clauses.now numbers.now) part.now i }
{
    closed_number(
        named_in(part, i),
        field(part, i),
        symbols,
        rows,
        clauses,
        numbers,
    )
}

// Fields i and i + 1 of a record, closed up, in four bytes at a place.
fn put_fields(
    part: &[u8],
    i: u8,
    symbols: &[u16],
    rows: &[u16],
    clauses: &[u16],
    numbers: &[u16],
    output: &mut [u8],
    at: usize,
)
    requires { FieldsPlaceable i output.old at }
    ensures { output.new ≡ placed_at at (low_then_high (closed_field (by_records symbols.now rows.now clauses.now numbers.now) part.now i) (low_then_high (closed_field (by_records symbols.now rows.now clauses.now numbers.now) part.now (i + 1)) [])) output.old }
{
    let first = closed_field(part, i, symbols, rows, clauses, numbers);
    let second = closed_field(part, i + 1, symbols, rows, clauses, numbers);
    put_pair(first, second, output, at);
}

// A record closed up, in sixteen bytes at a place: byte 0 and byte 1 as they were, and seven fields.
pub fn put_closed(
    part: &[u8],
    symbols: &[u16],
    rows: &[u16],
    clauses: &[u16],
    numbers: &[u16],
    output: &mut [u8],
    at: usize,
)
    requires { at + 16 ≤ length output.old }
    ensures { output.new ≡ placed_at at (record_bytes Old (wrapped (closed_record (by_records symbols.now rows.now clauses.now numbers.now) (decoded part.now)))) output.old }
{
    let head = (kind(part) as u16) + 256 * (count(part) as u16);
    let first = closed_field(part, 0, symbols, rows, clauses, numbers);
    put_pair(head, first, output, at);
    put_fields(part, 1, symbols, rows, clauses, numbers, output, at + 4);
    put_fields(part, 3, symbols, rows, clauses, numbers, output, at + 8);
    put_fields(part, 5, symbols, rows, clauses, numbers, output, at + 12);
}
