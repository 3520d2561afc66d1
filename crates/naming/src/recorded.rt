// The record of what a field names, by the tables that the check left.
ghost use Rattle.std.specs.Prelude.{◌≡◌, get_or};
ghost use Rattle.naming.specs.Naming.{record_named};

use super::Named;
use tables::cell;

// The record of a row: that of the earliest row that it repeats, if it repeats one.
fn row_record(n: u16, rows: &[u16]) -> u16
    ensures { result ≡ get_or rows.now n 0 }
{
    let earliest = cell(rows, n as usize);
    earliest
}

// The record of what a field with the number n names.
pub fn record_named(what: Named, n: u16, symbols: &[u16], rows: &[u16], clauses: &[u16]) -> u16
    ensures { result ≡ record_named symbols.now rows.now clauses.now what n }
{
    let at = n as usize;
    match what {
        Named::Nothing => 0,
        Named::Symbol => cell(symbols, at),
        Named::Row => row_record(n, rows),
        Named::Literal => row_record(n / 2, rows),
        Named::Clause => cell(clauses, 5 * at),
    }
}
