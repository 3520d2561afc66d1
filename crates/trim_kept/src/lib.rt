// A file trimmed to what an accepted clause uses, after the check: its records are marked, then written. In specs/, `KeptRecords` has the whole as one
// equation with the crate marking.
#![tactic(auto)]

ghost use Rattle.std.specs.Prelude.{◌≡◌, map};
ghost use Rattle.record.specs.Bytes.{file_bytes};
ghost use Rattle.raising.specs.Wrapped.{wrapped};
ghost use Rattle.placing.specs.Placing.{Written};
ghost use Rattle.write_trimmed.specs.Writing.{Trimmable};
ghost use Rattle.trim_kept.specs.KeptRecords.{first_marks, kept_marks, kept_records};

use following::nodes::{Nodes, Origins};
use mark_records::down::{mark_down, mark_windows};
use tables::{cell, clear, set_cell};
use write_trimmed::write_trimmed;

// No mark but that of clause n's record.
fn mark_first(n: u16, clauses: &[u16], marks: &mut Nodes)
    ensures { marks.new ≡ first_marks clauses.now n marks.old }
{
    clear(marks, 0, 4096);
    let k = cell(clauses, 5 * (n as usize));
    set_cell(marks, k as usize, 1);
}

// The marks of the records that clause n uses, and of the last window of each clause among them.
fn mark_kept(file: &[u8], n: u16, symbols: &[u16], rows: &[u16], clauses: &[u16], marks: &mut Nodes)
    ensures { marks.new ≡ kept_marks symbols.now rows.now clauses.now file.now n marks.old }
{
    mark_first(n, clauses, marks);
    mark_down(file, symbols, rows, clauses, marks);
    mark_windows(file, clauses, marks);
}

// The file trimmed to what clause n uses, at the start of an output; and its end. The node table and the table of origins are free after the check: the one
// takes the marks and the other the new numbers.
pub fn trim_kept(
    file: &[u8],
    n: u16,
    symbols: &[u16],
    rows: &[u16],
    clauses: &[u16],
    marks: &mut Nodes,
    numbers: &mut Origins,
    output: &mut [u8],
) -> u32
    requires { Trimmable file.now output.old }
    ensures { Written (file_bytes (map wrapped (kept_records symbols.now rows.now clauses.now file.now n marks.old numbers.old))) output.old output.new result }
{
    mark_kept(file, n, symbols, rows, clauses, marks);
    let end = write_trimmed(file, symbols, rows, clauses, marks, numbers, output);
    end as u32
}
