// What comes after the checks of two files that are to be merged: steps, symbols and the number of records are looked at, and then the file is written. In specs/,
// `Joined` says how the parts of this program go about it.
#![tactic(auto)]

ghost use Rattle.std.specs.Prelude.{◌≡◌, ◌++◌, ◌≤◌, length, drop, take};
ghost use Rattle.record.specs.Record.{records};
ghost use Rattle.merging.specs.Answer.{after_checks};
ghost use Rattle.merging.specs.Merging.{merged_file};
ghost use Rattle.joining.specs.Joined.{unless_found, BothStand, too_many, Joined, FileWritten, Joinable};

use searching::{first_other, first_step};
use shifting::record_writing::write_second;
use writing_answer::{NotWritten, WritingReason};

// Whether the merged file has over 4,096 records: the symbols that both files have are written once.
fn too_many(first: &[u8], second: &[u8], symbols: u16, others: u16) -> bool
    ensures { result ≡ too_many (length first.now) (length second.now) symbols others }
{
    4096 + (symbols.min(others) as usize) < first.len() / 16 + second.len() / 16
}

// Nothing where a search has found no record; or that no file is written for the record found in an input file.
fn none_found(found: Option<u16>, reason: WritingReason, file: u8) -> Result<(), NotWritten>
    ensures { result ≡ unless_found reason file found }
{
    match found {
        None => Ok(()),
        Some(at) => Err(NotWritten { reason, file, at }),
    }
}

// Writes all of `from` at the start of `to`, of which the rest stays, and tells how many bytes that were.
fn copy(from: &[u8], to: &mut [u8]) -> usize
    requires { length from.now ≤ length to.old }
    ensures count { result ≡ length from.now }
    ensures bytes { to.new ≡ take (length from.now) from.now ++ drop (length from.now) to.old }
{
    let n = from.len();
    to[..n].copy_from_slice(from);
    n
}

// The first file, and behind it the second's records; and the length of both.
fn write_both(
    first: &[u8],
    second: &[u8],
    symbols: u16,
    rows: u16,
    clauses: u16,
    output: &mut [u8],
) -> usize
    requires { Joinable first.now second.now symbols rows clauses output.old }
    ensures { FileWritten first.now second.now output.old output.new result }
{
    let at = copy(first, output);
    write_second(second, symbols, rows, clauses, output, at)
}

// The answer to a merge of two files that stand, and the file written if nothing stands in its way. Of the first file it is known how many symbols, rows
// and clauses it has, of the second how many symbols.
pub fn join(
    first: &[u8],
    second: &[u8],
    symbols: u16,
    rows: u16,
    clauses: u16,
    others: u16,
    output: &mut [u8],
) -> Result<u32, NotWritten>
    requires { BothStand first.now second.now symbols rows clauses others output.old }
    ensures { Joined first.now second.now output.old result output.new }
{
    none_found(first_step(first), WritingReason::StepInInput, 1)?;
    none_found(first_step(second), WritingReason::StepInInput, 2)?;
    none_found(first_other(first, second), WritingReason::OtherSymbol, 2)?;
    if too_many(first, second, symbols, others) {
        return Err(NotWritten {
            reason: WritingReason::TooManyMerged,
            file: 0,
            at: 0,
        });
    }
    let end = write_both(first, second, symbols, rows, clauses, output);
    Ok(end as u32)
}
