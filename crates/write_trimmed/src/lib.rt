// The marked records of a file, written with new numbers. In specs/, `Writing` has the contracts; which records they are stands in the crate marking.
#![tactic(auto)]

pub mod numbering;

ghost use Rattle.record.specs.Bytes.{file_bytes};
ghost use Rattle.record.specs.Record.{decoded, old_file, records};
ghost use Rattle.std.specs.Prelude.{map};
ghost use Rattle.trimming.specs.Trimming.{first_numbers};
ghost use Rattle.marking.specs.Marking.{marked_records};
ghost use Rattle.raising.specs.Wrapped.{wrapped};
ghost use Rattle.placing.specs.Placing.{Written};
ghost use Rattle.write_trimmed.specs.Writing.{RecordWritable, RecordWritten, MarkedWritten, Trimmable};

use close_up::put_closed;
use numbering::{Place, own_number, place_after};
use record::{Form, record_count, record_part};
use tables::{cell, set_cell};

// Record k at its place, with its own number told to those that name it; and the next place.
fn write_record(
    part: &[u8],
    k: usize,
    place: Place,
    symbols: &[u16],
    rows: &[u16],
    clauses: &[u16],
    numbers: &mut [u16],
    output: &mut [u8],
) -> Place
    requires { RecordWritable place output.old }
    ensures { RecordWritten symbols.now rows.now clauses.now (decoded part.now) k place numbers.old output.old result numbers.new output.new }
{
    let at = place.at;
    put_closed(part, symbols, rows, clauses, numbers, output, at);
    set_cell(numbers, k, own_number(part, place));
    place_after(part, place)
}

// The same if the record is marked, and nothing if it is not.
fn write_marked(
    part: &[u8],
    k: usize,
    place: Place,
    symbols: &[u16],
    rows: &[u16],
    clauses: &[u16],
    marks: &[u16],
    numbers: &mut [u16],
    output: &mut [u8],
) -> Place
    requires { RecordWritable place output.old }
    ensures { MarkedWritten symbols.now rows.now clauses.now marks.now (decoded part.now) k place numbers.old output.old result numbers.new output.new }
{
    if cell(marks, k) == 0 {
        return place;
    }
    write_record(part, k, place, symbols, rows, clauses, numbers, output)
}

// The marked records at the start of an output, with new numbers; and the end of what is written.
pub fn write_trimmed(
    file: &[u8],
    symbols: &[u16],
    rows: &[u16],
    clauses: &[u16],
    marks: &[u16],
    numbers: &mut [u16],
    output: &mut [u8],
) -> usize
    requires { Trimmable file.now output.old }
    ensures { Written (file_bytes (map wrapped (marked_records symbols.now rows.now clauses.now marks.now numbers.old first_numbers 0 (records (old_file file.now))))) output.old output.new result }
{
    let count = record_count(Form::Old, file);
    let mut place = Place {
        at: 0,
        symbol: 0,
        row: 0,
        clause: 0,
    };
    for k in 0..count {
        let part = record_part(Form::Old, file, k);
        place = write_marked(
            part, k, place, symbols, rows, clauses, marks, numbers, output,
        );
    }
    place.at
}
