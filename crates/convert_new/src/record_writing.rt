// The records of an old file, written in the new form.
ghost use Rattle.std.specs.Prelude.{◌≡◌};
ghost use Rattle.record.specs.Bytes.{bytes_in};
ghost use Rattle.record.specs.Record.{decoded, old_file, records};
ghost use Rattle.record.specs.declared.Form.TheVariants.{New};
ghost use Rattle.converting.specs.Converting.{to_new_records};
ghost use Rattle.placing.specs.Placing.{Placed, Written};
ghost use Rattle.convert_new.specs.NewFile.{day_beside, new_of, NextWritable, NewWritable};

use placing::{clauses_after, put_pair, put_sixteen};
use record::{Form, kind, record_count, record_part};
use tables::cell;

// A day beside a record: a cell of the table for an input clause, and zero for all others.
fn day_beside(part: &[u8], days: &[u16], at: usize) -> u16
    ensures { result ≡ day_beside days.now at (decoded part.now) }
{
    if kind(part) == 4 { cell(days, at) } else { 0 }
}

// A record with its days at a place, unless it is a window; and the next place.
fn write_next(part: &[u8], n: usize, days: &[u16], output: &mut [u8], at: usize) -> usize
    requires { NextWritable part.now n days.now output.old at }
    ensures { Placed New (new_of days.now n (decoded part.now)) output.old at output.new result }
{
    if kind(part) == 8 {
        return at;
    }
    let first = day_beside(part, days, 2 * n);
    let last = day_beside(part, days, 2 * n + 1);
    put_sixteen(part, output, at);
    put_pair(first, last, output, at + 16);
    at + 20
}

// The file in the new form, at the start of an output; and its length.
pub fn write_new(file: &[u8], days: &[u16], output: &mut [u8]) -> usize
    requires { NewWritable file.now days.now output.old }
    ensures { Written (bytes_in New (to_new_records (records (old_file file.now)))) output.old output.new result }
{
    let count = record_count(Form::Old, file);
    let mut next: usize = 0;
    let mut n: usize = 0;
    for k in 0..count {
        let part = record_part(Form::Old, file, k);
        next = write_next(part, n, days, output, next);
        n = clauses_after(n, part);
    }
    next
}
