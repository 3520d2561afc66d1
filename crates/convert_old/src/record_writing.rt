// The records of a new file, written in the old form.
ghost use Rattle.std.specs.Prelude.{◌≡◌, ◌+◌, ◌≤◌, length};
ghost use Rattle.record.specs.Bytes.{record_bytes, bytes_in};
ghost use Rattle.record.specs.Record.{decoded_in, new_file, records};
ghost use Rattle.record.specs.declared.Form.TheVariants.{Old, New};
ghost use Rattle.converting.specs.Converting.{window_record, to_old_records};
ghost use Rattle.placing.specs.Placing.{placed_at, Placed, Written};
ghost use Rattle.convert_old.specs.OldFile.{old_of, NextWritable, OldWritable};

use super::is_dated;
use placing::{clauses_after, put_pair, put_sixteen};
use record::{Form, field, record_count, record_part};

// The record of kind 8 that gives clause n its days, at a place: byte 0 is 8 and byte 1 is 0, as of the number 8.
fn put_window(n: u16, first: u16, last: u16, output: &mut [u8], at: usize)
    requires { at + 16 ≤ length output.old }
    ensures { output.new ≡ placed_at at (record_bytes Old (window_record n (first, last))) output.old }
{
    put_pair(8, n, output, at);
    put_pair(first, last, output, at + 4);
    put_pair(0, 0, output, at + 8);
    put_pair(0, 0, output, at + 12);
}

// A record without its days at a place, and straight after it the window of a clause that is not always in force; and the next place.
fn write_next(part: &[u8], n: usize, output: &mut [u8], at: usize) -> usize
    requires { NextWritable part.now n output.old at }
    ensures { Placed Old (old_of n (decoded_in New part.now)) output.old at output.new result }
{
    put_sixteen(part, output, at);
    if is_dated(part) {
        put_window(n as u16, field(part, 7), field(part, 8), output, at + 16);
        return at + 32;
    }
    at + 16
}

// The file in the old form, at the start of an output; and its length.
pub fn write_old(file: &[u8], output: &mut [u8]) -> usize
    requires { OldWritable file.now output.old }
    ensures { Written (bytes_in Old (to_old_records (records (new_file file.now)))) output.old output.new result }
{
    let count = record_count(Form::New, file);
    let mut next: usize = 0;
    let mut n: usize = 0;
    for k in 0..count {
        let part = record_part(Form::New, file, k);
        next = write_next(part, n, output, next);
        n = clauses_after(n, part);
    }
    next
}
