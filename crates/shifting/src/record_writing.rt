// The second file's records, written behind the first's with their numbers raised.
ghost use Rattle.std.specs.Prelude.{◌≡◌, ◌+◌, ◌≤◌};
ghost use Rattle.record.specs.Record.{decoded};
ghost use Rattle.merging.specs.Merging.{symbols_after};
ghost use Rattle.shifting.specs.Shifting.{is_dropped, NextWritten, NextWritable, SecondWritten, SecondWritable};

use raising::put_shifted;
use record::kind;

// Whether a record is a symbol record that is left out: there are s symbols before it, and the first file has `symbols`.
fn is_dropped(rest: &[u8], s: u16, symbols: u16) -> bool
    ensures { result ≡ is_dropped symbols s (decoded rest.now) }
{
    kind(rest) == 1 && s < symbols
}

// The number of the next symbol, after a record.
fn symbols_after(s: u16, rest: &[u8]) -> u16
    requires { s + 1 ≤ 65535 }
    ensures { result ≡ symbols_after s (decoded rest.now) }
{
    if kind(rest) == 1 { s + 1 } else { s }
}

// The first record of the rest of the second file, written at a place unless it is left out; and the next place.
fn write_next(
    rest: &[u8],
    s: u16,
    symbols: u16,
    rows: u16,
    clauses: u16,
    output: &mut [u8],
    at: usize,
) -> usize
    requires { NextWritable rest.now s symbols output.old at }
    ensures { NextWritten rest.now s symbols rows clauses output.old at output.new result }
{
    if is_dropped(rest, s, symbols) {
        return at;
    }
    put_shifted(rest, rows, clauses, &mut output[at..]);
    at + 16
}

// The second file's records, without the symbol records that the first file has, from a place of the output on; and the end of what is written. Each
// time the rest of the file is passed on, from the record reached on.
pub fn write_second(
    second: &[u8],
    symbols: u16,
    rows: u16,
    clauses: u16,
    output: &mut [u8],
    at: usize,
) -> usize
    requires { SecondWritable second.now symbols output.old at }
    ensures { SecondWritten second.now symbols rows clauses output.old at output.new result }
{
    let mut next = at;
    let mut s: u16 = 0;
    for k in 0..second.len() / 16 {
        let rest = &second[16 * k..];
        next = write_next(rest, s, symbols, rows, clauses, output, next);
        s = symbols_after(s, rest);
    }
    next
}
