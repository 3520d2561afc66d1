// What files are written with, record by record: its sixteen bytes and two numbers at a place of an output, and the number of the next clause. In specs/,
// `Placing` has an output with bytes at a place.
#![tactic(auto)]

ghost use Rattle.std.specs.Prelude.{◌≡◌, [], ◌+◌, ◌≤◌, ◌<◌, length, take};
ghost use Rattle.record.specs.Bytes.{low_then_high};
ghost use Rattle.record.specs.Record.{decoded};
ghost use Rattle.record.specs.Sorts.{clauses_after};
ghost use Rattle.placing.specs.Placing.{placed_at, PartPlaceable};

use sorts::clauses_of;

// The first sixteen bytes of a record, at a place.
pub fn put_sixteen(part: &[u8], output: &mut [u8], at: usize)
    requires { PartPlaceable part.now output.old at }
    ensures { output.new ≡ placed_at at (take 16 part.now) output.old }
{
    output[at..at + 16].copy_from_slice(&part[..16]);
}

// Two numbers in four bytes at a place, the low byte of each first.
pub fn put_pair(first: u16, second: u16, output: &mut [u8], at: usize)
    requires { at + 4 ≤ length output.old }
    ensures { output.new ≡ placed_at at (low_then_high first (low_then_high second [])) output.old }
{
    let [a, b] = first.to_le_bytes();
    let [c, d] = second.to_le_bytes();
    output[at..at + 4].copy_from_slice(&[a, b, c, d]);
}

// The number of the next clause, after a record.
pub fn clauses_after(n: usize, part: &[u8]) -> usize
    requires { n < 65536 }
    ensures { result ≡ clauses_after n (decoded part.now) }
{
    n + clauses_of(part)
}
