// Tests of a step by its own bytes: the fields that it uses, and the right literals of a resolve. `Fields` in specs/ of the crate fields has the
// contracts.
#![tactic(auto)]

ghost use Rattle.std.specs.Prelude.{◌≡◌, ◌≤◌, take, drop};
ghost use Rattle.record.specs.Record.{decoded, fields_of, severalKind};
ghost use Rattle.verdict.specs.Refusal.{in_range, rising};
ghost use Rattle.fields.specs.Fields.{step_in_range, right_count};

use ranges::zeros_from;
use record::{count, kind};
use record_fields::fields;

// A resolve uses four fields, a factor and a window three; byte 1 is zero in all.
pub fn step_in_range(part: &[u8], used: u8) -> bool
    ensures { result ≡ step_in_range used (decoded part.now) }
{
    count(part) == 0 && zeros_from(part, used)
}

// A resolve on several right literals has one to four of them, from field d on.
pub fn several_in_range(part: &[u8]) -> bool
    ensures { result ≡ in_range severalKind (decoded part.now) }
{
    let n = count(part);
    matches!(n, 1..=4) && zeros_from(part, 3 + n)
}

// How many right literals a resolve names, one or as many as byte 1 says; none where byte 1 or an unused field is out of its range.
pub fn right_count(part: &[u8]) -> u8
    ensures { result ≡ right_count part.now }
{
    if kind(part) == 5 {
        u8::from(step_in_range(part, 4))
    } else if several_in_range(part) {
        count(part)
    } else {
        0
    }
}

// Whether n right literals, from field d on, strictly rise.
pub fn rights_rise(part: &[u8], n: u8) -> bool
    requires { n ≤ 4 }
    ensures { result ≡ rising (take n (drop 3 (fields_of part.now))) }
{
    fields(part)[3..][..usize::from(n)].is_sorted_by(|a, b| a < b)
}
