// The first step of a file, and the first symbol of a second file that differs from the first's.
#![tactic(auto)]

ghost use Rattle.std.specs.Prelude.{◌≡◌, ◌≤◌, ◌<◌, length};
ghost use Rattle.record.specs.Record.{old_file, decoded, records, record_count};
ghost use Rattle.record.specs.Sorts.{is_step};
ghost use Rattle.merging.specs.Answer.{first_where, symbol_list, first_other};
ghost use Rattle.searching.specs.Searching.{found_given, Moved};

use record::{Form, count, kind, record_part};
use std::ops::ControlFlow;

// Whether a record is a step.
fn is_step(part: &[u8]) -> bool
    ensures { result ≡ is_step (decoded part.now) }
{
    matches!(kind(part), 5..=7)
}

// The first record of a file that is a step.
pub fn first_step(file: &[u8]) -> Option<u16>
    requires { length file.now ≤ 65536 }
    ensures { found_given result ≡ first_where is_step 0 (records (old_file file.now)) }
{
    for k in 0..(file.len() / 16) as u16 {
        if is_step(record_part(Form::Old, file, k as usize)) {
            return Some(k);
        }
    }
    None
}

// One move of the comparison of symbols, and where it goes on, in the first file and in the second: past a record that is no symbol, in the first file and then in
// the second, or past two symbols that are the same. Or it ends, with the record of a symbol that differs, or with none.
fn compare_at(
    first: &[u8],
    second: &[u8],
    i: usize,
    j: u16,
) -> ControlFlow<Option<u16>, (usize, u16)>
    requires { (i < record_count (old_file first.now)) × (length second.now ≤ 65536) × (j ≤ 4096) }
    ensures { Moved first.now second.now i j result }
{
    let mine = record_part(Form::Old, first, i);
    if kind(mine) != 1 {
        return ControlFlow::Continue((i + 1, j));
    }
    if second.len() / 16 <= (j as usize) {
        return ControlFlow::Break(None);
    }
    let theirs = record_part(Form::Old, second, j as usize);
    if kind(theirs) != 1 {
        return ControlFlow::Continue((i, j + 1));
    }
    if count(mine) == count(theirs) {
        return ControlFlow::Continue((i + 1, j + 1));
    }
    ControlFlow::Break(Some(j))
}

// The second file's first symbol record that differs from the first's symbol of its number. One pass over both files.
pub fn first_other(first: &[u8], second: &[u8]) -> Option<u16>
    requires { length second.now ≤ 65536 }
    ensures { found_given result ≡ first_other (symbol_list (records (old_file first.now))) 0 (records (old_file second.now)) }
{
    // No count: a turn goes on in one file or in both.
    let mut i: usize = 0;
    let mut j: u16 = 0;
    while i < first.len() / 16 {
        match compare_at(first, second, i, j) {
            ControlFlow::Continue((next, other)) => {
                i = next;
                j = other;
            }
            ControlFlow::Break(found) => return found,
        }
    }
    None
}
