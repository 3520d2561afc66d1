// All records of a file, from the last to the first: a record names only earlier ones, so that each is visited after all that name it.
ghost use Rattle.std.specs.Prelude.{◌≡◌, List, ℕ};
ghost use Rattle.record.specs.Record.{Record, decoded, old_file, record_count};
ghost use Rattle.mark_records.specs.Down.{down};
ghost use Rattle.marking.specs.Marking.{marked_down, dated_by, dated_down};

use super::mark_by;
use record::{Form, field, kind, record_count, record_part};
use tables::{cell, set_cell};

// A step at each record, the last one first.
fn go_down<F: Fn(&[u8], usize, &mut [u16])>(file: &[u8], marks: &mut [u16], mark: F)
    requires { F.IsAlwaysCallable mark }
    ensures { (step : Record → ℕ → List ℕ → List ℕ) → ((part : _) (k : ℕ) (before after : _) → F.post mark part k before tt after → after.now ≡ step (decoded part.now) k before.now) → marks.new ≡ down step (old_file file.now) (record_count (old_file file.now)) marks.old }
{
    for k in (0..record_count(Form::Old, file)).rev() {
        mark(record_part(Form::Old, file, k), k, marks);
    }
}

// What each marked record names, marked.
pub fn mark_down(file: &[u8], symbols: &[u16], rows: &[u16], clauses: &[u16], marks: &mut [u16])
    ensures { marks.new ≡ marked_down symbols.now rows.now clauses.now (old_file file.now) (record_count (old_file file.now)) marks.old }
{
    go_down(file, marks, |part, k, marks| {
        mark_by(part, k, symbols, rows, clauses, marks)
    });
}

// Record k, if it is the last window of a marked clause, is marked; the clause's mark becomes 2.
fn mark_window(part: &[u8], k: usize, clauses: &[u16], marks: &mut [u16])
    ensures { (symbols rows : List ℕ) → marks.new ≡ dated_by symbols rows clauses.now (decoded part.now) k marks.old }
{
    if kind(part) != 8 {
        return;
    }
    let c = cell(clauses, 5 * (field(part, 0) as usize));
    if cell(marks, c as usize) != 1 {
        return;
    }
    set_cell(marks, k, 1);
    set_cell(marks, c as usize, 2);
}

// The last window of each marked clause, marked.
pub fn mark_windows(file: &[u8], clauses: &[u16], marks: &mut [u16])
    ensures { (symbols rows : List ℕ) → marks.new ≡ dated_down symbols rows clauses.now (old_file file.now) (record_count (old_file file.now)) marks.old }
{
    go_down(
        file,
        marks,
        |part, k, marks|
            ensures { (symbols rows : List ℕ) → marks.new ≡ dated_by symbols rows clauses.entry.now (decoded part.now) k marks.old }
        { mark_window(part, k, clauses, marks) },
    );
}
