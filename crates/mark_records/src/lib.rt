// The records that an accepted clause uses, marked in a table of one cell a record. In specs/, `FieldsMarked` has the marks field by field; what is marked stands
// in the crate marking.
#![tactic(auto)]

pub mod down;

ghost use Rattle.std.specs.Prelude.{◌≡◌};
ghost use Rattle.record.specs.Record.{decoded, count_of, field_of, fields_of};
ghost use Rattle.verdict.specs.Refusal.{kind_of_record};
ghost use Rattle.naming.specs.Naming.{named_in};
ghost use Rattle.marking.specs.Marking.{named, marked, marked_by};
ghost use Rattle.mark_records.specs.FieldsMarked.{field_marked, fields_marked};

use naming::recorded::record_named;
use naming::{Named, named_in};
use record::{field, kind};
use tables::{cell, set_cell};

// The record of what field i of a record names, marked.
fn mark_field(part: &[u8], i: u8, symbols: &[u16], rows: &[u16], clauses: &[u16], marks: &mut [u16])
    ensures { marks.new ≡ field_marked symbols.now rows.now clauses.now (named_in (kind_of_record (decoded part.now)) (count_of part.now) i) (field_of part.now i) marks.old }
{
    let what = named_in(part, i);
    if what == Named::Nothing {
        return;
    }
    let k = record_named(what, field(part, i), symbols, rows, clauses);
    set_cell(marks, k as usize, 1);
}

// The same of all seven fields, one after another.
fn mark_fields(part: &[u8], symbols: &[u16], rows: &[u16], clauses: &[u16], marks: &mut [u16])
    ensures { marks.new ≡ fields_marked symbols.now rows.now clauses.now (named_in (kind_of_record (decoded part.now)) (count_of part.now)) 0 (fields_of part.now) marks.old }
{
    for i in 0..7u8 {
        mark_field(part, i, symbols, rows, clauses, marks);
    }
}

// The records of what a record names. A window is kept for its clause, and does not keep it.
fn mark_named(part: &[u8], symbols: &[u16], rows: &[u16], clauses: &[u16], marks: &mut [u16])
    ensures { marks.new ≡ marked symbols.now rows.now clauses.now marks.old (named symbols.now rows.now clauses.now (kind_of_record (decoded part.now)) (decoded part.now)) }
{
    if kind(part) == 8 {
        return;
    }
    mark_fields(part, symbols, rows, clauses, marks);
}

// Record k, if it is marked, marks what it names.
pub fn mark_by(
    part: &[u8],
    k: usize,
    symbols: &[u16],
    rows: &[u16],
    clauses: &[u16],
    marks: &mut [u16],
)
    ensures { marks.new ≡ marked_by symbols.now rows.now clauses.now (decoded part.now) k marks.old }
{
    if cell(marks, k) == 0 {
        return;
    }
    mark_named(part, symbols, rows, clauses, marks);
}
