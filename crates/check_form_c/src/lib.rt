// The check of a proof file told its form by a number, with its answer in cells, as C has it. `ExportedForm` in specs/ of the crate exported says what
// it promises.
#![tactic(auto)]

ghost use Rattle.tables.specs.Lent.{SameTables};
ghost use Rattle.entry.specs.Progress.{tables_of};
ghost use Rattle.exported.specs.ExportedForm.{ExportedForm};

use check_c::check_to_cells;
use record::Form;
use tables::lent::LentTables;

// The check told the form by the length of its records, 16 or 20. With another number nothing is touched.
pub fn check_form_to_cells(
    number: u16,
    day: u16,
    file: &[u8],
    tables: &mut LentTables,
    answer: &mut [u16],
)
    ensures answered { ExportedForm number day file.now (tables_of tables.old) answer.old (tables_of tables.new) answer.new }
    ensures same_tables { SameTables tables.old tables.new }
{
    let form = match number {
        16 => Form::Old,
        20 => Form::New,
        _ => return,
    };
    check_to_cells(form, day, file, tables, answer);
}
