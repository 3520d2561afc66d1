// The check of a proof file with its answer in cells, as C has it. `Exported` in specs/ of the crate exported says what it promises.
#![tactic(auto)]

ghost use Rattle.tables.specs.Lent.{SameTables};
ghost use Rattle.record.specs.Record.{in_form};
ghost use Rattle.entry.specs.Progress.{tables_of};
ghost use Rattle.exported.specs.Exported.{Exported};

use checker::check;
use exported::cells::put;
use record::Form;
use tables::lent::LentTables;

// The check of a file of a form on a day, with the answer in seven cells. Where `answer` has fewer, nothing is touched.
pub fn check_to_cells(
    form: Form,
    day: u16,
    file: &[u8],
    tables: &mut LentTables,
    answer: &mut [u16],
)
    ensures answered { Exported day (in_form form file.now) (tables_of tables.old) answer.old (tables_of tables.new) answer.new }
    ensures same_tables { SameTables tables.old tables.new }
{
    if answer.len() < 7 {
        return;
    }
    let a = check(form, day, file, tables);
    put(a, answer);
}
