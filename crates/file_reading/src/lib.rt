// A file's records read into tables that are cleared first, and the answer; with a workspace that is lent, and with one of its own. `Reader` in specs/ of the
// crate reading has the contracts.
#![tactic(auto)]

ghost use Rattle.record.specs.Record.{in_form};
ghost use Rattle.tables.specs.Lent.{SameTables};
ghost use Rattle.following.specs.Lent.{SameWorkspace};
ghost use Rattle.entry.specs.Progress.{tables_of};
ghost use Rattle.reading.specs.Reader.{Readable, FileRead, ReadableWith, FileReadWith};

use answer::Answer;
use following::lent::LentWorkspace;
use reading::reader::read_records;
use record::Form;
use standing::ended_answer;
use tables::clear;
use tables::lent::LentTables;

// The named parts cleared, and all records read. The rows go to the node table as well, and the clauses to the table of origins.
pub fn read_tables(
    form: Form,
    day: u16,
    file: &[u8],
    tables: &mut LentTables,
    workspace: &mut LentWorkspace,
) -> Answer
    requires { ReadableWith (in_form form file.now) (tables_of tables.old) workspace.old.nodes.now workspace.old.origins.now workspace.old.values.now }
    ensures read { FileReadWith day (in_form form file.now) (tables_of tables.old) result (tables_of tables.new) workspace.new.nodes.now workspace.new.origins.now workspace.new.values.now }
    ensures same_tables { SameTables tables.old tables.new }
    ensures same_workspace { SameWorkspace workspace.old workspace.new }
{
    clear(tables.symbols, 0, 4096);
    clear(tables.rows, 0, 4096);
    clear(tables.clauses, 0, 20480);
    clear(tables.bindings, 0, 32768);
    let e = read_records(
        form,
        file,
        tables.symbols,
        tables.rows,
        tables.clauses,
        tables.bindings,
        workspace.nodes,
        workspace.origins,
        workspace.values,
    );
    let clauses = &mut *tables.clauses;
    ended_answer(form, day, file, e, clauses, workspace.origins)
}

// The same with a workspace of its own.
pub fn read_file(form: Form, day: u16, file: &[u8], tables: &mut LentTables) -> Answer
    requires { Readable (in_form form file.now) (tables_of tables.old) }
    ensures read { FileRead day (in_form form file.now) (tables_of tables.old) result (tables_of tables.new) }
    ensures same_tables { SameTables tables.old tables.new }
{
    let mut nodes = [0u16; 32768];
    let mut origins = [0u16; 32768];
    let mut values = [0u16; 524416];
    let mut workspace = LentWorkspace {
        nodes: &mut nodes,
        origins: &mut origins,
        values: &mut values,
    };
    read_tables(form, day, file, tables, &mut workspace)
}
