// Which input clause covers which. In specs/ of the crate coverings, `Covering` has what that means, and `Answering` with `Contract` in specs/ here what is
// promised. The clauses are compared by the crate comparing.
#![tactic(auto)]

ghost use Rattle.tables.specs.Lent.{SameTables};
ghost use Rattle.record.specs.Record.{old_file};
ghost use Rattle.entry.specs.Progress.{tables_of};
ghost use Rattle.cover.specs.Contract.{CoversAnswered};

use checker::check_with;
use comparing::compare::compare;
use comparing::covering::Covering;
use following::lent::LentWorkspace;
use record::Form;
use tables::lent::LentTables;

// The comparison with a workspace for the check.
fn covers_with(
    file: &[u8],
    tables: &mut LentTables,
    workspace: &mut LentWorkspace,
    c: u16,
    d: u16,
) -> Covering
    ensures answered { CoversAnswered (old_file file.now) (tables_of tables.old) c d result (tables_of tables.new) }
    ensures same_tables { SameTables tables.old tables.new }
{
    let a = check_with(Form::Old, 0, file, tables, workspace);
    let clauses = &mut *tables.clauses;
    compare(clauses, workspace.nodes, workspace.origins, a, c, d)
}

// Whether input clause c of a file covers input clause d. The file is checked first, and the tables are left as the check leaves them. Whether it
// stands does not depend on a day, so any day does.
pub fn covers(file: &[u8], tables: &mut LentTables, c: u16, d: u16) -> Covering
    ensures answered { CoversAnswered (old_file file.now) (tables_of tables.old) c d result (tables_of tables.new) }
    ensures same_tables { SameTables tables.old tables.new }
{
    let mut nodes = [0u16; 32768];
    let mut origins = [0u16; 32768];
    let mut values = [0u16; 524416];
    let mut workspace = LentWorkspace {
        nodes: &mut nodes,
        origins: &mut origins,
        values: &mut values,
    };
    covers_with(file, tables, &mut workspace, c, d)
}
