// A proof file converted to the other form. What that is, and what is shown of it, the crate converting has. In specs/, `Contract` has what this crate promises.
// What comes after the check is in the crate rewriting.
#![tactic(auto)]

ghost use Rattle.tables.specs.Lent.{SameTables};
ghost use Rattle.std.specs.Prelude.{◌≤◌, length};
ghost use Rattle.record.specs.Record.{in_form, old_file, new_file};
ghost use Rattle.entry.specs.Progress.{tables_of};
ghost use Rattle.convert.specs.Contract.{ConversionAnswered};

use checker::check_with;
use following::lent::LentWorkspace;
use record::Form;
use rewriting::rewrite;
use tables::lent::LentTables;
use writing_answer::{NotWritten, WritingReason, standing};

// The conversion with a workspace for the check, which then takes the days of an old file.
fn convert_with(
    form: Form,
    file: &[u8],
    tables: &mut LentTables,
    workspace: &mut LentWorkspace,
    output: &mut [u8],
) -> Result<u32, NotWritten>
    requires { 65536 ≤ length output.old }
    ensures answered { ConversionAnswered (in_form form file.now) (tables_of tables.old) output.old result (tables_of tables.new) output.new }
    ensures same_tables { SameTables tables.old tables.new }
{
    let a = check_with(form, 0, file, tables, workspace);
    standing(a.verdict, 1)?;
    rewrite(form, file, workspace.nodes, output)
}

// A file of a form converted to the other one. The output is written only if the conversion goes through, and not past the converted file's end; a short output
// comes before all else. The file is checked by its own form, and the tables are left as the check leaves them; whether a file stands does not depend on a day,
// so any day does.
fn convert(
    form: Form,
    file: &[u8],
    tables: &mut LentTables,
    output: &mut [u8],
) -> Result<u32, NotWritten>
    ensures answered { ConversionAnswered (in_form form file.now) (tables_of tables.old) output.old result (tables_of tables.new) output.new }
    ensures same_tables { SameTables tables.old tables.new }
{
    if output.len() < 65536 {
        return Err(NotWritten {
            reason: WritingReason::ShortOutput,
            file: 0,
            at: 0,
        });
    }
    let mut nodes = [0u16; 32768];
    let mut origins = [0u16; 32768];
    let mut values = [0u16; 524416];
    let mut workspace = LentWorkspace {
        nodes: &mut nodes,
        origins: &mut origins,
        values: &mut values,
    };
    convert_with(form, file, tables, &mut workspace, output)
}

// An old file in the new form.
pub fn to_new(file: &[u8], tables: &mut LentTables, output: &mut [u8]) -> Result<u32, NotWritten>
    ensures answered { ConversionAnswered (old_file file.now) (tables_of tables.old) output.old result (tables_of tables.new) output.new }
    ensures same_tables { SameTables tables.old tables.new }
{
    convert(Form::Old, file, tables, output)
}

// A new file in the old form.
pub fn to_old(file: &[u8], tables: &mut LentTables, output: &mut [u8]) -> Result<u32, NotWritten>
    ensures answered { ConversionAnswered (new_file file.now) (tables_of tables.old) output.old result (tables_of tables.new) output.new }
    ensures same_tables { SameTables tables.old tables.new }
{
    convert(Form::New, file, tables, output)
}
