// The file of an input checked once, and its readout printed by what the check left.
#![tactic(auto)]

ghost use Rattle.units.specs.Units.{AfterCheck};
ghost use Rattle.input_check.specs.Checking.{Holds};

use answer::Answer;
use following::lent::LentWorkspace;
use input_check::check_input;
use line_printing::report::unwritten;
use line_printing::write_lines;
use numbering::Naming;
use std::io;
use tables::lent::LentTables;

// Writes the lines with variables named by number and index, which need no room.
fn write_plain<R: Print>(
    rt: &R,
    tables: &LentTables,
    workspace: &mut LentWorkspace,
    a: Answer,
) -> io::Result<()>
    requires { AfterCheck tables.now.clauses.now tables.now.bindings.now workspace.old.nodes.now workspace.old.origins.now workspace.old.values.now a }
{
    write_lines(
        rt,
        tables.clauses,
        tables.bindings,
        workspace.nodes,
        workspace.origins,
        workspace.values,
        Naming::ByIndex,
        &mut [],
        &mut [],
        a,
    )
}

// The same with variables numbered by appearance, with room for the numbers of any line.
fn write_numbered<R: Print>(
    rt: &R,
    tables: &LentTables,
    workspace: &mut LentWorkspace,
    a: Answer,
) -> io::Result<()>
    requires { AfterCheck tables.now.clauses.now tables.now.bindings.now workspace.old.nodes.now workspace.old.origins.now workspace.old.values.now a }
{
    let mut cells = [0u16; 262208];
    let mut order = [0u32; 8192];
    write_lines(
        rt,
        tables.clauses,
        tables.bindings,
        workspace.nodes,
        workspace.origins,
        workspace.values,
        Naming::ByAppearance,
        &mut cells,
        &mut order,
        a,
    )
}

// Checks the file of an input once, on its day, and writes a readout by what the check left.
fn write_with<R: Print>(
    rt: &R,
    space: &[u8],
    n: usize,
    tables: &mut LentTables,
    workspace: &mut LentWorkspace,
    naming: Naming,
) -> io::Result<()>
    requires { Holds space.now n }
{
    let a = check_input(space, n, tables, workspace);
    match naming {
        Naming::ByIndex => write_plain(rt, tables, workspace, a),
        Naming::ByAppearance => write_numbered(rt, tables, workspace, a),
    }
}

// The same with tables that are just long enough; or why the output cannot be written.
pub fn write_readout<R: Print>(rt: &R, space: &[u8], n: usize, naming: Naming) -> io::Result<()>
    requires { Holds space.now n }
{
    let mut symbols = [0u16; 4096];
    let mut rows = [0u16; 4096];
    let mut clauses = [0u16; 20480];
    let mut bindings = [0u16; 32768];
    let mut tables = LentTables {
        symbols: &mut symbols,
        rows: &mut rows,
        clauses: &mut clauses,
        bindings: &mut bindings,
    };
    let mut nodes = [0u16; 32768];
    let mut origins = [0u16; 32768];
    let mut values = [0u16; 524416];
    let mut workspace = LentWorkspace {
        nodes: &mut nodes,
        origins: &mut origins,
        values: &mut values,
    };
    write_with(rt, space, n, &mut tables, &mut workspace, naming)
}

// Prints the readout of the file of an input; where the output cannot be written it stops, and standard error says why.
pub fn print_readout<R: Print + Eprint + Alloc>(rt: &R, space: &[u8], n: usize, naming: Naming)
    requires { Holds space.now n }
{
    if let Err(error) = write_readout(rt, space, n, naming) {
        unwritten(rt, naming, error);
    }
}
