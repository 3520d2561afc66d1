// The check of a proof file, its two readouts, which clause covers which, the merge of two files, the conversions between the forms, the trim of a file and the board of a file, for C. In the crate exported, `Exported`
// says what `checker_check` promises, `ExportedForm` what `checker_check_form` does and `ExportedWith` what `checker_check_with` does; in exported_readout, exported_covers and exported_merge,
// `ExportedReadout`, `ExportedCanonical`, `ExportedCovers` and `ExportedMerge` say it of `checker_readout`, `checker_canonical_readout`, `checker_covers` and `checker_merge`; in exported_conversion,
// `ExportedConversion` of `checker_to_new` and `checker_to_old`; in exported_trim, `ExportedTrim` of `checker_trim`; and in board_c, `ExportedBoard` of the three
// functions of the board. checker.h has their declarations.
#![tactic(auto)]

ghost use Rattle.std.specs.Prelude.{true, false};
ghost use Rattle.record.specs.Record.{old_file, new_file};
ghost use Rattle.entry.specs.Progress.{tables_with};
ghost use Rattle.checker.specs.Contract.{workspace_with};
ghost use Rattle.exported.specs.Exported.{Exported};
ghost use Rattle.exported.specs.ExportedForm.{ExportedForm};
ghost use Rattle.exported.specs.ExportedWith.{ExportedWith};
ghost use Rattle.verdict.specs.Readout.{clause_line};
ghost use Rattle.exported_readout.specs.ExportedReadout.{ExportedReadout, ExportedCanonical};
ghost use Rattle.exported_covers.specs.ExportedCovers.{ExportedCovers};
ghost use Rattle.exported_merge.specs.ExportedMerge.{ExportedMerge};
ghost use Rattle.exported_conversion.specs.ExportedConversion.{ExportedConversion};
ghost use Rattle.exported_trim.specs.ExportedTrim.{ExportedTrim};
ghost use Rattle.board_c.specs.ExportedBoard.{ExportedOpening, ExportedCall};

use board_c::{open_to_cells, return_to_cells, withdraw_to_cells};
use canonical_c::canonical_to_cells;
use check_c::check_to_cells;
use check_form_c::check_form_to_cells;
use check_with_c::check_with_to_cells;
use convert_c::{new_to_cells, old_to_cells};
use covers_c::covers_to_cells;
use following::lent::LentWorkspace;
use following::nodes::{Nodes, Origins};
use following::values::ValueCells;
use merge_c::merge_to_cells;
use readout_c::readout_to_cells;
use record::Form;
use tables::lent::LentTables;
use trim_c::trim_to_cells;

// The check of a file on a day, with the answer in seven cells. Where `answer` has fewer, nothing is touched.
#[unsafe(no_mangle)]
pub extern "C" fn checker_check(
    day: u16,
    file: &[u8],
    symbols: &mut [u16],
    rows: &mut [u16],
    clauses: &mut [u16],
    bindings: &mut [u16],
    answer: &mut [u16],
)
    ensures { Exported day (old_file file.now) (tables_with symbols.old rows.old clauses.old bindings.old) answer.old (tables_with symbols.new rows.new clauses.new bindings.new) answer.new }
{
    let mut tables = LentTables {
        symbols,
        rows,
        clauses,
        bindings,
    };
    check_to_cells(Form::Old, day, file, &mut tables, answer);
}

// The same, told the form of the file by the length of its records, 16 or 20. With another number nothing is touched.
#[unsafe(no_mangle)]
pub extern "C" fn checker_check_form(
    form: u16,
    day: u16,
    file: &[u8],
    symbols: &mut [u16],
    rows: &mut [u16],
    clauses: &mut [u16],
    bindings: &mut [u16],
    answer: &mut [u16],
)
    ensures { ExportedForm form day file.now (tables_with symbols.old rows.old clauses.old bindings.old) answer.old (tables_with symbols.new rows.new clauses.new bindings.new) answer.new }
{
    let mut tables = LentTables {
        symbols,
        rows,
        clauses,
        bindings,
    };
    check_form_to_cells(form, day, file, &mut tables, answer);
}

// The same for services, with a workspace that the caller lends and keeps between files, whatever it holds.
#[unsafe(no_mangle)]
pub extern "C" fn checker_check_with(
    day: u16,
    file: &[u8],
    symbols: &mut [u16],
    rows: &mut [u16],
    clauses: &mut [u16],
    bindings: &mut [u16],
    nodes: &mut Nodes,
    origins: &mut Origins,
    values: &mut ValueCells,
    answer: &mut [u16],
)
    ensures { ExportedWith day (old_file file.now) (tables_with symbols.old rows.old clauses.old bindings.old) (workspace_with nodes.old origins.old values.old) answer.old (tables_with symbols.new rows.new clauses.new bindings.new) (workspace_with nodes.new origins.new values.new) answer.new }
{
    let mut tables = LentTables {
        symbols,
        rows,
        clauses,
        bindings,
    };
    let mut workspace = LentWorkspace {
        nodes,
        origins,
        values,
    };
    check_with_to_cells(day, file, &mut tables, &mut workspace, answer);
}

// Whether input clause c of a file covers input clause d, with the answer in ten cells. Where `answer` has fewer, nothing is touched.
#[unsafe(no_mangle)]
pub extern "C" fn checker_covers(
    file: &[u8],
    c: u16,
    d: u16,
    symbols: &mut [u16],
    rows: &mut [u16],
    clauses: &mut [u16],
    bindings: &mut [u16],
    answer: &mut [u16],
)
    ensures { ExportedCovers (old_file file.now) (tables_with symbols.old rows.old clauses.old bindings.old) c d answer.old (tables_with symbols.new rows.new clauses.new bindings.new) answer.new }
{
    let mut tables = LentTables {
        symbols,
        rows,
        clauses,
        bindings,
    };
    covers_to_cells(file, c, d, &mut tables, answer);
}

// A piece of the readout of a file on a day, from a clause on, with the progress in three cells. Where `progress` has fewer, nothing is touched.
#[unsafe(no_mangle)]
pub extern "C" fn checker_readout(
    day: u16,
    file: &[u8],
    symbols: &mut [u16],
    rows: &mut [u16],
    clauses: &mut [u16],
    bindings: &mut [u16],
    clause: u16,
    output: &mut [u8],
    progress: &mut [u64],
)
    ensures { ExportedReadout clause_line day (old_file file.now) (tables_with symbols.old rows.old clauses.old bindings.old) clause output.old progress.old (tables_with symbols.new rows.new clauses.new bindings.new) output.new progress.new }
{
    let mut tables = LentTables {
        symbols,
        rows,
        clauses,
        bindings,
    };
    readout_to_cells(day, file, &mut tables, clause, output, progress);
}

// The same for the second readout, whose variables are numbered in each line by their first printed appearance.
#[unsafe(no_mangle)]
pub extern "C" fn checker_canonical_readout(
    day: u16,
    file: &[u8],
    symbols: &mut [u16],
    rows: &mut [u16],
    clauses: &mut [u16],
    bindings: &mut [u16],
    clause: u16,
    output: &mut [u8],
    progress: &mut [u64],
)
    ensures { ExportedCanonical day (old_file file.now) (tables_with symbols.old rows.old clauses.old bindings.old) clause output.old progress.old (tables_with symbols.new rows.new clauses.new bindings.new) output.new progress.new }
{
    let mut tables = LentTables {
        symbols,
        rows,
        clauses,
        bindings,
    };
    canonical_to_cells(day, file, &mut tables, clause, output, progress);
}

// Two files merged into one, with the answer in four cells. Where `answer` has fewer, nothing is touched.
#[unsafe(no_mangle)]
pub extern "C" fn checker_merge(
    first: &[u8],
    second: &[u8],
    symbols: &mut [u16],
    rows: &mut [u16],
    clauses: &mut [u16],
    bindings: &mut [u16],
    output: &mut [u8],
    answer: &mut [u32],
)
    ensures { ExportedMerge first.now second.now (tables_with symbols.old rows.old clauses.old bindings.old) output.old answer.old (tables_with symbols.new rows.new clauses.new bindings.new) output.new answer.new }
{
    let mut tables = LentTables {
        symbols,
        rows,
        clauses,
        bindings,
    };
    merge_to_cells(first, second, &mut tables, output, answer);
}

// An old file converted to the new form, with the answer in four cells. Where `answer` has fewer, nothing is touched.
#[unsafe(no_mangle)]
pub extern "C" fn checker_to_new(
    file: &[u8],
    symbols: &mut [u16],
    rows: &mut [u16],
    clauses: &mut [u16],
    bindings: &mut [u16],
    output: &mut [u8],
    answer: &mut [u32],
)
    ensures { ExportedConversion (old_file file.now) (tables_with symbols.old rows.old clauses.old bindings.old) output.old answer.old (tables_with symbols.new rows.new clauses.new bindings.new) output.new answer.new }
{
    let mut tables = LentTables {
        symbols,
        rows,
        clauses,
        bindings,
    };
    new_to_cells(file, &mut tables, output, answer);
}

// The same for a new file converted to the old form.
#[unsafe(no_mangle)]
pub extern "C" fn checker_to_old(
    file: &[u8],
    symbols: &mut [u16],
    rows: &mut [u16],
    clauses: &mut [u16],
    bindings: &mut [u16],
    output: &mut [u8],
    answer: &mut [u32],
)
    ensures { ExportedConversion (new_file file.now) (tables_with symbols.old rows.old clauses.old bindings.old) output.old answer.old (tables_with symbols.new rows.new clauses.new bindings.new) output.new answer.new }
{
    let mut tables = LentTables {
        symbols,
        rows,
        clauses,
        bindings,
    };
    old_to_cells(file, &mut tables, output, answer);
}

// A file trimmed on a day to what its accepted clause uses, with the answer in four cells. Where `answer` has fewer, nothing is touched.
#[unsafe(no_mangle)]
pub extern "C" fn checker_trim(
    day: u16,
    file: &[u8],
    symbols: &mut [u16],
    rows: &mut [u16],
    clauses: &mut [u16],
    bindings: &mut [u16],
    output: &mut [u8],
    answer: &mut [u32],
)
    ensures { ExportedTrim day file.now (tables_with symbols.old rows.old clauses.old bindings.old) output.old answer.old (tables_with symbols.new rows.new clauses.new bindings.new) output.new answer.new }
{
    let mut tables = LentTables {
        symbols,
        rows,
        clauses,
        bindings,
    };
    trim_to_cells(day, file, &mut tables, output, answer);
}

// The board of a file opened on a day, with the answer in three cells. Where `answer` has fewer, nothing is touched.
#[unsafe(no_mangle)]
pub extern "C" fn checker_board_open(
    day: u16,
    file: &[u8],
    symbols: &mut [u16],
    rows: &mut [u16],
    clauses: &mut [u16],
    bindings: &mut [u16],
    board: &mut [u16],
    answer: &mut [u16],
)
    ensures { ExportedOpening day (old_file file.now) (tables_with symbols.old rows.old clauses.old bindings.old) board.old answer.old (tables_with symbols.new rows.new clauses.new bindings.new) board.new answer.new }
{
    let mut tables = LentTables {
        symbols,
        rows,
        clauses,
        bindings,
    };
    open_to_cells(day, file, &mut tables, board, answer);
}

// An input clause of a board withdrawn, with the answer in three cells. Where `answer` has fewer, nothing is touched.
#[unsafe(no_mangle)]
pub extern "C" fn checker_board_withdraw(
    file: &[u8],
    clauses: &[u16],
    board: &mut [u16],
    clause: u16,
    answer: &mut [u16],
)
    ensures { ExportedCall (old_file file.now) clauses.now board.old clause false answer.old board.new answer.new }
{
    withdraw_to_cells(file, clauses, board, clause, answer);
}

// The same for one that is returned.
#[unsafe(no_mangle)]
pub extern "C" fn checker_board_return(
    file: &[u8],
    clauses: &[u16],
    board: &mut [u16],
    clause: u16,
    answer: &mut [u16],
)
    ensures { ExportedCall (old_file file.now) clauses.now board.old clause true answer.old board.new answer.new }
{
    return_to_cells(file, clauses, board, clause, answer);
}
