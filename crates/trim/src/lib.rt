// A proof file trimmed to what its accepted clause uses (document 02, Q-12). What that is, and what is shown of it, the crate trimming has. In specs/, `Contract` has
// what this crate promises. How the records are marked and written is in the crate trim_kept.
#![tactic(auto)]

ghost use Rattle.tables.specs.Lent.{SameTables};
ghost use Rattle.std.specs.Prelude.{◌≡◌, ◌≤◌, length};
ghost use Rattle.entry.specs.Progress.{tables_of};
ghost use Rattle.trim.specs.Accepted.{unless_accepted};
ghost use Rattle.trim.specs.Contract.{TrimAnswered};

use answer::Verdict;
use checker::check_with;
use following::lent::LentWorkspace;
use record::Form;
use tables::lent::LentTables;
use trim_kept::trim_kept;
use writing_answer::{NotWritten, WritingReason};

// The clause with which a file is accepted; or that none is written, for its own refusal or because it is open.
fn accepted(verdict: Verdict) -> Result<u16, NotWritten>
    ensures { result ≡ unless_accepted verdict }
{
    let (reason, at) = match verdict {
        Verdict::Open => (WritingReason::NoneAccepted, 0),
        Verdict::Accepted(n) => return Ok(n),
        Verdict::Refused(number, at) => (WritingReason::OwnRefusal(number), at),
    };
    Err(NotWritten {
        reason,
        file: 1,
        at,
    })
}

// The trim with a workspace for the check. After it the node table and the table of origins are free, and take the marks and the new numbers.
fn trim_with(
    day: u16,
    file: &[u8],
    tables: &mut LentTables,
    workspace: &mut LentWorkspace,
    output: &mut [u8],
) -> Result<u32, NotWritten>
    requires { 65536 ≤ length output.old }
    ensures answered { TrimAnswered day file.now (tables_of tables.old) output.old result (tables_of tables.new) output.new }
    ensures same_tables { SameTables tables.old tables.new }
{
    let a = check_with(Form::Old, day, file, tables, workspace);
    let n = accepted(a.verdict)?;
    let symbols = &mut *tables.symbols;
    let rows = &mut *tables.rows;
    let clauses = &mut *tables.clauses;
    let end = trim_kept(
        file,
        n,
        symbols,
        rows,
        clauses,
        workspace.nodes,
        workspace.origins,
        output,
    );
    Ok(end)
}

// A file trimmed to what its accepted clause on a day uses. The output is written only if the trim goes through, and not past the trimmed file's end; a short output
// comes before all else. The tables are left as the check of the file leaves them.
pub fn trim(
    day: u16,
    file: &[u8],
    tables: &mut LentTables,
    output: &mut [u8],
) -> Result<u32, NotWritten>
    ensures answered { TrimAnswered day file.now (tables_of tables.old) output.old result (tables_of tables.new) output.new }
    ensures same_tables { SameTables tables.old tables.new }
{
    if output.len() < 65536 {
        return Err(NotWritten {
            reason: WritingReason::ShortOutput,
            file: 0,
            at: 0,
        });
    }
    let mut nodes = [0u16; 32768];
    let mut origins = [0u16; 32768];
    let mut values = [0u16; 524416];
    let mut workspace = LentWorkspace {
        nodes: &mut nodes,
        origins: &mut origins,
        values: &mut values,
    };
    trim_with(day, file, tables, &mut workspace, output)
}
