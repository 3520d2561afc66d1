// What the check and the readouts give for one file: the answer in numbers, a hash of each table, and each readout's length and hash.
ghost use Rattle.record.specs.Record.{old_file};
ghost use Rattle.entry.specs.Progress.{tables_of};
ghost use Rattle.numbering.specs.Numbering.{NumberRoom};
ghost use Rattle.numbering.specs.declared.Naming.TheVariants.{ByAppearance};
ghost use Rattle.outcomes.specs.Outcome.{HashesOf, OutcomeOf, zero_tables};

use answer::Answer;
use checker::check_with;
use digests::{Digest, digest_of};
use following::lent::LentWorkspace;
use hash::hash_of;
use numbering::Naming;
use record::Form;
use std::fmt;
use tables::lent::LentTables;

// The hashes of the four tables.
#[derive(Clone, Copy)]
pub struct Hashes {
    pub symbols: u64,
    pub rows: u64,
    pub clauses: u64,
    pub bindings: u64,
}

// Each in 16 hexadecimal digits, with blanks between them.
impl fmt::Display for Hashes {
    fn fmt<W: fmt::Write>(&self, f: &mut fmt::Formatter<W>) -> fmt::Result {
        write!(
            f,
            "{:016x} {:016x} {:016x} {:016x}",
            self.symbols, self.rows, self.clauses, self.bindings
        )
    }
}

// The answer to a file, the hashes of the tables as the check leaves them, and the length and the hash of both readouts.
#[derive(Clone, Copy)]
pub struct Outcome {
    pub answer: Answer,
    pub hashes: Hashes,
    pub readout: Digest,
    pub canonical: Digest,
}

// The seven numbers of the answer, the hashes and what is said of each readout, with blanks between them.
impl fmt::Display for Outcome {
    fn fmt<W: fmt::Write>(&self, f: &mut fmt::Formatter<W>) -> fmt::Result {
        for n in <[u16; 7]>::from(self.answer) {
            write!(f, "{n} ")?;
        }
        write!(f, "{} {} {}", self.hashes, self.readout, self.canonical)
    }
}

// The hash of each table.
fn hashes_of(tables: &LentTables) -> Hashes
    ensures { HashesOf (tables_of tables.now) result }
{
    Hashes {
        symbols: hash_of(tables.symbols),
        rows: hash_of(tables.rows),
        clauses: hash_of(tables.clauses),
        bindings: hash_of(tables.bindings),
    }
}

// Checks a file on a day with the caller's tables, and goes on to both readouts by what the check left.
fn outcome_with(
    day: u16,
    file: &[u8],
    tables: &mut LentTables,
    workspace: &mut LentWorkspace,
    cells: &mut [u16],
    order: &mut [u32],
) -> Outcome
    requires { NumberRoom ByAppearance cells.old order.old }
    ensures { OutcomeOf day (old_file file.now) (tables_of tables.old) result }
{
    let answer = check_with(Form::Old, day, file, tables, workspace);
    let hashes = hashes_of(tables);
    let clauses = &mut *tables.clauses;
    let bindings = &mut *tables.bindings;
    let readout = digest_of(
        clauses,
        bindings,
        workspace.nodes,
        workspace.origins,
        workspace.values,
        Naming::ByIndex,
        cells,
        order,
        answer,
    );
    let canonical = digest_of(
        clauses,
        bindings,
        workspace.nodes,
        workspace.origins,
        workspace.values,
        Naming::ByAppearance,
        cells,
        order,
        answer,
    );
    Outcome {
        answer,
        hashes,
        readout,
        canonical,
    }
}

// The same with tables that are just long enough and zero before.
pub fn outcome_of(day: u16, file: &[u8]) -> Outcome
    ensures { OutcomeOf day (old_file file.now) zero_tables result }
{
    let mut symbols = [0u16; 4096];
    let mut rows = [0u16; 4096];
    let mut clauses = [0u16; 20480];
    let mut bindings = [0u16; 32768];
    let mut tables = LentTables {
        symbols: &mut symbols,
        rows: &mut rows,
        clauses: &mut clauses,
        bindings: &mut bindings,
    };
    let mut nodes = [0u16; 32768];
    let mut origins = [0u16; 32768];
    let mut values = [0u16; 524416];
    let mut workspace = LentWorkspace {
        nodes: &mut nodes,
        origins: &mut origins,
        values: &mut values,
    };
    let mut cells = [0u16; 262208];
    let mut order = [0u32; 8192];
    outcome_with(
        day,
        file,
        &mut tables,
        &mut workspace,
        &mut cells,
        &mut order,
    )
}
