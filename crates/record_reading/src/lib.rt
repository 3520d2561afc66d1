// One record, read by its kind. `Progress` in specs/ of the crate entry has the contract.
#![tactic(auto)]

ghost use Rattle.record.specs.Record.{in_form};
ghost use Rattle.distinct.specs.Index.{Indexed};
ghost use Rattle.entry.specs.Program.{rows_after};
ghost use Rattle.entry.specs.Progress.{Reading, RecordRead, tables_with};

use beside::refused_days;
use clause_entry::input_record;
use distinct::{Heads, Links};
use entry::entry::Counts;
use factoring::factor_record;
use following::nodes::{Nodes, Origins};
use following::values::ValueCells;
use reasons::Reason;
use record::{Form, kind, record_part};
use record_entry::{application_record, symbol_record, variable_record};
use resolution::resolve_record;
use window_entry::window_record;

// Record k, by its kind. A kind that no record has is refused before anything else; so are, in the new form, windows and days beside a record that is no input clause.
pub fn read_record(
    form: Form,
    file: &[u8],
    k: u16,
    counts: Counts,
    symbols: &mut [u16],
    rows: &mut [u16],
    clauses: &mut [u16],
    bindings: &mut [u16],
    nodes: &mut Nodes,
    origins: &mut Origins,
    values: &mut ValueCells,
    heads: &mut Heads,
    links: &mut Links,
) -> Result<Counts, Reason>
    requires reading { Reading (in_form form file.now) k counts (tables_with symbols.old rows.old clauses.old bindings.old) nodes.old origins.old values.old }
    requires indexed { Indexed nodes.old counts.rows heads.old links.old }
    ensures record_read { RecordRead (in_form form file.now) k counts (tables_with symbols.old rows.old clauses.old bindings.old) nodes.old origins.old values.old result (tables_with symbols.new rows.new clauses.new bindings.new) nodes.new origins.new values.new }
    ensures indexed_2 { Indexed nodes.new (rows_after counts result) heads.new links.new }
{
    let part = record_part(form, file, k as usize);
    refused_days(form, part)?;
    let tag = kind(part);
    match tag {
        1 => symbol_record(part, k, counts, symbols),
        2 => variable_record(part, k, counts, rows, nodes, heads, links),
        3 => application_record(
            form, file, part, k, counts, symbols, rows, nodes, heads, links,
        ),
        4 => input_record(form, file, k, counts, clauses, nodes, origins),
        5 => resolve_record(
            form, file, k, counts, clauses, bindings, nodes, origins, values,
        ),
        6 => factor_record(
            form, file, k, counts, clauses, bindings, nodes, origins, values,
        ),
        7 => resolve_record(
            form, file, k, counts, clauses, bindings, nodes, origins, values,
        ),
        8 => window_record(part, counts, origins),
        _ => Err(Reason::BadKind),
    }
}
