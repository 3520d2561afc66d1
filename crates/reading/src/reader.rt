// Records one after another, up to the first that is refused.
ghost use Rattle.record.specs.Record.{in_form};
ghost use Rattle.distinct.specs.Index.{Indexed};
ghost use Rattle.entry.specs.Progress.{tables_with};
ghost use Rattle.reading.specs.Reader.{Begun, RecordsRead};

use answer::Refused;
use distinct::{Heads, Links};
use entry::entry::Counts;
use following::nodes::{Nodes, Origins};
use following::values::ValueCells;
use record::{Form, record_count};
use record_reading::read_record;

// All records in their order, up to the first that is refused, with an index of no rows.
fn read_indexed(
    form: Form,
    file: &[u8],
    symbols: &mut [u16],
    rows: &mut [u16],
    clauses: &mut [u16],
    bindings: &mut [u16],
    nodes: &mut Nodes,
    origins: &mut Origins,
    values: &mut ValueCells,
    heads: &mut Heads,
    links: &mut Links,
) -> Result<Counts, Refused>
    requires begun { Begun (in_form form file.now) (tables_with symbols.old rows.old clauses.old bindings.old) nodes.old origins.old values.old }
    requires indexed { Indexed nodes.old 0 heads.old links.old }
    ensures { RecordsRead (in_form form file.now) (tables_with symbols.old rows.old clauses.old bindings.old) nodes.old origins.old values.old result (tables_with symbols.new rows.new clauses.new bindings.new) nodes.new origins.new values.new }
{
    let mut counts = Counts {
        symbols: 0,
        rows: 0,
        clauses: 0,
        bindings: 0,
    };
    for k in 0..record_count(form, file) as u16 {
        match read_record(
            form, file, k, counts, symbols, rows, clauses, bindings, nodes, origins, values, heads,
            links,
        ) {
            Ok(n) => counts = n,
            Err(reason) => {
                return Err(Refused {
                    reason,
                    number: k,
                    counts,
                });
            }
        }
    }
    Ok(counts)
}

// The same, with an index of its own.
pub fn read_records(
    form: Form,
    file: &[u8],
    symbols: &mut [u16],
    rows: &mut [u16],
    clauses: &mut [u16],
    bindings: &mut [u16],
    nodes: &mut Nodes,
    origins: &mut Origins,
    values: &mut ValueCells,
) -> Result<Counts, Refused>
    requires { Begun (in_form form file.now) (tables_with symbols.old rows.old clauses.old bindings.old) nodes.old origins.old values.old }
    ensures { RecordsRead (in_form form file.now) (tables_with symbols.old rows.old clauses.old bindings.old) nodes.old origins.old values.old result (tables_with symbols.new rows.new clauses.new bindings.new) nodes.new origins.new values.new }
{
    let mut heads = [0u16; 4096];
    let mut links = [0u16; 4096];
    read_indexed(
        form, file, symbols, rows, clauses, bindings, nodes, origins, values, &mut heads,
        &mut links,
    )
}
