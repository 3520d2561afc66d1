// A row, entered in the node table as a row of its own or as a repeat of the earliest equal one. `Program` in specs/ of the crate entry has
// the contracts.
#![tactic(auto)]

ghost use Rattle.std.specs.Prelude.{◌≡◌, ◌<◌};
ghost use Rattle.distinct.specs.Index.{Indexed};
ghost use Rattle.entry.specs.Program.{RowReady, rows_after, more_rows, row_left, row_entered};

use distinct::{Heads, Links};
use entry::entry::Counts;
use entry::rows::put_cells;
use following::nodes::Nodes;
use reasons::Reason;
use row_listing::list_row;
use row_search::find_row;
use tables::{cell, set_cell};

// One row more.
fn more_rows(counts: Counts) -> Counts
    requires { counts.rows < 4096 }
    ensures { result ≡ more_rows counts }
{
    Counts {
        rows: counts.rows + 1,
        ..counts
    }
}

// A row goes to the node table with its record's number in the table of rows; a repeat names the earliest equal row there, and has the number of its
// record.
pub fn enter_row(
    numbers: &[u16; 7],
    k: u16,
    code: u16,
    counts: Counts,
    rows: &mut [u16],
    nodes: &mut Nodes,
    heads: &mut Heads,
    links: &mut Links,
) -> Result<Counts, Reason>
    requires { RowReady nodes.old counts heads.old links.old code numbers.now }
    ensures nodes_after { row_left result rows.new nodes.new ≡ row_entered numbers.now k code counts rows.old nodes.old }
    ensures indexed { Indexed nodes.new (rows_after counts result) heads.new links.new }
{
    let n = counts.rows;
    let Some(q) = find_row(nodes, heads, links, n, code, numbers) else {
        put_cells(nodes, n, code, numbers);
        list_row(nodes, heads, links, n);
        set_cell(rows, n as usize, k);
        return Ok(more_rows(counts));
    };
    let record = cell(rows, q as usize);
    put_cells(nodes, n, 0, &[q, 0, 0, 0, 0, 0, 0]);
    set_cell(rows, n as usize, record);
    Ok(more_rows(counts))
}
