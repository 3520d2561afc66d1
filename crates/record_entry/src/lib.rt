// Records of kind 1 to 3: each is tested in the order of the numbers that it can be refused with, and then entered in the tables. `Program`
// in specs/ of the crate entry has the contracts.
#![tactic(auto)]

ghost use Rattle.std.specs.Prelude.{◌≡◌, ◌<◌};
ghost use Rattle.record.specs.Record.{in_form};
ghost use Rattle.distinct.specs.Index.{Indexed};
ghost use Rattle.entry.specs.Program.{RowsIndexed, rows_after, symbol_left, symbol_entered, row_left, variable_entered, application_there, application_entered};

use distinct::{Heads, Links};
use entry::entry::Counts;
use entry::rows::taken_arguments;
use fields::{arguments_below, arity_in};
use following::nodes::Nodes;
use ranges::{application_in_range, symbol_in_range, variable_in_range};
use reasons::Reason;
use record::{Form, count, field};
use record_fields::fields;
use row_entry::enter_row;
use tables::set_cell;

// Kind 1. The table of symbols gets the record's number.
pub fn symbol_record(
    part: &[u8],
    k: u16,
    counts: Counts,
    symbols: &mut [u16],
) -> Result<Counts, Reason>
    requires { counts.symbols < 4096 }
    ensures { symbol_left result symbols.new ≡ symbol_entered part.now k counts symbols.old }
{
    if !symbol_in_range(part) {
        return Err(Reason::OutOfRange);
    }
    let n = counts.symbols;
    set_cell(symbols, n as usize, k);
    Ok(Counts {
        symbols: n + 1,
        ..counts
    })
}

// Kind 2. A variable's code in the node table is 1.
pub fn variable_record(
    part: &[u8],
    k: u16,
    counts: Counts,
    rows: &mut [u16],
    nodes: &mut Nodes,
    heads: &mut Heads,
    links: &mut Links,
) -> Result<Counts, Reason>
    requires { RowsIndexed nodes.old counts heads.old links.old }
    ensures nodes_after { row_left result rows.new nodes.new ≡ variable_entered part.now k counts rows.old nodes.old }
    ensures indexed { Indexed nodes.new (rows_after counts result) heads.new links.new }
{
    if !variable_in_range(part) {
        return Err(Reason::OutOfRange);
    }
    let numbers = fields(part);
    enter_row(&numbers, k, 1, counts, rows, nodes, heads, links)
}

// Reason 5 for an application: its symbol exists and has as many arguments, and its argument rows exist.
#[tactic(auto, unfolding(entry::specs::Program::application_there))]
fn application_there(form: Form, file: &[u8], part: &[u8], counts: Counts, symbols: &[u16]) -> bool
    ensures { result ≡ application_there (in_form form file.now) part.now counts symbols.now }
{
    arity_in(form, file, symbols, counts.symbols, field(part, 0)) == Some(count(part))
        && arguments_below(part, counts.rows)
}

// Kind 3. An application's code in the node table is 2 more than the number of its arguments, each of which is taken as the earliest equal row.
pub fn application_record(
    form: Form,
    file: &[u8],
    part: &[u8],
    k: u16,
    counts: Counts,
    symbols: &[u16],
    rows: &mut [u16],
    nodes: &mut Nodes,
    heads: &mut Heads,
    links: &mut Links,
) -> Result<Counts, Reason>
    requires { RowsIndexed nodes.old counts heads.old links.old }
    ensures nodes_after { row_left result rows.new nodes.new ≡ application_entered (in_form form file.now) part.now k counts symbols.now rows.old nodes.old }
    ensures indexed { Indexed nodes.new (rows_after counts result) heads.new links.new }
{
    if !application_in_range(part) {
        return Err(Reason::OutOfRange);
    }
    if !application_there(form, file, part, counts, symbols) {
        return Err(Reason::NotThere);
    }
    let code = 2 + (count(part) as u16);
    let written = fields(part);
    let numbers = taken_arguments(nodes, &written);
    enter_row(&numbers, k, code, counts, rows, nodes, heads, links)
}
