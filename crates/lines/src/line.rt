// A line of a readout: a clause written out, with its number, its maximum index and its literals.
ghost use Rattle.line_texts.specs.Lines.{LiteralsReady, WritesLiterals, LineReady, LineWritten};
ghost use Rattle.terms.specs.Writing.{Sized};

use clauses::{index_cell, literals_cell};
use collected_literals::write_collected_literals;
use following::nodes::{Nodes, Origins};
use following::values::{ValueCells, clear};
use found_literals::write_found_literals;
use loading::load;
use names::Place;
use numbering::Naming;
use text::{TextBuffer, put_byte, put_decimal};

// A clause with at most so many literals has each of them looked up. One with more has them collected in one walk, which takes as long
// however few they are.
const FEW: u16 = 6;

// All literals of clause c, each after a blank. The array holds the clause.
fn write_literals(
    origins: &Origins,
    clauses: &[u16],
    nodes: &Nodes,
    values: &mut ValueCells,
    text: &mut TextBuffer,
    at: usize,
    naming: Naming,
    cells: &mut [u16],
    order: &mut [u32],
    c: u16,
) -> Place
    requires { LiteralsReady naming origins.now clauses.now nodes.now values.old text.old cells.old order.old c }
    ensures { WritesLiterals naming origins.now clauses.now nodes.now values.old values.new text.old text.new cells.old cells.new order.old order.new at c result × Sized nodes.now values.new text.new }
{
    if literals_cell(clauses, c) <= FEW {
        return write_found_literals(
            origins, clauses, nodes, values, text, at, naming, cells, order, c,
        );
    }
    write_collected_literals(
        origins, clauses, nodes, values, text, at, naming, cells, order, c,
    )
}

// The line of clause c. The array is cleared as far as the clause reaches, and then the clause is loaded. No variable has a number at first.
pub fn write_line(
    origins: &Origins,
    clauses: &[u16],
    bindings: &[u16],
    nodes: &Nodes,
    values: &mut ValueCells,
    text: &mut TextBuffer,
    at: usize,
    naming: Naming,
    cells: &mut [u16],
    order: &mut [u32],
    c: u16,
) -> usize
    requires { LineReady naming clauses.now bindings.now nodes.now origins.now values.old text.old cells.old order.old c }
    ensures { LineWritten naming clauses.now bindings.now nodes.now origins.now values.old values.new text.old text.new at c result }
{
    let top = index_cell(clauses, c);
    clear(values, top);
    load(origins, clauses, bindings, nodes, values, c, 0);
    let blank = put_decimal(text, at, c);
    let index = put_byte(text, blank, b' ');
    let first = put_decimal(text, index, top);
    let last = write_literals(
        origins, clauses, nodes, values, text, first, naming, cells, order, c,
    );
    put_byte(text, last.end, b'\n')
}
