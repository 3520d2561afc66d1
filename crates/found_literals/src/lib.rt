// The literals of a clause written out, each looked up by its number: for clauses with few of them. `Lines` in specs/ of the crate line_texts says what is written.
#![tactic(auto)]

ghost use Rattle.std.specs.Prelude.{◌+◌, ◌≤◌};
ghost use Rattle.line_texts.specs.Lines.{NumberedReady, LiteralsReady, WritesNumbered, WritesLiterals};
ghost use Rattle.terms.specs.Writing.{Sized};

use clauses::literals_cell;
use following::nodes::{Nodes, Origins};
use following::values::ValueCells;
use literal_text::write_literal;
use literal_walk::literal;
use names::Place;
use numbering::Naming;
use text::TextBuffer;

// Literal n of clause c, from 1, looked up and written after a blank. The array holds the clause; so many variables of the line have numbers.
fn write_numbered(
    origins: &Origins,
    clauses: &[u16],
    nodes: &Nodes,
    values: &mut ValueCells,
    text: &mut TextBuffer,
    at: usize,
    naming: Naming,
    cells: &mut [u16],
    order: &mut [u32],
    numbered: u16,
    c: u16,
    n: u16,
) -> Place
    requires { NumberedReady naming origins.now clauses.now nodes.now values.old text.old cells.old order.old numbered c n }
    ensures { WritesNumbered naming origins.now clauses.now nodes.now values.old values.new text.old text.new cells.old cells.new order.old order.new numbered at c n result × (result.count ≤ numbered + 64) × Sized nodes.now values.new text.new }
{
    let l = literal(origins, clauses, c, n).unwrap();
    write_literal(
        nodes, values, text, at, naming, cells, order, numbered, l.positive, l.row, l.index,
    )
}

// All literals of clause c, each looked up by its number.
pub fn write_found_literals(
    origins: &Origins,
    clauses: &[u16],
    nodes: &Nodes,
    values: &mut ValueCells,
    text: &mut TextBuffer,
    at: usize,
    naming: Naming,
    cells: &mut [u16],
    order: &mut [u32],
    c: u16,
) -> Place
    requires { LiteralsReady naming origins.now clauses.now nodes.now values.old text.old cells.old order.old c }
    ensures { WritesLiterals naming origins.now clauses.now nodes.now values.old values.new text.old text.new cells.old cells.new order.old order.new at c result × Sized nodes.now values.new text.new }
{
    let count = literals_cell(clauses, c);
    let mut end = at;
    let mut numbered: u16 = 0;
    for n in 0..count {
        let p = write_numbered(
            origins,
            clauses,
            nodes,
            values,
            text,
            end,
            naming,
            cells,
            order,
            numbered,
            c,
            n + 1,
        );
        end = p.end;
        numbered = p.count;
    }
    Place {
        end,
        count: numbered,
    }
}
