// The literals of a clause written out, collected in one walk: for clauses with many of them. `Lines` in specs/ of the crate line_texts says what is written.
#![tactic(auto)]

ghost use Rattle.std.specs.Prelude.{◌+◌, ◌≤◌};
ghost use Rattle.line_texts.specs.Lines.{LiteralsReady, WritesLiterals};
ghost use Rattle.collecting.specs.Literals.{literal_with};
ghost use Rattle.terms.specs.Writing.{Sized, WritingReady};
ghost use Rattle.literal_text.specs.Literals.{WritesLiteral};

use collecting::literals::{ListedLiteral, collect};
use following::nodes::{Nodes, Origins};
use following::values::ValueCells;
use literal_text::write_literal;
use names::Place;
use numbering::Naming;
use text::TextBuffer;

// A literal of the list, after a blank.
fn write_listed(
    nodes: &Nodes,
    values: &mut ValueCells,
    text: &mut TextBuffer,
    at: usize,
    naming: Naming,
    cells: &mut [u16],
    order: &mut [u32],
    numbered: u16,
    listed: ListedLiteral,
) -> Place
    requires { WritingReady naming nodes.now values.old text.old cells.old order.old numbered (literal_with listed.code listed.index).1 64 }
    ensures { WritesLiteral naming nodes.now values.old values.new text.old text.new cells.old cells.new order.old order.new numbered at (literal_with listed.code listed.index).0 (literal_with listed.code listed.index).1 result × (result.count ≤ numbered + 64) × Sized nodes.now values.new text.new }
{
    write_literal(
        nodes,
        values,
        text,
        at,
        naming,
        cells,
        order,
        numbered,
        listed.code % 2 == 1,
        listed.code / 2,
        listed.index,
    )
}

// All literals of clause c, collected in a list first.
pub fn write_collected_literals(
    origins: &Origins,
    clauses: &[u16],
    nodes: &Nodes,
    values: &mut ValueCells,
    text: &mut TextBuffer,
    at: usize,
    naming: Naming,
    cells: &mut [u16],
    order: &mut [u32],
    c: u16,
) -> Place
    requires { LiteralsReady naming origins.now clauses.now nodes.now values.old text.old cells.old order.old c }
    ensures { WritesLiterals naming origins.now clauses.now nodes.now values.old values.new text.old text.new cells.old cells.new order.old order.new at c result × Sized nodes.now values.new text.new }
{
    let mut list = [ListedLiteral { code: 0, index: 0 }; 16512];
    let count = collect(origins, clauses, &mut list, 0, c, 0);
    let mut end = at;
    let mut numbered = 0u16;
    for n in 0..count {
        let p = write_listed(
            nodes,
            values,
            text,
            end,
            naming,
            cells,
            order,
            numbered,
            list[n + 1],
        );
        end = p.end;
        numbered = p.count;
    }
    Place {
        end,
        count: numbered,
    }
}
