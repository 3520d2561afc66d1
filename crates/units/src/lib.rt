// What a piece of a readout is made of: the line of a clause, with the first line before it for clause 0. Without clauses the first
// line stands alone.
#![tactic(auto)]

ghost use Rattle.std.specs.Prelude.{◌≡◌};
ghost use Rattle.units.specs.Pieces.{units_within};
ghost use Rattle.units.specs.Units.{UnitReady, UnitWritten};

use answer::Answer;
use following::nodes::{Nodes, Origins};
use following::values::ValueCells;
use heading::write_verdict;
use lines::line::write_line;
use numbering::Naming;
use text::TextBuffer;

// How many there are.
pub fn unit_count(clauses: u16) -> u16
    ensures { result ≡ units_within clauses }
{
    if clauses == 0 { 1 } else { clauses }
}

// Unit n written at the start of the buffer; the answer is the position after it.
pub fn write_unit(
    clauses: &[u16],
    bindings: &[u16],
    nodes: &Nodes,
    origins: &Origins,
    values: &mut ValueCells,
    text: &mut TextBuffer,
    naming: Naming,
    cells: &mut [u16],
    order: &mut [u32],
    a: Answer,
    n: u16,
) -> usize
    requires { UnitReady naming clauses.now bindings.now nodes.now origins.now values.old text.old cells.old order.old a n }
    ensures { UnitWritten naming clauses.now bindings.now nodes.now origins.now values.old values.new text.new a n result }
{
    if n != 0 {
        return write_line(
            origins, clauses, bindings, nodes, values, text, 0, naming, cells, order, n,
        );
    }
    let verdict = a.verdict;
    let first = write_verdict(verdict, text, 0);
    if a.clauses == 0 {
        return first;
    }
    write_line(
        origins, clauses, bindings, nodes, values, text, first, naming, cells, order, n,
    )
}
