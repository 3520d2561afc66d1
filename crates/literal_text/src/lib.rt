// A literal of a clause written out: its sign and its atom.
#![tactic(auto)]

ghost use Rattle.std.specs.Prelude.{◌≡◌, ◌+◌, ◌≤◌};
ghost use Rattle.verdict.specs.Text.{sign_text};
ghost use Rattle.terms.specs.Writing.{Sized, WritingReady};
ghost use Rattle.literal_text.specs.Literals.{WritesLiteral};

use following::nodes::Nodes;
use following::values::ValueCells;
use names::Place;
use numbering::Naming;
use terms::{Written, write_term};
use text::{TextBuffer, put_byte};

// The sign of a literal.
fn sign(positive: bool) -> u8
    ensures { result ≡ sign_text positive }
{
    if positive { b'+' } else { b'-' }
}

// A blank, the sign, and the row at the index written out; `~` for it where it has more than 64 occurrences, and then no variable of it keeps a number.
pub fn write_literal(
    nodes: &Nodes,
    values: &mut ValueCells,
    text: &mut TextBuffer,
    at: usize,
    naming: Naming,
    cells: &mut [u16],
    order: &mut [u32],
    count: u16,
    positive: bool,
    row: u16,
    index: u16,
) -> Place
    requires { WritingReady naming nodes.now values.old text.old cells.old order.old count (row, index) 64 }
    ensures { WritesLiteral naming nodes.now values.old values.new text.old text.new cells.old cells.new order.old order.new count at positive (row, index) result × (result.count ≤ count + 64) × Sized nodes.now values.new text.new }
{
    let after = put_byte(text, at, b' ');
    let atom = put_byte(text, after, sign(positive));
    let begun = Written {
        place: Place { end: atom, count },
        left: 64,
    };
    let written = write_term(nodes, values, text, naming, cells, order, begun, row, index);
    match written {
        Some(w) => w.place,
        None => Place {
            end: put_byte(text, atom, b'~'),
            count,
        },
    }
}
