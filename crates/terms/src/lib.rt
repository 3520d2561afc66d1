// A term written out, with the occurrences that may be written counted down: a term that has more is broken off.
// `Text` of the crate verdict has what its text is, over how variables are named; `Writing` in specs/ says how the parts of this program go about it.
#![tactic(auto)]

ghost use Rattle.std.specs.Prelude.{◌≡◌, ◌+◌};
ghost use Rattle.text.specs.Buffer.{Wrote};
ghost use Rattle.terms.specs.Writing.{Sized, mark_before, closing_text, WritingReady, WritingArgumentsReady, WritesTerm, WritesArguments, FewerOccurrencesLeft, NoMoreOccurrencesLeft};

use following::follow::{Followed, follow};
use following::nodes::{Nodes, arity_of, part_of};
use following::values::ValueCells;
use names::{Place, put_name};
use numbering::Naming;
use text::{TextBuffer, put_byte, put_lettered};

// Where writing goes on after a term, and how many occurrences may still be written.
#[derive(Clone, Copy)]
pub struct Written {
    pub place: Place,
    pub left: u16,
}

// What stands before argument n, from 0.
fn mark(n: u16) -> u8
    ensures { result ≡ mark_before (n + 1) }
{
    if n == 0 { b'(' } else { b',' }
}

// What stands after the last of so many arguments.
fn put_closing(text: &mut TextBuffer, at: usize, arity: u16) -> usize
    ensures { Wrote text.old text.new at result (closing_text (arity + 1)) }
{
    if arity == 0 {
        return at;
    }
    put_byte(text, at, b')')
}

// The row at the index, written out; nothing if there are too many occurrences. Every expression taken up costs one of those that may be written.
#[cycle(write_arguments_write_term)]
pub fn write_term(
    nodes: &Nodes,
    values: &mut ValueCells,
    text: &mut TextBuffer,
    naming: Naming,
    cells: &mut [u16],
    order: &mut [u32],
    from: Written,
    row: u16,
    index: u16,
) -> Option<Written>
    requires { WritingReady naming nodes.now values.old text.old cells.old order.old from.place.count (row, index) from.left }
    ensures { WritesTerm naming nodes.now values.old values.new text.old text.new cells.old cells.new order.old order.new from.place.count from.place.end (row, index) from.left result × FewerOccurrencesLeft from.left from.place.count result × Sized nodes.now values.new text.new }
{
    if from.left == 0 {
        return None;
    }
    let left = from.left - 1;
    let x = follow(nodes, values, row, index);
    match x {
        Followed::Variable(r, k) => {
            let place = put_name(nodes, text, naming, cells, order, from.place, r, k);
            Some(Written { place, left })
        }
        Followed::Application(r, k) => {
            let symbol = part_of(nodes, r, 0);
            let mut place = from.place;
            place.end = put_lettered(text, place.end, b's', symbol);
            let begun = Written { place, left };
            write_arguments(nodes, values, text, naming, cells, order, begun, r, k)
        }
    }
}

// The arguments of an application: in parentheses with commas, and nothing where there are none. A loop, so that only nesting takes
// room on the stack.
#[cycle(write_arguments_write_term)]
fn write_arguments(
    nodes: &Nodes,
    values: &mut ValueCells,
    text: &mut TextBuffer,
    naming: Naming,
    cells: &mut [u16],
    order: &mut [u32],
    from: Written,
    r: u16,
    k: u16,
) -> Option<Written>
    requires { WritingArgumentsReady naming nodes.now values.old text.old cells.old order.old from.place.count r k from.left }
    ensures { WritesArguments naming nodes.now values.old values.new text.old text.new cells.old cells.new order.old order.new from.place.count from.place.end r k from.left result × NoMoreOccurrencesLeft from.left from.place.count result × Sized nodes.now values.new text.new }
{
    let arity = arity_of(nodes, r);
    let mut done = from;
    for n in 0..arity {
        done.place.end = put_byte(text, done.place.end, mark(n));
        let a = part_of(nodes, r, n + 1);
        done = write_term(nodes, values, text, naming, cells, order, done, a, k)?;
    }
    done.place.end = put_closing(text, done.place.end, arity);
    Some(done)
}
