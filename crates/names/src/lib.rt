// A variable written with its name, in either readout.
#![tactic(auto)]

ghost use Rattle.numbering.specs.declared.Naming.TheVariants.{ByAppearance};
ghost use Rattle.names.specs.Names.{NameReady, WritesName};

use following::nodes::{Nodes, part_of};
use numbering::{Naming, count_after, number};
use text::{TextBuffer, put_lettered, put_variable};

// Where a line goes on: the position after what was written, and how many variables of the line have numbers then.
#[derive(Clone, Copy)]
pub struct Place {
    pub end: usize,
    pub count: u16,
}

// `v` and the number by appearance of row r at index k.
fn put_number(
    nodes: &Nodes,
    text: &mut TextBuffer,
    cells: &mut [u16],
    order: &mut [u32],
    place: Place,
    r: u16,
    k: u16,
) -> Place
    requires { NameReady ByAppearance nodes.now cells.old order.old place.count (r, k) }
    ensures { WritesName ByAppearance nodes.now text.old text.new place.end cells.old cells.new order.old order.new place.count (r, k) result }
{
    let n = number(nodes, cells, order, place.count, r, k);
    let end = put_lettered(text, place.end, b'v', n);
    Place {
        end,
        count: count_after(place.count, n),
    }
}

// Row r, a variable, at index k.
pub fn put_name(
    nodes: &Nodes,
    text: &mut TextBuffer,
    naming: Naming,
    cells: &mut [u16],
    order: &mut [u32],
    place: Place,
    r: u16,
    k: u16,
) -> Place
    requires { NameReady naming nodes.now cells.old order.old place.count (r, k) }
    ensures { WritesName naming nodes.now text.old text.new place.end cells.old cells.new order.old order.new place.count (r, k) result }
{
    match naming {
        Naming::ByIndex => Place {
            end: put_variable(text, place.end, part_of(nodes, r, 0), k),
            count: place.count,
        },
        Naming::ByAppearance => put_number(nodes, text, cells, order, place, r, k),
    }
}
