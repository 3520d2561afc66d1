// Following an expression to what it stands for, over the array of values. On the way each link that is passed is set to skip
// the next one, so that long chains get shorter every time they are used.
ghost use Rattle.std.specs.Prelude.{◌≡◌, ◌<◌, length};
ghost use Rattle.unification.specs.Row.{same};
ghost use Rattle.following.specs.Walks.{Followable, Follows, halved};

use super::nodes::{Nodes, is_variable};
use super::values::{ValueCells, slot_of, write_cells};
use tables::cell;

// Where following ends: an unbound variable or an application, its row and index.
#[derive(Clone, Copy)]
pub enum Followed {
    Variable(u16, u16),
    Application(u16, u16),
}

// The cells at `at` hold row t at index k. If that is a bound variable, they are set to what its own cells hold.
fn halve(nodes: &Nodes, values: &mut ValueCells, at: usize, t: u16, k: u16)
    requires { at < 8519680 }
    ensures { values.new ≡ halved nodes.now values.old at t k }
{
    if is_variable(nodes, t) {
        let next = slot_of(nodes, t, k);
        let q = cell(values, next);
        let j = cell(values, next + 1);
        if q != 0 {
            write_cells(values, at, q, j);
        }
    }
}

// What the row at the index leads to. No chain has more than 8,192 links, so the count of links never runs out.
pub fn follow(nodes: &Nodes, values: &mut ValueCells, row: u16, index: u16) -> Followed
    requires { Followable nodes.now values.old (row, index) }
    ensures { Follows nodes.now values.old values.new (row, index) result × (length values.new ≡ 524416) }
{
    let mut v = row;
    let mut j = index;
    let mut links: u16 = 8193;
    while links > 0 {
        if !is_variable(nodes, v) {
            return Followed::Application(v, j);
        }
        let at = slot_of(nodes, v, j);
        let r = cell(values, at);
        if r == 0 {
            return Followed::Variable(v, j);
        }
        let k = cell(values, at + 1);
        halve(nodes, values, at, r - 1, k);
        v = r - 1;
        j = k;
        links -= 1;
    }
    Followed::Variable(v, j)
}

// Whether two expressions are the same row at the same index.
pub fn is_same(v: u16, i: u16, t: u16, j: u16) -> bool
    ensures { result ≡ same (v, i) (t, j) }
{
    (v, i) == (t, j)
}
