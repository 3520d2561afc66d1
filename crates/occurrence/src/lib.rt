// The occurrence test: whether a variable occurs in what it would be bound to. Every expression taken up costs one unit of work.
// `Walks` in specs/ of the crate following has the contracts.
#![tactic(auto)]

ghost use Rattle.std.specs.Prelude.{◌≡◌, length};
ghost use Rattle.unification.specs.Row.{same};
ghost use Rattle.following.specs.Walks.{Followable, ArgumentsFollowable, Looked, LookedBefore, TestLeavesLess, TestLeavesNoMore, met_variable};

use following::failure::Failure;
use following::follow::{Followed, follow, is_same};
use following::nodes::{Nodes, arity_of, part_of};
use following::values::ValueCells;

// The test ends on an unbound variable: whether it is the variable v at index i.
fn occurs_here(r: u16, k: u16, v: u16, i: u16, left: u16) -> Result<u16, Failure>
    ensures { result ≡ met_variable (same (r, k) (v, i)) left }
{
    if is_same(r, k, v, i) {
        Err(Failure::VariableOccurs)
    } else {
        Ok(left)
    }
}

// Whether the variable v at index i occurs in t at index j, with so much work left. Of an application the arguments before the last are
// tested by calls, and the last one is taken up by the loop here, so that only nesting in arguments before the last takes calls and stack.
#[cycle(occurs_in_occurs_in_arguments)]
pub fn occurs_in(
    nodes: &Nodes,
    values: &mut ValueCells,
    v: u16,
    i: u16,
    t: u16,
    j: u16,
    work: u16,
) -> Result<u16, Failure>
    requires { Followable nodes.now values.old (t, j) }
    ensures { Looked nodes.now values.old values.new (v, i) (t, j) work result × TestLeavesLess work result × (length values.new ≡ 524416) }
{
    let mut row = t;
    let mut index = j;
    let mut left = work;
    while left > 0 {
        left -= 1;
        match follow(nodes, values, row, index) {
            Followed::Variable(r, k) => return occurs_here(r, k, v, i, left),
            Followed::Application(r, k) => {
                let last = arity_of(nodes, r);
                if last == 0 {
                    return Ok(left);
                }
                left = occurs_in_arguments(nodes, values, v, i, r, k, last, left)?;
                row = part_of(nodes, r, last);
                index = k;
            }
        }
    }
    Err(Failure::WorkSpent)
}

// The same of the arguments of an application, in order, but for the last one, which the test that called takes up by its loop.
#[cycle(occurs_in_occurs_in_arguments)]
fn occurs_in_arguments(
    nodes: &Nodes,
    values: &mut ValueCells,
    v: u16,
    i: u16,
    r: u16,
    k: u16,
    last: u16,
    work: u16,
) -> Result<u16, Failure>
    requires { ArgumentsFollowable nodes.now values.old r k last }
    ensures { LookedBefore nodes.now values.old values.new (v, i) r k work result × TestLeavesNoMore work result × (length values.new ≡ 524416) }
{
    let mut left = work;
    for n in 1..last {
        let a = part_of(nodes, r, n);
        left = occurs_in(nodes, values, v, i, a, k, left)?;
    }
    Ok(left)
}
