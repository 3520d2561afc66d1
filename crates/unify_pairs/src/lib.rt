// The unification of two expressions, pair by pair. Every pair taken up costs one unit of work. `Pairs` in specs/ of the crate unify has the
// contracts. The pair walk calls the argument walk and that calls the pair walk; the work left falls around the cycle.
#![tactic(auto)]

ghost use Rattle.std.specs.Prelude.{◌≡◌, length};
ghost use Rattle.unify.specs.Pairs.{PairReady, ArgumentsReady, Paired, ArguedBefore, Filed, LessWorkLeft, NoMoreWorkLeft};

use following::failure::Failure;
use following::follow::follow;
use following::nodes::{Nodes, arity_of, part_of};
use following::values::ValueCells;
use unify::{Meeting, Unified};
use unify_bind::bind;
use unify_meet::meet;

// The pair walk: unifies l at index i with r at index j. Both sides are followed and meet. Of two applications the argument walk unifies
// the arguments before the last, and the last ones are taken up by the loop here, so that only nesting in arguments before the last takes
// calls and stack. They are read before those calls, which so keep less.
#[cycle(unify_arguments_unify_pair)]
pub fn unify_pair(
    nodes: &Nodes,
    values: &mut ValueCells,
    bindings: &mut [u16],
    mut held: u16,
    mut l: u16,
    mut i: u16,
    mut r: u16,
    mut j: u16,
    mut work: u16,
) -> Result<Unified, Failure>
    requires { PairReady nodes.now values.old bindings.old held (l, i) (r, j) }
    ensures paired { Paired nodes.now values.old values.new bindings.old bindings.new held (l, i) (r, j) work result }
    ensures filed { Filed bindings.old bindings.new held result × LessWorkLeft work result × (length values.new ≡ 524416) }
{
    while work > 0 {
        work -= 1;
        let x = follow(nodes, values, l, i);
        let y = follow(nodes, values, r, j);
        match meet(nodes, x, y) {
            Meeting::Bind(v, a, t, b) => {
                return bind(nodes, values, bindings, held, v, a, t, b, work);
            }
            Meeting::Nothing => return Ok(Unified { work, held }),
            Meeting::Clash => return Err(Failure::SymbolsDiffer),
            Meeting::Arguments(f, a, g, b) => {
                let last = arity_of(nodes, f);
                l = part_of(nodes, f, last);
                i = a;
                r = part_of(nodes, g, last);
                j = b;
                let left = unify_arguments(nodes, values, bindings, held, f, a, g, b, last, work)?;
                work = left.work;
                held = left.held;
            }
        }
    }
    Err(Failure::WorkSpent)
}

// The argument walk: the arguments of two applications of one symbol, in order, but for the last ones, which the pair walk that called
// takes up by its loop.
#[cycle(unify_arguments_unify_pair)]
fn unify_arguments(
    nodes: &Nodes,
    values: &mut ValueCells,
    bindings: &mut [u16],
    held: u16,
    f: u16,
    a: u16,
    g: u16,
    b: u16,
    last: u16,
    work: u16,
) -> Result<Unified, Failure>
    requires { ArgumentsReady nodes.now values.old bindings.old held f a g b last }
    ensures argued_before { ArguedBefore nodes.now values.old values.new bindings.old bindings.new held f a g b work result }
    ensures filed { Filed bindings.old bindings.new held result × NoMoreWorkLeft work result × (length values.new ≡ 524416) }
{
    let mut left = Unified { work, held };
    for n in 1..last {
        let c = part_of(nodes, f, n);
        let d = part_of(nodes, g, n);
        left = unify_pair(nodes, values, bindings, left.held, c, a, d, b, left.work)?;
    }
    Ok(left)
}
