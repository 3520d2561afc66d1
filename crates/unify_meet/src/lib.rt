// Two sides that were followed: what is to be done with them. `Pairs` in specs/ of the crate unify has the contracts.
#![tactic(auto)]

ghost use Rattle.following.specs.declared.follow.Followed.TheVariants.{Application};
ghost use Rattle.unify.specs.Pairs.{Meets};

use following::follow::{Followed, is_same};
use following::nodes::{Nodes, arity_of, part_of};
use unify::Meeting;

// Two applications: nothing is to be done for the same row and index, or for one symbol without arguments.
fn meet_applications(nodes: &Nodes, f: u16, a: u16, g: u16, b: u16) -> Meeting
    ensures { Meets nodes.now (Application f a) (Application g b) result }
{
    if is_same(f, a, g, b) {
        return Meeting::Nothing;
    }
    if part_of(nodes, f, 0) != part_of(nodes, g, 0) {
        return Meeting::Clash;
    }
    if arity_of(nodes, f) == 0 {
        return Meeting::Nothing;
    }
    Meeting::Arguments(f, a, g, b)
}

// The case of two followed sides. An unbound variable on the left comes before one on the right.
pub fn meet(nodes: &Nodes, x: Followed, y: Followed) -> Meeting
    ensures { Meets nodes.now x y result }
{
    match x {
        Followed::Variable(v, a) => match y {
            Followed::Variable(t, b) => {
                if is_same(v, a, t, b) {
                    Meeting::Nothing
                } else {
                    Meeting::Bind(v, a, t, b)
                }
            }
            Followed::Application(g, b) => Meeting::Bind(v, a, g, b),
        },
        Followed::Application(f, a) => match y {
            Followed::Variable(t, b) => Meeting::Bind(t, b, f, a),
            Followed::Application(g, b) => meet_applications(nodes, f, a, g, b),
        },
    }
}
