// What unification of expressions under bindings takes, over a table of rows and an array of values: its answers, and the table of bindings. What
// unification is stands in the crate unification; `Unifying` in specs/ has what this program promises of it, and `Pairs` the contracts of the walks over
// pairs. What is to be done with two sides that were followed is in the crate unify_meet, a variable bound in unify_bind, the walks in unify_pairs,
// and what a step calls in unify_atoms.
#![tactic(auto)]

pub mod bindings;

// What unification leaves where it succeeds: the work that is left, and the number of bindings held.
#[derive(Clone, Copy)]
pub struct Unified {
    pub work: u16,
    pub held: u16,
}

// What is to be done with two followed sides: a variable is bound to the other side, first row and index the variable's; nothing; the
// symbols clash; or the arguments of two applications, of which there are some, are unified, the rows with their indices.
#[derive(Clone, Copy)]
pub enum Meeting {
    Bind(u16, u16, u16, u16),
    Nothing,
    Clash,
    Arguments(u16, u16, u16, u16),
}
