// What resolve and factor have in common: the atoms that a step names, and in specs/ what its parts promise. The end of a step is in the crate
// step_end, the right literals of a resolve in rights; the steps themselves are in the crates resolution and factoring.
#![tactic(auto)]

ghost use Rattle.std.specs.Prelude.{◌≡◌};
ghost use Rattle.verdict.specs.Refusal.{literal_named};
ghost use Rattle.inference.specs.Stepping.{ClausesStored, named_answer, pair_answer};

use following::nodes::Origins;
use literal_walk::literal;
use named_literals::NamedLiteral;

// An atom of a clause: the clause's number, and the atom's row and index.
#[derive(Clone, Copy)]
pub struct Atom {
    pub clause: u16,
    pub row: u16,
    pub index: u16,
}

// The literal that a step names, if the clause and the literal exist.
pub fn named_literal(
    origins: &Origins,
    clauses: &[u16],
    count: u16,
    c: u16,
    n: u16,
) -> Option<NamedLiteral>
    requires { ClausesStored origins.now clauses.now count }
    ensures { (R : ClausesStored origins.now clauses.now count) → result ≡ named_answer (literal_named R.state c n) }
{
    if c < count {
        literal(origins, clauses, c, n)
    } else {
        None
    }
}

// Literal b of clause a and literal d of clause c, if both exist. Not by `?`: document 01 names this form ("Matching forms to places").
pub fn named_pair(
    origins: &Origins,
    clauses: &[u16],
    count: u16,
    a: u16,
    b: u16,
    c: u16,
    d: u16,
) -> Option<(NamedLiteral, NamedLiteral)>
    requires { ClausesStored origins.now clauses.now count }
    ensures { (R : ClausesStored origins.now clauses.now count) → result ≡ pair_answer (literal_named R.state a b) (literal_named R.state c d) }
{
    let left = named_literal(origins, clauses, count, a, b);
    let right = named_literal(origins, clauses, count, c, d);
    let Some(left) = left else {
        return None;
    };
    let Some(right) = right else {
        return None;
    };
    Some((left, right))
}
