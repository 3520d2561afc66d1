// A literal of a clause, found by walking from the clause to the input clause that it comes from. `Named` in specs/ of the crate named_literals has the
// contracts.
#![tactic(auto)]

ghost use Rattle.std.specs.Prelude.{◌≡◌, List, ℕ};
ghost use Rattle.derivation.specs.Derivation.{Derivation, literals, numbered};
ghost use Rattle.derivation.specs.Stored.{Stored, origin_code};
ghost use Rattle.named_literals.specs.Named.{named_literal, StoredClause, StoredLiteral, ComesUp, ComesFromInput};

use clauses::{index_cell, literals_cell, origin_code};
use following::nodes::{Origins, part_of};
use named_literals::{NamedLiteral, left_over, passed_over, passed_rights};

// Where a literal comes from: a clause, the literal's number there, and what is added to its index.
#[derive(Clone, Copy)]
struct Place {
    clause: u16,
    number: u16,
    added: u16,
}

// The parent that literal n of a resolvent or a factor comes from.
fn parent_place(origins: &Origins, clauses: &[u16], c: u16, n: u16) -> Place
    requires stored_literal { StoredLiteral origins.now clauses.now c n }
    requires fact { origin_code origins.now c ≡ 1 → ⊥ }
    ensures { ComesUp origins.now clauses.now c n result.clause result.number result.added }
{
    let left = part_of(origins, c, 0);
    let right = part_of(origins, c, 2);
    if origin_code(origins, c) == 2 {
        return Place {
            clause: left,
            number: passed_over(n, right),
            added: 0,
        };
    }
    let a = part_of(origins, c, 1);
    let kept = left_over(literals_cell(clauses, left), a);
    if n <= kept {
        return Place {
            clause: left,
            number: passed_over(n, a),
            added: 0,
        };
    }
    let raised = index_cell(clauses, left);
    Place {
        clause: right,
        number: passed_rights(origins, c, n - kept),
        added: raised,
    }
}

// The input clause that literal n of clause c comes from.
fn input_place(origins: &Origins, clauses: &[u16], c: u16, n: u16) -> Place
    requires { StoredLiteral origins.now clauses.now c n }
    ensures { ComesFromInput origins.now clauses.now c n result.clause result.number result.added }
{
    let mut place = Place {
        clause: c,
        number: n,
        added: 0,
    };
    // A `while`, since no index is counted: each turn goes up from a clause to one of its parents.
    while origin_code(origins, place.clause) != 1 {
        let up = parent_place(origins, clauses, place.clause, place.number);
        place = Place {
            added: place.added + up.added,
            ..up
        };
    }
    place
}

// Literal n of clause c, from 1.
pub fn literal(origins: &Origins, clauses: &[u16], c: u16, n: u16) -> Option<NamedLiteral>
    requires { StoredClause origins.now clauses.now c }
    ensures { (B : List ℕ) (d : Derivation) → Stored origins.now clauses.now B c d → result ≡ named_literal (numbered (literals d) n) }
{
    if n == 0 {
        return None;
    }
    if literals_cell(clauses, c) < n {
        return None;
    }
    let place = input_place(origins, clauses, c, n);
    let x = part_of(origins, place.clause, place.number - 1);
    Some(NamedLiteral {
        positive: x % 2 == 1,
        row: x / 2,
        index: place.added + 1,
    })
}
