// A literal of a clause by its number: what is found, and the numbers past literals that a step takes away. `Named` in specs/ has the contracts, also those
// of the walk to the input clause that a literal comes from, in the crate literal_walk; what a clause is stands in the crate derivation.
#![tactic(auto)]

ghost use Rattle.std.specs.Prelude.{◌≡◌, List, ℕ, ◌<◌};
ghost use Rattle.named_literals.specs.Named.{left_over, passed, passed_all, NamesRights, PassesRights};

use clauses::origin_code;
use following::nodes::{Origins, part_of};

// A literal that a clause has: whether it is positive, and its atom's row and index.
#[derive(Clone, Copy)]
pub struct NamedLiteral {
    pub positive: bool,
    pub row: u16,
    pub index: u16,
}

// How many of so many literals are left without number a.
pub fn left_over(count: u16, a: u16) -> u16
    ensures { result ≡ left_over count a }
{
    if a == 0 {
        return count;
    }
    if a <= count { count - 1 } else { count }
}

// The number that the n-th of the literals without number a has among all of them.
pub fn passed_over(n: u16, a: u16) -> u16
    requires { passed n a < 65536 }
    ensures { result ≡ passed n a }
{
    if a == 0 {
        return n;
    }
    if n < a { n } else { n + 1 }
}

// The number that the n-th of the right parent's literals left has among all of them: past each literal that the resolve names. Most name one.
pub fn passed_rights(origins: &Origins, c: u16, n: u16) -> u16
    requires { PassesRights origins.now c n }
    ensures { (ns : List ℕ) → NamesRights origins.now c ns → result ≡ passed_all n ns }
{
    let first = passed_over(n, part_of(origins, c, 3));
    if origin_code(origins, c) == 3 {
        return first;
    }
    let second = passed_over(first, part_of(origins, c, 4));
    let third = passed_over(second, part_of(origins, c, 5));
    passed_over(third, part_of(origins, c, 6))
}
