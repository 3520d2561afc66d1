// How large a resolvent is, by the cells of its parents, before it is made: its literals and its maximum index, with document 01's limits. `Size` in
// specs/ has the contract.
#![tactic(auto)]

ghost use Rattle.std.specs.Prelude.{◌≡◌};
ghost use Rattle.resolvent_size.specs.Size.{Sizeable, size_of};

use clauses::{index_cell, literals_cell};

// A size within the limits: the number of literals and the maximum index.
#[derive(Clone, Copy)]
pub struct Size {
    pub literals: u16,
    pub maximum: u16,
}

// The size of a resolvent of clauses left and right, without one literal of the left one and n of the right one, if it is within the limits.
pub fn resolvent_size(clauses: &[u16], left: u16, right: u16, n: u16) -> Option<Size>
    requires { Sizeable clauses.now left right n }
    ensures { result ≡ size_of clauses.now left right n }
{
    let literals = literals_cell(clauses, left) + literals_cell(clauses, right) - 1 - n;
    if 128 < literals {
        return None;
    }
    let maximum = index_cell(clauses, left) + index_cell(clauses, right);
    if 4096 < maximum {
        return None;
    }
    Some(Size { literals, maximum })
}
