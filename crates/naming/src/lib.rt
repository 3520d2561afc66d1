// What a field of a record names: a symbol, a row, a literal's row or a clause. In specs/, `Naming` says it for each kind of record.
#![tactic(auto)]

pub mod recorded;

ghost use Rattle.std.specs.Prelude.{◌≡◌};
ghost use Rattle.record.specs.Record.{count_of, decoded};
ghost use Rattle.verdict.specs.Refusal.{kind_of_record};
ghost use Rattle.naming.specs.Naming.{named_in};

use record::{count, kind};

#[derive(Clone, Copy, PartialEq, Eq)]
pub enum Named {
    Nothing,
    Symbol,
    Row,
    Literal,
    Clause,
}

// Field i of a record: an application's function and its arguments, an input clause's literals, a resolve's parents, and the clause of a factor or a window.
pub fn named_in(part: &[u8], i: u8) -> Named
    ensures { result ≡ named_in (kind_of_record (decoded part.now)) (count_of part.now) i }
{
    match (kind(part), i) {
        (3, 0) => Named::Symbol,
        (3, _) if i <= count(part) => Named::Row,
        (4, _) if i < count(part) => Named::Literal,
        (5 | 7, 0 | 2) | (6 | 8, 0) => Named::Clause,
        _ => Named::Nothing,
    }
}
