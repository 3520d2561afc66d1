// Reason 4 for records of kind 1 to 4: whether byte 1 and the fields of a record are in their ranges. What the ranges are stands in `Refusal` of the crate
// verdict.
#![tactic(auto)]

ghost use Rattle.std.specs.Prelude.{◌≡◌, drop};
ghost use Rattle.record.specs.Record.{decoded, fields_of, symbolKind, variableKind, applicationKind, inputKind};
ghost use Rattle.verdict.specs.Refusal.{zeros, in_range};

use record::{count, field};

// Whether the fields from number `from` on are all zero.
pub fn zeros_from(part: &[u8], from: u8) -> bool
    ensures { result ≡ zeros (drop from (fields_of part.now)) }
{
    // Each field is read where it is asked for: seven at once, with a chain over them, make a file of symbols half as dear again.
    for i in from..7 {
        if field(part, i) != 0 {
            return false;
        }
    }
    true
}

// A symbol has an arity of at most 6 and no fields.
pub fn symbol_in_range(part: &[u8]) -> bool
    ensures { result ≡ in_range symbolKind (decoded part.now) }
{
    count(part) <= 6 && zeros_from(part, 0)
}

// A variable has a number of at most 63 and nothing else.
pub fn variable_in_range(part: &[u8]) -> bool
    ensures { result ≡ in_range variableKind (decoded part.now) }
{
    count(part) == 0 && field(part, 0) <= 63 && zeros_from(part, 1)
}

// An application has at most 6 arguments, after its symbol.
pub fn application_in_range(part: &[u8]) -> bool
    ensures { result ≡ in_range applicationKind (decoded part.now) }
{
    let n = count(part);
    n <= 6 && zeros_from(part, 1 + n)
}

// An input clause has at most 7 literals.
pub fn input_in_range(part: &[u8]) -> bool
    ensures { result ≡ in_range inputKind (decoded part.now) }
{
    let n = count(part);
    n <= 7 && zeros_from(part, n)
}
