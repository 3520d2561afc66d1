// The numbers that a record names, tested against a limit or the table of symbols. `Fields` in specs/ has the contracts; what the tests are stands in
// `Refusal` of the crate verdict.
#![tactic(auto)]

ghost use Rattle.std.specs.Prelude.{◌≡◌, map};
ghost use Rattle.record.specs.Answered.{answered};
ghost use Rattle.record.specs.Record.{in_form, decoded};
ghost use Rattle.derivation.specs.Derivation.{input_literals};
ghost use Rattle.verdict.specs.Refusal.{argument_rows, all_below};
ghost use Rattle.fields.specs.Fields.{arity_in};

use record::{Form, count, record_part};
use record_fields::fields;
use tables::cell;

// Whether every argument row of an application is below the limit.
pub fn arguments_below(part: &[u8], limit: u16) -> bool
    ensures { result ≡ all_below limit (argument_rows (decoded part.now)) }
{
    fields(part)
        .iter()
        .skip(1)
        .take(usize::from(count(part)))
        .all(|row| *row < limit)
}

// Whether the row of every literal of an input clause is below the limit.
pub fn literal_rows_below(part: &[u8], limit: u16) -> bool
    ensures { result ≡ all_below limit (map (λ l. l.1) (input_literals (decoded part.now))) }
{
    fields(part)
        .iter()
        .take(usize::from(count(part)))
        .all(|n| *n / 2 < limit)
}

// The arity of symbol s, off its record, if s is below the number of symbols.
pub fn arity_in(form: Form, file: &[u8], symbols: &[u16], n: u16, s: u16) -> Option<u8>
    ensures { result ≡ answered (arity_in (in_form form file.now) symbols.now n s) }
{
    if s < n {
        let k = cell(symbols, usize::from(s));
        let part = record_part(form, file, usize::from(k));
        Some(count(part))
    } else {
        None
    }
}
