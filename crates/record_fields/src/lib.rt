// The seven fields of a record at once, and an input clause's literals read out as seven numbers. `Reader` in specs/ has what is read out.
#![tactic(auto)]

ghost use Rattle.std.specs.Prelude.{◌≡◌};
ghost use Rattle.record.specs.Record.{in_form, fields_of};
ghost use Rattle.record_fields.specs.Reader.{clause_literals};

use record::{Form, count, field, kind, record_part};

// An input clause as it is read out: byte 1, which is how many literals it has, and fields a to g as the file has them.
#[derive(Clone, Copy)]
pub struct ClauseLiterals {
    pub count: u8,
    pub numbers: [u16; 7],
}

// The seven fields of a record.
pub fn fields(part: &[u8]) -> [u16; 7]
    ensures { result ≡ fields_of part.now }
{
    std::array::from_fn(|i| field(part, i as u8))
}

// The literals of an input clause; zeros for a record of another kind, and for one that is not wholly inside.
#[tactic(auto, unfolding(crate::specs::Reader::clause_literals))]
pub fn clause_literals(form: Form, file: &[u8], k: usize) -> ClauseLiterals
    ensures { result ≡ clause_literals (in_form form file.now) k }
{
    let part = record_part(form, file, k);
    if kind(part) == 4 {
        ClauseLiterals {
            count: count(part),
            numbers: fields(part),
        }
    } else {
        ClauseLiterals {
            count: 0,
            numbers: [0; 7],
        }
    }
}
