// A new file in the old form: how many records it has there, and those records written. In specs/, `OldFile` has the contracts; what the old form of a file
// is, the crate converting has.
#![tactic(auto)]

pub mod record_writing;

ghost use Rattle.std.specs.Prelude.{◌≡◌, length};
ghost use Rattle.record.specs.Record.{decoded_in, new_file, records};
ghost use Rattle.record.specs.Sorts.{one};
ghost use Rattle.record.specs.declared.Form.TheVariants.{New};
ghost use Rattle.converting.specs.Converting.{is_dated, to_old_records};

use record::{Form, field, kind, record_count, record_part};

// Whether a record of the new form is an input clause that is not always in force.
pub fn is_dated(part: &[u8]) -> bool
    ensures { result ≡ is_dated (decoded_in New part.now) }
{
    kind(part) == 4 && (field(part, 7) != 0 || field(part, 8) != 65535)
}

// 1 for such a clause, and 0 for every other record.
fn dated(part: &[u8]) -> usize
    ensures { result ≡ one (is_dated (decoded_in New part.now)) }
{
    is_dated(part) as usize
}

// How many records the file has in the old form: all, and one more for each clause that is not always in force.
pub fn old_count(file: &[u8]) -> usize
    ensures { result ≡ length (to_old_records (records (new_file file.now))) }
{
    let count = record_count(Form::New, file);
    let mut n: usize = count;
    for k in 0..count {
        n += dated(record_part(Form::New, file, k));
    }
    n
}
